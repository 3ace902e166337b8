// Writes the first ten outputs from the state (1, 2, 3, 4), a line each.
#![tactic(auto)]

use generator::Xoshiro256StarStar;
use std::io;

fn main(rt: HostRuntime) -> io::Result<()> {
    let mut state = Xoshiro256StarStar {
        s0: 1,
        s1: 2,
        s2: 3,
        s3: 4,
    };
    for _ in 0..10 {
        let (value, next) = state.next();
        println!(rt; "{value}")?;
        state = next;
    }
    Ok(())
}
