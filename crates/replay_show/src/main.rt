// Writes a row of each kind, a line each, with the ends of each type's range.
#![tactic(auto)]

use domain::Refusal;
use generator::Xoshiro256StarStar;
use std::io;

fn rows(rt: &impl Print) -> io::Result<()> {
    rt.write_all(b"spins ")?;
    show::spins(rt, &[1, -1, 0, -128, 127])?;
    show::row(rt, &[0u8, 1, 255])?;
    show::row(rt, &[0u32, 4294967295])?;
    show::row(rt, &[0u64, 18446744073709551615])?;
    show::wides(rt, &[-9223372036854775808, 0, 9223372036854775807])
}

// A refusal in pieces: where a write fails in between, the pieces before it stand.
fn refusal(rt: &impl Print, reason: Refusal) -> io::Result<()> {
    rt.write_all(b"refused ")?;
    show::row(rt, &[reason.number(), reason.place() as u64])
}

fn answers(rt: &impl Print) -> io::Result<()> {
    let generator = Xoshiro256StarStar {
        s0: 1,
        s1: 2,
        s2: 3,
        s3: 4,
    };
    show::row(
        rt,
        &[generator.s0, generator.s1, generator.s2, generator.s3],
    )?;
    refusal(rt, Refusal::Length)?;
    refusal(rt, Refusal::Coupling(7))?;
    rt.print(3)?;
    show::signed(rt, -4)?;
    rt.write_all(b"\n")
}

fn main(rt: HostRuntime) -> io::Result<()> {
    rows(&rt)?;
    answers(&rt)
}
