// Calls fk_update on worked examples, odd shapes and each refusal, and writes what each call answers and leaves.
#![tactic(auto)]

ghost use Rattle.std.specs.Prelude.{◌*◌, ◌≤◌, length};
ghost use Rattle.replay_update.specs.declared.TheConstants.{SITES};

use clusters::{Action, Job, Seen};
use generator::Xoshiro256StarStar;
use std::{array, io};

// The most sites of any shape here, 3x5: each buffer is a prefix of an array, so that nothing is allocated.
const SITES: usize = 15;

// The most bonds of any shape here, 2x2x3.
const BONDS: usize = 36;

const SEED: Xoshiro256StarStar = Xoshiro256StarStar {
    s0: 1,
    s1: 2,
    s2: 3,
    s3: 4,
};

const DEAD: Xoshiro256StarStar = Xoshiro256StarStar {
    s0: 0,
    s1: 0,
    s2: 0,
    s3: 0,
};

// How many sites the buffers are lent for, and what each entry of the histogram is on entry.
#[derive(Clone, Copy)]
struct Room {
    sites: usize,
    entry: u64,
    ghost fits: { sites ≤ SITES },
}

fn answer(rt: &impl Print, seen: Seen) -> io::Result<()> {
    let o = seen.observation;
    println!(rt; "generator {}", seen.generator)?;
    println!(rt; "components {} active {}", o.components, o.active)?;
    let t = o.top;
    println!(rt;
        "top {} {} {} {} large {}",
        t.first, t.second, t.third, t.fourth, o.large
    )?;
    println!(rt; "winding {} {} torn {}", o.winding.x, o.winding.y, o.torn)
}

// One call on buffers that hold sevens, and all that it leaves.
fn call(rt: &impl Print, name: &str, job: Job<'_>, spins: &mut [i8], room: Room) -> io::Result<()> {
    let n = room.sites;
    let roots = &mut [7u32; SITES][..n];
    let counts = &mut [7u32; SITES][..n];
    let decisions = &mut [7u8; SITES][..n];
    let histogram = &mut [room.entry; SITES + 1][..n + 1];
    let parents = &mut [7u32; SITES][..n];
    let ranks = &mut [7u8; SITES][..n];
    let offsets = &mut [7i64; 2 * SITES][..2 * n];
    let marks = &mut [7u8; 2 * SITES][..2 * n];
    println!(rt; "{name}")?;
    match clusters::fk_update(
        job, spins, roots, counts, decisions, histogram, parents, ranks, offsets, marks,
    ) {
        Ok(seen) => answer(rt, seen)?,
        Err(refusal) => println!(rt; "{refusal}")?,
    }
    show::spins(rt, spins)?;
    show::row(rt, roots)?;
    show::row(rt, counts)?;
    show::row(rt, decisions)?;
    show::row(rt, histogram)?;
    show::row(rt, parents)?;
    show::row(rt, ranks)?;
    show::row(rt, offsets)?;
    show::row(rt, marks)
}

fn coupling_at(bond: usize) -> f32 {
    match bond % 7 {
        1 => -1.0,
        2 => 2.0,
        3 => 0.0,
        4 => -2.0,
        _ => 1.0,
    }
}

fn spin_at(site: usize) -> i8 {
    if (site % 3 * 5 + 1) % 3 == 0 { -1 } else { 1 }
}

// A shape with spins and couplings by their places, and two classes.
fn patterned(
    rt: &impl Print,
    name: &str,
    extents: &[usize],
    sites: usize,
    action: Action,
) -> io::Result<()>
    requires sites { sites ≤ SITES }
    requires bonds { sites * length extents.now ≤ BONDS }
{
    let mut spins: [i8; SITES] = array::from_fn(spin_at);
    let couplings: [f32; BONDS] = array::from_fn(coupling_at);
    let job = Job {
        extents,
        couplings: &couplings[..sites * extents.len()],
        weights: &[1.0, 2.0],
        thresholds: &[2700000000000000000, 1500000000000000000],
        generator: SEED,
        action,
    };
    call(rt, name, job, &mut spins[..sites], Room { sites, entry: 5 })
}

fn shapes(rt: &impl Print) -> io::Result<()> {
    patterned(rt, "3x5", &[3, 5], 15, Action::Update)?;
    patterned(rt, "3x5 observed", &[3, 5], 15, Action::Observe)?;
    patterned(rt, "5x3", &[5, 3], 15, Action::Update)?;
    patterned(rt, "1x7", &[1, 7], 7, Action::Update)?;
    patterned(rt, "2x2x3", &[2, 2, 3], 12, Action::Update)?;
    patterned(rt, "1x1x1x1", &[1, 1, 1, 1], 1, Action::Update)
}

// A job with the generator (1, 2, 3, 4) and one class, of weight 1 and always active.
fn job<'a>(extents: &'a [usize], couplings: &'a [f32], action: Action) -> Job<'a> {
    Job {
        extents,
        couplings,
        weights: &[1.0],
        thresholds: &[4611686018427387904],
        generator: SEED,
        action,
    }
}

fn examples(rt: &impl Print) -> io::Result<()> {
    let pair = job(&[2], &[1.0, 1.0], Action::Update);
    let two = Room { sites: 2, entry: 5 };
    let w3 = Job {
        thresholds: &[2880],
        ..pair
    };
    let w4 = Job {
        thresholds: &[2881],
        ..pair
    };
    call(rt, "W3", w3, &mut [1, 1], two)?;
    call(rt, "W4", w4, &mut [1, 1], two)?;
    let one = Room { sites: 1, entry: 5 };
    let w5 = job(&[1, 1], &[1.0, 1.0], Action::Observe);
    call(rt, "W5", w5, &mut [1], one)?;
    let four = Room { sites: 4, entry: 5 };
    let w6 = job(
        &[2, 2],
        &[1.0, 0.0, 0.0, 0.0, 0.0, 0.0, 0.0, 0.0],
        Action::Observe,
    );
    call(rt, "W6", w6, &mut [1, 1, 1, 1], four)?;
    let w7 = Job {
        couplings: &[1.0, 0.0, 0.0, 0.0, 1.0, 0.0, 0.0, 0.0],
        ..w6
    };
    call(rt, "W7", w7, &mut [1, 1, 1, 1], four)?;
    call(rt, "W9", job(&[1], &[-1.0], Action::Update), &mut [1], one)?;
    let couplings = [1.0f32 / 0.0, 1.0];
    let w11 = job(&[2], &couplings, Action::Update);
    call(rt, "W11", w11, &mut [0, 1], two)
}

fn refusals(rt: &impl Print) -> io::Result<()> {
    let pair = job(&[2], &[1.0, 1.0], Action::Update);
    let two = Room { sites: 2, entry: 5 };
    let high = Room {
        sites: 2,
        entry: 9223372036854775809,
    };
    call(
        rt,
        "no axes",
        Job {
            extents: &[],
            ..pair
        },
        &mut [1, 1],
        two,
    )?;
    call(
        rt,
        "an extent of 0",
        Job {
            extents: &[0],
            ..pair
        },
        &mut [1, 1],
        two,
    )?;
    call(
        rt,
        "a length",
        pair,
        &mut [1, 1],
        Room { sites: 3, entry: 5 },
    )?;
    call(
        rt,
        "a dead generator",
        Job {
            generator: DEAD,
            ..pair
        },
        &mut [1, 1],
        two,
    )?;
    let repeated = Job {
        weights: &[1.0, 1.0],
        thresholds: &[1, 2],
        ..pair
    };
    call(rt, "a weight repeated", repeated, &mut [1, 1], two)?;
    let above = Job {
        thresholds: &[4611686018427387905],
        ..pair
    };
    call(rt, "a threshold above 2^62", above, &mut [1, 1], two)?;
    call(rt, "a spin of 3", pair, &mut [1, 3], two)?;
    let unclassed = Job {
        couplings: &[1.0, 3.0],
        ..pair
    };
    call(rt, "a coupling in no class", unclassed, &mut [1, 1], two)?;
    call(rt, "an entry above 2^63", pair, &mut [1, 1], high)?;
    let couplings = [1.0f32 / 0.0, 3.0];
    let wrong = Job {
        couplings: &couplings,
        generator: DEAD,
        ..above
    };
    call(rt, "everything wrong", wrong, &mut [1, 3], high)
}

fn main(rt: HostRuntime) -> io::Result<()> {
    examples(&rt)?;
    shapes(&rt)?;
    refusals(&rt)
}
