// Fortuin-Kasteleyn clusters of a spin tile: one update or one observation.
#![tactic(auto)]

mod checks;
mod coins;
mod fk;
mod input;
mod links;
mod roots;
mod utils;
mod winding;

ghost use Rattle.domain.specs.Promise.{Promised};
ghost use Rattle.clusters.specs.Update.{left, outcome};
ghost use Rattle.clusters.specs.Inside.Whole.{call_by, lent_by};

use checks::Lens;
use domain::Refusal;
use generator::Xoshiro256StarStar;
use roots::Roots;

// What step 4 does: the promise of `fk_update` speaks of both cases.
#[derive(Clone, Copy)]
pub enum Action {
    Observe,
    Update,
}

// The four largest component sizes, descending.
#[derive(Clone, Copy, Default)]
pub struct Top {
    pub first: usize,
    pub second: usize,
    pub third: usize,
    pub fourth: usize,
}

// The winding flags, for axis 0 and axis 1, as `observation` has them.
#[derive(Clone, Copy)]
pub struct Flags {
    pub x: bool,
    pub y: bool,
}

// What a call has seen of the tile: `observation` speaks of each field.
#[derive(Clone, Copy)]
pub struct Observation {
    pub components: usize,
    pub active: usize,
    pub top: Top,
    pub large: usize,
    pub winding: Flags,
    pub torn: bool,
}

// What a call is given to read, besides the spins.
#[derive(Clone, Copy)]
pub struct Job<'a> {
    pub extents: &'a [usize],
    pub couplings: &'a [f32],
    pub weights: &'a [f32],
    pub thresholds: &'a [u64],
    pub generator: Xoshiro256StarStar,
    pub action: Action,
}

// What an accepted call answers with.
#[derive(Clone, Copy)]
pub struct Seen {
    pub generator: Xoshiro256StarStar,
    pub observation: Observation,
}

// One update or observation: the checks in order, then the call. Refused, nothing is written.
// Each lent slice is a parameter: two slices of one struct cannot be lent at once through a reference, and a slice two structs deep loses
// what it holds in the end, so that a caller would not learn it.
pub fn fk_update(
    job: Job<'_>,
    spins: &mut [i8],
    roots: &mut [u32],
    counts: &mut [u32],
    decisions: &mut [u8],
    histogram: &mut [u64],
    parents: &mut [u32],
    ranks: &mut [u8],
    offsets: &mut [i64],
    marks: &mut [u8],
) -> Result<Seen, Refusal>
    ensures { Promised (outcome (call_by job.entry.extents.now spins.old job.entry.couplings.now job.entry.weights.now job.entry.thresholds.now job.entry.generator job.entry.action)) (lent_by roots.old counts.old decisions.old histogram.old parents.old ranks.old offsets.old marks.old) (left result spins.new (lent_by roots.new counts.new decisions.new histogram.new parents.new ranks.new offsets.new marks.new)) }
{
    let lens = Lens {
        spins: spins.len(),
        couplings: job.couplings.len(),
        roots: roots.len(),
        counts: counts.len(),
        decisions: decisions.len(),
        histogram: histogram.len(),
        parents: parents.len(),
        ranks: ranks.len(),
        offsets: offsets.len(),
        marks: marks.len(),
    };
    let input = checks::judge(job, spins, histogram, lens)?;
    let pass = fk::draw(
        &input,
        roots,
        decisions,
        parents,
        ranks,
        offsets,
        job.generator,
    );
    let roots = Roots { row: roots };
    let observation = fk::tallies(roots, counts, histogram, &input.lattice, pass);
    fk::clean(parents, ranks, offsets, marks);
    let generator = fk::act(job.action, roots, decisions, spins, pass.state);
    Ok(Seen {
        generator,
        observation,
    })
}
