// The checks of a call, in order: the first that fails is the verdict.
ghost use Rattle.std.specs.Prelude.{◌≡◌, ◌*◌, ◌≤◌, IfOk, length};
ghost use Rattle.domain.specs.Refusals.{checks};
ghost use Rattle.clusters.specs.Inside.Asked.{lens_ok, all_asked};
ghost use Rattle.clusters.specs.Inside.Read.{verdict_of, Reads};

use crate::Job;
use crate::input::Input;
use bonds::{Classes, Tile};
use domain::{Entries, Refusal, Spins};
use lattice::Lattice;

// The lengths of what is lent, one list as `lengths_ok` has it.
#[derive(Clone, Copy)]
pub(crate) struct Lens {
    pub(crate) spins: usize,
    pub(crate) couplings: usize,
    pub(crate) roots: usize,
    pub(crate) counts: usize,
    pub(crate) decisions: usize,
    pub(crate) histogram: usize,
    pub(crate) parents: usize,
    pub(crate) ranks: usize,
    pub(crate) offsets: usize,
    pub(crate) marks: usize,
}

impl Lens {
    // Refusal 2: n sites, b bonds.
    #[tactic(auto, unfolding(domain::specs::Refusals::every))]
    fn are_for(self, n: usize, b: usize) -> bool
        requires { n ≤ 16777216 }
        ensures { result ≡ lens_ok n b self }
    {
        self.spins == n
            && self.couplings == b
            && self.roots == n
            && self.counts == n
            && self.decisions == n
            && self.histogram == n + 1
            && self.parents == n
            && self.ranks == n
            && self.offsets == 2 * n
            && self.marks == 2 * n
    }
}

// All checks of a call, and what it reads where they pass.
pub(crate) fn judge<'a>(
    job: Job<'a>,
    spins: &'a [i8],
    histogram: &[u64],
    lens: Lens,
) -> Result<Input<'a>, Refusal>
    requires { (lens.spins ≡ length spins.now) × (lens.couplings ≡ length job.couplings.now) }
    ensures verdict { verdict_of result ≡ checks (all_asked job.entry.extents.now spins.now job.entry.couplings.now job.entry.weights.now job.entry.thresholds.now job.entry.generator histogram.now lens) }
    ensures reads { IfOk result (λ k. Reads k job.entry.extents.now spins.now job.entry.couplings.now job.entry.weights.now job.entry.thresholds.now) }
{
    let lattice = Lattice::new(job.extents)?;
    let sites = lattice.shape.sites;
    let axes = lattice.shape.axes;
    if !lens.are_for(sites, sites * axes) {
        return Err(Refusal::Length);
    }
    if job.generator.is_dead() {
        return Err(Refusal::Generator);
    }
    let classes = Classes::new(job.weights, job.thresholds)?;
    domain::judge_each::<Spins>(spins)?;
    bonds::first_bad(job.couplings, sites, axes, classes)?;
    domain::judge_each::<Entries>(histogram)?;
    let tile = Tile {
        spins,
        couplings: job.couplings,
        classes,
    };
    Ok(Input { tile, lattice })
}
