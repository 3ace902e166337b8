// The counts of a forest and what they say, and links as they begin.
ghost use Rattle.std.specs.Prelude.{◌≡◌, ◌<◌, ◌≤◌, ◌^◌, ℕ, ◌+◌, length, get_or};
ghost use Rattle.graph.specs.Forest.{up_from, filled};
ghost use Rattle.clusters.specs.Sizes.{raised, at_least, twentieth, descending, four_of};
ghost use Rattle.clusters.specs.Inside.Bare.{sizes_of, noted};
ghost use Rattle.clusters.specs.Inside.Placed.{Placed};

use crate::Top;
use crate::roots::Roots;

// Every link its own site.
pub(crate) fn own(parent: &mut [u32])
    requires { length parent.old ≤ 2 ^ 32 }
    ensures { parent.new ≡ up_from 0 (length parent.old) }
{
    for (i, p) in parent.iter_mut().enumerate() {
        *p = i as u32;
    }
}

// How many counts are t or more.
pub(crate) fn at_least(counts: &[u32], t: usize) -> usize
    ensures { result ≡ at_least t counts.now }
{
    counts.iter().filter(|c| t <= **c as usize).count()
}

// The size at each root, 0 elsewhere.
pub(crate) fn count_roots(roots: Roots, counts: &mut [u32])
    requires counts_len { length counts.old ≡ length roots.row.now }
    requires few { length roots.row.now < 2 ^ 32 }
    ensures { counts.new ≡ sizes_of roots.entry.row.now }
{
    counts.fill(0);
    for r in roots.row {
        counts[*r as usize] += 1;
    }
}

// How many components.
pub(crate) fn components_of(counts: &[u32]) -> usize
    ensures { result ≡ filled counts.now }
{
    at_least(counts, 1)
}

// How many components have a twentieth of the sites or more.
pub(crate) fn large_of(counts: &[u32]) -> usize
    requires { length counts.now < 2 ^ 32 }
    ensures { result ≡ at_least (twentieth (length counts.now)) counts.now }
{
    let n = counts.len();
    at_least(counts, (n + 19) / 20)
}

// One component more of size c; a size 0 is none.
fn note(hist: &mut [u64], c: u32)
    requires c_in_bounds { c < length hist.old }
    requires c_bound { get_or hist.old c 0 + 1 < 2 ^ 64 }
    ensures { hist.new ≡ noted hist.old c }
{
    if c != 0 {
        let at = c as usize;
        hist[at] += 1;
    }
}

// Each entry rises by the number of components of its size.
pub(crate) fn histogram(counts: &[u32], hist: &mut [u64])
    requires counts_len_bound { length counts.now < 2 ^ 32 }
    requires counts_in_bounds { (i : ℕ) → i < length counts.now → get_or counts.now i 0 < length hist.old }
    requires entries_low { (s : ℕ) → s < length hist.old → get_or hist.old s 0 ≤ 2 ^ 63 }
    ensures { hist.new ≡ raised 0 counts.now hist.old }
{
    for c in counts {
        note(hist, *c);
    }
}

// x takes its place among the four, and the least is dropped.
fn place(t: Top, x: usize) -> Top
    ensures { Placed t x result }
{
    if t.first <= x {
        return Top {
            first: x,
            second: t.first,
            third: t.second,
            fourth: t.third,
        };
    }
    if t.second <= x {
        return Top {
            second: x,
            third: t.second,
            fourth: t.third,
            ..t
        };
    }
    if t.third <= x {
        return Top {
            third: x,
            fourth: t.third,
            ..t
        };
    }
    if t.fourth <= x {
        return Top { fourth: x, ..t };
    }
    t
}

// The four largest counts, descending, padded with 0.
pub(crate) fn top_four(counts: &[u32]) -> Top
    ensures { result ≡ four_of (descending counts.now) }
{
    counts
        .iter()
        .rev()
        .fold(Top::default(), |t, c| place(t, *c as usize))
}
