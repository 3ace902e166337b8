// Step 4 of an update: a coin for each component, by the first site met of it, and the spins of a component with heads negated.
ghost use Rattle.std.specs.Prelude.{◌≡◌, cond, ℕ, ◌<◌, T, length, get_or, set, pos, neg_ℤ};
ghost use Rattle.domain.specs.Numbers.{is_spin};
ghost use Rattle.bonds.specs.Visit.{all_spins};
ghost use Rattle.clusters.specs.Inside.Bare.{bare};
ghost use Rattle.clusters.specs.Update.{toss, ended};
ghost use Rattle.clusters.specs.declared.Action.TheVariants.{Update};
ghost use Rattle.clusters.specs.Inside.Turns.{coins_of, turned_at};

use crate::roots::Roots;
use generator::Xoshiro256StarStar;

// The coin of the component whose root is r, if it has none yet: 1 heads, 0 tails, 2 none, the bytes that `fk_update` promises.
fn toss(decisions: &mut [u8], r: usize, generator: Xoshiro256StarStar) -> Xoshiro256StarStar
    requires { r < length decisions.old }
    ensures { coins_of decisions.new result ≡ toss r (coins_of decisions.old generator) }
{
    if decisions[r] != 2 {
        return generator;
    }
    let (heads, state) = generator.coin();
    decisions[r] = u8::from(heads);
    state
}

// A spin, negated where the component whose root is r has heads.
fn turn(decisions: &[u8], r: usize, spin: &mut i8)
    requires r_in_bounds { r < length decisions.now }
    requires is_spin { T (is_spin spin.old) }
    ensures { spin.new ≡ turned_at decisions.now r spin.old }
{
    if decisions[r] == 1 {
        *spin = -*spin;
    }
}

// A coin for each component, and the spins of those with heads negated.
pub(crate) fn flip(
    roots: Roots,
    decisions: &mut [u8],
    spins: &mut [i8],
    generator: Xoshiro256StarStar,
) -> Xoshiro256StarStar
    requires decisions_len { length decisions.old ≡ length roots.row.now }
    requires roots_len { length roots.row.now ≡ length spins.old }
    requires spins_are { T (all_spins spins.old) }
    ensures { record { decisions = decisions.new; spins = spins.new; generator = result } ≡ ended Update (bare roots.entry.row.now) spins.old generator }
{
    // 2: no component has its coin yet
    decisions.fill(2);
    let mut state = generator;
    for (i, root) in roots.row.iter().enumerate() {
        let r = *root as usize;
        state = toss(decisions, r, state);
        turn(decisions, r, &mut spins[i]);
    }
    state
}
