// A bond's state, its weight class, and whether it is active.
#![tactic(auto)]

ghost use Rattle.std.specs.Prelude.{◌≡◌, ◌*◌, ◌<◌, true, false, not, length, T, IfOk, IfErr, position};
ghost use Rattle.std.specs.Float.Ieee.{eq};
ghost use Rattle.domain.specs.Numbers.{is_spin, zero_f};
ghost use Rattle.domain.specs.Refusals.{need_each};
ghost use Rattle.domain.specs.declared.Refusal.TheVariants.{Coupling};
ghost use Rattle.bonds.specs.Bond.{bond_of};
ghost use Rattle.bonds.specs.Classes.{lookup, rising, classes_ok, bad_coupling};
ghost use Rattle.bonds.specs.Activation.{threshold_of, activation_of};
ghost use Rattle.bonds.specs.Visit.{all_spins, visit_of};

use domain::Refusal;
use generator::Xoshiro256StarStar;

// An enum of its own, and no Option, as the rules name it (docs/DECISIONS.md, "Named forms"); `bond_of` speaks of its cases.
#[derive(Clone, Copy, Debug, PartialEq)]
pub enum BondState {
    Idle,
    Pull(f32),
}

// The interaction is the product of the two spins and the coupling; a bond pulls where it is above zero.
fn bond_state(a: i8, b: i8, coupling: f32) -> BondState
    requires a_is_spin { T (is_spin a) }
    requires b_is_spin { T (is_spin b) }
    ensures { result ≡ bond_of a b coupling }
{
    let interaction = ((a * b) as f32) * coupling;
    if interaction > 0.0 {
        BondState::Pull(interaction)
    } else {
        BondState::Idle
    }
}

// A weight class: one weight together with its threshold.
#[derive(Clone, Copy, Debug, PartialEq)]
pub struct Class {
    pub weight: f32,
    pub threshold: u64,
}

fn weights_ok(weights: &[f32]) -> bool
    ensures { result ≡ rising zero_f weights.now }
{
    let mut last = 0.0;
    for &next in weights {
        if !(last < next && next.is_finite()) {
            return false;
        }
        last = next;
    }
    true
}

// Refusal 4.
pub fn classes_ok(weights: &[f32], thresholds: &[u64]) -> bool
    ensures { result ≡ classes_ok weights.now thresholds.now }
{
    weights.len() == thresholds.len()
        && weights.len() <= 64
        && weights_ok(weights)
        && domain::thresholds_ok(thresholds)
}

// Where a weight stands.
fn place_of(weights: &[f32], weight: f32) -> Option<usize>
    ensures { result ≡ position (λ w. eq w weight) weights.now }
{
    weights.iter().position(|w| *w == weight)
}

// A table of weight classes: the weights, and the threshold of each at the same place, side by side as they are lent.
#[derive(Clone, Copy)]
pub struct Classes<'a> {
    pub weights: &'a [f32],
    pub thresholds: &'a [u64],
    pub ghost same_length: { length weights.now ≡ length thresholds.now },
}

impl<'a> Classes<'a> {
    // The table of two rows, unless they are refused.
    pub fn new(weights: &'a [f32], thresholds: &'a [u64]) -> Result<Classes<'a>, Refusal>
        ensures accepted { IfOk result (λ c. (classes_ok weights.now thresholds.now ≡ true) × (c.weights.now ≡ weights.now) × (c.thresholds.now ≡ thresholds.now)) }
        ensures refused { IfErr result (λ r. (classes_ok weights.now thresholds.now ≡ false) × (r ≡ Refusal.Classes)) }
    {
        if classes_ok(weights, thresholds) {
            Ok(Classes {
                weights,
                thresholds,
            })
        } else {
            Err(Refusal::Classes)
        }
    }

    // The class of a weight.
    fn find(self, weight: f32) -> Option<Class>
        ensures { result ≡ lookup weight self.entry.weights.now self.entry.thresholds.now }
    {
        let i = place_of(self.weights, weight)?;
        Some(Class {
            weight: self.weights[i],
            threshold: self.thresholds[i],
        })
    }

    // The threshold of a weight's class.
    fn threshold_of(self, weight: f32) -> u64
        ensures { result ≡ threshold_of (lookup weight self.entry.weights.now self.entry.thresholds.now) }
    {
        self.find(weight).map_or(0, |class| class.threshold)
    }

    // A coupling that is not finite, or nonzero with a magnitude in no class.
    fn is_bad(self, coupling: f32) -> bool
        ensures { result ≡ bad_coupling self.entry.weights.now self.entry.thresholds.now coupling }
    {
        !coupling.is_finite() || coupling != 0.0 && self.find(coupling.abs()).is_none()
    }
}

// Refusal 6: the first bad bond, by site and direction, in the loops that the rules name (docs/DECISIONS.md, "Named forms").
pub fn first_bad(
    couplings: &[f32],
    sites: usize,
    axes: usize,
    classes: Classes,
) -> Result<(), Refusal>
    requires { length couplings.now ≡ sites * axes }
    ensures { result ≡ need_each (λ j. not (bad_coupling classes.entry.weights.now classes.entry.thresholds.now j)) Coupling 0 couplings.now }
{
    'search: {
        for site in 0..sites {
            for d in 0..axes {
                let bond = site * axes + d;
                if classes.is_bad(couplings[bond]) {
                    break 'search Err(Refusal::Coupling(bond));
                }
            }
        }
        Ok(())
    }
}

// Whether a bond is active, with the generator after its draw, if it took one. `activation_of` speaks of its fields.
#[derive(Clone, Copy, Debug, PartialEq, Eq)]
pub struct Activation {
    pub active: bool,
    pub state: Xoshiro256StarStar,
}

fn activate(bond: BondState, classes: Classes, generator: Xoshiro256StarStar) -> Activation
    ensures { result ≡ activation_of bond classes.entry.weights.now classes.entry.thresholds.now generator }
{
    match bond {
        BondState::Idle => Activation {
            active: false,
            state: generator,
        },
        BondState::Pull(weight) => {
            let threshold = classes.threshold_of(weight);
            let (draw, state) = generator.draw();
            Activation {
                active: draw < threshold,
                state,
            }
        }
    }
}

// What a visit of a bond reads: the spins are all 1 or -1.
#[derive(Clone, Copy)]
pub struct Tile<'a> {
    pub spins: &'a [i8],
    pub couplings: &'a [f32],
    pub classes: Classes<'a>,
    pub ghost spins_are: { T (all_spins spins.now) },
}

impl Tile<'_> {
    // The bond from a site to the next, with the draw that it takes.
    pub fn visit(
        self,
        site: usize,
        next: usize,
        bond: usize,
        generator: Xoshiro256StarStar,
    ) -> Activation
        requires site_in_bounds { site < length self.spins.now }
        requires next_in_bounds { next < length self.spins.now }
        requires bond_in_bounds { bond < length self.couplings.now }
        ensures { result ≡ visit_of self.entry.spins.now self.entry.couplings.now self.entry.classes.weights.now self.entry.classes.thresholds.now site next bond generator }
    {
        let a = self.spins[site];
        let b = self.spins[next];
        let coupling = self.couplings[bond];
        let state = bond_state(a, b, coupling);
        activate(state, self.classes, generator)
    }
}
