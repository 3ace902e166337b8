// Why a call is refused, and the checks that every call makes alike.
#![tactic(auto)]

ghost use Rattle.std.specs.Prelude.{◌≡◌, ℕ, Bool, Some};
ghost use Rattle.std.specs.List.{list_all};
ghost use Rattle.domain.specs.declared.Refusal.{Refusal};
ghost use Rattle.domain.specs.declared.Refusal.TheVariants.{Spin, Histogram};
ghost use Rattle.domain.specs.Numbers.{is_spin, is_entry, thresholds_ok};
ghost use Rattle.domain.specs.Refusals.{need_each, number_of, place_of, text_of};

use std::error::Error;
use std::fmt;

// specs/Refusals.antt gives the number and the place of each case.
#[derive(Clone, Copy, Debug, PartialEq, Eq)]
pub enum Refusal {
    Shape,
    Length,
    Generator,
    Classes,
    Spin(usize),
    Coupling(usize),
    Histogram(usize),
    Row,
    UnitCoupling(usize),
    Malformed,
    Oversize,
}

impl Refusal {
    // The number that the case has in a reply: `number_of` of the rules.
    pub fn number(self) -> u64
        ensures { result ≡ number_of self }
    {
        match self {
            Refusal::Shape => 1,
            Refusal::Length => 2,
            Refusal::Generator => 3,
            Refusal::Classes => 4,
            Refusal::Spin(_) => 5,
            Refusal::Coupling(_) => 6,
            Refusal::Histogram(_) => 7,
            Refusal::Row => 8,
            Refusal::UnitCoupling(_) => 9,
            Refusal::Malformed => 10,
            Refusal::Oversize => 11,
        }
    }

    // The entry that is refused, and 0 where there is none: `place_of` of the rules.
    pub fn place(self) -> usize
        ensures { result ≡ place_of self }
    {
        match self {
            Refusal::Shape => 0,
            Refusal::Length => 0,
            Refusal::Generator => 0,
            Refusal::Classes => 0,
            Refusal::Spin(site) => site,
            Refusal::Coupling(bond) => bond,
            Refusal::Histogram(size) => size,
            Refusal::Row => 0,
            Refusal::UnitCoupling(bond) => bond,
            Refusal::Malformed => 0,
            Refusal::Oversize => 0,
        }
    }
}

impl fmt::Display for Refusal {
    ghost output = { λ r. Some (text_of r) };

    fn fmt<W: fmt::Write>(&self, f: &mut fmt::Formatter<W>) -> fmt::Result {
        write!(f, "refused {} {}", self.number(), self.place())
    }
}

impl Error for Refusal {}

// What each entry of a row must be, and the refusal of one that is not.
pub trait Judged {
    type Entry: Copy;

    ghost fits: { Self.Entry → Bool };

    ghost refusal: { ℕ → Refusal };

    fn fits(entry: Self::Entry) -> bool
        ensures { result ≡ fits entry };

    fn refusal(place: usize) -> Refusal
        ensures { result ≡ refusal place };
}

// The spins of a call: refusal 5.
pub struct Spins;

impl Judged for Spins {
    type Entry = i8;

    ghost fits = { is_spin };

    ghost refusal = { Spin };

    fn fits(entry: i8) -> bool {
        (entry == 1) | (entry == -1)
    }

    fn refusal(place: usize) -> Refusal {
        Refusal::Spin(place)
    }
}

// The histogram's entries, as the call begins: refusal 7.
pub struct Entries;

impl Judged for Entries {
    type Entry = u64;

    ghost fits = { is_entry };

    ghost refusal = { Histogram };

    fn fits(entry: u64) -> bool {
        entry <= 9223372036854775808
    }

    fn refusal(place: usize) -> Refusal {
        Refusal::Histogram(place)
    }
}

// No early exit, so that the machine takes many entries at once.
fn all_fit<J: Judged>(row: &[J::Entry]) -> bool
    ensures { result ≡ list_all J.fits row.now }
{
    let mut ok = true;
    for entry in row {
        ok &= J::fits(*entry);
    }
    ok
}

fn first_unfit<J: Judged>(row: &[J::Entry]) -> Result<(), Refusal>
    ensures { result ≡ need_each J.fits J.refusal 0 row.now }
{
    for (place, entry) in row.iter().enumerate() {
        if !J::fits(*entry) {
            return Err(J::refusal(place));
        }
    }
    Ok(())
}

// The first entry that does not fit. The search runs only where there is one.
pub fn judge_each<J: Judged>(row: &[J::Entry]) -> Result<(), Refusal>
    ensures { result ≡ need_each J.fits J.refusal 0 row.now }
{
    if all_fit::<J>(row) {
        Ok(())
    } else {
        first_unfit::<J>(row)
    }
}

// Whether each threshold is at most 2^62.
pub fn thresholds_ok(thresholds: &[u64]) -> bool
    ensures { result ≡ thresholds_ok thresholds.now }
{
    thresholds.iter().all(|t| *t <= 4611686018427387904)
}
