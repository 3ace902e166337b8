// A shape that has passed its check, and its first site.
ghost use Rattle.std.specs.Prelude.{◌≡◌, true, false, IfOk, IfErr};
ghost use Rattle.lattice.specs.Lattice.{in_domain};
ghost use Rattle.lattice.specs.Shape.{shape_for, extents_of, rests_for, Good};

use crate::{Shape, Site, in_domain, shape_of};
use domain::Refusal;

// The shape of extents in the domain.
#[derive(Clone, Copy)]
pub struct Lattice {
    pub shape: Shape,
    pub ghost good: { Good shape },
}

impl Lattice {
    // Refusal 1: the extents are no shape of the domain.
    pub fn new(extents: &[usize]) -> Result<Lattice, Refusal>
        ensures made { IfOk result (λ l. (l.shape ≡ shape_for extents.now) × (in_domain extents.now ≡ true)) }
        ensures refused { IfErr result (λ r. (r ≡ Refusal.Shape) × (in_domain extents.now ≡ false)) }
    {
        if !in_domain(extents) {
            return Err(Refusal::Shape);
        }
        let shape = shape_of(extents);
        Ok(Lattice { shape })
    }

    // The first site: each of its rests is 0.
    pub fn first(&self) -> Site<'_>
        ensures lattice_is { result.lattice.now ≡ self.now }
        ensures index_is { result.index ≡ 0 }
        ensures rests_are { result.rests ≡ rests_for (extents_of self.now.shape) 0 }
    {
        Site {
            lattice: self,
            index: 0,
            rests: [0; 4],
        }
    }
}
