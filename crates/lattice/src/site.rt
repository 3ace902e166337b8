// A site of a lattice, with its rest in its block on each of the four axes: nothing is divided on the way from site to site.
ghost use Rattle.std.specs.Prelude.{◌≡◌, ◌+◌, ◌*◌, ◌%◌, ◌<◌};
ghost use Rattle.lattice.specs.Lattice.{extent, stride};
ghost use Rattle.lattice.specs.Shape.{extents_of, rests_for};

use crate::{Lattice, Place};

#[derive(Clone, Copy)]
pub struct Site<'a> {
    pub lattice: &'a Lattice,
    pub index: usize,
    pub rests: [usize; 4],
    pub ghost here: { rests ≡ rests_for (extents_of lattice.now.shape) index },
}

impl<'a> Site<'a> {
    // The site on one of the four axes: past the last axis, extents and strides are 1.
    pub fn place(&self, axis: usize) -> Place
        requires axis_lt_4 { axis < 4 }
        requires index_lt_sites { self.now.index < self.now.lattice.now.shape.sites }
        ensures extent_is { result.extent ≡ extent (extents_of self.now.lattice.now.shape) axis }
        ensures stride_is { result.stride ≡ stride (extents_of self.now.lattice.now.shape) axis }
        ensures site_is { result.site ≡ self.now.index }
        ensures rest_is { result.rest ≡ self.now.index % (extent (extents_of self.now.lattice.now.shape) axis * stride (extents_of self.now.lattice.now.shape) axis) }
    {
        Place {
            extent: self.lattice.shape.extents[axis],
            stride: self.lattice.shape.strides[axis],
            site: self.index,
            rest: self.rests[axis],
        }
    }

    // The next site, each of its rests from that of this one.
    pub fn next(&self) -> Site<'a>
        requires index_lt_sites { self.now.index < self.now.lattice.now.shape.sites }
        ensures lattice_is { result.lattice.now ≡ self.now.lattice.now }
        ensures index_is { result.index ≡ self.now.index + 1 }
        ensures rests_are { result.rests ≡ rests_for (extents_of self.now.lattice.now.shape) (self.now.index + 1) }
    {
        let r0 = self.place(0).next_rest();
        let r1 = self.place(1).next_rest();
        let r2 = self.place(2).next_rest();
        let r3 = self.place(3).next_rest();
        Site {
            lattice: self.lattice,
            index: self.index + 1,
            rests: [r0, r1, r2, r3],
        }
    }
}
