// A site on one axis of a lattice, and the steps from there, without division.
ghost use Rattle.std.specs.Prelude.{◌≡◌, ◌+◌, ◌*◌, ◌%◌};
ghost use Rattle.lattice.specs.Lattice.{ahead, behind};
ghost use Rattle.lattice.specs.Shape.{OnAxis};

// The site's rest is that in its block of extent * stride sites.
#[derive(Clone, Copy)]
pub struct Place {
    pub extent: usize,
    pub stride: usize,
    pub site: usize,
    pub rest: usize,
    pub ghost on_axis: { OnAxis extent stride site rest },
}

impl Place {
    // The forward neighbour.
    pub fn ahead(self) -> usize
        ensures { result ≡ ahead self.extent self.stride self.site }
    {
        let block = self.extent * self.stride;
        if self.rest + self.stride < block {
            self.site + self.stride
        } else {
            self.site + self.stride - block
        }
    }

    // The backward neighbour.
    pub fn behind(self) -> usize
        ensures { result ≡ behind self.extent self.stride self.site }
    {
        if self.stride <= self.rest {
            self.site - self.stride
        } else {
            self.site + self.extent * self.stride - self.stride
        }
    }

    // The rest of the next site.
    pub fn next_rest(self) -> usize
        ensures { result ≡ (self.site + 1) % (self.extent * self.stride) }
    {
        let next = self.rest + 1;
        if next < self.extent * self.stride {
            next
        } else {
            0
        }
    }
}
