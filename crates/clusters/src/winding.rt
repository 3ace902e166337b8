// Winding: the walk from a site to its root, and the joining of two sites.
ghost use Rattle.std.specs.Prelude.{◌≡◌, ◌*◌, ◌<◌, ◌≤◌, length, FitsSigned, ◌+◌, ◌+ℤ◌, ◌^◌};
ghost use Rattle.std.specs.Int.{w64};
ghost use Rattle.clusters.specs.Inside.Join.{join, link, wind_of, Linkable, SameLists};
ghost use Rattle.clusters.specs.Inside.Sway.{around_of, marks, moved, Bondable, Bonded, FoundAt, Held, Near, United, WayAt};

// A bond from a site to its neighbour on an axis.
#[derive(Clone, Copy)]
pub(crate) struct Bond {
    pub(crate) x: usize,
    pub(crate) y: usize,
    pub(crate) axis: usize,
}

// The flags of the two axes, and torn: side by side, since `Flags` in here would be taken apart and built again at each bond.
#[derive(Clone, Copy, Default)]
pub(crate) struct Marks {
    pub(crate) x: bool,
    pub(crate) y: bool,
    pub(crate) torn: bool,
}

impl Marks {
    // The flags after a bond, which may have closed a loop.
    fn after(self, closing: Option<(i64, i64)>, ex: u64, ey: u64) -> Marks
        requires { (0 < ex) × (0 < ey) }
        ensures { result ≡ marks self closing ex ey }
    {
        let Some((dx, dy)) = closing else {
            return self;
        };
        let a = ints::magnitude(dx);
        let b = ints::magnitude(dy);
        Marks {
            x: self.x || a != 0,
            y: self.y || b != 0,
            torn: self.torn || a % ex != 0 || b % ey != 0,
        }
    }
}

// A bond's two roots, and the way around it on each axis.
#[derive(Clone, Copy)]
pub(crate) struct Way {
    pub(crate) a: usize,
    pub(crate) b: usize,
    pub(crate) around: (i64, i64),
}

// Where a walk ends, and how far from there it began on each axis.
#[derive(Clone, Copy)]
pub(crate) struct Found {
    pub(crate) root: usize,
    pub(crate) x: i64,
    pub(crate) y: i64,
}

impl Found {
    // The place of a site that lies (x, y) from the one found here.
    fn moved(self, x: i64, y: i64) -> Found
        requires { FitsSigned w64 (x +ℤ self.x) × FitsSigned w64 (y +ℤ self.y) }
        ensures { result ≡ moved self x y }
    {
        Found {
            root: self.root,
            x: x + self.x,
            y: y + self.y,
        }
    }

    // The way around a bond on an axis, from the places of its two sites.
    fn around(self, to: Found, axis: usize) -> Way
        requires { Near self × Near to }
        ensures { result ≡ around_of self to axis }
    {
        let x = self.x - to.x + (axis == 0) as i64;
        let y = self.y - to.y + (axis == 1) as i64;
        Way {
            a: self.root,
            b: to.root,
            around: (x, y),
        }
    }
}

// Each site's parent, its rank, and its two offsets from its parent, side by side as the buffers are lent. `Held`, in `Bondable`, is a clause
// and no ghost field, which has to hold at each write: `hang` makes three. Each step says that it leaves the same slices here (`SameLists`).
#[derive(Drop)]
pub(crate) struct Winding<'a> {
    pub(crate) parents: &'a mut [u32],
    pub(crate) ranks: &'a mut [u8],
    pub(crate) offsets: &'a mut [i64],
}

impl<'a> Winding<'a> {
    // The root of a site, with the way there: its own offset and its parent's.
    fn find(&self, site: usize) -> Found
        requires site_in_bounds { site < length self.now.parents.now }
        requires held { Held self.now }
        ensures { FoundAt self.now site result }
    {
        let up = self.parents[site] as usize;
        if up == site {
            return Found {
                root: site,
                x: 0,
                y: 0,
            };
        }
        let x = self.offsets[2 * site];
        let y = self.offsets[2 * site + 1];
        self.find(up).moved(x, y)
    }

    // The roots of a bond's two sites, and the way around it.
    fn way(&self, bond: Bond) -> Way
        requires { Bondable self.now bond }
        ensures { WayAt self.now bond result }
    {
        let f = self.find(bond.x);
        let g = self.find(bond.y);
        f.around(g, bond.axis)
    }

    // A root comes under another, from which it lies (x, y).
    fn hang(&mut self, low: usize, high: usize, x: i64, y: i64)
        requires low_in_bounds { low < length self.old.parents.now }
        requires offsets_len { length self.old.offsets.now ≡ 2 * length self.old.parents.now }
        requires high_bound { high < 2 ^ 32 }
        ensures same { SameLists self.old self.new }
        ensures linked { wind_of self.new ≡ link (wind_of self.old) low high x y }
    {
        self.parents[low] = high as u32;
        self.offsets[2 * low] = x;
        self.offsets[2 * low + 1] = y;
    }

    // Two roots joined by their ranks: the second lies (x, y) from the first.
    #[tactic(auto, using(std::proofs::lemmas::Grind::common_steps, crate::proofs::Laws::Join::negated), unfolding(crate::specs::Inside::Join::join))]
    fn join(&mut self, way: Way)
        requires { Linkable (wind_of self.old) way }
        ensures same { SameLists self.old self.new }
        ensures joined { wind_of self.new ≡ join (wind_of self.old) way.a way.b way.around.0 way.around.1 }
    {
        let Way {
            a,
            b,
            around: (x, y),
        } = way;
        let ra = self.ranks[a];
        let rb = self.ranks[b];
        if ra < rb {
            self.hang(a, b, -x, -y);
            return;
        }
        self.hang(b, a, x, y);
        if ra == rb {
            self.ranks[a] = ra + 1;
        }
    }

    // The two components of a bond become one, or the bond closes a loop: the way around it.
    fn union(&mut self, bond: Bond) -> Option<(i64, i64)>
        requires { Bondable self.old bond }
        ensures same { SameLists self.old self.new }
        ensures united { United self.old self.new bond result }
    {
        let way = self.way(bond);
        if way.a == way.b {
            return Some(way.around);
        }
        self.join(way);
        None
    }

    // One bond more, and the flags after it.
    pub(crate) fn bond(&mut self, bond: Bond, ex: u64, ey: u64, marks: Marks) -> Marks
        requires bondable { Bondable self.old bond }
        requires extents_positive { (0 < ex) × (0 < ey) }
        ensures same { SameLists self.old self.new }
        ensures bonded { Bonded self.old self.new bond ex ey marks result }
    {
        let closing = self.union(bond);
        marks.after(closing, ex, ey)
    }
}
