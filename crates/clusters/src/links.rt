// Union-find over two lent slices: each site's link, and its rank.
ghost use Rattle.std.specs.Prelude.{◌≡◌, ◌<◌, ◌≤◌, ◌^◌, length, get_or};
ghost use Rattle.clusters.specs.Inside.Rep.{Valid, Found, Climbed, Linked, Joined, SameLinks, Settled, Flattened};

// Each site's link, itself at a root, and its rank, side by side as the buffers are lent. `Valid` is a clause and no ghost field, which has to
// hold at each write: `link` makes two. Bounds by the slices are clauses too, since the slices are the caller's, and each step says that it
// leaves the same ones here (`SameLinks`).
#[derive(Drop)]
pub(crate) struct Links<'a> {
    pub(crate) parent: &'a mut [u32],
    pub(crate) rank: &'a mut [u8],
}

impl<'a> Links<'a> {
    // x, no root, is linked to its grandparent, which is returned.
    fn halve(&mut self, x: u32) -> u32
        requires valid { Valid self.old }
        requires x_in_bounds { x < length self.old.parent.now }
        requires not_root { get_or self.old.parent.now x 0 ≡ x → ⊥ }
        ensures same { SameLinks self.old self.new }
        ensures climbed { Climbed self.old self.new x result }
    {
        let p = self.parent[x as usize];
        let g = self.parent[p as usize];
        self.parent[x as usize] = g;
        g
    }

    // The root of x; on the way, links are shortened. The walk goes by links, until one is its own site.
    fn find(&mut self, x: u32) -> u32
        requires valid { Valid self.old }
        requires x_in_bounds { x < length self.old.parent.now }
        ensures same { SameLinks self.old self.new }
        ensures found { Found self.old self.new x result }
    {
        let mut x = x;
        while self.parent[x as usize] != x {
            x = self.halve(x);
        }
        x
    }

    // The roots x and y are joined: the one of lower rank is linked to the other.
    fn link(&mut self, x: u32, y: u32)
        requires valid { Valid self.old }
        requires few { length self.old.parent.now ≤ 2 ^ 32 }
        requires x_in_bounds { (x < length self.old.parent.now) × (get_or self.old.parent.now x 0 ≡ x) }
        requires y_in_bounds { (y < length self.old.parent.now) × (get_or self.old.parent.now y 0 ≡ y) }
        requires apart { x ≡ y → ⊥ }
        ensures same { SameLinks self.old self.new }
        ensures linked { Linked self.old self.new x y }
    {
        let kx = self.rank[x as usize];
        let ky = self.rank[y as usize];
        if kx < ky {
            self.parent[x as usize] = y;
            return;
        }
        self.parent[y as usize] = x;
        if kx == ky {
            self.rank[x as usize] = kx + 1;
        }
    }

    // The sites x and y are joined.
    pub(crate) fn union(&mut self, x: u32, y: u32)
        requires valid { Valid self.old }
        requires few { length self.old.parent.now ≤ 2 ^ 32 }
        requires x_in_bounds { (x < length self.old.parent.now) × (y < length self.old.parent.now) }
        ensures same { SameLinks self.old self.new }
        ensures joined { Joined self.old self.new x y }
    {
        let rx = self.find(x);
        let ry = self.find(y);
        if rx != ry {
            self.link(rx, ry);
        }
    }

    // x is linked to its root.
    fn settle(&mut self, x: u32)
        requires valid { Valid self.old }
        requires x_in_bounds { x < length self.old.parent.now }
        ensures same { SameLinks self.old self.new }
        ensures settled { Settled self.old self.new x }
    {
        let r = self.find(x);
        self.parent[x as usize] = r;
    }

    // Every site is linked to its root.
    pub(crate) fn flatten(&mut self)
        requires valid { Valid self.old }
        requires few { length self.old.parent.now ≤ 2 ^ 32 }
        ensures same { SameLinks self.old self.new }
        ensures flattened { Flattened self.old self.new }
    {
        for i in 0..self.parent.len() {
            self.settle(i as u32);
        }
    }
}
