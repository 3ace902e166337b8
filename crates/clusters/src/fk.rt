// One accepted call: the pass over the bonds, the tallies, the observer's memory left zero, and the action.
ghost use Rattle.std.specs.Prelude.{◌≡◌, ◌<◌, ◌≤◌, ◌^◌, ℕ, length, get_or, replicate, T, pos};
ghost use Rattle.lattice.specs.Shape.{extents_of};
ghost use Rattle.bonds.specs.Visit.{all_spins};
ghost use Rattle.graph.specs.Forest.{up_from};
ghost use Rattle.clusters.specs.Sizes.{raised};
ghost use Rattle.clusters.specs.Update.{ended};
ghost use Rattle.clusters.specs.Inside.Bare.{sizes_of};
ghost use Rattle.clusters.specs.Inside.Sway.{bond_of};
ghost use Rattle.clusters.specs.Inside.Run.{lists, plane_of, plane_in, Done, Joinable, JoinedBy, SiteDone, SiteReady, Sized, Start, Visitable, Visited};
ghost use Rattle.clusters.specs.Inside.Read.{extents_in, given_of, lists_of, SameLent};
ghost use Rattle.clusters.specs.Inside.Steps.{held, observed_by, shown, Countable, DrewAll, Room};

use crate::input::Input;
use crate::links::Links;
use crate::roots::Roots;
use crate::winding::{Bond, Marks, Winding};
use crate::{Action, Flags, Observation, coins, utils};
use bonds::Activation;
use generator::Xoshiro256StarStar;
use lattice::{Lattice, Site};

// The generator, the number of active bonds, and the flags so far.
#[derive(Clone, Copy)]
pub(crate) struct Pass {
    pub(crate) state: Xoshiro256StarStar,
    pub(crate) active: usize,
    pub(crate) marks: Marks,
}

// The extents of the two axes, where there are two: no winding is kept elsewhere.
fn plane_of(lattice: &Lattice) -> Option<(u64, u64)>
    ensures { result ≡ plane_in (plane_of (extents_of lattice.now.shape)) }
{
    let [x, y, ..] = lattice.shape.extents;
    if lattice.shape.axes == 2 {
        Some((x as u64, y as u64))
    } else {
        None
    }
}

// What a pass writes: the links of the forest, and the winding. Each step says that it leaves the same slices here (`SameLent`).
#[derive(Drop)]
pub(crate) struct Lists<'a, 'b, 'c, 'd> {
    pub(crate) links: &'a mut Links<'b>,
    pub(crate) winding: &'c mut Winding<'d>,
}

impl Lists<'_, '_, '_, '_> {
    // An active bond: its two sites are joined, in the forest and, on two axes, in the winding.
    fn join(&mut self, lattice: &Lattice, bond: Bond, marks: Marks) -> Marks
        requires joinable { Joinable (lists_of self.old) (plane_of (extents_of lattice.now.shape)) marks }
        requires inside { (bond.x < length self.old.links.now.parent.now) × (bond.y < length self.old.links.now.parent.now) × (length self.old.links.now.parent.now ≤ 2 ^ 32) }
        ensures same { SameLent self.old self.new }
        ensures sized { Sized (lists_of self.old) (lists_of self.new) }
        ensures joined { JoinedBy (lists_of self.old) (lists_of self.new) (bond_of bond) (plane_of (extents_of lattice.now.shape)) marks result }
    {
        self.links.union(bond.x as u32, bond.y as u32);
        let Some((ex, ey)) = plane_of(lattice) else {
            return marks;
        };
        self.winding.bond(bond, ex, ey, marks)
    }

    // The next bond: visited, and joined where it is active.
    fn visit(&mut self, input: &Input<'_>, bond: Bond, index: usize, pass: Pass) -> Pass
        requires { Visitable (given_of input.now) (lists_of self.old) (plane_of (extents_in input.now)) pass (bond_of bond) index }
        ensures same { SameLent self.old self.new }
        ensures sized { Sized (lists_of self.old) (lists_of self.new) }
        ensures visited { Visited (given_of input.now) (lists_of self.old) (lists_of self.new) (plane_of (extents_in input.now)) pass (bond_of bond) index result }
    {
        let Activation { active, state } = input.tile.visit(bond.x, bond.y, index, pass.state);
        if !active {
            return Pass { state, ..pass };
        }
        let marks = self.join(&input.lattice, bond, pass.marks);
        Pass {
            state,
            active: pass.active + 1,
            marks,
        }
    }

    // The bonds of one site, direction by direction.
    fn visit_site(&mut self, input: &Input<'_>, site: &Site<'_>, pass: Pass) -> Pass
        requires lattice_is { site.now.lattice.now ≡ input.now.lattice }
        requires site_ready { SiteReady (given_of input.now) (extents_in input.now) (lists_of self.old) (plane_of (extents_in input.now)) pass site.now.index }
        ensures same { SameLent self.old self.new }
        ensures sized { Sized (lists_of self.old) (lists_of self.new) }
        ensures done { SiteDone (given_of input.now) (extents_in input.now) (lists_of self.old) (lists_of self.new) (plane_of (extents_in input.now)) pass site.now.index result }
    {
        let lattice = &input.lattice;
        let mut pass = pass;
        for axis in 0..lattice.shape.axes {
            let to = site.place(axis).ahead();
            let bond = Bond {
                x: site.index,
                y: to,
                axis,
            };
            let index = site.index * lattice.shape.axes + axis;
            pass = self.visit(input, bond, index, pass);
        }
        pass
    }

    // All bonds, site by site.
    fn visit_all(&mut self, input: &Input<'_>, generator: Xoshiro256StarStar) -> Pass
        requires { Start (given_of input.now) (extents_in input.now) (lists_of self.old) (plane_of (extents_in input.now)) }
        ensures same { SameLent self.old self.new }
        ensures sized { Sized (lists_of self.old) (lists_of self.new) }
        ensures done { Done (given_of input.now) (extents_in input.now) (lists_of self.new) generator result }
    {
        let mut pass = Pass {
            state: generator,
            active: 0,
            marks: Marks::default(),
        };
        let mut site = input.lattice.first();
        for _ in 0..input.lattice.shape.sites {
            pass = self.visit_site(input, &site, pass);
            site = site.next();
        }
        pass
    }

    // All bonds visited, and the roots flattened.
    fn draw(&mut self, input: &Input<'_>, generator: Xoshiro256StarStar) -> Pass
        requires { Start (given_of input.now) (extents_in input.now) (lists_of self.old) (plane_of (extents_in input.now)) }
        ensures same { SameLent self.old self.new }
        ensures drew { DrewAll (given_of input.now) (extents_in input.now) generator self.new.links.now.parent.now self.new.links.now.rank.now result }
    {
        let pass = self.visit_all(input, generator);
        self.links.flatten();
        pass
    }
}

// Every site its own root and its own parent. The slices are parameters, as at `fk_update`.
fn start(
    roots: &mut [u32],
    decisions: &mut [u8],
    parents: &mut [u32],
    ranks: &mut [u8],
    offsets: &mut [i64],
)
    requires { (length roots.old ≤ 16777216) × (length parents.old ≤ 16777216) }
    ensures { lists roots.new decisions.new parents.new ranks.new offsets.new ≡ lists (up_from 0 (length roots.old)) (replicate (length decisions.old) 0) (up_from 0 (length parents.old)) (replicate (length ranks.old) 0) (replicate (length offsets.old) (pos 0)) }
{
    utils::own(roots);
    decisions.fill(0);
    utils::own(parents);
    ranks.fill(0);
    offsets.fill(0);
}

// Steps 1 and 2, and the roots flattened. The slices are those of `fk_update`, which stand in structs from here on.
pub(crate) fn draw(
    input: &Input<'_>,
    roots: &mut [u32],
    decisions: &mut [u8],
    parents: &mut [u32],
    ranks: &mut [u8],
    offsets: &mut [i64],
    generator: Xoshiro256StarStar,
) -> Pass
    requires { Room (given_of input.now) (extents_in input.now) (plane_of (extents_in input.now)) roots.old decisions.old parents.old ranks.old offsets.old }
    ensures { DrewAll (given_of input.now) (extents_in input.now) generator roots.new decisions.new result }
{
    start(roots, decisions, parents, ranks, offsets);
    let mut links = Links {
        parent: roots,
        rank: decisions,
    };
    let mut winding = Winding {
        parents,
        ranks,
        offsets,
    };
    let mut lists = Lists {
        links: &mut links,
        winding: &mut winding,
    };
    lists.draw(input, generator)
}

// The flags, all clear but on two axes.
fn shown(marks: Marks, lattice: &Lattice) -> Marks
    ensures { result ≡ shown (plane_of (extents_of lattice.now.shape)) marks }
{
    if lattice.shape.axes == 2 {
        marks
    } else {
        Marks::default()
    }
}

// Step 3, and the observation.
pub(crate) fn tallies(
    roots: Roots,
    counts: &mut [u32],
    histogram: &mut [u64],
    lattice: &Lattice,
    pass: Pass,
) -> Observation
    requires { Countable roots.row.now counts.old histogram.old }
    ensures counted { counts.new ≡ sizes_of roots.entry.row.now }
    ensures risen { histogram.new ≡ raised 0 (sizes_of roots.entry.row.now) histogram.old }
    ensures seen { result ≡ observed_by (sizes_of roots.entry.row.now) (plane_of (extents_of lattice.now.shape)) pass }
{
    utils::count_roots(roots, counts);
    utils::histogram(counts, histogram);
    let marks = shown(pass.marks, lattice);
    Observation {
        components: utils::components_of(counts),
        active: pass.active,
        top: utils::top_four(counts),
        large: utils::large_of(counts),
        winding: Flags {
            x: marks.x,
            y: marks.y,
        },
        torn: marks.torn,
    }
}

// The observer's memory, all zero. The slices are parameters, as at `fk_update`.
pub(crate) fn clean(parents: &mut [u32], ranks: &mut [u8], offsets: &mut [i64], marks: &mut [u8])
    ensures parents { parents.new ≡ replicate (length parents.old) 0 }
    ensures ranks { ranks.new ≡ replicate (length ranks.old) 0 }
    ensures offsets { offsets.new ≡ replicate (length offsets.old) (pos 0) }
    ensures marks { marks.new ≡ replicate (length marks.old) 0 }
{
    parents.fill(0);
    ranks.fill(0);
    offsets.fill(0);
    marks.fill(0);
}

// Step 4, by the action that the caller names.
pub(crate) fn act(
    action: Action,
    roots: Roots,
    decisions: &mut [u8],
    spins: &mut [i8],
    generator: Xoshiro256StarStar,
) -> Xoshiro256StarStar
    requires decisions_len { length decisions.old ≡ length roots.row.now }
    requires roots_len { length roots.row.now ≡ length spins.old }
    requires spins_are { T (all_spins spins.old) }
    ensures { record { decisions = decisions.new; spins = spins.new; generator = result } ≡ ended action (held roots.entry.row.now decisions.old) spins.old generator }
{
    match action {
        Action::Observe => generator,
        Action::Update => coins::flip(roots, decisions, spins, generator),
    }
}
