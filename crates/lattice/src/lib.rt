// The periodic lattice: a shape's check, the neighbours of a site, and the tables of them.
#![tactic(auto)]

mod lattice;
mod place;
mod site;

ghost use Rattle.std.specs.Prelude.{◌≡◌, true, ◌+◌, ◌*◌, ◌≤◌, ◌<◌, length, set, take};
ghost use Rattle.lattice.specs.Lattice.{extent, in_range, ahead, behind, in_domain, fwd_table, bwd_table};
ghost use Rattle.domain.specs.Promise.{Promised};
ghost use Rattle.lattice.specs.Tables.{given, left, outcome};
ghost use Rattle.lattice.specs.Shape.{shape_for, extents_of};

use domain::Refusal;
pub use lattice::Lattice;
pub use place::Place;
pub use site::Site;

// A shape in the domain: past the last axis, extents and strides are 1. Two arrays, as `shape_for` and `extents_of` speak of two lists.
#[derive(Clone, Copy)]
pub struct Shape {
    pub axes: usize,
    pub sites: usize,
    pub extents: [usize; 4],
    pub strides: [usize; 4],
}

// The extent of axis d, and 1 past the last axis.
fn extent_at(extents: &[usize], d: usize) -> usize
    ensures { result ≡ extent extents.now d }
{
    extents.get(d).copied().unwrap_or(1)
}

// Whether each extent is 1 to 4,096.
fn ranged(extents: &[usize]) -> bool
    ensures { result ≡ in_range extents.now }
{
    extents.iter().all(|e| 1 <= *e && *e <= 4096)
}

// The shape of at most four extents in range: at most 2^48 sites, so that no product wraps.
pub fn shape_of(extents: &[usize]) -> Shape
    requires extents_len_bound { length extents.now ≤ 4 }
    requires extents_value { in_range extents.now ≡ true }
    ensures { result ≡ shape_for extents.now }
{
    let e0 = extent_at(extents, 0);
    let e1 = extent_at(extents, 1);
    let e2 = extent_at(extents, 2);
    let e3 = extent_at(extents, 3);
    let s1 = e2 * e3;
    let s0 = e1 * s1;
    Shape {
        axes: extents.len(),
        sites: e0 * s0,
        extents: [e0, e1, e2, e3],
        strides: [s0, s1, e3, 1],
    }
}

// Whether the extents are a shape of the domain.
pub fn in_domain(extents: &[usize]) -> bool
    ensures { result ≡ in_domain extents.now }
{
    1 <= extents.len()
        && extents.len() <= 4
        && ranged(extents)
        && shape_of(extents).sites <= 16777216
}

// Both neighbours of a place, into entry k of the tables. `up` and `down` stay parameters here and below: a struct would add to each step a
// clause that it holds the same two.
fn put_entry(place: Place, k: usize, up: &mut [u32], down: &mut [u32])
    requires { (k < length up.old) × (k < length down.old) }
    ensures up_after { up.new ≡ set up.old k (ahead place.extent place.stride place.site) }
    ensures down_after { down.new ≡ set down.old k (behind place.extent place.stride place.site) }
{
    up[k] = place.ahead() as u32;
    down[k] = place.behind() as u32;
}

// The entries of one site, axis after axis: those of the sites before it stand.
fn fill_site(site: &Site<'_>, up: &mut [u32], down: &mut [u32])
    requires index_lt_sites { site.now.index < site.now.lattice.now.shape.sites }
    requires up_len { length up.old ≡ site.now.lattice.now.shape.sites * site.now.lattice.now.shape.axes }
    requires down_len { length down.old ≡ site.now.lattice.now.shape.sites * site.now.lattice.now.shape.axes }
    requires up_before { take (site.now.index * site.now.lattice.now.shape.axes) up.old ≡ take (site.now.index * site.now.lattice.now.shape.axes) (fwd_table (extents_of site.now.lattice.now.shape)) }
    requires down_before { take (site.now.index * site.now.lattice.now.shape.axes) down.old ≡ take (site.now.index * site.now.lattice.now.shape.axes) (bwd_table (extents_of site.now.lattice.now.shape)) }
    ensures up_after { take ((site.now.index + 1) * site.now.lattice.now.shape.axes) up.new ≡ take ((site.now.index + 1) * site.now.lattice.now.shape.axes) (fwd_table (extents_of site.now.lattice.now.shape)) }
    ensures down_after { take ((site.now.index + 1) * site.now.lattice.now.shape.axes) down.new ≡ take ((site.now.index + 1) * site.now.lattice.now.shape.axes) (bwd_table (extents_of site.now.lattice.now.shape)) }
{
    let axes = site.lattice.shape.axes;
    let first = site.index * axes;
    // Four turns, which the compiler unrolls: the rests then stay in registers from site to site.
    for axis in 0..4usize {
        if axis < axes {
            put_entry(site.place(axis), first + axis, up, down);
        }
    }
}

// The tables, site after site.
fn fill(lattice: &Lattice, up: &mut [u32], down: &mut [u32])
    requires up_len { length up.old ≡ lattice.now.shape.sites * lattice.now.shape.axes }
    requires down_len { length down.old ≡ lattice.now.shape.sites * lattice.now.shape.axes }
    ensures up_after { up.new ≡ fwd_table (extents_of lattice.now.shape) }
    ensures down_after { down.new ≡ bwd_table (extents_of lattice.now.shape) }
{
    let mut site = lattice.first();
    for _ in 0..lattice.shape.sites {
        fill_site(&site, up, down);
        site = site.next();
    }
}

// The neighbours of each site, forward into `up` and backward into `down`, at site * axes + axis.
pub fn tables(extents: &[usize], up: &mut [u32], down: &mut [u32]) -> Result<(), Refusal>
    ensures { Promised outcome (given extents.now up.old down.old) (left result up.new down.new) }
{
    let lattice = Lattice::new(extents)?;
    let total = lattice.shape.sites * lattice.shape.axes;
    if up.len() != total || down.len() != total {
        return Err(Refusal::Length);
    }
    fill(&lattice, up, down);
    Ok(())
}
