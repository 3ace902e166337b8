// What has passed the checks of a call: the tile that it reads, and its lattice.
ghost use Rattle.lattice.specs.Shape.{extents_of};
ghost use Rattle.clusters.specs.Inside.Run.{given, Fit};

use bonds::Tile;
use lattice::Lattice;

#[derive(Clone, Copy)]
pub(crate) struct Input<'a> {
    pub(crate) tile: Tile<'a>,
    pub(crate) lattice: Lattice,
    pub(crate) ghost fit: { Fit (given tile.spins.now tile.couplings.now tile.classes.weights.now tile.classes.thresholds.now) (extents_of lattice.shape) },
}
