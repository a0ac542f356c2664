//! The table of cuts.
ghost use Rattle.std.specs.Prelude.{◌≤◌, length};
ghost use Rattle.cuts.specs.Cuts.{most_cuts};
ghost use Rattle.cuts.specs.Tables.{ThreeStops, FewStops, Cheap, KeptAtStops};

use super::cut::Cut;
use arrayvec::ArrayVec;

/// The most cuts there can be.
pub const MOST_CUTS: usize = 32;

/// The cuts of a layer, numbered from 0.
#[derive(Drop)]
pub struct CutTable {
    pub(crate) cuts: ArrayVec<Cut, MOST_CUTS>,
    // a law does not know how many elements there can be
    ghost few: { length cuts.items ≤ most_cuts },
    ghost three: { ThreeStops (length cuts.items) cuts.items },
    ghost sparse: { FewStops cuts.items },
    ghost cheap: { Cheap cuts.items },
    ghost kept: { KeptAtStops cuts.items },
}
