//! How many tiers a pile may have.
ghost use Rattle.std.specs.Prelude.{◌≡◌};
ghost use Rattle.tier.specs.Layers.{higher};

/// Over this many tiers reach and finish are barred, and gap and credit are 0.
pub const MOST_TIERS: usize = 4;

/// What `tiers` answers of a layer: one more than below, held at 5.
pub fn height_over(below: usize) -> usize
    ensures { result ≡ higher below }
{
    below.min(MOST_TIERS) + 1
}
