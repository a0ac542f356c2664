//! What all layers with an own part share: sums that stay within a word.
#![tactic(auto)]

ghost use Rattle.std.specs.Prelude.{◌≡◌};
ghost use Rattle.layer.specs.Sums.{charge_sum, gap_sum};

/// A charge below with the layer's own; `None` outside the word.
pub fn add_charge(below: i64, own: u64) -> Option<i64>
    ensures { result ≡ charge_sum below own }
{
    below.checked_add_unsigned(own)
}

// Two functions: a charge has a sign, and a gap has none.

/// A gap below with the layer's own; `None` outside the word.
pub fn add_gap(below: u64, own: u64) -> Option<u64>
    ensures { result ≡ gap_sum below own }
{
    below.checked_add(own)
}
