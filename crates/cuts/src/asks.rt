//! What a table of cuts adds to states, charges and gaps.
ghost use Rattle.std.specs.Prelude.{◌≡◌};
ghost use Rattle.std.specs.List.{sum_by};
ghost use Rattle.cuts.specs.Contents.{cuts_of};
ghost use Rattle.cuts.specs.Cuts.{bits_after, charge_at, gap_between};

use super::bits::Bits;
use super::table::CutTable;

impl CutTable {
    /// The bits after reaching a stop.
    pub(crate) fn bits_after(&self, to: usize, bits: Bits) -> Bits
        ensures { result ≡ bits_after (cuts_of self.now) to bits }
    {
        let mut after = Bits::none();
        for (k, cut) in self.cuts.iter().enumerate() {
            if cut.next_bit(to, bits.has(k)) {
                after = after.put(k);
            }
        }
        after
    }

    /// What reaching a stop is charged.
    pub(crate) fn charge(&self, to: usize, bits: Bits) -> u64
        ensures { result ≡ charge_at (cuts_of self.now) to bits }
    {
        self.cuts
            .iter()
            .enumerate()
            .map(|(k, cut)| cut.fee(to, bits.has(k)))
            .sum()
    }

    /// By how much a state with the bits `a` may do worse than one with the bits `b`.
    pub(crate) fn gap(&self, a: Bits, b: Bits) -> u64
        ensures { result ≡ gap_between (cuts_of self.now) a b }
    {
        self.cuts
            .iter()
            .enumerate()
            .map(|(k, cut)| cut.lag(a.has(k), b.has(k)))
            .sum()
    }

    /// The sum of the penalties.
    pub(crate) fn penalties(&self) -> u64
        ensures { result ≡ sum_by (λ c. c.penalty) (cuts_of self.now) }
    {
        self.cuts.iter().map(|cut| u64::from(cut.penalty)).sum()
    }
}
