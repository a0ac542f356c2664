//! One cut.
ghost use Rattle.std.specs.Prelude.{◌≡◌};
ghost use Rattle.cuts.specs.Cuts.{kept_bit, next_bit, fee, lag};
ghost use Rattle.cuts.specs.Tables.{remember};

use stops::StopSet;

/// A cut: its stops, the stops at which its bit is kept, and its penalty.
#[derive(Clone, Copy, Default)]
pub struct Cut {
    /// three stops
    pub stops: StopSet,
    /// the stops of the cut, and others
    pub memory: StopSet,
    /// in mils, 0 to 2^30
    pub penalty: u32,
}

impl Cut {
    // The bit on reaching a stop: it falls to 0 outside the memory.
    fn kept(self, to: usize, bit: bool) -> bool
        ensures { result ≡ kept_bit self to bit }
    {
        self.memory.has(to) && bit
    }

    /// The bit after reaching a stop: turned at the cut's own stops.
    pub(crate) fn next_bit(self, to: usize, bit: bool) -> bool
        ensures { result ≡ next_bit self to bit }
    {
        let kept = self.kept(to, bit);
        if self.stops.has(to) { !kept } else { kept }
    }

    /// The charge on reaching a stop: the penalty where the bit turns from 1 to 0.
    pub(crate) fn fee(self, to: usize, bit: bool) -> u64
        ensures { result ≡ fee self to bit }
    {
        if self.stops.has(to) && self.kept(to, bit) {
            u64::from(self.penalty)
        } else {
            0
        }
    }

    /// The same cut, whose memory has the members too.
    pub(crate) fn remembering(self, members: StopSet) -> Cut
        ensures { result ≡ remember self members.word }
    {
        Cut {
            memory: self.memory.joined(members),
            ..self
        }
    }

    /// By how much a state with the bit `a` may do worse than one with the bit `b`.
    pub(crate) fn lag(self, a: bool, b: bool) -> u64
        ensures { result ≡ lag self a b }
    {
        if a && !b { u64::from(self.penalty) } else { 0 }
    }
}
