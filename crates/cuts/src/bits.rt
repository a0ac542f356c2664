//! The bits of cuts.
ghost use Rattle.std.specs.Prelude.{◌≡◌, ◌<◌};
ghost use Rattle.cuts.specs.Bits.{no_bits, stands, with_bit};

/// A bit for each cut: bit k of the word stands for cut k.
// One type for this and for sets of stops is no plainer: it would need a trait over both words.
#[derive(Clone, Copy)]
pub struct Bits {
    word: u32,
}

impl Bits {
    pub(crate) fn none() -> Bits
        ensures { result ≡ no_bits }
    {
        Bits { word: 0 }
    }

    /// Whether the bit of the cut is 1; past 31 none is.
    pub fn has(self, cut: usize) -> bool
        ensures { result ≡ stands self cut }
    {
        cut < 32 && (self.word >> cut) % 2 == 1
    }

    /// The same bits, and 1 for this cut.
    pub(crate) fn put(self, cut: usize) -> Bits
        requires { cut < 32 }
        ensures { result ≡ with_bit self cut }
    {
        Bits {
            word: self.word | (1 << cut),
        }
    }
}
