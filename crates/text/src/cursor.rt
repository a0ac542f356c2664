//! A cursor that walks over a text and copies nothing.
ghost use Rattle.std.specs.Prelude.{◌≡◌};

/// A text, and the offset of the byte that is next.
#[derive(Drop)]
pub struct Cursor<'a> {
    pub(crate) text: &'a [u8],
    pub(crate) at: usize,
}

impl<'a> Cursor<'a> {
    /// At the first byte of a text.
    pub fn new(text: &'a [u8]) -> Cursor<'a>
        ensures { (result.text.now ≡ text.now) × (result.at ≡ 0) }
    {
        Cursor { text, at: 0 }
    }

    /// The offset of the byte that is next.
    pub fn place(&self) -> usize
        ensures { result ≡ self.now.at }
    {
        self.at
    }
}
