//! What can be wrong with the bytes of a token.

/// A fault of the text, with its place: the offset of the token's first byte.
#[derive(Clone, Copy)]
pub enum TextFault {
    /// 12: a byte that begins no token
    NoKind(usize),
    /// 13: more than ten digits, a leading zero, or a hyphen that precedes no amount
    BadNumber(usize),
}
