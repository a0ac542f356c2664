//! The types of the numbers that are read.
ghost use Rattle.std.specs.Prelude.{◌≡◌, ℕ, ◌^◌, ◌<◌};
ghost use Rattle.std.proofs.Common.{lit≤};
ghost use Rattle.bounds.specs.Narrow.{Narrows, narrows_below};

use std::num::TryFromIntError;

/// A type of the natural numbers below a limit.
pub trait Natural: Copy + TryFrom<u64, Error = TryFromIntError> {
    ghost value: { Self → ℕ };

    ghost limit: { ℕ };

    /// The number itself.
    // `usize` is no `Into<u64>`, and that trait tells of no limit.
    fn to_u64(self) -> u64
        ensures same { result ≡ value self }
        ensures within { result < limit };

    ghost narrows: { Narrows Self.try_from_gives value limit };
}

// One by one: a macro writes no ghost member.
impl Natural for u8 {
    ghost value = { λ n. n };

    ghost limit = { 2 ^ 8 };

    ghost narrows = { narrows_below (lit≤ tt) };

    fn to_u64(self) -> u64 {
        u64::from(self)
    }
}

impl Natural for u16 {
    ghost value = { λ n. n };

    ghost limit = { 2 ^ 16 };

    ghost narrows = { narrows_below (lit≤ tt) };

    fn to_u64(self) -> u64 {
        u64::from(self)
    }
}

impl Natural for u32 {
    ghost value = { λ n. n };

    ghost limit = { 2 ^ 32 };

    ghost narrows = { narrows_below (lit≤ tt) };

    fn to_u64(self) -> u64 {
        u64::from(self)
    }
}

impl Natural for usize {
    ghost value = { λ n. n };

    ghost limit = { 2 ^ 64 };

    ghost narrows = { narrows_below (lit≤ tt) };

    fn to_u64(self) -> u64 {
        self as u64
    }
}
