//! Numbers in decimal digits.
ghost use Rattle.std.specs.Prelude.{◌≡◌, ◌^◌, ◌<◌, ◌≤◌, true, length};
ghost use Rattle.std.specs.List.{list_all};
ghost use Rattle.text.specs.Tokens.{is_digit, value_of, well_formed, non_zero};

/// Of a number.
const MOST_DIGITS: usize = 10;

/// Whether a run of digits is a number: at most ten of them, and no zero before another digit.
pub(crate) fn is_well_formed(digits: &[u8]) -> bool
    ensures { result ≡ well_formed digits.now }
{
    digits.len() <= MOST_DIGITS && !matches!(digits, [b'0', _, ..])
}

/// Whether a run of digits is a number other than 0.
pub(crate) fn is_non_zero(digits: &[u8]) -> bool
    ensures { result ≡ non_zero digits.now }
{
    digits.len() <= MOST_DIGITS && !matches!(digits, [] | [b'0', ..])
}

/// The number that at most ten digits write.
pub(crate) fn value(digits: &[u8]) -> u64
    requires few { length digits.now ≤ 10 }
    requires digits { list_all is_digit digits.now ≡ true }
    ensures value { result ≡ value_of digits.now }
    ensures small { result < 10 ^ 10 }
    ensures positive { non_zero digits.now ≡ true → 0 < result }
{
    digits
        .iter()
        .fold(0, |n, digit| n * 10 + u64::from(*digit - b'0'))
}
