//! Printers: each writes at the front of a slice, and answers how many bytes it wrote there.
// `None` can mean one thing only here; the writer, which knows refusals, makes it `Full`.
ghost use Rattle.std.specs.Prelude.{◌≡◌, ◌+◌, ◌%◌, decimal};
ghost use Rattle.output.specs.Outputs.{Printed};

use itoa::Buffer;

// The last digit of a number.
fn last_digit(n: u64) -> u8
    ensures { result ≡ 48 + n % 10 }
{
    b'0' + (n % 10) as u8
}

// A number of any length, made in a buffer.
// Not inlined: the room for the buffer is then made for long numbers alone.
#[inline(never)]
fn print_long(out: &mut [u8], n: u64) -> Option<usize>
    ensures { Printed out.old out.new result (decimal n) }
{
    print_bytes(out, Buffer::new().format(n).as_bytes())
}

/// A number in decimal digits; `None`, and nothing written, where it does not fit.
// One or two digits go without a buffer: a deck of such numbers is then written in half the time that the buffer takes.
#[tactic(auto, using(std::proofs::lemmas::Fmt::decimal_step, std::proofs::lemmas::Fmt::decimal_digit))]
pub fn print_number(out: &mut [u8], n: u64) -> Option<usize>
    ensures { Printed out.old out.new result (decimal n) }
{
    match n {
        0..=9 => print_bytes(out, &[last_digit(n)]),
        10..=99 => print_bytes(out, &[last_digit(n / 10), last_digit(n)]),
        _ => print_long(out, n),
    }
}

/// These bytes; `None`, and nothing written, where they do not fit.
pub fn print_bytes(out: &mut [u8], bytes: &[u8]) -> Option<usize>
    ensures { Printed out.old out.new result bytes.now }
{
    let (front, _) = out.split_at_mut_checked(bytes.len())?;
    front.copy_from_slice(bytes);
    Some(bytes.len())
}
