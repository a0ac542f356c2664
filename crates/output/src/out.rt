//! An output slice, and how much of it is filled.
use super::printers::{print_bytes, print_number};

/// There is no room for what was to be written.
#[derive(Clone, Copy, PartialEq, Eq, Debug)]
pub struct Full;

impl Full {
    ghost use Rattle.std.specs.Prelude.{◌≡◌};
    ghost use Rattle.output.specs.Outputs.{refusal_full};

    /// The number of the refusal.
    // A constant: a struct of one value has no discriminant.
    pub fn number(self) -> u64
        ensures { result ≡ refusal_full }
    {
        19
    }
}

/// An output slice of which the first `len` bytes are filled. Where it has fewer than that, nothing more fits.
// Slice and length stay apart: each printer is lent the rest, from the filled length on.
#[derive(Drop)]
pub struct Out<'a> {
    pub out: &'a mut [u8],
    pub len: usize,
}

impl<'a> Out<'a> {
    ghost use Rattle.std.specs.Prelude.{◌≡◌, ℕ, List, decimal, ◌≤◌, ◌<◌, length, MatchResult};
    ghost use Rattle.output.specs.Outputs.{Printed, Wrote, LeftAlone};

    /// A slice of which nothing is filled.
    pub fn new(out: &'a mut [u8]) -> Self
        ensures held { result.out.ghost_name ≡ out.entry.ghost_name }
        ensures bytes { result.out.now ≡ out.old }
        ensures empty { result.len ≡ 0 }
    {
        Out { out, len: 0 }
    }

    /// A slice of which the first `len` bytes are filled; refused where it has fewer.
    pub fn resume(out: &'a mut [u8], len: usize) -> Result<Self, Full>
        ensures { MatchResult result (λ o. (o.out.ghost_name ≡ out.entry.ghost_name) × (o.out.now ≡ out.old) × (o.len ≡ len) × (len ≤ length out.old)) (λ _. length out.old < len) }
    {
        if len > out.len() {
            return Err(Full);
        }
        Ok(Out { out, len })
    }

    /// How many bytes are filled.
    pub fn filled(&self) -> usize
        ensures { result ≡ self.now.len }
    {
        self.len
    }

    // `LeftAlone` is said of one piece only: of several, those that fitted stand when the next does not.

    /// Writes a number behind what is there.
    pub fn number(&mut self, n: u64) -> Result<(), Full>
        ensures wrote { Wrote self.old self.new result (decimal n) }
        ensures left { LeftAlone self.old self.new result }
    {
        self.print(|rest| print_number(rest, n))
    }

    /// Writes bytes behind what is there.
    pub fn bytes(&mut self, bytes: &[u8]) -> Result<(), Full>
        ensures wrote { Wrote self.old self.new result bytes.now }
        ensures left { LeftAlone self.old self.new result }
    {
        self.print(|rest| print_bytes(rest, bytes))
    }

    // Lends the rest of the slice to a printer of some bytes.
    fn print<P: FnOnce(&mut [u8]) -> Option<usize>>(&mut self, printer: P) -> Result<(), Full>
        ghost bytes: { List ℕ }
        requires callable { P.IsAlwaysCallable printer }
        requires prints { (before : _) (r : _) (after : _) → P.post printer before r after → Printed before.now after.now r bytes }
        ensures wrote { Wrote self.old self.new result bytes }
        ensures left { LeftAlone self.old self.new result }
    {
        if self.len > self.out.len() {
            return Err(Full);
        }
        self.len += printer(&mut self.out[self.len..]).ok_or(Full)?;
        Ok(())
    }
}
