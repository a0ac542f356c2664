//! Printing a set of numbers.
use std::fmt;
use stops::StopSet;

/// A set that is printed by its members, as {1, 2}.
#[derive(Clone, Copy)]
pub(crate) struct Members(pub(crate) StopSet);

impl fmt::Display for Members {
    fn fmt<W: fmt::Write>(&self, f: &mut fmt::Formatter<W>) -> fmt::Result {
        let mut separator = "";
        write!(f, "{{")?;
        // a test in the loop: over a `filter` the proof did not close
        for number in 0..64 {
            if self.0.has(number) {
                write!(f, "{separator}{number}")?;
                separator = ", ";
            }
        }
        write!(f, "}}")
    }
}
