//! How far labelling has come.
ghost use Rattle.std.specs.Prelude.{◌≡◌, Some};
ghost use Rattle.price.specs.Progress.{at_first, counts_words};

use std::fmt;

/// How many labels were kept, the root too, how many of them were struck, and how many offers were
/// turned away.
#[derive(Clone, Copy)]
pub struct Counts {
    pub kept: usize,
    pub struck: usize,
    pub turned: usize,
}

impl fmt::Display for Counts {
    ghost output = { λ counts. Some (counts_words counts) };

    fn fmt<W: fmt::Write>(&self, f: &mut fmt::Formatter<W>) -> fmt::Result {
        let Counts {
            kept,
            struck,
            turned,
        } = self;
        write!(f, "{kept} kept, {struck} struck, {turned} turned away")
    }
}

/// How far labelling has come, beside what the store shows.
#[derive(Clone, Copy)]
pub(crate) struct Progress {
    /// the lowest total so far, and the place of its last label
    // a pair and no struct: the definition of a turn on a store has this pair
    pub(crate) best: Option<(i64, usize)>,
    pub(crate) counts: Counts,
}

impl Progress {
    /// When the root is kept, and nothing else has been done.
    pub(crate) fn begin() -> Progress
        ensures { result ≡ at_first }
    {
        Progress {
            best: None,
            counts: Counts {
                kept: 1,
                struck: 0,
                turned: 0,
            },
        }
    }
}
