//! The labels of a store.
ghost use Rattle.std.specs.Prelude.{◌≡◌};
ghost use Rattle.price.specs.Labels.{is_waiting, is_live, blank as «blank_at», waiting as «waiting_at», root as «root_at»};

/// How a place of a store stands.
// No `Option` of a label: the definitions say what a blank place holds.
#[derive(Clone, Copy, PartialEq, Eq)]
pub enum Status {
    /// no label is here
    Blank,
    /// the label is still to be treated
    Waiting,
    /// the label has tried to finish and gone on
    Treated,
}

impl Status {
    pub(crate) fn waits(self) -> bool
        ensures { result ≡ is_waiting self }
    {
        self == Status::Waiting
    }

    pub(crate) fn live(self) -> bool
        ensures { result ≡ is_live self }
    {
        self != Status::Blank
    }
}

/// The label that a label goes on from: its place in the store, and its number.
// A place and no reference: all labels stand in one slice, which the caller lends.
#[derive(Clone, Copy)]
pub struct Parent {
    pub place: usize,
    pub number: usize,
}

/// A label is a way from the depot to a stop: its state there, what it has cost, and the label that
/// it goes on from. Labels are numbered as they are kept.
#[derive(Clone, Copy)]
pub struct Label<S> {
    pub stop: usize,
    pub state: S,
    pub cost: i64,
    pub parent: Option<Parent>,
    pub number: usize,
    pub status: Status,
}

impl<S: Copy> Label<S> {
    /// What a place holds that has no label; `start` is the state at the depot.
    pub fn blank(start: S) -> Self
        ensures { result ≡ «blank_at» start }
    {
        Label {
            stop: 0,
            state: start,
            cost: 0,
            parent: None,
            number: 0,
            status: Status::Blank,
        }
    }

    // What waits at the depot at first.
    pub(crate) fn root(start: S) -> Self
        ensures { result ≡ «waiting_at» 0 («root_at» start) }
    {
        Label {
            status: Status::Waiting,
            ..Label::blank(start)
        }
    }
}
