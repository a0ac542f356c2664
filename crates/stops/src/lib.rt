//! Stops, and sets of them.
//!
//! Stops are numbered from 1 to n, and place 0 is the depot.
#![tactic(auto)]

ghost use Rattle.std.specs.Prelude.{◌≡◌, ◌+◌, ◌^◌, ◌≤◌, if◌then◌else◌, nat_lt};
ghost use Rattle.stops.specs.Stops.{member, just, common, joined, within as «within_set», all_stops, count_to, empty_set, most_member};

/// The most stops there can be: n is at most this.
pub const MOST_STOPS: usize = 60;

/// The depot and the stops together are at most this many.
pub const MOST_PLACES: usize = MOST_STOPS + 1;

/// A set of stops: bit j of its word stands for stop j. Bit 0 and the bits above n can be
/// written; a call that takes nothing but stops refuses such a set.
#[derive(Clone, Copy, PartialEq, Eq, Debug, Default)]
pub struct StopSet {
    word: u64,
}

impl StopSet {
    // Named as `f64::from_bits` and `to_bits` are: a `From` would not say that a number is read as bits.
    pub fn from_word(word: u64) -> StopSet
        ensures { result.word ≡ word }
    {
        StopSet { word }
    }

    pub fn word(self) -> u64
        ensures { result ≡ self.word }
    {
        self.word
    }

    pub fn empty() -> StopSet
        ensures { result.word ≡ empty_set }
    {
        StopSet::from_word(0)
    }

    /// The stop alone; the empty set for a number past 63.
    pub fn just(stop: usize) -> StopSet
        ensures { result.word ≡ (if nat_lt stop 64 then just stop else empty_set) }
    {
        if stop < 64 {
            StopSet { word: 1 << stop }
        } else {
            StopSet::empty()
        }
    }

    /// Whether the stop is a member; no number past 63 is.
    pub fn has(self, stop: usize) -> bool
        ensures { result ≡ member self.word stop }
    {
        stop < 64 && (self.word >> stop) % 2 == 1
    }

    /// The members of both.
    pub fn common(self, other: StopSet) -> StopSet
        ensures { result.word ≡ common self.word other.word }
    {
        StopSet {
            word: self.word & other.word,
        }
    }

    /// The members of either.
    pub fn joined(self, other: StopSet) -> StopSet
        ensures { result.word ≡ joined self.word other.word }
    {
        StopSet {
            word: self.word | other.word,
        }
    }

    /// Whether every member is one of the other set's.
    pub fn within(self, other: StopSet) -> bool
        ensures { result ≡ «within_set» self.word other.word }
    {
        self.common(other) == self
    }

    /// Whether every member is one of the stops 1 to `stops`.
    pub fn all_stops(self, stops: usize) -> bool
        ensures { result ≡ all_stops stops self.word }
    {
        !self.has(0) && self.none_past(stops)
    }

    // Whether no member is past `last`.
    fn none_past(self, last: usize) -> bool
        ensures { result ≡ nat_lt self.word (2 ^ (last + 1)) }
    {
        last >= 63 || self.word >> (last + 1) == 0
    }

    /// How many of the stops 1 to `stops` are members.
    #[tactic(auto, using(crate::proofs::Members::all_counted))]
    pub fn count(self, stops: usize) -> usize
        ensures { result ≡ count_to (member self.word) stops }
    {
        self.count_to(stops.min(63))
    }

    // The same, where the last stop is one that a set can have.
    fn count_to(self, last: usize) -> usize
        requires { last ≤ most_member }
        ensures { result ≡ count_to (member self.word) last }
    {
        (1..last + 1).filter(|stop| self.has(*stop)).count()
    }
}
