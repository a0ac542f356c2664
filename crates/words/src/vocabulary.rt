//! The vocabulary.
ghost use Rattle.std.specs.Prelude.{◌≡◌};
ghost use Rattle.words.specs.Vocabulary.{opens_line, same_word};

/// A word of a form.
#[derive(Clone, Copy, PartialEq, Eq)]
pub enum Keyword {
    Deck,
    Stops,
    Vans,
    Capacity,
    Battery,
    Most,
    Stop,
    Window,
    Load,
    Charger,
    Legs,
    End,
    Pile,
    Round,
    Town,
    Price,
    Set,
    Tighten,
}

/// All of them.
// By hand: no derive lists the variants of an enum.
pub(crate) const WORDS: [Keyword; 18] = [
    Keyword::Deck,
    Keyword::Stops,
    Keyword::Vans,
    Keyword::Capacity,
    Keyword::Battery,
    Keyword::Most,
    Keyword::Stop,
    Keyword::Window,
    Keyword::Load,
    Keyword::Charger,
    Keyword::Legs,
    Keyword::End,
    Keyword::Pile,
    Keyword::Round,
    Keyword::Town,
    Keyword::Price,
    Keyword::Set,
    Keyword::Tighten,
];

impl Keyword {
    /// Whether it is the same word as another.
    pub fn is(self, other: Keyword) -> bool
        ensures { result ≡ same_word self other }
    {
        self == other
    }

    /// Whether it is the name of a form that stands on a line of its own.
    pub fn opens_line(self) -> bool
        ensures { result ≡ opens_line self }
    {
        matches!(
            self,
            Keyword::Deck
                | Keyword::Stop
                | Keyword::Legs
                | Keyword::End
                | Keyword::Pile
                | Keyword::Price
                | Keyword::Set
                | Keyword::Tighten
        )
    }
}
