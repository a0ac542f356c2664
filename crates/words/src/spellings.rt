//! How words are spelt: one table for reading and for writing.
ghost use Rattle.std.specs.Prelude.{◌≡◌};
ghost use Rattle.std.specs.Str.{bytes_eq};
ghost use Rattle.words.specs.Vocabulary.{spelt, keyword_of};

use super::vocabulary::{Keyword, WORDS};

/// The bytes of a word.
// No `Display`: a deck is bytes, and a word is compared with a part of them.
pub fn spelling(word: Keyword) -> &'static [u8]
    ensures { result.now ≡ spelt word }
{
    match word {
        Keyword::Deck => b"deck",
        Keyword::Stops => b"stops",
        Keyword::Vans => b"vans",
        Keyword::Capacity => b"capacity",
        Keyword::Battery => b"battery",
        Keyword::Most => b"most",
        Keyword::Stop => b"stop",
        Keyword::Window => b"window",
        Keyword::Load => b"load",
        Keyword::Charger => b"charger",
        Keyword::Legs => b"legs",
        Keyword::End => b"end",
        Keyword::Pile => b"pile",
        Keyword::Round => b"round",
        Keyword::Town => b"town",
        Keyword::Price => b"price",
        Keyword::Set => b"set",
        Keyword::Tighten => b"tighten",
    }
}

/// Whether these are the bytes of a word.
pub fn spells(bytes: &[u8], word: Keyword) -> bool
    ensures { result ≡ bytes_eq bytes.now (spelt word) }
{
    bytes == spelling(word)
}

/// The word that these bytes spell, if it stands in some form.
pub fn look_up(bytes: &[u8]) -> Option<Keyword>
    ensures { result ≡ keyword_of bytes.now }
{
    WORDS.iter().copied().find(|word| spells(bytes, *word))
}
