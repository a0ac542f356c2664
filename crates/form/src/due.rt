//! Reads the token that is due.
ghost use Rattle.std.specs.Prelude.{◌≡◌};
ghost use Rattle.text.specs.Tokens.{seen};
ghost use Rattle.text.specs.Readers.{Read};
ghost use Rattle.form.specs.Forms.{undue_of, same, mark_due, word_due, named, name_due, numeral, number_due, signed, amount_due};

use super::fault::FormFault;
use super::placed::{Amount, Name, Numeral, Placed};
use text::{Cursor, Mark, Token};
use words::{Keyword, look_up, spells};

/// The fault where another token was due: 15 for a word in no form, else 14.
pub fn undue(token: Token) -> FormFault
    ensures { result ≡ undue_of (seen token.entry) }
{
    match token {
        Token::Word(word, place) if look_up(word).is_none() => FormFault::NoForm(place),
        Token::Mark(_, place)
        | Token::Word(_, place)
        | Token::Number(_, _, place)
        | Token::Negative(_, _, place)
        | Token::End(place) => FormFault::NotDue(place),
    }
}

/// A bracket, a blank or a line feed.
pub fn due_mark(cursor: &mut Cursor, due: Mark) -> Result<(), FormFault>
    ensures { Read same cursor.old cursor.new result (mark_due due) }
{
    // before `?`: the copy that it makes of the token waits for the bytes that were just written
    match cursor.next() {
        Ok(Token::Mark(mark, _)) if mark == due => Ok(()),
        found => Err(undue(found?)),
    }
}

/// This word.
pub fn due_word(cursor: &mut Cursor, due: Keyword) -> Result<(), FormFault>
    ensures { Read same cursor.old cursor.new result (word_due due) }
{
    match cursor.next()? {
        Token::Word(word, _) if spells(word, due) => Ok(()),
        token => Err(undue(token)),
    }
}

/// Some word of the forms.
pub fn due_name(cursor: &mut Cursor) -> Result<Name, FormFault>
    ensures { Read named cursor.old cursor.new result name_due }
{
    match cursor.next()? {
        Token::Word(word, place) => match look_up(word) {
            Some(value) => Ok(Placed { value, place }),
            None => Err(FormFault::NoForm(place)),
        },
        token => Err(undue(token)),
    }
}

/// A number.
pub fn due_number(cursor: &mut Cursor) -> Result<Numeral, FormFault>
    ensures { Read numeral cursor.old cursor.new result number_due }
{
    match cursor.next()? {
        Token::Number(value, _, place) => Ok(Placed { value, place }),
        token => Err(undue(token)),
    }
}

/// The amount of a set: a number, which may be negative.
pub fn due_amount(cursor: &mut Cursor) -> Result<Amount, FormFault>
    ensures { Read signed cursor.old cursor.new result amount_due }
{
    match cursor.next_amount()? {
        Token::Number(size, _, place) => Ok(Placed {
            value: size as i64,
            place,
        }),
        Token::Negative(size, _, place) => Ok(Placed {
            value: -(size as i64),
            place,
        }),
        token => Err(undue(token)),
    }
}
