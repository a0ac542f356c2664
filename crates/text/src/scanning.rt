//! Token by token.
ghost use Rattle.std.specs.Prelude.{◌≡◌, ℕ, ◌+◌, ◌-◌, ◌<◌, ◌≤◌, length, IfOk, MatchOption, MatchResult, slice_index, drop, true, false};
ghost use Rattle.std.specs.Fn.{FnOnceReturnsAt};
ghost use Rattle.std.specs.List.{list_all};
ghost use Rattle.text.specs.declared.fault.TextFault.TheVariants.{BadNumber};
ghost use Rattle.text.specs.Tokens.{is_digit, front, seen, sized, ok_token, marked, with_place, scan, word_at, number_at, negative_at, amount_at};

use super::cursor::Cursor;
use super::digits::{is_non_zero, is_well_formed, value};
use super::fault::TextFault;
use super::runs::front;
use super::token::{Mark, Token};

// Each says that the text stays, since a call with a &mut may change any field; and how large a number is, since an enum has no invariant.
impl<'a> Cursor<'a> {
    /// The next token, where no signed amount is due: a hyphen is a fault.
    pub fn next(&mut self) -> Result<Token<'a>, TextFault>
        ensures text { self.new.text.now ≡ self.old.text.now }
        ensures token { with_place seen result self.new.at ≡ scan self.old.text.now self.old.at }
        ensures sized { IfOk result sized }
    {
        let at = self.at;
        let Some(c) = self.peek() else {
            return Ok(Token::End(self.text.len()));
        };
        match c {
            '(' => Ok(self.mark(Mark::Open)),
            ')' => Ok(self.mark(Mark::Close)),
            ' ' => Ok(self.mark(Mark::Blank)),
            '\n' => Ok(self.mark(Mark::Feed)),
            'a'..='z' => Ok(self.word()),
            '0'..='9' => self.number(),
            '-' => Err(TextFault::BadNumber(at)),
            _ => Err(TextFault::NoKind(at)),
        }
    }

    /// The next token, where the amount of a set is due: a hyphen may precede a number other than 0.
    pub fn next_amount(&mut self) -> Result<Token<'a>, TextFault>
        ensures text { self.new.text.now ≡ self.old.text.now }
        ensures token { with_place seen result self.new.at ≡ amount_at self.old.text.now self.old.at }
        ensures sized { IfOk result sized }
    {
        match self.peek() {
            Some('-') => self.negative(),
            _ => self.next(),
        }
    }

    // The byte that is next, as a character.
    fn peek(&self) -> Option<char>
        ensures { MatchOption result (length self.now.text.now ≤ self.now.at)
            (λ c. (self.now.at < length self.now.text.now) × (c ≡ slice_index self.now.text.now self.now.at)) }
    {
        self.text.get(self.at).copied().map(char::from)
    }

    // The text from a place on: nothing, where the text has ended.
    fn rest(&self, from: usize) -> &'a [u8]
        ensures { result.now ≡ drop from self.now.text.now }
    {
        self.text.get(from..).unwrap_or_default()
    }

    // One byte.
    fn mark(&mut self, mark: Mark) -> Token<'a>
        requires { self.old.at < length self.old.text.now }
        ensures text { self.new.text.now ≡ self.old.text.now }
        ensures next { self.new.at ≡ self.old.at + 1 }
        ensures token { seen result ≡ marked mark self.old.at }
        ensures sized { sized result }
    {
        let at = self.at;
        self.at = at + 1;
        Token::Mark(mark, at)
    }

    // The longest run of letters from here.
    // Inlined: else each token, a mark too, costs the clearing of a place for what this answers.
    #[inline(always)]
    fn word(&mut self) -> Token<'a>
        ensures text { self.new.text.now ≡ self.old.text.now }
        ensures token { with_place seen (ok_token result) self.new.at ≡ word_at self.old.text.now self.old.at }
        ensures sized { sized result }
    {
        let at = self.at;
        let word = front(self.rest(at), u8::is_ascii_lowercase);
        self.at = at + word.len();
        Token::Word(word, at)
    }

    // The longest run of digits from here.
    fn number(&mut self) -> Result<Token<'a>, TextFault>
        ensures text { self.new.text.now ≡ self.old.text.now }
        ensures token { with_place seen result self.new.at ≡ number_at self.old.text.now self.old.at }
        ensures sized { IfOk result sized }
    {
        let at = self.at;
        let digits = self.digits_from(at, is_well_formed)?;
        self.at = at + digits.len();
        Ok(Token::Number(value(digits), digits, at))
    }

    // A hyphen, and the longest run of digits behind it.
    fn negative(&mut self) -> Result<Token<'a>, TextFault>
        requires { self.old.at < length self.old.text.now }
        ensures text { self.new.text.now ≡ self.old.text.now }
        ensures token { with_place seen result self.new.at ≡ negative_at self.old.text.now self.old.at }
        ensures sized { IfOk result sized }
    {
        let at = self.at;
        let digits = self.digits_from(at + 1, is_non_zero)?;
        self.at = at + 1 + digits.len();
        Ok(Token::Negative(value(digits), &self.text[at..self.at], at))
    }

    // The longest run of digits from a place on, where it passes a test.
    fn digits_from<F: FnOnce(&[u8]) -> bool>(
        &self,
        from: usize,
        fits: F,
    ) -> Result<&'a [u8], TextFault>
        requires { F.IsAlwaysCallable fits }
        ensures { MatchResult result
            (λ ds. (ds.now ≡ front is_digit (drop from self.now.text.now)) × (list_all is_digit ds.now ≡ true) × FnOnceReturnsAt F.FnOnce fits ds.now true)
            (λ e. (e ≡ BadNumber self.now.at) × FnOnceReturnsAt F.FnOnce fits (front is_digit (drop from self.now.text.now)) false) }
    {
        let digits = front(self.rest(from), u8::is_ascii_digit);
        if fits(digits) {
            Ok(digits)
        } else {
            Err(TextFault::BadNumber(self.at))
        }
    }
}
