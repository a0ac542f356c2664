//! What can be wrong with a token in its place.
ghost use Rattle.std.specs.Prelude.{◌≡◌};
ghost use Rattle.form.specs.declared.fault.FormFault.TheVariants.{Text};

use text::TextFault;

/// A fault of the form, with the place of the token found, or that of the text as it gave it.
#[derive(Clone, Copy)]
pub enum FormFault {
    Text(TextFault),
    /// 14: another token was due, or the text ends
    NotDue(usize),
    /// 15: a word that stands in no form
    NoForm(usize),
}

impl From<TextFault> for FormFault {
    ghost from_gives = { λ x y. y ≡ Text x };

    fn from(value: TextFault) -> FormFault {
        FormFault::Text(value)
    }
}
