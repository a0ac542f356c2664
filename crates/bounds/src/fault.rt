//! Faults, each with the cause as the layer below gave it.
ghost use Rattle.std.specs.Prelude.{◌≡◌, Some};
ghost use Rattle.bounds.specs.declared.fault.BookFault.TheVariants.{Form};
ghost use Rattle.bounds.specs.Faults.{number_of, place_of, layer_of, layer_name};

use form::FormFault;
use std::fmt;
use text::TextFault;

/// A fault of the book, with the place of its token, or that of the form as it gave it.
#[derive(Clone, Copy)]
pub enum BookFault {
    Form(FormFault),
    /// 16: a number outside its range
    Range(usize),
    /// 17: a number, or the name of a form that opens a line, out of order
    Order(usize),
}

impl From<FormFault> for BookFault {
    ghost from_gives = { λ x y. y ≡ Form x };

    fn from(value: FormFault) -> BookFault {
        BookFault::Form(value)
    }
}

/// The layer in which a fault arose.
#[derive(Clone, Copy, Debug, PartialEq, Eq)]
pub enum Layer {
    Text,
    Form,
    Book,
}

impl fmt::Display for Layer {
    ghost output = { λ layer. Some (layer_name layer) };

    fn fmt<W: fmt::Write>(&self, f: &mut fmt::Formatter<W>) -> fmt::Result {
        f.write_str(match self {
            Layer::Text => "text",
            Layer::Form => "form",
            Layer::Book => "book",
        })
    }
}

impl BookFault {
    /// 12 to 17.
    // By cases: they lie in three enums and hold places, so no discriminant is their number.
    pub fn number(self) -> u64
        ensures { result ≡ number_of self }
    {
        match self {
            BookFault::Form(FormFault::Text(TextFault::NoKind(_))) => 12,
            BookFault::Form(FormFault::Text(TextFault::BadNumber(_))) => 13,
            BookFault::Form(FormFault::NotDue(_)) => 14,
            BookFault::Form(FormFault::NoForm(_)) => 15,
            BookFault::Range(_) => 16,
            BookFault::Order(_) => 17,
        }
    }

    /// The offset of the token's first byte.
    pub fn place(self) -> usize
        ensures { result ≡ place_of self }
    {
        match self {
            BookFault::Form(FormFault::Text(TextFault::NoKind(place) | TextFault::BadNumber(place)))
            | BookFault::Form(FormFault::NotDue(place) | FormFault::NoForm(place))
            | BookFault::Range(place)
            | BookFault::Order(place) => place,
        }
    }

    pub fn layer(self) -> Layer
        ensures { result ≡ layer_of self }
    {
        match self {
            BookFault::Form(FormFault::Text(_)) => Layer::Text,
            BookFault::Form(_) => Layer::Form,
            _ => Layer::Book,
        }
    }
}
