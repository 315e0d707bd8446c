//! The kinds of attributes.
ghost use Rattle.std.specs.Prelude.{Some};
ghost use Rattle.event_types.specs.KindWord.{kind_word};

use crate::list::List;
use std::fmt;

/// What an attribute holds: INT a whole number from -2^127 to 2^127-1, TEXT a text in UTF-8, and `DEC 2` a decimal
/// of 2 places, as 10.50, whose units, here 1050, are in the range of INT.
#[derive(Clone, Copy, PartialEq, Eq, Debug, Drop)]
pub enum Kind {
    Int,
    Text,
    Dec(u8),
}

/// The kind as it stands in a declaration.
impl fmt::Display for Kind {
    ghost output = { λ k. Some (kind_word k) };

    fn fmt<W: fmt::Write>(&self, f: &mut fmt::Formatter<W>) -> fmt::Result {
        match self {
            Kind::Int => write!(f, "INT"),
            Kind::Text => write!(f, "TEXT"),
            Kind::Dec(places) => write!(f, "DEC {places}"),
        }
    }
}

/// The kinds of a schema, in its order.
pub type Kinds = List<Kind>;

/// The kinds of each stream, by its number.
pub type KindLists = List<Kinds>;
