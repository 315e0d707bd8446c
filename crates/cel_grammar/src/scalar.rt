//! Scalars as they are written.
use crate::mark::Mark;
use event_types::Text;

/// A scalar as it is written: `$2.Price + 1` is `Add` of an attribute `Price` with its mark and the number 1.
pub enum Raw {
    /// From -(2^127-1) to 2^127-1.
    Number(i128),
    /// What stands between the quotes, each doubled quote once.
    Quoted(Text),
    Attr(Mark, Text),
    Dur,
    Add(Box<Raw>, Box<Raw>),
    Sub(Box<Raw>, Box<Raw>),
    Mul(Box<Raw>, Box<Raw>),
    Min(Box<Raw>, Box<Raw>),
    Max(Box<Raw>, Box<Raw>),
    /// `10.50` has the scale 2 and 1050 units, which lie between -(2^127-1) and 2^127-1. The scale is from 1 to 18.
    Decimal { scale: u8, units: i128 },
}

// One call lets a tree go, where a derive would take it apart at each place.
impl Drop for Raw {
    fn drop(self) {
        match self {
            Raw::Number(_) => {}
            Raw::Quoted(_text) => {}
            Raw::Attr(_, _name) => {}
            Raw::Dur => {}
            Raw::Add(_left, _right) => {}
            Raw::Sub(_left, _right) => {}
            Raw::Mul(_left, _right) => {}
            Raw::Min(_left, _right) => {}
            Raw::Max(_left, _right) => {}
            Raw::Decimal { scale: _, units: _ } => {}
        }
    }
}
