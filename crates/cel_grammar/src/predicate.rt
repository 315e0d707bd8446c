//! Predicates as they are written.
use crate::scalar::Raw;
use event_types::Cmp;

/// A predicate as it is written.
pub enum RawPred {
    True,
    Test(Raw, Cmp, Raw),
    And(Box<RawPred>, Box<RawPred>),
    Or(Box<RawPred>, Box<RawPred>),
    Not(Box<RawPred>),
}

// As of a scalar.
impl Drop for RawPred {
    fn drop(self) {
        match self {
            RawPred::True => {}
            RawPred::Test(_left, _, _right) => {}
            RawPred::And(_left, _right) => {}
            RawPred::Or(_left, _right) => {}
            RawPred::Not(_pred) => {}
        }
    }
}
