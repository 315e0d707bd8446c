//! Predicates.
use crate::scalar::Scalar;
use event_types::Cmp;

/// A predicate over an event and a binding: `NOT $2.Price = 5` is `Not` of a `Test`.
#[derive(Drop)]
pub enum Pred {
    True,
    Test(Scalar, Cmp, Scalar),
    And(Box<Pred>, Box<Pred>),
    Or(Box<Pred>, Box<Pred>),
    Not(Box<Pred>),
}
