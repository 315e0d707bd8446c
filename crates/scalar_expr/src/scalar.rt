//! Scalars.
use event_types::{List, Value};

/// A scalar over an event and a binding: `$1.Price + 1` is `Add` of `Binding(1)` and `Lit` of 1, where
/// `Price` is the second attribute of the left schema.
///
/// Attributes are places of a tuple, counted from 0. No literal in a query's text is OVER.
#[derive(Drop)]
pub enum Scalar {
    Lit(Value),
    Event(usize),
    Binding(usize),
    /// The event's detection minus the binding's start, or without a binding minus its own.
    Dur,
    Add(Box<Scalar>, Box<Scalar>),
    Sub(Box<Scalar>, Box<Scalar>),
    Mul(Box<Scalar>, Box<Scalar>),
    Min(Box<Scalar>, Box<Scalar>),
    Max(Box<Scalar>, Box<Scalar>),
}

/// One scalar for each value of a result.
pub type Scalars = List<Scalar>;
