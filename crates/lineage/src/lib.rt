//! The events behind each result.
//!
//! Contracts see a `Table` as lists of tuples with their derivations, one for each query in the order of their
//! numbers (`AreDerivations`).
#![tactic(auto)]

mod asking;
mod checking;
mod tables;

pub use checking::check;
pub use derivations::{
    Deriv, Derived, Deriveds, Derivs, Heard, History, Table, deriv_text, put_derived_in_order,
};
pub use tables::derive;
