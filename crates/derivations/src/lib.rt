//! How results came about: each tuple that an expression denotes, with the events behind it.
//!
//! Contracts see a `Deriv` as a term (`derivation_of`), a `Derived` as its tuple and this term
//! (`DerivedTuple`), and a `History` as its events with the numbers of their lines (`Heard`, `HeardLines`).
#![tactic(auto)]

mod denoting;
mod deriv;
mod found;
mod history;
mod iteration;
mod laws;
mod listing;
mod matching;
mod ordering;
mod publishing;
mod reading;
mod side;
mod sides;
mod texts;

pub use deriv::{Deriv, Derived, Deriveds, Derivs, Table};
pub use history::{Heard, History};
pub use laws::{
    derivations_differ, derived_tuples_are_denoted, listed_derivations_are_those_that_derive,
};
pub use listing::{copy_listed, is_listed};
pub use ordering::put_derived_in_order;
pub use publishing::{Query, derive_streams};
pub use texts::deriv_text;
