//! Expressions over streams, as values of the program.
//!
//! Contracts see an `Expr` as a term (`ex_of`).
#![tactic(auto)]

mod expression;

pub use expression::Expr;
