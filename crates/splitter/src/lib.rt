//! Expressions and programs as left-deep automaton lines.
//!
//! Contracts see a `Namer` as the next number that it hands out, which is 2^64 where none is left, queries
//! in the order of work as the numbers and the expressions of their streams (`work_of`), and a program as
//! `semantics` has it (`lines_of`, `work_order`).
#![tactic(auto)]

mod chains;
mod kinds;
mod laws;
mod namer;
mod open;
mod program_laws;
mod splitting;
mod stages;

pub use chains::{Chains, add_query};
pub use laws::{
    added_lines_mean_their_expression, lines_are_in_order, lines_mean_their_expression,
};
pub use namer::Namer;
pub use program_laws::{
    chains_are_in_order, chains_mean_their_program, plain_networks_fit, queries_are_derived,
};
pub use splitting::split;
