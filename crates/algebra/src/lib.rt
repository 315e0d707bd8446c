//! A plain evaluator of what expressions over streams denote.
//!
//! Contracts see an `Env` as the tuples of each stream (`streams_of`).
#![tactic(auto)]

mod evaluation;
mod iteration;
mod laws;
mod matching;

pub use evaluation::{Env, evaluate};
pub use expressions::Expr;
pub use laws::{sound_streams_give_sound_tuples, typed_programs_suit, typed_suits};
