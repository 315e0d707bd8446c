//! Cuts a query text into tokens.
//!
//! Contracts see `Tokens` as the bytes of the source and the list of the tokens over it, in order, which
//! are all that the source has.
#![tactic(auto)]

mod bytes;
mod fault;
mod literals;
mod names;
mod numbers;
mod pieces;
mod scanner;
mod signs;
mod token;
mod tokens;
mod words;

pub use fault::LexFault;
pub use names::is_name;
pub use scanner::lex;
pub use token::{Token, What};
pub use tokens::Tokens;
