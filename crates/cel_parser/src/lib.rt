//! Reads query texts: statements from tokens.
//!
//! Contracts see a `File` as the list of its statements and the list of their lines, which some text
//! reads as.
#![tactic(auto)]

mod columns;
mod fault;
mod file;
mod grammar_laws;
mod items;
mod laws;
mod links;
mod literals;
mod numbers;
mod one_query;
mod parsing;
mod predicates;
mod reading;
mod scalars;
mod sentences;
mod signs;
mod sources;
mod statements;
mod symbol;
mod symbols;
mod unread;

pub use cel_grammar::{Agg, Aggs, Attr, Attrs, Item, Items, Mark, Raw, RawPred, Source, Statement};
pub use fault::SyntaxFault;
pub use file::File;
pub use grammar_laws::{one_reading, parentheses_tell, sentences_are_a_file};
pub use laws::{one_answer, one_query_answer};
pub use one_query::{OneQuery, parse_one};
pub use parsing::parse;
