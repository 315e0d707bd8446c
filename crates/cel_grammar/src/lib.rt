//! The grammar of query texts, over symbols that carry their texts as bytes.
//!
//! The definitions stand in `specs/`: the symbols, the trees that they are read as, and a relation for
//! each rule, which says that a tree stands at the front of some symbols and what follows it. The types
//! of this crate are the same trees as values of a program, which contracts see through the functions of
//! `specs/Views`.
#![tactic(auto)]

mod mark;
mod predicate;
mod scalar;
mod source;
mod statement;

pub use mark::Mark;
pub use predicate::RawPred;
pub use scalar::Raw;
pub use source::{Agg, Aggs, Item, Items, Source};
pub use statement::{Attr, Attrs, Statement};
