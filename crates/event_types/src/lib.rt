//! Values, tuples and the lists that every layer hands on.
//!
//! Contracts see a `List` as the list of its items, a `Text` as its bytes, and a `Tuple` as its values,
//! its start and its detection time, where the start is never after the detection.
#![tactic(auto)]

mod comparison;
mod kind;
mod list;
mod memory;
mod text;
mod tuple;
mod value;

pub use comparison::Cmp;
pub use kind::{Kind, KindLists, Kinds};
pub use list::{Copied, List, Numbers};
pub use memory::Memory;
pub use text::{Names, Text};
pub use tuple::{BadSpan, StreamId, Tuple, Tuples, put_in_order};
pub use value::{Vals, Value, ValueRef};
