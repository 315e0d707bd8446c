//! Conditions by what they ask of the event alone, so that few of them are looked at for an event.
//!
//! Contracts see a `FixedPart` as its attribute, its comparison and its literal, and a `StaticIndex` as the
//! list of its conditions, each with its id and its fixed parts, where the ids ascend.
#![tactic(auto)]

mod choosing;
mod column;
mod condition;
mod entries;
mod entry;
mod filing;
mod fixed_part;
mod hashed;
mod heading;
mod ids;
mod index;
mod laws;
mod limits;
mod meeting;
mod narrowing;
mod number_range;
mod numbered;
mod ordered;
mod ranged_parts;
mod span;
mod spanning;
mod spans;
mod tables;

pub use condition::fixed_hold;
pub use fixed_part::{FixedPart, FixedParts};
pub use index::StaticIndex;
pub use laws::{holding_conditions_are_matched, matched_conditions_are_looked_up};
