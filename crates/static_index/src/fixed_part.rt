//! Fixed parts of conditions.
use event_types::{Cmp, List, Value};

/// A comparison of an attribute of the event, by its place from 0, with a literal: `$2.Price > 5`.
#[derive(Drop)]
pub struct FixedPart {
    pub attr: usize,
    pub cmp: Cmp,
    pub lit: Value,
}

/// Fixed parts of one condition, in its order.
pub type FixedParts = List<FixedPart>;
