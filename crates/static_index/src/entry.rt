//! What an index keeps of each condition.
use crate::ranged_parts::RangedParts;
use crate::span::Span;

// The fixed parts of a condition, and under what `matching` finds it.
#[derive(Drop)]
pub(crate) struct Entry {
    pub(crate) parts: RangedParts,
    // on the heap, since only adding and removing read it
    pub(crate) choice: Box<Choice>,
}

// Under what a condition is found.
#[derive(Clone, Copy)]
pub(crate) enum Choice {
    // the part at this place, and without one nothing
    Part(usize),
    Span(Span),
}

// Which fixed parts of a condition have to hold.
#[derive(Clone, Copy)]
pub(crate) enum Asked {
    First,
    All,
}
