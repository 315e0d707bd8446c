//! What ids are filed under.
ghost use Rattle.std.specs.Prelude.{◌≡◌, slice_get};
ghost use Rattle.std.specs.Option.{option_map};
ghost use Rattle.static_index.specs.Headings.{Part, attr_of, label, label_of};

use crate::entry::Choice;
use crate::fixed_part::{FixedPart, FixedParts};
use crate::ranged_parts::RangedParts;
use crate::span::Span;

// A fixed part of the conditions, or a span in which a number of the event lies where they hold.
#[derive(Clone, Copy)]
pub(crate) enum Heading<'a> {
    Part(&'a FixedPart),
    Span(Span),
}

// The attribute of the event that a heading asks for.
pub(crate) fn attr_under(heading: Heading<'_>) -> usize
    ensures { result ≡ attr_of (label heading.entry) }
{
    match heading {
        Heading::Part(part) => part.attr,
        Heading::Span(span) => span.attr,
    }
}

// The heading that was chosen, if there is one.
pub(crate) fn heading_of(parts: &RangedParts, choice: Choice) -> Option<Heading<'_>>
    ensures { option_map label result ≡ label_of parts.now choice }
{
    match choice {
        Choice::Part(place) => part_at(parts.list(), place),
        Choice::Span(span) => Some(Heading::Span(span)),
    }
}

// The part at a place, if there is one.
fn part_at(parts: &FixedParts, place: usize) -> Option<Heading<'_>>
    ensures { option_map label result ≡ option_map Part (slice_get parts.now place) }
{
    if place < parts.len() {
        Some(Heading::Part(parts.get(place)))
    } else {
        None
    }
}
