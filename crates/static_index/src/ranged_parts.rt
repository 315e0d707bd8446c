//! Fixed parts with the range that tells most of them at once.
ghost use Rattle.std.specs.Prelude.{◌≡◌};
ghost use Rattle.static_index.specs.FixedParts.{all_hold};

use crate::fixed_part::FixedParts;
use crate::meeting::are_met;
use crate::number_range::{NumberRange, range_of};
use event_types::Tuple;
use std::marker::Model;

// Fixed parts of one condition, and the range of numbers that they ask of one attribute, by which most events are told
// without a look at the parts.
#[derive(Drop)]
pub(crate) struct RangedParts {
    range: NumberRange,
    parts: FixedParts,
}

impl Model for RangedParts {
    ghost use Rattle.std.specs.Prelude.{List};
    ghost use Rattle.static_index.specs.declared.fixed_part.FixedPart.{FixedPart};

    ghost Value = { List FixedPart };

    ghost use Rattle.static_index.specs.Ranges.{Bounds};

    ghost view = { λ s. s.parts };

    ghost invariant = { λ s. Bounds s.range s.parts };
}

impl RangedParts {
    // Takes no memory.
    pub(crate) fn new(parts: FixedParts) -> RangedParts
        ensures { result ≡ parts }
    {
        let range = range_of(&parts);
        RangedParts { range, parts }
    }

    pub(crate) fn list(&self) -> &FixedParts
        ensures { result.now ≡ self.now }
    {
        &self.parts
    }

    // Whether all the parts hold.
    #[inline(always)]
    pub(crate) fn all_hold(&self, event: &Tuple) -> bool
        ensures { result ≡ all_hold event.now self.now }
    {
        match self.range.tell(event) {
            Some(told) => told,
            None => are_met(&self.parts, event),
        }
    }
}
