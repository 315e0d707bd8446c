//! The fixed parts of a condition.
ghost use Rattle.std.specs.Prelude.{◌≡◌, ◌++◌, IfOk, OnOk};
ghost use Rattle.std.specs.Option.{option_to_list};
ghost use Rattle.scalar_expr.specs.Classes.{class_of_part};
ghost use Rattle.static_index.specs.FixedParts.{all_hold, fixed_part_of, fixed_parts, holds_if_any};

use crate::fixed_part::{FixedPart, FixedParts};
use crate::meeting::meets;
use event_types::{Copied, List, Memory, Tuple};
use scalar_expr::{Conj, Part};
use std::alloc::Global;

/// Whether all the fixed parts of a condition hold for an event. An attribute that the event doesn't have
/// meets no comparison. Takes no memory.
pub fn fixed_hold(condition: &Conj, event: &Tuple) -> bool
    ensures { result ≡ all_hold event.now (fixed_parts condition.now) }
{
    let mut place = 0;
    while place < condition.size() {
        if !is_met(condition.part(place), event) {
            return false;
        }
        place += 1;
    }
    true
}

// Whether a part holds as far as it is fixed.
fn is_met(part: Part<'_>, event: &Tuple) -> bool
    ensures { result ≡ holds_if_any event.now (fixed_part_of (class_of_part part.entry)) }
{
    match part {
        Part::Fixed { attr, cmp, lit } => meets(event, attr, cmp, lit),
        _ => true,
    }
}

// Copies of the fixed parts.
pub(crate) fn copy_fixed(alloc: Global, condition: &Conj) -> Result<FixedParts, Memory>
    ensures { IfOk result (λ parts. parts ≡ fixed_parts condition.now) }
{
    let mut parts = List::new(alloc);
    let mut place = 0;
    while place < condition.size() {
        let part = copy_part(alloc, condition.part(place))?;
        push_any(&mut parts, part)?;
        place += 1;
    }
    Ok(parts)
}

// A copy of a part, if it is fixed.
fn copy_part(alloc: Global, part: Part<'_>) -> Result<Option<FixedPart>, Memory>
    ensures { IfOk result (λ copy. copy ≡ fixed_part_of (class_of_part part.entry)) }
{
    match part {
        Part::Fixed { attr, cmp, lit } => {
            let lit = lit.copied(alloc)?;
            Ok(Some(FixedPart { attr, cmp, lit }))
        }
        _ => Ok(None),
    }
}

// Puts a part at the end, if there is one.
fn push_any(parts: &mut FixedParts, part: Option<FixedPart>) -> Result<(), Memory>
    ensures { OnOk result (parts.new ≡ parts.old ++ option_to_list part) }
{
    match part {
        Some(part) => match parts.push(part) {
            Ok(()) => Ok(()),
            Err(_) => Err(Memory),
        },
        None => Ok(()),
    }
}
