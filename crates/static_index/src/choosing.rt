//! Under what a condition is found by the fewest events.
ghost use Rattle.std.specs.Prelude.{◌≡◌, ◌≤◌, ◌<◌, ℕ, true, false, length, slice_index_or};
ghost use Rattle.static_index.specs.Choosing.{Covers, IsBest, rank};
ghost use Rattle.static_index.specs.declared.entry.Choice.TheVariants.{Part};
ghost use Rattle.static_index.specs.declared.fixed_part.FixedPart.{FixedPart};

use crate::entry::Choice;
use crate::fixed_part::{FixedPart, FixedParts};
use crate::spanning::span_of;
use crate::tables::Tables;
use event_types::Cmp;

// An equality, where there is one; else the span of two parts that bound a number on both sides, where there are
// such; else a part of a range, where there is one; else any part.
pub(crate) fn choose(tables: &Tables, parts: &FixedParts) -> Choice
    ensures best { IsBest result parts.now }
    ensures covers { Covers parts.now result }
{
    let best = best_part(tables, parts);
    if is_equality(parts, best) {
        return Choice::Part(best);
    }
    match span_of(parts) {
        Some(span) => Choice::Span(span),
        None => Choice::Part(best),
    }
}

// The place of an equality, where there is one, of a range, where there is one, else of any part; among
// equalities of one with the fewest ids so far.
fn best_part(tables: &Tables, parts: &FixedParts) -> usize
    ensures best { IsBest (Part result) parts.now }
    ensures within { 0 < length parts.now → result < length parts.now }
{
    let mut best = 0;
    'places: for place in 0..parts.len() {
        if is_better(tables, parts.get(place), parts.get(best)) {
            best = place;
        }
    }
    best
}

// Whether the part at a place is there, and an equality.
fn is_equality(parts: &FixedParts, place: usize) -> bool
    ensures { result ≡ false → (d : FixedPart) → place < length parts.now → 1 ≤ rank (slice_index_or parts.now place d).cmp }
{
    place < parts.len() && matches!(parts.get(place).cmp, Cmp::Eq)
}

// Whether a part is to be taken in place of another.
fn is_better(tables: &Tables, part: &FixedPart, best: &FixedPart) -> bool
    ensures better { result ≡ true → rank part.now.cmp ≤ rank best.now.cmp }
    ensures not_better { result ≡ false → rank best.now.cmp ≤ rank part.now.cmp }
{
    match (part.cmp, best.cmp) {
        (Cmp::Eq, Cmp::Eq) => tables.count(part) < tables.count(best),
        (Cmp::Eq, _) => true,
        (_, Cmp::Eq) => false,
        (Cmp::Ne, _) => false,
        (_, Cmp::Ne) => true,
        _ => false,
    }
}
