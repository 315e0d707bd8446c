//! Ranges of numbers that are bounded on both sides.
ghost use Rattle.std.specs.Prelude.{◌≡◌, true, pos, ◌+◌, ◌*◌, ◌≤◌, ◌+ℤ◌, ◌-ℤ◌, ◌≤ℤ◌, unsigned_abs, IfSome};
ghost use Rattle.event_types.specs.Tuple.{TupleView};
ghost use Rattle.semantics.specs.Values.{value_at};
ghost use Rattle.static_index.specs.FixedParts.{part_holds};
ghost use Rattle.static_index.specs.Spans.{IsFrom, IsUpTo, LiesIn};

use crate::fixed_part::FixedPart;
use event_types::{Cmp, Value};

// The numbers of an attribute from `low` up to `reach` above it: a range that is bounded on both sides, made
// wider to the next power of two, so that many ranges have one reach.
#[derive(Clone, Copy)]
pub(crate) struct Span {
    pub(crate) attr: usize,
    pub(crate) low: i128,
    pub(crate) reach: u128,
}

// The span of two parts, where they are the low end and the high end of one range of numbers.
pub(crate) fn span_between(low: &FixedPart, high: &FixedPart) -> Option<Span>
    ensures { IfSome result (λ span. (event : TupleView) → part_holds event low.now ≡ true → part_holds event high.now ≡ true → LiesIn span (value_at event span.attr)) }
{
    if low.attr != high.attr {
        return None;
    }
    let low_end = low_end(low)?;
    let high_end = high_end(high)?;
    Some(Span {
        attr: low.attr,
        low: low_end,
        reach: reach(&low_end, &high_end),
    })
}

// The number that an attribute is to be no less than, if a part asks for one.
fn low_end(part: &FixedPart) -> Option<i128>
    ensures { IfSome result (λ low. (event : TupleView) → part_holds event part.now ≡ true → IsFrom low (value_at event part.now.attr)) }
{
    match (part.cmp, &part.lit) {
        (Cmp::Gt | Cmp::Ge, Value::Int(low)) => Some(*low),
        _ => None,
    }
}

// The number that an attribute is to be at most, if a part asks for one.
fn high_end(part: &FixedPart) -> Option<i128>
    ensures { IfSome result (λ high. (event : TupleView) → part_holds event part.now ≡ true → IsUpTo high (value_at event part.now.attr)) }
{
    match (part.cmp, &part.lit) {
        (Cmp::Lt | Cmp::Le, Value::Int(high)) => Some(*high),
        _ => None,
    }
}

// A power of two that is no less than what lies between two numbers, or the greatest of 128 bits.
fn reach(low: &i128, high: &i128) -> u128
    ensures far { high.now ≤ℤ (low.now +ℤ pos result) }
    ensures near { result ≤ 2 * unsigned_abs (high.now -ℤ low.now) + 1 }
{
    let width = high.abs_diff(*low);
    let mut reach: u128 = 1;
    'doublings: while reach < width {
        reach = reach.saturating_mul(2);
    }
    reach
}
