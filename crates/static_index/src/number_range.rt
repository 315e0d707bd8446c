//! The range of numbers that fixed parts ask of one attribute.
ghost use Rattle.std.specs.Prelude.{◌≡◌, ◌∷◌, ◌++◌, ℤ, [], List, FitsSigned, IfSome};
ghost use Rattle.std.specs.Int.{w64};
ghost use Rattle.std.specs.Ordering.{int_cmp};
ghost use Rattle.event_types.specs.Tuple.{TupleView};
ghost use Rattle.event_types.specs.declared.value.Value.TheVariants.{Int};
ghost use Rattle.semantics.specs.Truth.{is_accepted, is_met, order_of};
ghost use Rattle.static_index.specs.FixedParts.{all_hold, part_holds};
ghost use Rattle.static_index.specs.Ranges.{Bounds, HasNumber, is_between};
ghost use Rattle.static_index.specs.declared.fixed_part.FixedPart.{FixedPart};

use crate::fixed_part::{FixedPart, FixedParts};
use event_types::{Cmp, Tuple, Value};

// The numbers of 64 bits of an attribute from `low` to `high`, outside of which some part fails. Where the range is
// all that the parts ask, `whole`, each number in it meets them all.
#[derive(Clone, Copy)]
pub(crate) struct NumberRange {
    attr: usize,
    low: i64,
    high: i64,
    whole: bool,
}

impl NumberRange {
    // Whether the parts hold for an event, where the range tells.
    #[inline(always)]
    pub(crate) fn tell(&self, event: &Tuple) -> Option<bool>
        ensures { (parts : List FixedPart) → Bounds self.now parts → IfSome result (λ told. told ≡ all_hold event.now parts) }
    {
        let number = number_at(event, self.attr)?;
        if number < self.low || self.high < number {
            Some(false)
        } else if self.whole {
            Some(true)
        } else {
            None
        }
    }
}

// The number of 64 bits at an attribute of an event, if there is one.
#[inline(always)]
fn number_at(event: &Tuple, attr: usize) -> Option<i64>
    ensures { IfSome result (λ number. HasNumber event.now attr number) }
{
    if attr < event.vals().len() {
        small_number(event.vals().get(attr))
    } else {
        None
    }
}

// The number of 64 bits that a value is, if it is one.
#[inline(always)]
fn small_number(value: &Value) -> Option<i64>
    ensures { IfSome result (λ number. FitsSigned w64 number × (value.now ≡ Int number)) }
{
    match value {
        Value::Int(number) => i64::try_from(*number).ok(),
        _ => None,
    }
}

// The range that the parts ask of the attribute of the first that bounds a number.
pub(crate) fn range_of(parts: &FixedParts) -> NumberRange
    ensures { Bounds result parts.now }
{
    let mut range = NumberRange {
        attr: bounded_attr(parts),
        low: i64::MIN,
        high: i64::MAX,
        whole: true,
    };
    'places: for place in 0..parts.len() {
        range = narrowed(range, parts.get(place));
    }
    range
}

// The attribute of the first part that bounds a number, or any.
fn bounded_attr(parts: &FixedParts) -> usize {
    'places: for place in 0..parts.len() {
        let part = parts.get(place);
        if ends_at(part, part.attr).is_some() {
            return part.attr;
        }
    }
    0
}

// The range with one part more.
fn narrowed(range: NumberRange, part: &FixedPart) -> NumberRange
    ensures { (parts : List FixedPart) → Bounds range parts → Bounds result (parts ++ part.now ∷ []) }
{
    match ends_at(part, range.attr) {
        Some((low, high)) => NumberRange {
            attr: range.attr,
            low: range.low.max(low),
            high: range.high.min(high),
            whole: range.whole,
        },
        None => NumberRange {
            attr: range.attr,
            low: range.low,
            high: range.high,
            whole: false,
        },
    }
}

// The least and the greatest number of an attribute with which a part holds, if it asks for a range of numbers.
fn ends_at(part: &FixedPart, attr: usize) -> Option<(i64, i64)>
    ensures { IfSome result (λ ends. (event : TupleView) (number : ℤ) → HasNumber event attr number → part_holds event part.now ≡ is_between ends.0 ends.1 number) }
{
    if part.attr != attr {
        return None;
    }
    ends_met(part.cmp, small_number(&part.lit)?)
}

// The least and the greatest number that compares with another, if those are a range.
fn ends_met(cmp: Cmp, lit: i64) -> Option<(i64, i64)>
    ensures { IfSome result (λ ends. (number : ℤ) → FitsSigned w64 number → is_accepted cmp (int_cmp number lit) ≡ is_between ends.0 ends.1 number) }
{
    match cmp {
        Cmp::Eq => Some((lit, lit)),
        Cmp::Ne => None,
        Cmp::Lt => Some((i64::MIN, lit.checked_sub(1)?)),
        Cmp::Le => Some((i64::MIN, lit)),
        Cmp::Gt => Some((lit.checked_add(1)?, i64::MAX)),
        Cmp::Ge => Some((lit, i64::MAX)),
    }
}
