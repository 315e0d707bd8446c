//! Whether fixed parts hold for an event.
ghost use Rattle.std.specs.Prelude.{◌≡◌};
ghost use Rattle.std.specs.Ordering.{int_cmp};
ghost use Rattle.semantics.specs.Truth.{is_accepted, is_met, order_of};
ghost use Rattle.static_index.specs.FixedParts.{all_hold, first_holds, part_holds};
ghost use Rattle.static_index.specs.Table.{holds_as};

use crate::entry::Asked;
use crate::fixed_part::{FixedPart, FixedParts};
use crate::ranged_parts::RangedParts;
use event_types::{Cmp, Tuple, Value};
use scalar_expr::compares;

// Whether the parts that are asked hold for an event.
#[inline(always)]
pub(crate) fn holds(parts: &RangedParts, asked: Asked, event: &Tuple) -> bool
    ensures { result ≡ holds_as asked event.now parts.now }
{
    match asked {
        Asked::First => is_met_by_first(parts.list(), event),
        Asked::All => parts.all_hold(event),
    }
}

// Whether all the parts hold, asked one by one. Out of line, since their range tells most events.
#[inline(never)]
pub(crate) fn are_met(parts: &FixedParts, event: &Tuple) -> bool
    ensures { result ≡ all_hold event.now parts.now }
{
    parts.as_slice().iter().all(|part| meets_part(part, event))
}

// Whether the first part holds, or there is none.
fn is_met_by_first(parts: &FixedParts, event: &Tuple) -> bool
    ensures { result ≡ first_holds event.now parts.now }
{
    parts.len() == 0 || meets_part(parts.get(0), event)
}

// Whether a part holds.
fn meets_part(part: &FixedPart, event: &Tuple) -> bool
    ensures { result ≡ part_holds event.now part.now }
{
    meets(event, part.attr, part.cmp, &part.lit)
}

// Whether an attribute is there and compares with a literal.
pub(crate) fn meets(event: &Tuple, attr: usize, cmp: Cmp, lit: &Value) -> bool
    ensures { result ≡ part_holds event.now (record { attr = attr; cmp = cmp; lit = lit.now }) }
{
    attr < event.vals().len() && is_compared(cmp, event.vals().get(attr), lit)
}

// Whether a value compares with a literal. Two numbers, as most are, are told apart from the other kinds first.
fn is_compared(cmp: Cmp, value: &Value, lit: &Value) -> bool
    ensures { result ≡ is_met cmp (order_of value.now lit.now) }
{
    match (value, lit) {
        (Value::Int(number), Value::Int(other)) => numbers_compare(cmp, *number, *other),
        _ => any_compare(cmp, value, lit),
    }
}

// Whether a number compares with another.
fn numbers_compare(cmp: Cmp, number: i128, other: i128) -> bool
    ensures { result ≡ is_accepted cmp (int_cmp number other) }
{
    match cmp {
        Cmp::Eq => number == other,
        Cmp::Ne => number != other,
        Cmp::Lt => number < other,
        Cmp::Le => number <= other,
        Cmp::Gt => number > other,
        Cmp::Ge => number >= other,
    }
}

// Whether a value of any kind compares with a literal.
#[inline(never)]
fn any_compare(cmp: Cmp, value: &Value, lit: &Value) -> bool
    ensures { result ≡ is_met cmp (order_of value.now lit.now) }
{
    compares(cmp, value.look(), lit.look())
}
