//! The span of a condition.
ghost use Rattle.std.specs.Prelude.{◌≡◌, ◌<◌, ◌⊎◌, IfSome, length};
ghost use Rattle.static_index.specs.Choosing.{LiesWithin};

use crate::fixed_part::FixedParts;
use crate::span::{Span, span_between};

// The span with the least reach in which a number of the event lies where all parts hold, if two parts bound one.
pub(crate) fn span_of(parts: &FixedParts) -> Option<Span>
    ensures { IfSome result (LiesWithin parts.now) }
{
    let mut least = None;
    'lows: for low in 0..parts.len() {
        least = lesser(least, span_from(parts, low));
    }
    least
}

// The same of those whose low end is the part at a place.
fn span_from(parts: &FixedParts, low: usize) -> Option<Span>
    requires { low < length parts.now }
    ensures { IfSome result (LiesWithin parts.now) }
{
    let mut least = None;
    'highs: for high in 0..parts.len() {
        least = lesser(least, span_between(parts.get(low), parts.get(high)));
    }
    least
}

// Of two spans that with the lesser reach, where there are two.
fn lesser(one: Option<Span>, other: Option<Span>) -> Option<Span>
    ensures { (result ≡ one) ⊎ (result ≡ other) }
{
    match (one, other) {
        (Some(first), Some(second)) if first.reach <= second.reach => one,
        (_, None) => one,
        _ => other,
    }
}
