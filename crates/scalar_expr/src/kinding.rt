//! The kinds of scalars.
ghost use Rattle.std.specs.Prelude.{◌≡◌};
ghost use Rattle.std.specs.Option.{option_copied};
ghost use Rattle.semantics.specs.Kinds.{value_kind};
ghost use Rattle.semantics.specs.OpKinds.{alike_kind, product_kind};
ghost use Rattle.scalar_expr.specs.Kinds.{HasPlace, or_int, sc_kind};
ghost use Rattle.scalar_expr.specs.Views.{sc_of};

use crate::scalar::Scalar;
use event_types::{Kind, Kinds, Value};

// The most places of a decimal.
const MOST_PLACES: u32 = 18;

/// The kind of a scalar over an event and a binding of these kinds.
///
/// An operation whose operands have kinds that it doesn't take counts as a whole number. Takes no memory.
pub fn kind_of(scalar: &Scalar, event: &Kinds, binding: Option<&Kinds>) -> Kind
    requires { HasPlace (sc_of scalar.now) event.now (option_copied binding) }
    ensures { result ≡ sc_kind (sc_of scalar.now) event.now (option_copied binding.entry) }
{
    match scalar {
        Scalar::Lit(value) => literal_kind(value),
        Scalar::Event(place) => *event.get(*place),
        Scalar::Binding(place) => match binding {
            Some(kinds) => *kinds.get(*place),
            None => unreachable!(),
        },
        Scalar::Dur => Kind::Int,
        Scalar::Mul(x, y) => {
            let left = kind_of(x, event, binding);
            or_int(product_kind(left, kind_of(y, event, binding)))
        }
        Scalar::Add(x, y) => {
            let left = kind_of(x, event, binding);
            or_int(alike_kind(left, kind_of(y, event, binding)))
        }
        Scalar::Sub(x, y) => {
            let left = kind_of(x, event, binding);
            or_int(alike_kind(left, kind_of(y, event, binding)))
        }
        Scalar::Min(x, y) => {
            let left = kind_of(x, event, binding);
            or_int(alike_kind(left, kind_of(y, event, binding)))
        }
        Scalar::Max(x, y) => {
            let left = kind_of(x, event, binding);
            or_int(alike_kind(left, kind_of(y, event, binding)))
        }
    }
}

/// The kind of a sum, a difference, MIN or MAX of operands of these kinds, where it has one.
pub fn alike_kind(left: Kind, right: Kind) -> Option<Kind>
    ensures { result ≡ alike_kind left right }
{
    match (left, right) {
        (Kind::Int, Kind::Int) => Some(Kind::Int),
        (Kind::Dec(places), Kind::Dec(others)) => {
            if places == others {
                Some(Kind::Dec(places))
            } else {
                None
            }
        }
        _ => None,
    }
}

/// The kind of a product of operands of these kinds, where it has one.
pub fn product_kind(left: Kind, right: Kind) -> Option<Kind>
    ensures { result ≡ product_kind left right }
{
    match (left, right) {
        (Kind::Int, Kind::Int) => Some(Kind::Int),
        (Kind::Int, Kind::Dec(places)) => Some(Kind::Dec(places)),
        (Kind::Dec(places), Kind::Int) => Some(Kind::Dec(places)),
        (Kind::Dec(places), Kind::Dec(others)) => {
            let sum = places as u32 + others as u32;
            if sum <= MOST_PLACES {
                Some(Kind::Dec(sum as u8))
            } else {
                None
            }
        }
        _ => None,
    }
}

fn or_int(kind: Option<Kind>) -> Kind
    ensures { result ≡ or_int kind }
{
    match kind {
        Some(kind) => kind,
        None => Kind::Int,
    }
}

// The kind of a literal.
fn literal_kind(value: &Value) -> Kind
    ensures { result ≡ value_kind value.now }
{
    match value {
        Value::Text(_) => Kind::Text,
        Value::Dec { scale, .. } => Kind::Dec(*scale),
        _ => Kind::Int,
    }
}
