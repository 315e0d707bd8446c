//! The values of scalars.
ghost use Rattle.std.specs.Prelude.{◌≡◌, pos, ◌-ℤ◌, IfNone, IfSome};
ghost use Rattle.std.specs.Option.{option_copied};
ghost use Rattle.event_types.specs.ValueOfRef.{value_of_ref};
ghost use Rattle.event_types.specs.declared.value.Value.TheVariants as value;
ghost use Rattle.semantics.specs.Values.{val, span_start};
ghost use Rattle.scalar_expr.specs.Fits.{Fits, IsComputed};
ghost use Rattle.scalar_expr.specs.Views.{sc_of};

use crate::arithmetic::{difference, larger, product, smaller, sum};
use crate::scalar::Scalar;
use event_types::{Tuple, Value, ValueRef};

/// The value of a scalar over an event and a binding.
///
/// Takes no memory.
#[cycle(values)]
pub fn value_of<'a>(
    scalar: &'a Scalar,
    event: &'a Tuple,
    binding: Option<&'a Tuple>,
) -> ValueRef<'a>
    requires { Fits (sc_of scalar.now) event.now (option_copied binding) }
    ensures { value_of_ref result ≡ val (sc_of scalar.now) event.now (option_copied binding.entry) }
{
    match value_in_place(scalar, event, binding) {
        Some(value) => value.look(),
        None => computed(scalar, event, binding),
    }
}

// The value of a literal or of an attribute, where it stands. No other scalar's value stands anywhere.
#[inline(always)]
pub(crate) fn value_in_place<'a>(
    scalar: &'a Scalar,
    event: &'a Tuple,
    binding: Option<&'a Tuple>,
) -> Option<&'a Value>
    requires { Fits (sc_of scalar.now) event.now (option_copied binding) }
    ensures found { IfSome result (λ value. value.now ≡ val (sc_of scalar.now) event.now (option_copied binding.entry)) }
    ensures absent { IfNone result (IsComputed (sc_of scalar.now)) }
{
    match scalar {
        Scalar::Lit(value) => Some(value),
        Scalar::Event(place) => Some(event.vals().get(*place)),
        Scalar::Binding(place) => match binding {
            Some(binding) => Some(binding.vals().get(*place)),
            None => unreachable!(),
        },
        _ => None,
    }
}

// The value of DUR or of an operation. It stands apart since a function clears the room of all its
// operands, which a literal or an attribute doesn't need.
#[cycle(values)]
#[inline(never)]
pub(crate) fn computed<'a>(
    scalar: &'a Scalar,
    event: &'a Tuple,
    binding: Option<&'a Tuple>,
) -> ValueRef<'a>
    requires computed { IsComputed (sc_of scalar.now) }
    requires fits { Fits (sc_of scalar.now) event.now (option_copied binding) }
    ensures { value_of_ref result ≡ val (sc_of scalar.now) event.now (option_copied binding.entry) }
{
    match scalar {
        Scalar::Dur => ValueRef::Int(span(event, binding)),
        Scalar::Add(x, y) => sum(value_of(x, event, binding), value_of(y, event, binding)),
        Scalar::Sub(x, y) => difference(value_of(x, event, binding), value_of(y, event, binding)),
        Scalar::Mul(x, y) => product(value_of(x, event, binding), value_of(y, event, binding)),
        Scalar::Min(x, y) => smaller(value_of(x, event, binding), value_of(y, event, binding)),
        Scalar::Max(x, y) => larger(value_of(x, event, binding), value_of(y, event, binding)),
        _ => unreachable!(),
    }
}

// The whole number that is the value of DUR or of an operation, if both operands are whole numbers that stand
// somewhere.
pub(crate) fn number_of(scalar: &Scalar, event: &Tuple, binding: Option<&Tuple>) -> Option<i128>
    requires { Fits (sc_of scalar.now) event.now (option_copied binding) }
    ensures { IfSome result (λ number. val (sc_of scalar.now) event.now (option_copied binding.entry) ≡ value.Int number) }
{
    match scalar {
        Scalar::Dur => Some(span(event, binding)),
        Scalar::Add(x, y) => {
            number_at(x, event, binding)?.checked_add(number_at(y, event, binding)?)
        }
        Scalar::Sub(x, y) => {
            number_at(x, event, binding)?.checked_sub(number_at(y, event, binding)?)
        }
        Scalar::Mul(x, y) => {
            number_at(x, event, binding)?.checked_mul(number_at(y, event, binding)?)
        }
        Scalar::Min(x, y) => {
            Some(number_at(x, event, binding)?.min(number_at(y, event, binding)?))
        }
        Scalar::Max(x, y) => {
            Some(number_at(x, event, binding)?.max(number_at(y, event, binding)?))
        }
        _ => None,
    }
}

// The whole number that a literal or an attribute has as its value, if it has one.
fn number_at(scalar: &Scalar, event: &Tuple, binding: Option<&Tuple>) -> Option<i128>
    requires { Fits (sc_of scalar.now) event.now (option_copied binding) }
    ensures { IfSome result (λ number. val (sc_of scalar.now) event.now (option_copied binding.entry) ≡ value.Int number) }
{
    match value_in_place(scalar, event, binding) {
        Some(Value::Int(number)) => Some(*number),
        _ => None,
    }
}

// How long an event lasts, or how long it comes after the start of its binding.
pub(crate) fn span(event: &Tuple, binding: Option<&Tuple>) -> i128
    ensures { result ≡ pos event.now.at -ℤ pos (span_start event.now (option_copied binding.entry)) }
{
    let start = match binding {
        Some(binding) => binding.from(),
        None => event.from(),
    };
    event.at() as i128 - start as i128
}
