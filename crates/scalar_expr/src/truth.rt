//! The truth of predicates and conjunctions.
ghost use Rattle.std.specs.Prelude.{◌≡◌, ◌+◌};
ghost use Rattle.std.specs.List.{All, list_all};
ghost use Rattle.std.specs.Option.{option_copied};
ghost use Rattle.event_types.specs.ValueOfRef.{value_of_ref};
ghost use Rattle.event_types.specs.declared.value.Value.TheVariants as value;
ghost use Rattle.semantics.specs.Scalars.{Test};
ghost use Rattle.semantics.specs.Truth.{all_true, is_accepted as accepted, is_met, order_of, truth};
ghost use Rattle.scalar_expr.specs.Fits.{Fits, PredFits, AllFit};
ghost use Rattle.scalar_expr.specs.Views.{pr_of, sc_of};

use crate::conjunction::Conj;
use crate::predicate::Pred;
use crate::scalar::Scalar;
use crate::valuation::{span, value_in_place, value_of};
use event_types::{Cmp, Tuple, Value, ValueRef};
use std::cmp::Ordering;
use steps::{Ledger, Steps};

/// Whether all parts hold over an event and a binding.
///
/// Takes no memory.
pub fn holds<L: Ledger>(
    condition: &Conj,
    event: &Tuple,
    binding: Option<&Tuple>,
    steps: &mut Steps<L>,
) -> bool
    requires { AllFit condition.now event.now (option_copied binding) }
    ensures value { result ≡ all_true condition.now event.now (option_copied binding.entry) }
    ensures ticks { steps.new ≡ steps.old + 1 }
{
    steps.tick();
    all_hold(condition.parts(), event, binding)
}

// Whether each of the predicates holds.
#[inline(never)]
fn all_hold(parts: &[Pred], event: &Tuple, binding: Option<&Tuple>) -> bool
    requires { All (λ p. PredFits (pr_of p) event.now (option_copied binding)) parts.now }
    ensures { result ≡ list_all (λ p. truth (pr_of p) event.now (option_copied binding.entry)) parts.now }
{
    parts.iter().all(|part| part_is_true(part, event, binding))
}

// Whether a predicate holds, a comparison without more ado.
#[inline(always)]
pub(crate) fn part_is_true(predicate: &Pred, event: &Tuple, binding: Option<&Tuple>) -> bool
    requires { PredFits (pr_of predicate.now) event.now (option_copied binding) }
    ensures { result ≡ truth (pr_of predicate.now) event.now (option_copied binding.entry) }
{
    match predicate {
        Pred::Test(x, cmp, y) => test_is_true(x, *cmp, y, event, binding),
        _ => is_true(predicate, event, binding),
    }
}

// Whether a predicate holds.
#[inline(never)]
fn is_true(predicate: &Pred, event: &Tuple, binding: Option<&Tuple>) -> bool
    requires { PredFits (pr_of predicate.now) event.now (option_copied binding) }
    ensures { result ≡ truth (pr_of predicate.now) event.now (option_copied binding.entry) }
{
    match predicate {
        Pred::True => true,
        Pred::Test(x, cmp, y) => test_is_true(x, *cmp, y, event, binding),
        Pred::And(left, right) => is_true(left, event, binding) && is_true(right, event, binding),
        Pred::Or(left, right) => is_true(left, event, binding) || is_true(right, event, binding),
        Pred::Not(denied) => !is_true(denied, event, binding),
    }
}

// Whether the values of two scalars compare so. Those that stand somewhere are compared in place, and DUR with its bound
// without more ado.
#[inline(always)]
fn test_is_true(x: &Scalar, cmp: Cmp, y: &Scalar, event: &Tuple, binding: Option<&Tuple>) -> bool
    requires left { Fits (sc_of x.now) event.now (option_copied binding) }
    requires right { Fits (sc_of y.now) event.now (option_copied binding) }
    ensures { result ≡ truth (Test (sc_of x.now) cmp (sc_of y.now)) event.now (option_copied binding.entry) }
{
    if let (Scalar::Dur, Scalar::Lit(Value::Int(most))) = (x, y) {
        return is_accepted(cmp, span(event, binding).cmp(most));
    }
    match (
        value_in_place(x, event, binding),
        value_in_place(y, event, binding),
    ) {
        (Some(x), Some(y)) => compares_in_place(cmp, x, y),
        _ => computed_test_is_true(x, cmp, y, event, binding),
    }
}

// Whether the values of two scalars compare so, wherever they are.
#[inline(never)]
fn computed_test_is_true(
    x: &Scalar,
    cmp: Cmp,
    y: &Scalar,
    event: &Tuple,
    binding: Option<&Tuple>,
) -> bool
    requires left { Fits (sc_of x.now) event.now (option_copied binding) }
    requires right { Fits (sc_of y.now) event.now (option_copied binding) }
    ensures { result ≡ truth (Test (sc_of x.now) cmp (sc_of y.now)) event.now (option_copied binding.entry) }
{
    compares(
        cmp,
        value_of(x, event, binding),
        value_of(y, event, binding),
    )
}

// Whether two values compare so, whole numbers and texts where they stand.
#[inline(always)]
fn compares_in_place(cmp: Cmp, x: &Value, y: &Value) -> bool
    ensures { result ≡ is_met cmp (order_of x.now y.now) }
{
    match (x, y) {
        (Value::Int(x), Value::Int(y)) => is_accepted(cmp, x.cmp(y)),
        (Value::Text(x), Value::Text(y)) => texts_compare(cmp, x.as_str(), y.as_str()),
        _ => compares_apart(cmp, x, y),
    }
}

// The same of any two values.
#[inline(never)]
fn compares_apart(cmp: Cmp, x: &Value, y: &Value) -> bool
    ensures { result ≡ is_met cmp (order_of x.now y.now) }
{
    compares(cmp, x.look(), y.look())
}

/// Whether two values compare so: numbers by size, decimals of one scale by units, texts by bytes. Values of
/// two kinds never do, nor OVER with any value.
///
/// Takes no memory.
pub fn compares(cmp: Cmp, x: ValueRef<'_>, y: ValueRef<'_>) -> bool
    ensures { result ≡ is_met cmp (order_of (value_of_ref x.entry) (value_of_ref y.entry)) }
{
    match (x, y) {
        (ValueRef::Int(x), ValueRef::Int(y)) => is_accepted(cmp, x.cmp(&y)),
        (ValueRef::Text(x), ValueRef::Text(y)) => texts_compare(cmp, x, y),
        (ValueRef::Dec { scale: s, units: x }, ValueRef::Dec { scale: t, units: y }) => {
            decimals_compare(cmp, s, x, t, y)
        }
        _ => false,
    }
}

// Whether two texts compare so. Whether they are equal is told without their order.
fn texts_compare(cmp: Cmp, x: &str, y: &str) -> bool
    ensures { result ≡ is_met cmp (order_of (value.Text x.now) (value.Text y.now)) }
{
    match cmp {
        Cmp::Eq => x == y,
        _ => is_accepted(cmp, x.cmp(&y)),
    }
}

// Whether two decimals compare so: those of one scale by units.
fn decimals_compare(cmp: Cmp, s: u8, x: i128, t: u8, y: i128) -> bool
    ensures { result ≡ is_met cmp (order_of (value.Dec s x) (value.Dec t y)) }
{
    s == t && is_accepted(cmp, x.cmp(&y))
}

// Whether a comparison accepts the order of its operands.
fn is_accepted(cmp: Cmp, order: Ordering) -> bool
    ensures { result ≡ accepted cmp order }
{
    match cmp {
        Cmp::Eq => order.is_eq(),
        Cmp::Ne => order.is_ne(),
        Cmp::Lt => order.is_lt(),
        Cmp::Le => order.is_le(),
        Cmp::Gt => order.is_gt(),
        Cmp::Ge => order.is_ge(),
    }
}
