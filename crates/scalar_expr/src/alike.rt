//! Conditions over an event and a binding that have one key.
ghost use Rattle.std.specs.Prelude.{◌≡◌, ◌+◌, ◌≤◌, IsTrue, Some};
ghost use Rattle.std.specs.List.{All, list_all};
ghost use Rattle.event_types.specs.declared.comparison.Cmp.TheVariants as cmp;
ghost use Rattle.semantics.specs.Nexts.{is_eligible};
ghost use Rattle.semantics.specs.Scalars.{Binding, Event, Test};
ghost use Rattle.semantics.specs.Truth.{all_true, truth};
ghost use Rattle.scalar_expr.specs.Fits.{AllFit, PredFits};
ghost use Rattle.scalar_expr.specs.Views.{pr_of};

use crate::conjunction::Conj;
use crate::predicate::Pred;
use crate::scalar::Scalar;
use crate::truth::part_is_true;
use event_types::{Cmp, Tuple};
use steps::{Ledger, Steps};

/// The places of an attribute of the event and of one of the binding, counted from 0.
#[derive(Clone, Copy)]
pub struct KeyPlaces {
    pub event: usize,
    pub binding: usize,
}

/// Whether the tuple is eligible for the binding, where these attributes are equal: whether they are isn't tested again.
/// Takes no memory.
pub fn can_follow_alike<L: Ledger>(
    condition: &Conj,
    key: KeyPlaces,
    binding: &Tuple,
    tuple: &Tuple,
    steps: &mut Steps<L>,
) -> bool
    requires fits { AllFit condition.now tuple.now (Some binding.now) }
    requires alike { IsTrue (truth (Test (Event key.event) cmp.Eq (Binding key.binding)) tuple.now (Some binding.now)) }
    ensures value { result ≡ is_eligible condition.now binding.now tuple.now }
    ensures ticks { steps.new ≤ steps.old + 1 }
{
    binding.at() < tuple.from() && holds_alike(condition, key, tuple, binding, steps)
}

// Whether all parts hold over an event and a binding of which these attributes are equal.
fn holds_alike<L: Ledger>(
    condition: &Conj,
    key: KeyPlaces,
    event: &Tuple,
    binding: &Tuple,
    steps: &mut Steps<L>,
) -> bool
    requires fits { AllFit condition.now event.now (Some binding.now) }
    requires alike { IsTrue (truth (Test (Event key.event) cmp.Eq (Binding key.binding)) event.now (Some binding.now)) }
    ensures value { result ≡ all_true condition.now event.now (Some binding.now) }
    ensures ticks { steps.new ≡ steps.old + 1 }
{
    steps.tick();
    all_hold_alike(condition.parts(), key, event, binding)
}

// Whether each of the predicates holds there.
#[inline(never)]
fn all_hold_alike(parts: &[Pred], key: KeyPlaces, event: &Tuple, binding: &Tuple) -> bool
    requires fits { All (λ p. PredFits (pr_of p) event.now (Some binding.now)) parts.now }
    requires alike { IsTrue (truth (Test (Event key.event) cmp.Eq (Binding key.binding)) event.now (Some binding.now)) }
    ensures { result ≡ list_all (λ p. truth (pr_of p) event.now (Some binding.now)) parts.now }
{
    parts.iter().all(|part| asks_for(part, key) || part_is_true(part, event, Some(binding)))
}

// Whether a predicate is that these attributes are equal, and nothing else.
#[inline(always)]
fn asks_for(predicate: &Pred, key: KeyPlaces) -> bool
    ensures { IsTrue result → pr_of predicate.now ≡ Test (Event key.event) cmp.Eq (Binding key.binding) }
{
    match predicate {
        Pred::Test(Scalar::Event(event), Cmp::Eq, Scalar::Binding(binding)) => {
            *event == key.event && *binding == key.binding
        }
        _ => false,
    }
}
