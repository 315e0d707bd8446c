//! The canonical forms of conditions.
ghost use Rattle.std.specs.Prelude.{◌≡◌, ◌≢◌, IfOk, IfErr};
ghost use Rattle.cel_grammar.specs.Trees.{Test};
ghost use Rattle.cel_grammar.specs.Views.{pred_of, scalar_of};
ghost use Rattle.cel_types.specs.Predicates.{Fails, Means};
ghost use Rattle.cel_types.specs.Views.{scope_of};
ghost use Rattle.scalar_expr.specs.Canonical.{canonical};
ghost use Rattle.scalar_expr.specs.Views.{pr_of};
ghost use Rattle.semantics.specs.Scalars.{Pr};

use crate::fault::TypeFault;
use crate::scalars::scalar;
use crate::scope::Scope;
use cel_grammar::{Raw, RawPred};
use event_types::Cmp;
use scalar_expr::{Conj, Pred, normal};
use std::alloc::Global;

/// The condition that a predicate means, in its canonical form.
pub fn condition(alloc: Global, scope: &Scope<'_>, raw: &RawPred) -> Result<Conj, TypeFault>
    ensures ok { IfOk result (λ c. (u : Pr) × Means (scope_of scope.now) (pred_of raw.now) u × (c ≡ canonical u)) }
    ensures err { IfErr result (λ fault. fault ≢ TypeFault.Memory → Fails (scope_of scope.now) (pred_of raw.now) fault) }
{
    let predicate = predicate(alloc, scope, raw)?;
    Ok(normal(alloc, predicate)?)
}

// The term that a predicate means.
#[cycle(predicates)]
#[tactic(auto, using(crate::proofs::TypingRules::predicate_rules))]
fn predicate(alloc: Global, scope: &Scope<'_>, raw: &RawPred) -> Result<Pred, TypeFault>
    ensures ok { IfOk result (λ p. Means (scope_of scope.now) (pred_of raw.now) (pr_of p)) }
    ensures err { IfErr result (λ fault. fault ≢ TypeFault.Memory → Fails (scope_of scope.now) (pred_of raw.now) fault) }
{
    match raw {
        RawPred::True => Ok(Pred::True),
        RawPred::Test(x, cmp, y) => test(alloc, scope, x, *cmp, y),
        RawPred::And(left, right) => {
            let left = boxed(alloc, scope, left)?;
            let right = boxed(alloc, scope, right)?;
            Ok(Pred::And(left, right))
        }
        RawPred::Or(left, right) => {
            let left = boxed(alloc, scope, left)?;
            let right = boxed(alloc, scope, right)?;
            Ok(Pred::Or(left, right))
        }
        RawPred::Not(denied) => Ok(Pred::Not(boxed(alloc, scope, denied)?)),
    }
}

// The term that a predicate means, in a box.
#[cycle(predicates)]
fn boxed(alloc: Global, scope: &Scope<'_>, raw: &RawPred) -> Result<Box<Pred>, TypeFault>
    ensures ok { IfOk result (λ p. Means (scope_of scope.now) (pred_of raw.now) (pr_of p.value)) }
    ensures err { IfErr result (λ fault. fault ≢ TypeFault.Memory → Fails (scope_of scope.now) (pred_of raw.now) fault) }
{
    let predicate = predicate(alloc, scope, raw)?;
    Ok(Box::new(alloc, predicate)?)
}

// The term of a comparison.
#[tactic(auto, using(crate::proofs::TypingRules::test_rules))]
fn test(
    alloc: Global,
    scope: &Scope<'_>,
    left: &Raw,
    cmp: Cmp,
    right: &Raw,
) -> Result<Pred, TypeFault>
    ensures ok { IfOk result (λ p. Means (scope_of scope.now) (Test (scalar_of left.now) cmp (scalar_of right.now)) (pr_of p)) }
    ensures err { IfErr result (λ fault. fault ≢ TypeFault.Memory → Fails (scope_of scope.now) (Test (scalar_of left.now) cmp (scalar_of right.now)) fault) }
{
    let (x, want) = scalar(alloc, scope, left)?;
    let (y, got) = scalar(alloc, scope, right)?;
    if want != got {
        return Err(TypeFault::KindMismatch { want, got });
    }
    Ok(Pred::Test(x, cmp, y))
}
