//! Equal scalars and predicates.
ghost use Rattle.std.specs.Prelude.{◌≡◌, IfOk};
ghost use Rattle.scalar_expr.specs.Views.{pr_of, sc_of};

use crate::predicate::Pred;
use crate::scalar::Scalar;
use event_types::{Copied, Memory};
use std::alloc::Global;

// An equal scalar.
#[cycle(copies)]
pub(crate) fn copy_scalar(alloc: Global, scalar: &Scalar) -> Result<Scalar, Memory>
    ensures { IfOk result (λ copy. sc_of copy ≡ sc_of scalar.now) }
{
    match scalar {
        Scalar::Lit(value) => Ok(Scalar::Lit(value.copied(alloc)?)),
        Scalar::Event(place) => Ok(Scalar::Event(*place)),
        Scalar::Binding(place) => Ok(Scalar::Binding(*place)),
        Scalar::Dur => Ok(Scalar::Dur),
        Scalar::Add(x, y) => Ok(Scalar::Add(boxed(alloc, x)?, boxed(alloc, y)?)),
        Scalar::Sub(x, y) => Ok(Scalar::Sub(boxed(alloc, x)?, boxed(alloc, y)?)),
        Scalar::Mul(x, y) => Ok(Scalar::Mul(boxed(alloc, x)?, boxed(alloc, y)?)),
        Scalar::Min(x, y) => Ok(Scalar::Min(boxed(alloc, x)?, boxed(alloc, y)?)),
        Scalar::Max(x, y) => Ok(Scalar::Max(boxed(alloc, x)?, boxed(alloc, y)?)),
    }
}

// An equal scalar in a box.
#[cycle(copies)]
fn boxed(alloc: Global, scalar: &Scalar) -> Result<Box<Scalar>, Memory>
    ensures { IfOk result (λ copy. sc_of copy.value ≡ sc_of scalar.now) }
{
    let copy = copy_scalar(alloc, scalar)?;
    Ok(Box::new(alloc, copy)?)
}

// An equal predicate.
pub(crate) fn copy_pred(alloc: Global, predicate: &Pred) -> Result<Pred, Memory>
    ensures { IfOk result (λ copy. pr_of copy ≡ pr_of predicate.now) }
{
    match predicate {
        Pred::True => Ok(Pred::True),
        Pred::Test(x, cmp, y) => {
            let x = copy_scalar(alloc, x)?;
            let y = copy_scalar(alloc, y)?;
            Ok(Pred::Test(x, *cmp, y))
        }
        Pred::And(left, right) => {
            let left = copy_pred(alloc, left)?;
            let right = copy_pred(alloc, right)?;
            Ok(Pred::And(Box::new(alloc, left)?, Box::new(alloc, right)?))
        }
        Pred::Or(left, right) => {
            let left = copy_pred(alloc, left)?;
            let right = copy_pred(alloc, right)?;
            Ok(Pred::Or(Box::new(alloc, left)?, Box::new(alloc, right)?))
        }
        Pred::Not(denied) => {
            let denied = copy_pred(alloc, denied)?;
            Ok(Pred::Not(Box::new(alloc, denied)?))
        }
    }
}
