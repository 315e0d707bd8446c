//! The canonical form of predicates.
ghost use Rattle.std.specs.Prelude.{◌≡◌, ◌++◌, map, IfOk, OnOk};
ghost use Rattle.semantics.specs.Scalars.{Test};
ghost use Rattle.scalar_expr.specs.Canonical.{canonical, conjuncts, distinct_parts, turned, turned_test};
ghost use Rattle.scalar_expr.specs.Views.{pr_of, sc_of};

use crate::conjunction::Conj;
use crate::ordering::compare_scalars;
use crate::predicate::Pred;
use crate::scalar::Scalar;
use event_types::{Cmp, Memory};
use std::alloc::Global;

/// The canonical form of a predicate: `5 < $2.Price AND TRUE AND $2.Price > 5` is the one part
/// `5 < $2.Price`.
///
/// Want of memory drops the predicate.
pub fn normal(alloc: Global, predicate: Pred) -> Result<Conj, Memory>
    ensures { IfOk result (λ condition. condition ≡ canonical (pr_of predicate)) }
{
    let mut parts = Vec::new(alloc);
    let mut predicate = predicate;
    turn(&mut predicate);
    cut(predicate, &mut parts)?;
    Ok(Conj::of(parts))
}

// Turns every comparison round.
fn turn(predicate: &mut Pred)
    ensures { pr_of predicate.new ≡ turned (pr_of predicate.old) }
{
    match predicate {
        Pred::True => {}
        Pred::Test(x, cmp, y) => turn_test(x, cmp, y),
        Pred::And(left, right) => {
            turn(left);
            turn(right);
        }
        Pred::Or(left, right) => {
            turn(left);
            turn(right);
        }
        Pred::Not(denied) => turn(denied),
    }
}

// Turns one comparison round.
fn turn_test(x: &mut Scalar, cmp: &mut Cmp, y: &mut Scalar)
    ensures { Test (sc_of x.new) cmp.new (sc_of y.new) ≡ turned_test (sc_of x.old) cmp.old (sc_of y.old) }
{
    match *cmp {
        Cmp::Lt | Cmp::Le => {}
        Cmp::Gt => {
            *cmp = Cmp::Lt;
            std::mem::swap(x, y);
        }
        Cmp::Ge => {
            *cmp = Cmp::Le;
            std::mem::swap(x, y);
        }
        Cmp::Eq | Cmp::Ne => {
            if compare_scalars(x, y).is_gt() {
                std::mem::swap(x, y);
            }
        }
    }
}

// Puts the parts between the outer ANDs behind those that are there, without TRUE.
fn cut(predicate: Pred, parts: &mut Vec<Pred>) -> Result<(), Memory>
    ensures { OnOk result (map pr_of parts.new.items ≡ map pr_of parts.old.items ++ conjuncts (pr_of predicate)) }
{
    match predicate {
        Pred::True => {}
        Pred::And(left, right) => {
            cut(Box::into_inner(left), parts)?;
            cut(Box::into_inner(right), parts)?;
        }
        part => parts.push(part)?,
    }
    Ok(())
}
