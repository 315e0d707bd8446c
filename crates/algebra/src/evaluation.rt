//! The plain evaluator: it computes what an expression denotes.
ghost use Rattle.std.specs.Prelude.{◌≡◌, ◌++◌, IfOk, OnOk, length, map, None};
ghost use Rattle.std.specs.List.{All, filter};
ghost use Rattle.semantics.specs.Denotation.{denote, selected, streams_of};
ghost use Rattle.semantics.specs.Truth.{all_true};
ghost use Rattle.scalar_expr.specs.Fits.{Fits};
ghost use Rattle.algebra.specs.Suits.{FitsEach, Suits};
ghost use Rattle.expressions.specs.Views.{ex_of};

use crate::iteration::{Fold, add_all_runs};
use crate::matching::add_all_matches;
use event_types::{List, Memory, Tuple, Tuples};
use expressions::Expr;
use scalar_expr::{Conj, Map, apply, holds};
use std::alloc::Global;
use steps::{Ledger, Steps};

/// The tuples of each stream, by its number.
pub type Env = List<Tuples>;

/// What the expression denotes, in the order of its meaning. Want of memory drops what was found.
#[cycle(evaluation)]
pub fn evaluate<L: Ledger>(
    alloc: Global,
    expr: &Expr,
    env: &Env,
    steps: &mut Steps<L>,
) -> Result<Tuples, Memory>
    requires { Suits (ex_of expr.now) (length env.now) (streams_of env.now) }
    ensures { IfOk result (λ tuples. tuples ≡ denote (ex_of expr.now) (streams_of env.now)) }
{
    let mut tuples = List::new(alloc);
    add_results(alloc, &mut tuples, expr, env, steps)?;
    Ok(tuples)
}

// Puts what the expression denotes behind the tuples that are there.
#[cycle(evaluation)]
fn add_results<L: Ledger>(
    alloc: Global,
    out: &mut Tuples,
    expr: &Expr,
    env: &Env,
    steps: &mut Steps<L>,
) -> Result<(), Memory>
    requires { Suits (ex_of expr.now) (length env.now) (streams_of env.now) }
    ensures { OnOk result (out.new ≡ out.old ++ denote (ex_of expr.now) (streams_of env.now)) }
{
    match expr {
        Expr::Read(stream) => add_copies(alloc, out, env.get(*stream).as_slice()),
        Expr::Filter(condition, inner) => {
            let tuples = evaluate(alloc, inner, env, steps)?;
            add_filtered(alloc, out, condition, tuples.as_slice(), steps)
        }
        Expr::Select(projection, inner) => {
            let tuples = evaluate(alloc, inner, env, steps)?;
            add_selected(alloc, out, projection, tuples.as_slice())
        }
        Expr::Union(left, right) => {
            add_results(alloc, out, left, env, steps)?;
            add_results(alloc, out, right, env, steps)
        }
        Expr::Next(condition, left, right) => {
            let bindings = evaluate(alloc, left, env, steps)?;
            let tuples = evaluate(alloc, right, env, steps)?;
            add_all_matches(
                alloc,
                out,
                condition,
                bindings.as_slice(),
                tuples.as_slice(),
                steps,
            )
        }
        Expr::Fold(choose, on, projection, left, right) => {
            let bindings = evaluate(alloc, left, env, steps)?;
            let tuples = evaluate(alloc, right, env, steps)?;
            let fold = Fold {
                choose,
                on,
                projection,
                tuples: tuples.as_slice(),
            };
            add_all_runs(alloc, out, &fold, bindings.as_slice(), steps)
        }
    }
}

// Adds equal tuples.
fn add_copies(alloc: Global, out: &mut Tuples, tuples: &[Tuple]) -> Result<(), Memory>
    ensures { OnOk result (out.new ≡ out.old ++ tuples.now) }
{
    for tuple in tuples {
        out.add(tuple.copy(alloc)?)?;
    }
    Ok(())
}

// Adds the tuples for which the condition holds.
fn add_filtered<L: Ledger>(
    alloc: Global,
    out: &mut Tuples,
    condition: &Conj,
    tuples: &[Tuple],
    steps: &mut Steps<L>,
) -> Result<(), Memory>
    requires { FitsEach condition.now tuples.now }
    ensures { OnOk result (out.new ≡ out.old ++ filter (λ tuple. all_true condition.now tuple None) tuples.now) }
{
    for tuple in tuples {
        if holds(condition, tuple, None, steps) {
            out.add(tuple.copy(alloc)?)?;
        }
    }
    Ok(())
}

// Adds each tuple with the projection's values.
fn add_selected(
    alloc: Global,
    out: &mut Tuples,
    projection: &Map,
    tuples: &[Tuple],
) -> Result<(), Memory>
    requires { All (λ tuple. All (λ s. Fits s tuple None) projection.now.parts) tuples.now }
    ensures { OnOk result (out.new ≡ out.old ++ map (selected projection.now.parts) tuples.now) }
{
    for tuple in tuples {
        let made = apply(alloc, projection, tuple, None, tuple.from(), tuple.at())?;
        out.add(made)?;
    }
    Ok(())
}
