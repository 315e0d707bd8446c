//! What an expression gives over streams whose tuples have derivations.
ghost use Rattle.std.specs.Prelude.{◌≡◌, ◌++◌, IfOk, IfSome, OnOk, length, map, None};
ghost use Rattle.std.specs.List.{filter};
ghost use Rattle.semantics.specs.Truth.{all_true};
ghost use Rattle.expressions.specs.Views.{ex_of};
ghost use Rattle.algebra.specs.Suits.{Suits};
ghost use Rattle.derivations.specs.Derivation.{Left, Right};
ghost use Rattle.derivations.specs.DerivedTuples.{derived, derived_selected, going_on};
ghost use Rattle.derivations.specs.Fitting.{FitScalars, FitsAlone};
ghost use Rattle.derivations.specs.Found.{tuples_found};
ghost use Rattle.derivations.specs.Tables.{streams_of, tuples_of_streams};

use crate::deriv::{Deriv, Derived, Deriveds, Table};
use crate::found::Found;
use crate::iteration::{Fold, add_all_runs};
use crate::matching::add_all_matches;
use crate::reading::add_read;
use crate::sides::sides_of;
use event_types::{List, Memory};
use expressions::Expr;
use scalar_expr::{Conj, Map, apply, holds};
use std::alloc::Global;
use steps::{Ledger, Steps};

// What the expression gives, in the order of its meaning, where the first so many streams are declared.
#[cycle(denoting)]
pub(crate) fn derive<L: Ledger>(
    alloc: Global,
    expr: &Expr,
    declared: usize,
    streams: &Table,
    steps: &mut Steps<L>,
) -> Result<Deriveds, Memory>
    requires { Suits (ex_of expr.now) (length streams.now) (tuples_of_streams streams.now) }
    ensures { IfOk result (λ found. found ≡ derived declared (ex_of expr.now) (streams_of streams.now)) }
{
    let mut found = List::new(alloc);
    add_derived(alloc, &mut found, expr, declared, streams, steps)?;
    Ok(found)
}

// What the expression gives. The tuples of a declared stream aren't copied.
#[cycle(denoting)]
fn found_by<'a, L: Ledger>(
    alloc: Global,
    expr: &Expr,
    declared: usize,
    streams: &'a Table,
    steps: &mut Steps<L>,
) -> Result<Found<'a>, Memory>
    requires { Suits (ex_of expr.now) (length streams.now) (tuples_of_streams streams.now) }
    ensures { IfOk result (λ found. tuples_found found ≡ derived declared (ex_of expr.now) (streams_of streams.now)) }
{
    match declared_read(expr, declared, streams) {
        Some(tuples) => Ok(Found::There(tuples)),
        None => Ok(Found::Made(derive(alloc, expr, declared, streams, steps)?)),
    }
}

// The tuples of a declared stream, if the expression reads one.
fn declared_read<'a>(expr: &Expr, declared: usize, streams: &'a Table) -> Option<&'a [Derived]>
    requires { Suits (ex_of expr.now) (length streams.now) (tuples_of_streams streams.now) }
    ensures { IfSome result (λ tuples. tuples.now ≡ derived declared (ex_of expr.now) (streams_of streams.now)) }
{
    match expr {
        Expr::Read(stream) if *stream < declared => Some(streams.get(*stream).as_slice()),
        _ => None,
    }
}

// Puts what the expression gives behind the tuples that are there.
#[cycle(denoting)]
fn add_derived<L: Ledger>(
    alloc: Global,
    out: &mut Deriveds,
    expr: &Expr,
    declared: usize,
    streams: &Table,
    steps: &mut Steps<L>,
) -> Result<(), Memory>
    requires { Suits (ex_of expr.now) (length streams.now) (tuples_of_streams streams.now) }
    ensures { OnOk result (out.new ≡ out.old ++ derived declared (ex_of expr.now) (streams_of streams.now)) }
{
    match expr {
        Expr::Read(stream) => add_read(
            alloc,
            out,
            *stream < declared,
            streams.get(*stream).as_slice(),
        ),
        Expr::Filter(condition, inner) => {
            let found = found_by(alloc, inner, declared, streams, steps)?;
            add_filtered(alloc, out, condition, found.as_slice(), steps)
        }
        Expr::Select(projection, inner) => {
            let found = found_by(alloc, inner, declared, streams, steps)?;
            add_selected(alloc, out, projection, found.as_slice())
        }
        Expr::Union(left, right) => {
            let lefts = found_by(alloc, left, declared, streams, steps)?;
            let rights = found_by(alloc, right, declared, streams, steps)?;
            add_lefts(alloc, out, lefts.as_slice())?;
            add_rights(alloc, out, rights.as_slice())
        }
        Expr::Next(condition, left, right) => {
            let bindings = found_by(alloc, left, declared, streams, steps)?;
            let found = found_by(alloc, right, declared, streams, steps)?;
            add_all_matches(
                alloc,
                out,
                condition,
                bindings.as_slice(),
                found.as_slice(),
                steps,
            )
        }
        Expr::Fold(choose, on, projection, left, right) => {
            let bindings = found_by(alloc, left, declared, streams, steps)?;
            let found = found_by(alloc, right, declared, streams, steps)?;
            let sides = sides_of(alloc, choose, bindings.as_slice(), found.as_slice())?;
            let fold = Fold {
                choose,
                on,
                projection,
                found: sides,
            };
            add_all_runs(alloc, out, &fold, bindings.as_slice(), steps)
        }
    }
}

// Adds the tuples for which the condition holds.
fn add_filtered<L: Ledger>(
    alloc: Global,
    out: &mut Deriveds,
    condition: &Conj,
    found: &[Derived],
    steps: &mut Steps<L>,
) -> Result<(), Memory>
    requires { FitsAlone condition.now found.now }
    ensures { OnOk result (out.new ≡ out.old ++ filter (λ x. all_true condition.now x.tuple None) found.now) }
{
    for one in found {
        if holds(condition, &one.tuple, None, steps) {
            out.add(one.copy(alloc)?)?;
        }
    }
    Ok(())
}

// Adds each tuple with the projection's values.
fn add_selected(
    alloc: Global,
    out: &mut Deriveds,
    projection: &Map,
    found: &[Derived],
) -> Result<(), Memory>
    requires { FitScalars projection.now.parts found.now }
    ensures { OnOk result (out.new ≡ out.old ++ map (derived_selected projection.now.parts) found.now) }
{
    for one in found {
        let tuple = apply(
            alloc,
            projection,
            &one.tuple,
            None,
            one.tuple.from(),
            one.tuple.at(),
        )?;
        let deriv = one.deriv.copy(alloc)?;
        out.add(Derived { tuple, deriv })?;
    }
    Ok(())
}

// Adds the tuples of the left side of UNION.
fn add_lefts(alloc: Global, out: &mut Deriveds, found: &[Derived]) -> Result<(), Memory>
    ensures { OnOk result (out.new ≡ out.old ++ map (going_on Left) found.now) }
{
    for one in found {
        let tuple = one.tuple.copy(alloc)?;
        let by = one.deriv.copy(alloc)?;
        out.add(Derived {
            tuple,
            deriv: Deriv::Left(Box::new(alloc, by)?),
        })?;
    }
    Ok(())
}

// Adds those of the right side.
fn add_rights(alloc: Global, out: &mut Deriveds, found: &[Derived]) -> Result<(), Memory>
    ensures { OnOk result (out.new ≡ out.old ++ map (going_on Right) found.now) }
{
    for one in found {
        let tuple = one.tuple.copy(alloc)?;
        let by = one.deriv.copy(alloc)?;
        out.add(Derived {
            tuple,
            deriv: Deriv::Right(Box::new(alloc, by)?),
        })?;
    }
    Ok(())
}
