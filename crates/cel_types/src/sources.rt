//! The schema and the expression of a source.
ghost use Rattle.std.specs.Prelude.{◌≡◌, ◌≢◌, ◌+◌, ◌<◌, ◌≤◌, length, map, Contains, IfOk, IfErr, List};
ghost use Rattle.expressions.specs.Views.{ex_of};
ghost use Rattle.cel_grammar.specs.Trees as tree;
ghost use Rattle.cel_grammar.specs.Views.{agg_of, item_of, pred_of, source_of};
ghost use Rattle.cel_types.specs.Predicates.{Fails, Means};
ghost use Rattle.cel_types.specs.Scopes.{Iteration};
ghost use Rattle.cel_types.specs.Sources.{FailsToElaborate};
ghost use Rattle.cel_types.specs.Typing.{FailsOver, FailsOverBoth, HasType, ReadsStreams, TypesOver, TypesOverBoth};
ghost use Rattle.scalar_expr.specs.Canonical.{canonical};
ghost use Rattle.semantics.specs.Scalars.{Pr};
ghost use Rattle.stream_schema.specs.Joining.{joined_schema};
ghost use Rattle.stream_schema.specs.Streams.{stream_names};

use crate::aggregates::rebind;
use crate::attributes::schema_of;
use crate::conditions::condition;
use crate::fault::TypeFault;
use crate::items::make;
use crate::scope::Scope;
use crate::unions::difference;
use cel_grammar::{Agg, Item, RawPred, Source};
use event_types::Copied;
use expressions::Expr;
use scalar_expr::{Conj, Map};
use std::alloc::Global;
use stream_schema::{Schema, SchemaFault, Streams, join};

/// A schema, and an expression that gives tuples of it.
#[derive(Drop)]
pub struct Typed {
    pub schema: Schema,
    pub expr: Box<Expr>,
}

/// The schema and the expression of a source over the table of streams.
#[tactic(auto, using(crate::proofs::SourceRules::source_rules))]
pub fn source(alloc: Global, streams: &Streams, raw: &Source) -> Result<Typed, TypeFault>
    requires { ReadsStreams streams.now (source_of raw.now) }
    ensures ok { IfOk result (λ typed. HasType streams.now (source_of raw.now) typed) }
    ensures err { IfErr result (λ fault. fault ≢ TypeFault.Memory → FailsToElaborate streams.now (source_of raw.now) fault) }
{
    match raw {
        Source::Name(name) => read(alloc, streams, name.as_str()),
        Source::Filter(condition, inner) => {
            let inner = source(alloc, streams, inner)?;
            filtered(alloc, inner, condition)
        }
        Source::Select(items, inner) => {
            let inner = source(alloc, streams, inner)?;
            selected(alloc, inner, items.as_slice())
        }
        Source::Union(left, right) => {
            let left = source(alloc, streams, left)?;
            let right = source(alloc, streams, right)?;
            united(alloc, left, right)
        }
        Source::Next(condition, left, right) => {
            let left = source(alloc, streams, left)?;
            let right = source(alloc, streams, right)?;
            followed(alloc, left, right, condition)
        }
        Source::Fold(choose, on, aggs, left, right) => {
            let left = source(alloc, streams, left)?;
            let right = source(alloc, streams, right)?;
            folded(alloc, left, right, choose, on, aggs.as_slice())
        }
    }
}

/// The items of a SELECT over what is typed.
pub fn selected(alloc: Global, inner: Typed, items: &[Item]) -> Result<Typed, TypeFault>
    ensures ok { IfOk result (TypesOver inner (tree.Select (map item_of items.now))) }
    ensures err { IfErr result (λ fault. fault ≢ TypeFault.Memory → FailsOver inner (tree.Select (map item_of items.now)) fault) }
{
    let width = inner.schema.size();
    let made = make(alloc, &inner.schema, items)?;
    let schema = schema_of(alloc, made.attributes.as_slice())?;
    let parts = made.terms;
    with_type(
        alloc,
        schema,
        Expr::Select(Map { width, parts }, inner.expr),
    )
}

// The stream of this name.
fn read(alloc: Global, streams: &Streams, name: &str) -> Result<Typed, TypeFault>
    requires { Contains (stream_names streams.now) name.now }
    ensures ok { IfOk result (λ typed. HasType streams.now (tree.Name name.now) typed) }
    ensures err { IfErr result (λ fault. fault ≡ TypeFault.Memory) }
{
    match streams.find(name) {
        Some(stream) => with_type(
            alloc,
            streams.schema(stream).copied(alloc)?,
            Expr::Read(stream),
        ),
        None => unreachable!(),
    }
}

// FILTER over what is typed.
fn filtered(alloc: Global, inner: Typed, raw: &RawPred) -> Result<Typed, TypeFault>
    ensures ok { IfOk result (TypesOver inner (tree.Filter (pred_of raw.now))) }
    ensures err { IfErr result (λ fault. fault ≢ TypeFault.Memory → FailsOver inner (tree.Filter (pred_of raw.now)) fault) }
{
    let condition = condition(alloc, &Scope::Alone(&inner.schema), raw)?;
    with_type(alloc, inner.schema, Expr::Filter(condition, inner.expr))
}

// UNION of what is typed.
fn united(alloc: Global, left: Typed, right: Typed) -> Result<Typed, TypeFault>
    ensures ok { IfOk result (TypesOverBoth left right tree.Union) }
    ensures err { IfErr result (λ fault. fault ≢ TypeFault.Memory → FailsOverBoth left right tree.Union fault) }
{
    if let Some(place) = difference(&left.schema, &right.schema) {
        return Err(TypeFault::UnionMismatch { place });
    }
    with_type(alloc, left.schema, Expr::Union(left.expr, right.expr))
}

// NEXT over what is typed.
fn followed(alloc: Global, left: Typed, right: Typed, raw: &RawPred) -> Result<Typed, TypeFault>
    ensures ok { IfOk result (TypesOverBoth left right (tree.Next (pred_of raw.now))) }
    ensures err { IfErr result (λ fault. fault ≢ TypeFault.Memory → FailsOverBoth left right (tree.Next (pred_of raw.now)) fault) }
{
    let schema = joined_schema(alloc, &left.schema, &right.schema)?;
    let condition = condition(alloc, &Scope::Sequence(&left.schema, &right.schema), raw)?;
    with_type(alloc, schema, Expr::Next(condition, left.expr, right.expr))
}

// FOLD over what is typed.
fn folded(
    alloc: Global,
    left: Typed,
    right: Typed,
    choose: &RawPred,
    on: &RawPred,
    aggs: &[Agg],
) -> Result<Typed, TypeFault>
    ensures ok { IfOk result (TypesOverBoth left right (tree.Fold (pred_of choose.now) (pred_of on.now) (map agg_of aggs.now))) }
    ensures err { IfErr result (λ fault. fault ≢ TypeFault.Memory → FailsOverBoth left right (tree.Fold (pred_of choose.now) (pred_of on.now) (map agg_of aggs.now)) fault) }
{
    let choose = iterating(alloc, &left.schema, &right.schema, choose)?;
    let on = iterating(alloc, &left.schema, &right.schema, on)?;
    let parts = rebind(alloc, &left.schema, &right.schema, aggs)?;
    let width = right.schema.size();
    with_type(
        alloc,
        left.schema,
        Expr::Fold(choose, on, Map { width, parts }, left.expr, right.expr),
    )
}

// A condition of FOLD.
fn iterating(alloc: Global, left: &Schema, right: &Schema, raw: &RawPred) -> Result<Conj, TypeFault>
    ensures ok { IfOk result (λ c. (u : Pr) × Means (Iteration left.now right.now) (pred_of raw.now) u × (c ≡ canonical u)) }
    ensures err { IfErr result (λ fault. fault ≢ TypeFault.Memory → Fails (Iteration left.now right.now) (pred_of raw.now) fault) }
{
    condition(alloc, &Scope::Iteration(left, right), raw)
}

// The schema of NEXT.
fn joined_schema(alloc: Global, left: &Schema, right: &Schema) -> Result<Schema, TypeFault>
    ensures ok { IfOk result (λ schema. schema ≡ joined_schema left.now right.now) }
    ensures narrow { IfOk result (λ schema. length left.now + length right.now ≤ 256) }
    ensures too_wide { IfErr result (λ fault. fault ≢ TypeFault.Memory → (256 < length left.now + length right.now) × (fault ≡ TypeFault.TooWide (length left.now + length right.now))) }
{
    match join(alloc, left, right) {
        Ok(schema) => Ok(schema),
        Err(SchemaFault::TooWide { count }) => Err(TypeFault::TooWide { count }),
        Err(SchemaFault::Memory) => Err(TypeFault::Memory),
    }
}

// The schema and the expression together.
fn with_type(alloc: Global, schema: Schema, expr: Expr) -> Result<Typed, TypeFault>
    ensures ok { IfOk result (λ typed. (typed.schema ≡ schema) × (ex_of typed.expr.value ≡ ex_of expr)) }
    ensures err { IfErr result (λ fault. fault ≡ TypeFault.Memory) }
{
    let expr = Box::new(alloc, expr)?;
    Ok(Typed { schema, expr })
}
