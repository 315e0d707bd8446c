//! The schemas and the expressions of queries.
ghost use Rattle.std.specs.Prelude.{◌≢◌, Contains, IfOk, IfErr, map};
ghost use Rattle.std.specs.List.{All};
ghost use Rattle.expressions.specs.Views.{ex_of};
ghost use Rattle.cel_grammar.specs.Trees as tree;
ghost use Rattle.cel_grammar.specs.Views.{item_of, source_of, statement_of};
ghost use Rattle.cel_types.specs.Sources.{FailsToElaborate, Elaborates};
ghost use Rattle.cel_types.specs.Statements.{FailsAsQuery, IsQueryOver, Queries, read_names};
ghost use Rattle.stream_schema.specs.Streams.{stream_names};

use crate::fault::TypeFault;
use crate::sources::{Typed, selected, source};
use cel_grammar::{Item, Source, Statement};
use expressions::Expr;
use std::alloc::Global;
use stream_schema::{Schema, Streams};

/// The schema of a query's results, and the expression that gives them: `SELECT Price + 1 AS Next FROM
/// Stock PUBLISH Raised` has the schema `(Next INT)`.
pub fn elaborate(
    alloc: Global,
    streams: &Streams,
    statement: &Statement,
) -> Result<(Schema, Expr), TypeFault>
    requires { IsQueryOver streams.now (statement_of statement.now) }
    ensures ok { IfOk result (λ p. Queries streams.now (statement_of statement.now) p.0 (ex_of p.1)) }
    ensures err { IfErr result (λ fault. fault ≢ TypeFault.Memory → FailsAsQuery streams.now (statement_of statement.now) fault) }
{
    match statement {
        Statement::Query { items, source, .. } => query(alloc, streams, items.as_slice(), source),
        Statement::Stream { .. } => unreachable!(),
    }
}

// The items of a query over its source.
#[tactic(auto, using(crate::proofs::SourceRules::source_rules))]
fn query(
    alloc: Global,
    streams: &Streams,
    items: &[Item],
    raw: &Source,
) -> Result<(Schema, Expr), TypeFault>
    requires { All (Contains (stream_names streams.now)) (read_names (source_of raw.now)) }
    ensures ok { IfOk result (λ p. Elaborates streams.now (tree.Select (map item_of items.now) (source_of raw.now)) p.0 (ex_of p.1)) }
    ensures err { IfErr result (λ fault. fault ≢ TypeFault.Memory → FailsToElaborate streams.now (tree.Select (map item_of items.now) (source_of raw.now)) fault) }
{
    let inner = source(alloc, streams, raw)?;
    let Typed { schema, expr } = selected(alloc, inner, items)?;
    Ok((schema, Box::into_inner(expr)))
}
