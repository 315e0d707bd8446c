//! The streams of a program, each tuple with its derivation.
ghost use Rattle.std.specs.Prelude.{◌≡◌, ◌<◌, ◌≤◌, IfOk, OnErr, OnOk, length, map};
ghost use Rattle.std.specs.List.{All, range_with_len};
ghost use Rattle.expressions.specs.Views.{ex_of};
ghost use Rattle.semantics.specs.Programs.{declared_streams};
ghost use Rattle.algebra.specs.SuitedQueries.{SuitInTurn};
ghost use Rattle.algebra.specs.Suits.{Suits};
ghost use Rattle.derivations.specs.DerivedPrograms.{derived_declared, derived_in_turn, with_derived};
ghost use Rattle.derivations.specs.DerivedTuples.{derived};
ghost use Rattle.derivations.specs.HeardLines.{events_of};
ghost use Rattle.derivations.specs.Queries.{query_of};
ghost use Rattle.derivations.specs.Tables.{streams_of, tuples_of_streams};

use crate::denoting::derive;
use crate::deriv::{Deriveds, Table};
use crate::history::Heard;
use crate::reading::heard_on;
use event_types::{List, Memory, StreamId};
use expressions::Expr;
use std::alloc::Global;
use steps::{Ledger, Steps};

/// A query as it is derived: the stream that it publishes, and the expression that says what.
#[derive(Clone, Copy)]
pub struct Query<'a> {
    pub stream: StreamId,
    pub expr: &'a Expr,
}

/// The tuples of each of so many streams, of which the first ones are declared, where the queries publish in
/// turn. The events are heard whole.
pub fn derive_streams<L: Ledger>(
    alloc: Global,
    declared: usize,
    count: usize,
    history: &[Heard],
    queries: &[Query<'_>],
    steps: &mut Steps<L>,
) -> Result<Table, Memory>
    requires declared { declared ≤ count }
    requires within { All (λ query. query.stream < count) queries.now }
    requires suited { SuitInTurn (declared_streams declared (events_of history.now)) (map query_of queries.now) }
    ensures streams { IfOk result (λ table. streams_of table ≡ derived_in_turn declared (derived_declared declared (events_of history.now)) (map query_of queries.now)) }
    ensures count { IfOk result (λ table. length table ≡ count) }
{
    let mut streams = heard_streams(alloc, declared, count, history)?;
    for query in queries {
        publish(alloc, &mut streams, declared, query, steps)?;
    }
    Ok(streams)
}

// The events of each declared stream, and no tuples of the others.
fn heard_streams(
    alloc: Global,
    declared: usize,
    count: usize,
    history: &[Heard],
) -> Result<Table, Memory>
    ensures { IfOk result (λ table. table ≡ map (derived_declared declared (events_of history.now)) (range_with_len 0 count)) }
{
    let mut streams = List::new(alloc);
    for stream in 0..count {
        let found = heard_stream(alloc, declared, stream, history)?;
        streams.add(found)?;
    }
    Ok(streams)
}

// The events of a stream, where it is declared.
fn heard_stream(
    alloc: Global,
    declared: usize,
    stream: StreamId,
    history: &[Heard],
) -> Result<Deriveds, Memory>
    ensures { IfOk result (λ found. found ≡ derived_declared declared (events_of history.now) stream) }
{
    if stream < declared {
        heard_on(alloc, history, stream)
    } else {
        Ok(List::new(alloc))
    }
}

// Publishes a query's stream.
fn publish<L: Ledger>(
    alloc: Global,
    streams: &mut Table,
    declared: usize,
    query: &Query<'_>,
    steps: &mut Steps<L>,
) -> Result<(), Memory>
    requires within { query.now.stream < length streams.old }
    requires suits { Suits (ex_of query.now.expr.now) (length streams.old) (tuples_of_streams streams.old) }
    ensures ok { OnOk result (streams_of streams.new ≡ with_derived (streams_of streams.old) query.now.stream (derived declared (ex_of query.now.expr.now) (streams_of streams.old))) }
    ensures count { length streams.new ≡ length streams.old }
{
    let found = derive(alloc, query.expr, declared, streams, steps)?;
    *streams.get_mut(query.stream) = found;
    Ok(())
}
