//! The streams that queries publish, and their results at a time.
ghost use Rattle.std.specs.Prelude.{◌≡◌, ◌<◌, ◌+◌, ◌==◌, [], ◌∷◌, ◌++◌, length, map, take, IfOk, OnErr, OnOk};
ghost use Rattle.std.specs.List.{All, filter};
ghost use Rattle.std.specs.List.Sorted.{IsPermutation};
ghost use Rattle.event_types.specs.Order.{sorted};
ghost use Rattle.semantics.specs.Denotation.{denote, streams_of};
ghost use Rattle.semantics.specs.Programs.{published};
ghost use Rattle.algebra.specs.SuitedQueries.{SuitInTurn};
ghost use Rattle.algebra.specs.Suits.{Suits};
ghost use Rattle.reference.specs.Closing.{published_at};
ghost use Rattle.reference.specs.Views.{PublishNext, placed, query_of};

use crate::query::Query;
use algebra::{Env, evaluate};
use event_types::{List, Memory, Tuples, put_in_order};
use std::alloc::Global;
use steps::{Ledger, Steps};

/// The results of an epoch: a list for each query.
pub type Batch = List<Tuples>;

// Publishes each query's stream behind the declared ones, and gives their tuples of a time.
pub(crate) fn batch_of<L: Ledger>(
    alloc: Global,
    streams: &mut Env,
    queries: &[Query<'_>],
    order: &[usize],
    time: u64,
    steps: &mut Steps<L>,
) -> Result<Batch, Memory>
    requires places { All (λ place. place < length queries.now) order.now }
    requires same_queries { IsPermutation (map query_of queries.now) (placed queries.now order.now) }
    requires next { PublishNext (length streams.old) (placed queries.now order.now) }
    requires suited { SuitInTurn (streams_of streams.old) (placed queries.now order.now) }
    ensures value { IfOk result (λ batch. batch ≡ published_at streams.old queries.now order.now time) }
    ensures kept { take (length streams.old) streams.new ≡ streams.old }
{
    publish(alloc, streams, queries, order, steps)?;
    tuples_of_each(alloc, streams, queries, time)
}

// Publishes each query's stream in the order of work.
fn publish<L: Ledger>(
    alloc: Global,
    streams: &mut Env,
    queries: &[Query<'_>],
    order: &[usize],
    steps: &mut Steps<L>,
) -> Result<(), Memory>
    requires places { All (λ place. place < length queries.now) order.now }
    requires next { PublishNext (length streams.old) (placed queries.now order.now) }
    requires suited { SuitInTurn (streams_of streams.old) (placed queries.now order.now) }
    ensures published { OnOk result (streams_of streams.new ≡ published (streams_of streams.old) (placed queries.now order.now)) }
    ensures count { OnOk result (length streams.new ≡ length streams.old + length (placed queries.now order.now)) }
    ensures kept { take (length streams.old) streams.new ≡ streams.old }
{
    for place in order {
        publish_one(alloc, streams, &queries[*place], steps)?;
    }
    Ok(())
}

// Publishes a query's stream as the next.
fn publish_one<L: Ledger>(
    alloc: Global,
    streams: &mut Env,
    query: &Query<'_>,
    steps: &mut Steps<L>,
) -> Result<(), Memory>
    requires { Suits (query_of query.now).expr (length streams.old) (streams_of streams.old) }
    ensures ok { OnOk result (streams.new ≡ streams.old ++ denote (query_of query.now).expr (streams_of streams.old) ∷ []) }
    ensures kept { OnErr result (streams.new ≡ streams.old) }
{
    let tuples = evaluate(alloc, query.expr, streams, steps)?;
    streams.add(tuples)
}

// The tuples of a time that each query's stream has, in their order.
fn tuples_of_each(
    alloc: Global,
    streams: &Env,
    queries: &[Query<'_>],
    time: u64,
) -> Result<Batch, Memory>
    requires { All (λ query. query.stream < length streams.now) queries.now }
    ensures { IfOk result (λ batch. batch ≡ map (λ query. sorted (filter (λ tuple. tuple.at == time) (streams_of streams.now query.stream))) queries.now) }
{
    let mut batch = List::new(alloc);
    for query in queries {
        batch.add(tuples_of(alloc, streams, query, time)?)?;
    }
    Ok(batch)
}

// The tuples of a time that the query's stream has, in their order.
fn tuples_of(alloc: Global, streams: &Env, query: &Query<'_>, time: u64) -> Result<Tuples, Memory>
    requires { query.now.stream < length streams.now }
    ensures { IfOk result (λ found. found ≡ sorted (filter (λ tuple. tuple.at == time) (streams_of streams.now query.now.stream))) }
{
    tuples_at(alloc, streams.get(query.stream), time)
}

// The tuples of a time, in their order.
fn tuples_at(alloc: Global, tuples: &Tuples, time: u64) -> Result<Tuples, Memory>
    ensures { IfOk result (λ found. found ≡ sorted (filter (λ tuple. tuple.at == time) tuples.now)) }
{
    let mut found = List::new(alloc);
    for tuple in tuples.as_slice() {
        if tuple.at() == time {
            found.add(tuple.copy(alloc)?)?;
        }
    }
    put_in_order(&mut found);
    Ok(found)
}
