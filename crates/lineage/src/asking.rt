//! The queries of a catalogue, as they are derived.
ghost use Rattle.std.specs.Prelude.{◌≡◌, ◌<◌, IfOk, length, map};
ghost use Rattle.std.specs.List.{All};
ghost use Rattle.catalogue.specs.Catalogued.{query_in, work_in};
ghost use Rattle.derivations.specs.Queries.{query_of, work_of};

use catalogue::Catalogue;
use derivations::Query;
use event_types::{List, Memory};
use std::alloc::Global;

// The queries in the order of work.
pub(crate) fn in_order_of_work(
    alloc: Global,
    catalogue: &Catalogue,
) -> Result<List<Query<'_>>, Memory>
    ensures work { IfOk result (λ queries. map work_of (map query_of queries) ≡ map work_of (work_in catalogue.now)) }
    ensures within { IfOk result (λ queries. All (λ query. query.stream < length catalogue.now.streams) queries) }
{
    let order = catalogue.order();
    let mut queries = List::new(alloc);
    for place in 0..order.len() {
        queries.add(asked(catalogue, order.get(place)))?;
    }
    Ok(queries)
}

// The query with a number.
fn asked(catalogue: &Catalogue, number: usize) -> Query<'_>
    requires { number < length catalogue.now.order }
    ensures work { work_of (query_of result) ≡ work_of (query_in catalogue.now number) }
    ensures within { result.stream < length catalogue.now.streams }
{
    Query {
        stream: catalogue.stream_of(number),
        expr: catalogue.expr(number),
    }
}
