//! The derivations of all queries.
ghost use Rattle.std.specs.Prelude.{◌≡◌, ◌<◌, IfOk, length};
ghost use Rattle.std.specs.List.{All};
ghost use Rattle.semantics.specs.Programs.{IsUnborn};
ghost use Rattle.semantics.specs.TypedPrograms.{HaveTheirKinds};
ghost use Rattle.cel_types.specs.SourceLaws.{kinds_in};
ghost use Rattle.catalogue.specs.Catalogued.{program_in, query_in};
ghost use Rattle.catalogue.specs.Standing.{StandsInOrder};
ghost use Rattle.derivations.specs.DerivedPrograms.{derived_env};
ghost use Rattle.derivations.specs.HeardLines.{events_of};
ghost use Rattle.derivations.specs.Tables.{streams_of};
ghost use Rattle.lineage.specs.Listed.{AreDerivations};

use crate::asking::in_order_of_work;
use catalogue::Catalogue;
use derivations::{Deriveds, Heard, History, Table, copy_listed, derive_streams};
use event_types::{List, Memory};
use std::alloc::Global;
use steps::{Ledger, Steps};

/// The tuples of each query over a history, in the order of the queries' numbers, each with its derivation. Each query is
/// worked out over the whole history.
pub fn derive<L: Ledger>(
    alloc: Global,
    catalogue: &Catalogue,
    history: &History,
    steps: &mut Steps<L>,
) -> Result<Table, Memory>
    requires unborn { All IsUnborn (program_in catalogue.now).queries }
    requires kinds { HaveTheirKinds (kinds_in catalogue.now.streams) (events_of history.now) }
    ensures { IfOk result (AreDerivations (program_in catalogue.now) (events_of history.now)) }
{
    let streams = work_out(alloc, catalogue, history.as_slice(), steps)?;
    let mut table = List::new(alloc);
    for query in 0..catalogue.queries() {
        table.add(listed_for(alloc, catalogue, &streams, query)?)?;
    }
    Ok(table)
}

// What is listed for the query with this number.
fn listed_for(
    alloc: Global,
    catalogue: &Catalogue,
    streams: &Table,
    query: usize,
) -> Result<Deriveds, Memory>
    requires query { query < length catalogue.now.order }
    requires streams { length streams.now ≡ length catalogue.now.streams }
    ensures { IfOk result (λ found. found ≡ streams_of streams.now (query_in catalogue.now query).stream) }
{
    let found = streams.get(catalogue.stream_of(query));
    copy_listed(alloc, found.as_slice())
}

// The tuples of each stream with their derivations, by its number.
pub(crate) fn work_out<L: Ledger>(
    alloc: Global,
    catalogue: &Catalogue,
    history: &[Heard],
    steps: &mut Steps<L>,
) -> Result<Table, Memory>
    requires unborn { All IsUnborn (program_in catalogue.now).queries }
    requires kinds { HaveTheirKinds (kinds_in catalogue.now.streams) (events_of history.now) }
    ensures streams { IfOk result (λ table. streams_of table ≡ derived_env (program_in catalogue.now) (events_of history.now)) }
    ensures count { IfOk result (λ table. length table ≡ length catalogue.now.streams) }
    ensures stands { StandsInOrder catalogue.now }
{
    let declared = catalogue.declared();
    let queries = in_order_of_work(alloc, catalogue)?;
    derive_streams(
        alloc,
        declared,
        catalogue.layout().kinds.len(),
        history,
        queries.as_slice(),
        steps,
    )
}
