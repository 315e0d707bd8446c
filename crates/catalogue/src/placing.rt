//! The lines of queries that have places in the order of work.
ghost use Rattle.std.specs.Prelude.{◌≡◌, IfOk, length};
ghost use Rattle.catalogue.specs.Chained.{AreChained, kinds_of_each};
ghost use Rattle.catalogue.specs.Parts.{IsAccepted, parts_of};
ghost use Rattle.work_order.specs.Places.{HasPlaces};

use cel_parser::File;
use event_types::{KindLists, List, Memory, Numbers};
use expressions::Expr;
use splitter::Chains;
use std::alloc::Global;
use stream_schema::Streams;

/// The lines and the layout of the queries of these parts, which have these places in the order of work.
pub fn chains_of(
    alloc: Global,
    file: &File,
    streams: &Streams,
    order: &Numbers,
    expressions: &List<Expr>,
    places: &[usize],
) -> Result<Chains, Memory>
    requires accepted { IsAccepted (parts_of file.now streams.now order.now expressions.now) }
    requires typed { length expressions.now ≡ length order.now }
    requires placed { HasPlaces order.now places.now }
    ensures { IfOk result (AreChained (parts_of file.now streams.now order.now expressions.now)) }
{
    let declared = file.size() - order.len();
    let kinds = stream_kinds(alloc, streams, file.size())?;
    Chains::make(alloc, declared, expressions, places, kinds)
}

// The kinds of each of so many streams, by its number.
fn stream_kinds(alloc: Global, streams: &Streams, many: usize) -> Result<KindLists, Memory>
    requires { many ≡ length streams.now }
    ensures { IfOk result (λ kinds. kinds ≡ kinds_of_each streams.now) }
{
    let mut lists: KindLists = List::new(alloc);
    for stream in 0..many {
        let kinds = streams.schema(stream).kinds(alloc)?;
        lists.add(kinds)?;
    }
    Ok(lists)
}
