//! The streams that the queries of a file publish.
ghost use Rattle.std.specs.Prelude.{◌≡◌, ◌++◌, ◌∷◌, [], None, IfErr, IfOk, OnOk, map, if◌then◌else◌};
ghost use Rattle.expressions.specs.Views.{ex_of};
ghost use Rattle.cel_grammar.specs.Views.{statement_of};
ghost use Rattle.cel_types.specs.Statements.{FailsAsQuery, IsQueryOver};
ghost use Rattle.resubscribe.specs.Order.{IsOrder};
ghost use Rattle.stream_schema.specs.Streams.{AreThere, number_of};
ghost use Rattle.catalogue.specs.Arranging.{AreSound};
ghost use Rattle.catalogue.specs.Reading.{reads_in};
ghost use Rattle.catalogue.specs.Statements.{is_query, name_of};
ghost use Rattle.catalogue.specs.Tables.{ArePlaces};
ghost use Rattle.catalogue.specs.Telling.{TellsBad};
ghost use Rattle.catalogue.specs.Typing.{AddsQuery, ArePublished, FileDeclares, FailsInQueries, FailsOn};

use crate::declaring::of_types;
use crate::fault::LoadFault;
use crate::statements::{is_a_query, name};
use cel_grammar::Statement;
use cel_parser::File;
use cel_types::elaborate;
use event_types::{List, Memory, Numbers};
use expressions::Expr;
use std::alloc::Global;
use stream_schema::Streams;

// Adds the streams of the queries to the declared ones, in the order of work, and gives the queries'
// expressions in this order; or tells the first fault of a query. After it some streams may be added.
pub(crate) fn publish_all(
    alloc: Global,
    file: &File,
    order: &Numbers,
    streams: &mut Streams,
) -> Result<List<Expr>, LoadFault>
    requires sound { AreSound (map statement_of file.now.statements) }
    requires in_order { IsOrder (reads_in (map statement_of file.now.statements)) order.now }
    requires declared { FileDeclares (map statement_of file.now.statements) streams.old }
    ensures ok { IfOk result (ArePublished (map statement_of file.now.statements) streams.old order.now streams.new) }
    ensures there { OnOk result (AreThere streams.old → AreThere streams.new) }
    ensures err { IfErr result (TellsBad (FailsInQueries (map statement_of file.now.statements) file.now.lines streams.old order.now)) }
{
    let places = places_of(alloc, file)?;
    let mut expressions: List<Expr> = List::new(alloc);
    for number in order.as_slice() {
        let place = *places.get(*number);
        let line = file.line(place);
        let expression = publish_one(alloc, streams, file.statement(place), line)?;
        expressions.add(expression)?;
    }
    Ok(expressions)
}

// Adds the stream of a query on a line and gives its expression, or tells its fault there.
fn publish_one(
    alloc: Global,
    streams: &mut Streams,
    statement: &Statement,
    line: u64,
) -> Result<Expr, LoadFault>
    requires over { IsQueryOver streams.old (statement_of statement.now) }
    requires new { number_of (name_of (statement_of statement.now)) streams.old ≡ None }
    ensures ok { IfOk result (λ expression. AddsQuery (statement_of statement.now) streams.old streams.new (ex_of expression)) }
    ensures there { OnOk result (AreThere streams.old → AreThere streams.new) }
    ensures err { IfErr result (TellsBad (FailsOn line (FailsAsQuery streams.old (statement_of statement.now)))) }
{
    match elaborate(alloc, streams, statement) {
        Ok((schema, expression)) => {
            streams.add(name(statement), schema, false)?;
            Ok(expression)
        }
        Err(fault) => Err(of_types(fault, line)),
    }
}

// The places of the queries of a file, by the queries' numbers.
fn places_of(alloc: Global, file: &File) -> Result<Numbers, Memory>
    ensures { IfOk result (ArePlaces (map statement_of file.now.statements) file.now.lines (map statement_of file.now.statements) file.now.lines) }
{
    let mut places: Numbers = List::new(alloc);
    for place in 0..file.size() {
        admit(file.statement(place), place, &mut places)?;
    }
    Ok(places)
}

// Adds the place of the statement, if it is a query.
fn admit(statement: &Statement, place: usize, places: &mut Numbers) -> Result<(), Memory>
    ensures { OnOk result (places.new ≡ places.old ++ (if is_query (statement_of statement.now) then place ∷ [] else [])) }
{
    if is_a_query(statement) {
        places.add(place)?;
    }
    Ok(())
}
