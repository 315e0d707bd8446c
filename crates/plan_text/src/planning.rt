//! The text of a plan.
ghost use Rattle.std.specs.Prelude.{◌≡◌, ◌<◌, ◌++◌, IfOk, OnOk, length, string_bytes};
ghost use Rattle.catalogue.specs.Holding.{IsAsLoaded, judged_in};
ghost use Rattle.plan_text.specs.Plan.{plan_line_at, plan_of};
ghost use Rattle.plan_text.specs.Reads.{reads_once};

use crate::lines::append_line;
use crate::reads::reads_in;
use catalogue::Catalogue;
use event_types::{List, Memory, Names, Text};
use std::alloc::Global;

/// The plan of the queries: for each one, in the order of work, a line with the name and the schema of
/// the stream that it publishes and the names that it reads, as `Cheap (Name TEXT, Price INT) <- Stock`.
pub fn plan(alloc: Global, catalogue: &Catalogue) -> Result<Text, Memory>
    requires { IsAsLoaded catalogue.now }
    ensures { IfOk result (λ text. text ≡ plan_of (judged_in catalogue.now)) }
{
    let reads = reads_in(alloc, catalogue.file())?;
    let order = catalogue.order();
    let mut text = String::new(alloc);
    for place in 0..order.len() {
        append_query(&mut text, catalogue, &reads, order.get(place))?;
    }
    Text::make(alloc, text.as_str())
}

// Puts the line of the query with this number behind a text.
fn append_query(
    text: &mut String,
    catalogue: &Catalogue,
    reads: &List<Names>,
    query: usize,
) -> Result<(), Memory>
    requires loaded { IsAsLoaded catalogue.now }
    requires within { query < length catalogue.now.order }
    requires reads { reads.now ≡ reads_once (judged_in catalogue.now).statements }
    ensures { OnOk result (string_bytes text.new ≡ string_bytes text.old ++ plan_line_at (judged_in catalogue.now) query) }
{
    let stream = catalogue.stream_of(query);
    let streams = catalogue.streams();
    let name = streams.name(stream);
    let schema = streams.schema(stream);
    append_line(text, name, schema, reads.get(query))
}
