//! Why each result is there: the results over all events, each with the event lines behind it.
ghost use Rattle.std.specs.Prelude.{◌≡◌, false};
ghost use Rattle.semantics.specs.TypedPrograms.{HaveTheirKinds};
ghost use Rattle.cay_host.specs.declared.side.Side.TheVariants.{Queries, Events};
ghost use Rattle.cay_host.specs.Output.{SameButOutput};
ghost use Rattle.catalogue.specs.Catalogued.{program_in};
ghost use Rattle.catalogue.specs.Holding.{IsAsLoaded, judged_in};
ghost use Rattle.cel_types.specs.SourceLaws.{kinds_in};
ghost use Rattle.derivations.specs.HeardLines.{events_of};
ghost use Rattle.cayuga_run.specs.Begun.{EndsExplaining, EndsReadingHere};
ghost use Rattle.cayuga_run.specs.Blaming.{BlamesHost};
ghost use Rattle.cayuga_run.specs.ExplainOutcome.{ExplainOutcome};
ghost use Rattle.cayuga_run.specs.HearingHere.{WritesExplanation};
ghost use Rattle.cayuga_run.specs.Reading.{ReadsToExplain};

use crate::accepting::accept;
use crate::hearing::hear_events;
use crate::status::Status;
use crate::writing::write_text;
use catalogue::Catalogue;
use cay_host::{Host, Ledger, Side, Steps};
use explanation::{Hearing, History};
use std::alloc::Global;

/// Explains the results of the queries over the events: writes each with the numbers of the event lines that made it. All
/// events are heard before the first byte is written, and no control line is taken.
pub fn explain<H: Host, L: Ledger>(
    alloc: Global,
    host: &mut H,
    queries: &str,
    events: &str,
    limit: u64,
    steps: &mut Steps<L>,
) -> Status
    requires queries { (H.told host.old).attached Queries ≡ false }
    requires events { (H.told host.old).attached Events ≡ false }
    ensures outcome { ExplainOutcome (record { queries = queries.now; events = events.now }) limit (H.told host.old) (H.told host.new) result }
    ensures blames { BlamesHost (H.told host.old) (H.told host.new) result }
    ensures reads { ReadsToExplain queries.now events.now limit (H.told host.old) (H.told host.new) }
{
    match accept(alloc, host, queries) {
        Ok(catalogue) => attach_and_explain(alloc, host, &catalogue, events, limit, steps),
        Err(status) => status,
    }
}

// Attaches the events, hears them and explains the results.
fn attach_and_explain<H: Host, L: Ledger>(
    alloc: Global,
    host: &mut H,
    catalogue: &Catalogue,
    events: &str,
    limit: u64,
    steps: &mut Steps<L>,
) -> Status
    requires free { (H.told host.old).attached Events ≡ false }
    requires loaded { IsAsLoaded catalogue.now }
    ensures outcome { EndsExplaining (judged_in catalogue.now) events.now limit (H.told host.old) (H.told host.new) result }
    ensures blames { BlamesHost (H.told host.old) (H.told host.new) result }
    ensures reads { EndsReadingHere (judged_in catalogue.now) events.now limit (H.told host.old) (H.told host.new) }
{
    if host.attach(Side::Events, events).is_err() {
        return Status::AttachFault(Side::Events);
    }
    let mut hearing = Hearing::new(alloc, limit);
    match hear_events(alloc, host, catalogue, &mut hearing, limit) {
        Status::Done => write_explanation(alloc, host, catalogue, hearing.history(), steps),
        status => status,
    }
}

// Writes the results over a history, each with the numbers of the event lines that made it.
fn write_explanation<H: Host, L: Ledger>(
    alloc: Global,
    host: &mut H,
    catalogue: &Catalogue,
    history: &History,
    steps: &mut Steps<L>,
) -> Status
    requires loaded { IsAsLoaded catalogue.now }
    requires kinds { HaveTheirKinds (kinds_in catalogue.now.streams) (events_of history.now) }
    ensures writes { WritesExplanation (program_in catalogue.now) history.now (H.told host.old) (H.told host.new) result }
    ensures blames { BlamesHost (H.told host.old) (H.told host.new) result }
    ensures same { SameButOutput (H.told host.old) (H.told host.new) }
{
    match explanation::explain(alloc, catalogue, history, steps) {
        Ok(text) => write_text(host, text.as_str()),
        Err(_) => Status::Memory,
    }
}
