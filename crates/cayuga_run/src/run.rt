//! The run of the queries of one file over the events of another.
ghost use Rattle.std.specs.Prelude.{◌≡◌, [], false};
ghost use Rattle.cay_host.specs.declared.side.Side.TheVariants.{Queries, Events};
ghost use Rattle.catalogue.specs.Holding.{judged_in};
ghost use Rattle.courses.specs.QuerySet.{set_of};
ghost use Rattle.session.specs.SessionView.{SessionStandsFor};
ghost use Rattle.cayuga_run.specs.Begun.{EndsReading, EndsRun, EndsTests};
ghost use Rattle.cayuga_run.specs.Blaming.{BlamesHost};
ghost use Rattle.cayuga_run.specs.Reading.{ReadsBoth};
ghost use Rattle.cayuga_run.specs.RunOutcome.{RunOutcome};
ghost use Rattle.cayuga_run.specs.Tests.{TestsOfRun};

use crate::accepting::accept;
use crate::events::read_events;
use crate::stats::write_stats;
use crate::status::Status;
use cay_host::{Host, Ledger, Side, Steps};
use session::Session;
use std::alloc::Global;

/// The events that a run hears, the most bytes that it takes of them, and whether a line of stats is asked for.
#[derive(Drop)]
pub struct Hearing<'a> {
    pub events: &'a str,
    pub limit: u64,
    pub stats: bool,
}

/// Runs the queries over the events. What an epoch brings is written once a later event or the end of
/// the events has closed it. Where all events were heard and stats are asked for, a line of stats stands
/// behind the report.
pub fn run<H: Host, L: Ledger>(
    alloc: Global,
    host: &mut H,
    queries: &str,
    hearing: &Hearing<'_>,
    steps: &mut Steps<L>,
) -> Status
    requires queries { (H.told host.old).attached Queries ≡ false }
    requires events { (H.told host.old).attached Events ≡ false }
    ensures outcome { RunOutcome (record { queries = queries.now; events = hearing.now.events.now; stats = hearing.now.stats }) hearing.now.limit (H.told host.old) (H.told host.new) result }
    ensures blames { BlamesHost (H.told host.old) (H.told host.new) result }
    ensures reads { ReadsBoth queries.now hearing.now.events.now hearing.now.limit (H.told host.old) (H.told host.new) }
    ensures tests { TestsOfRun queries.now hearing.now.events.now hearing.now.limit (H.told host.old) (H.told host.new) steps.old steps.new }
{
    let catalogue = match accept(alloc, host, queries) {
        Ok(catalogue) => catalogue,
        Err(status) => return status,
    };
    let Ok(mut session) = Session::make(alloc, catalogue, hearing.limit) else {
        return Status::Memory;
    };
    attach_and_read(alloc, host, &mut session, hearing, steps)
}

// Attaches the events and hears them. Where all were heard and stats are asked for, writes their line.
fn attach_and_read<H: Host, L: Ledger>(
    alloc: Global,
    host: &mut H,
    session: &mut Session,
    hearing: &Hearing<'_>,
    steps: &mut Steps<L>,
) -> Status
    requires free { (H.told host.old).attached Events ≡ false }
    requires stands { SessionStandsFor session.old (set_of (judged_in session.old.catalogue)) [] [] }
    requires limit { session.old.limit ≡ hearing.now.limit }
    ensures outcome { EndsRun (judged_in session.old.catalogue) hearing.now.events.now hearing.now.stats hearing.now.limit (H.told host.old) (H.told host.new) result }
    ensures blames { BlamesHost (H.told host.old) (H.told host.new) result }
    ensures reads { EndsReading (judged_in session.old.catalogue) hearing.now.events.now hearing.now.limit (H.told host.old) (H.told host.new) }
    ensures tests { EndsTests (judged_in session.old.catalogue) hearing.now.events.now hearing.now.limit (H.told host.old) (H.told host.new) steps.old steps.new }
{
    if host.attach(Side::Events, hearing.events).is_err() {
        return Status::AttachFault(Side::Events);
    }
    match read_events(alloc, host, session, hearing.limit, steps) {
        Status::Done => {
            if hearing.stats {
                write_stats(alloc, host, session)
            } else {
                Status::Done
            }
        }
        status => status,
    }
}
