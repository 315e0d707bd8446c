//! The run of the generator's texts.
ghost use Rattle.std.specs.Prelude.{◌≡◌, ◌<◌, ◌≤◌, ◌-◌, ◌^◌, [], List, None, IfErr, IfOk, length, string_bytes};
ghost use Rattle.semantics.specs.Histories.{Event};
ghost use Rattle.cay_host.specs.Output.{SameButOutput};
ghost use Rattle.cay_host.specs.TallyHost.{silent_told, tally_told};
ghost use Rattle.catalogue.specs.Catalogued.{program_in};
ghost use Rattle.catalogue.specs.Holding.{judged_in};
ghost use Rattle.courses.specs.QuerySet.{set_of};
ghost use Rattle.load_texts.specs.EventText.{event_text};
ghost use Rattle.load_texts.specs.QueryText.{query_text};
ghost use Rattle.session.specs.SessionView.{SessionStandsFor, WorksFor};
ghost use Rattle.cayuga_run.specs.Accepting.{IsAcceptedWith};
ghost use Rattle.cayuga_run.specs.Blaming.{BlamesHost};
ghost use Rattle.cayuga_run.specs.LoadHearing.{FailsHearing, HearsText, HasTotals};
ghost use Rattle.cayuga_run.specs.LoadOutcome.{IsSummary, LoadFails, LoadOutcome};
ghost use Rattle.cayuga_run.specs.Tests.{TestsOfLoad, TestsOfText};

use crate::accepting::judge_text;
use crate::events::status_of;
use crate::status::Status;
use crate::writing::write_text;
use cay_host::{Host, Ledger, Steps, TallyHost};
use event_types::Memory;
use load_texts::{EventText, epoch_count, query_count, query_text};
use session::Session;
use std::alloc::Global;

/// Runs the generator's queries over its events, of which there are so many, and writes one line of numbers.
/// The events are made as they are heard, and the rows are counted and not kept.
pub fn load<H: Host, L: Ledger>(
    alloc: Global,
    host: &mut H,
    seed: u64,
    events: u64,
    steps: &mut Steps<L>,
) -> Status
    requires seed { seed < 2 ^ 31 }
    requires some { 0 < events }
    requires few { events ≤ 200000 }
    ensures outcome { LoadOutcome (record { seed = seed; events = events }) (H.told host.old) (H.told host.new) result }
    ensures blames { BlamesHost (H.told host.old) (H.told host.new) result }
    ensures same { SameButOutput (H.told host.old) (H.told host.new) }
    ensures tests { TestsOfLoad (record { seed = seed; events = events }) steps.old steps.new }
{
    match summary(alloc, seed, events, steps) {
        Ok(line) => write_text(host, line.as_str()),
        Err(status) => status,
    }
}

// The line of numbers.
fn summary<L: Ledger>(
    alloc: Global,
    seed: u64,
    events: u64,
    steps: &mut Steps<L>,
) -> Result<String, Status>
    requires seed { seed < 2 ^ 31 }
    requires some { 0 < events }
    requires few { events ≤ 200000 }
    ensures summed { IfOk result (λ line. IsAcceptedWith (query_text events) (λ judged. IsSummary judged (record { seed = seed; events = events }) (string_bytes line))) }
    ensures fails { IfErr result (LoadFails (record { seed = seed; events = events })) }
    ensures tests { TestsOfLoad (record { seed = seed; events = events }) steps.old steps.new }
{
    let Ok(queries) = query_text(alloc, events) else {
        return Err(Status::Memory);
    };
    let catalogue = match judge_text(alloc, queries.as_str().as_bytes()) {
        Ok(catalogue) => catalogue,
        Err(status) => return Err(status),
    };
    let Ok(mut session) = Session::make(alloc, catalogue, u64::MAX) else {
        return Err(Status::Memory);
    };
    hear_and_sum(alloc, &mut session, seed, events, steps)
}

// The line of numbers of queries that are accepted.
fn hear_and_sum<L: Ledger>(
    alloc: Global,
    session: &mut Session,
    seed: u64,
    events: u64,
    steps: &mut Steps<L>,
) -> Result<String, Status>
    requires stands { SessionStandsFor session.old (set_of (judged_in session.old.catalogue)) [] [] }
    requires limit { session.old.limit ≡ 2 ^ 64 - 1 }
    requires seed { seed < 2 ^ 31 }
    requires some { 0 < events }
    requires few { events ≤ 200000 }
    ensures summed { IfOk result (λ line. IsSummary (judged_in session.old.catalogue) (record { seed = seed; events = events }) (string_bytes line)) }
    ensures fails { IfErr result (FailsHearing (set_of (judged_in session.old.catalogue)) (event_text seed events)) }
    ensures tests { TestsOfText (set_of (judged_in session.old.catalogue)) (event_text seed events) steps.old steps.new }
{
    let mut tally = TallyHost::new();
    match hear_text(alloc, &mut tally, session, seed, events, steps) {
        Status::Done => match totals_line(alloc, session, events, tally.lines()) {
            Ok(line) => Ok(line),
            Err(_) => Err(Status::Memory),
        },
        status => Err(status),
    }
}

// Feeds the generator's events to the session, piece by piece as they are made, to their end or to the first refusal.
fn hear_text<L: Ledger>(
    alloc: Global,
    tally: &mut TallyHost,
    session: &mut Session,
    seed: u64,
    events: u64,
    steps: &mut Steps<L>,
) -> Status
    requires stands { SessionStandsFor session.old (set_of (judged_in session.old.catalogue)) [] [] }
    requires limit { session.old.limit ≡ 2 ^ 64 - 1 }
    requires seed { seed < 2 ^ 31 }
    requires few { events ≤ 200000 }
    ensures hears { HearsText (set_of (judged_in session.old.catalogue)) (event_text seed events) session.new (tally_told tally.old) (tally_told tally.new) result }
    ensures tests { TestsOfText (set_of (judged_in session.old.catalogue)) (event_text seed events) steps.old steps.new }
{
    let mut text = EventText::of(alloc, seed, events);
    let mut piece = Vec::new(alloc);
    hear_pieces(alloc, tally, session, &mut text, &mut piece, steps)
}

// The same with a text that is to be handed out, and room for its pieces.
fn hear_pieces<L: Ledger>(
    alloc: Global,
    tally: &mut TallyHost,
    session: &mut Session,
    text: &mut EventText,
    piece: &mut Vec<u8>,
    steps: &mut Steps<L>,
) -> Status
    requires stands { SessionStandsFor session.old (set_of (judged_in session.old.catalogue)) [] [] }
    requires limit { session.old.limit ≡ 2 ^ 64 - 1 }
    requires short { length text.old ≤ 2 ^ 64 - 1 }
    ensures hears { HearsText (set_of (judged_in session.old.catalogue)) text.old session.new (tally_told tally.old) (tally_told tally.new) result }
    ensures tests { TestsOfText (set_of (judged_in session.old.catalogue)) text.old steps.old steps.new }
{
    'pieces: loop {
        match text.next_piece(piece) {
            Err(_) => return Status::Memory,
            Ok(()) => {
                let bytes = piece.as_slice();
                let size = bytes.len();
                if size == 0 {
                    return match session.finish(alloc, tally, steps) {
                        Ok(()) => Status::Done,
                        Err(fault) => status_of(fault),
                    };
                }
                match session.feed(alloc, tally, bytes, steps) {
                    Ok(()) => {}
                    Err(fault) => return status_of(fault),
                }
            }
        }
    }
}

// The line of numbers of a session with no open epoch, whose rows have so many lines.
fn totals_line(
    alloc: Global,
    session: &mut Session,
    events: u64,
    results: u64,
) -> Result<String, Memory>
    requires none_open { session.old.engine.time ≡ None }
    requires some { 0 < events }
    ensures { IfOk result (λ line. (history : List Event) → WorksFor session.old history → HasTotals (program_in session.old.catalogue) history events results (string_bytes line)) }
{
    let epochs = epoch_count(events);
    let queries = query_count(events);
    let states = session.states();
    let live = session.live();
    let mut line = format!(in alloc; "events {events}, epochs {epochs}, queries {queries}, ")?;
    let totals = format!(in alloc; "states {states}, results {results}, live {live}\n")?;
    line.push_str(&totals)?;
    Ok(line)
}
