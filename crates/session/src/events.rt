//! The work on one event, or on a line that is refused.
ghost use Rattle.std.specs.Prelude.{◌≡◌, ℕ, Some, IfErr, IfNone, IfSome, OnOk, is_some};
ghost use Rattle.cay_host.specs.Calls.{FailedLast};
ghost use Rattle.cay_host.specs.Output.{SameButOutput};
ghost use Rattle.epoch_engine.specs.Offers.{IsHeard, IsLate, IsNotAhead, with_tuple};
ghost use Rattle.session.specs.Feeds.{BlamesWriting, failed_write, failed_in};
ghost use Rattle.courses.specs.Fits.{Fits};
ghost use Rattle.courses.specs.declared.refusal.Refusal.TheVariants.{IsOutOfOrder};
ghost use Rattle.courses.specs.Course.{Hears};
ghost use Rattle.courses.specs.Heard.{disorder};
ghost use Rattle.session.specs.Says.{event_of};
ghost use Rattle.session.specs.Standing.{IsAtWork, IsTimely, seen_by};
ghost use Rattle.session.specs.ForEachHistory.{StopsAtEntry, TakesEntry};
ghost use Rattle.session.specs.Owes.{Blames, RefusesBy};
ghost use Rattle.session.specs.TestsLeft.{RisesByClosing};

use crate::closing::close_before;
use crate::fault::SessionFault;
use crate::reading::EventLine;
use crate::work::Work;
use crate::writing::write_rows;
use catalogue::Catalogue;
use cay_host::{Host, Ledger, Steps};
use courses::Refusal;
use epoch_engine::{Engine, OfferFault};
use event_csv::Seen;
use event_types::Memory;
use std::alloc::Global;

/// Writes the rows, and refuses a line. In line, so that the work on events hands out no room for a refusal.
#[inline(always)]
pub fn refuse<H: Host>(host: &mut H, work: &mut Work, refusal: Refusal) -> SessionFault
    ensures by { RefusesBy work.old.rows refusal (H.told host.old) (H.told host.new) result }
    ensures quiet { Blames result (H.told host.old) (H.told host.new) }
    ensures last { FailedLast (failed_write result) (H.told host.old) (H.told host.new) }
    ensures same { SameButOutput (H.told host.old) (H.told host.new) }
{
    match write_rows(host, &mut work.rows) {
        Ok(()) => SessionFault::Refused(refusal),
        Err(_) => SessionFault::WriteFault,
    }
}

// Offers an event to the engine, and keeps its stream.
#[inline(always)]
fn offer_event(work: &mut Work, event: Seen) -> Result<(), Memory>
    requires heard { IsHeard work.old.engine.layout event.stream event.tuple }
    requires not_ahead { IsNotAhead work.old.engine.time event.tuple.at }
    requires in_time { (seen : ℕ) → IsLate work.old.engine.time work.old.engine.closed_time event.tuple.at seen → ⊥ }
    ensures heard { OnOk result (work.new.engine ≡ with_tuple work.old.engine event.stream event.tuple) }
    ensures rows { work.new.rows ≡ work.old.rows }
    ensures fronts { work.new.fronts ≡ work.old.fronts }
    ensures born { work.new.born ≡ work.old.born }
{
    work.near = event.stream;
    match work.engine.offer(event.stream, event.tuple) {
        Ok(()) => Ok(()),
        Err(OfferFault::Memory { .. }) => Err(Memory),
        Err(OfferFault::OutOfOrder { .. }) => unreachable!(),
    }
}

// Works on an event that isn't late.
#[inline(always)]
fn close_and_offer<H: Host, L: Ledger>(
    alloc: Global,
    host: &mut H,
    catalogue: &Catalogue,
    work: &mut Work,
    line: EventLine,
    steps: &mut Steps<L>,
) -> Result<(), SessionFault>
    requires at_work { IsAtWork catalogue.now work.old }
    requires fits { Fits catalogue.now.streams line.event }
    requires timely { IsTimely work.old.engine line.event.tuple.at }
    ensures more { OnOk result (TakesEntry catalogue.now catalogue.now (Hears (event_of line.event)) work.old work.new (H.told host.old) (H.told host.new)) }
    ensures at_work { OnOk result (IsAtWork catalogue.now work.new) }
    ensures stops { IfErr result (StopsAtEntry catalogue.now line.number (Hears (event_of line.event)) work.old (H.told host.old) (H.told host.new)) }
    ensures quiet { BlamesWriting result (H.told host.old) (H.told host.new) }
    ensures last { FailedLast (failed_in result) (H.told host.old) (H.told host.new) }
    ensures same { SameButOutput (H.told host.old) (H.told host.new) }
    ensures tests { RisesByClosing catalogue.now line.event.tuple.at work.old.engine steps.old steps.new }
{
    let at = line.event.tuple.at();
    close_before(alloc, host, catalogue, work, at, steps)?;
    offer_event(work, line.event)?;
    Ok(())
}

/// Works on an event, or refuses its line.
#[inline(always)]
pub fn work_on_event<H: Host, L: Ledger>(
    alloc: Global,
    host: &mut H,
    catalogue: &Catalogue,
    work: &mut Work,
    line: EventLine,
    steps: &mut Steps<L>,
) -> Result<(), SessionFault>
    requires at_work { IsAtWork catalogue.now work.old }
    requires fits { Fits catalogue.now.streams line.event }
    ensures more { OnOk result (TakesEntry catalogue.now catalogue.now (Hears (event_of line.event)) work.old work.new (H.told host.old) (H.told host.new)) }
    ensures at_work { OnOk result (IsAtWork catalogue.now work.new) }
    ensures stops { IfErr result (StopsAtEntry catalogue.now line.number (Hears (event_of line.event)) work.old (H.told host.old) (H.told host.new)) }
    ensures quiet { BlamesWriting result (H.told host.old) (H.told host.new) }
    ensures last { FailedLast (failed_in result) (H.told host.old) (H.told host.new) }
    ensures same { SameButOutput (H.told host.old) (H.told host.new) }
    ensures tests { RisesByClosing catalogue.now line.event.tuple.at work.old.engine steps.old steps.new }
{
    let at = line.event.tuple.at();
    match late(&work.engine, at) {
        Some(seen) => Err(refuse(
            host,
            work,
            Refusal::IsOutOfOrder {
                line: line.number,
                at,
                seen,
            },
        )),
        None => close_and_offer(alloc, host, catalogue, work, line, steps),
    }
}

// The time that was heard last, where an event of this time comes too late.
#[inline(always)]
fn late(engine: &Engine, at: u64) -> Option<u64>
    ensures late { IfSome result (λ seen. (number : ℕ) → disorder number (is_some engine.now.time) (seen_by engine.now) at ≡ Some (IsOutOfOrder number at seen)) }
    ensures timely { IfNone result (IsTimely engine.now at) }
{
    match engine.open_time() {
        Some(time) if at < time => Some(time),
        Some(_) => None,
        None => match engine.last_closed() {
            Some(last) if at <= last => Some(last),
            _ => None,
        },
    }
}
