//! The work on the lines of an event text.
ghost use Rattle.std.specs.Prelude.{◌≡◌, false, true, [], IfErr, IfOk, OnOk};
ghost use Rattle.cay_host.specs.Calls.{FailedLast};
ghost use Rattle.cay_host.specs.Output.{SameButOutput};
ghost use Rattle.event_csv.specs.Fed.{IsPart, unread_lines};
ghost use Rattle.session.specs.Feeds.{BlamesWriting, failed_in};
ghost use Rattle.session.specs.Standing.{IsAtWork, IsThrough};
ghost use Rattle.session.specs.HandsOutSomeLines.{HandsOutSomeLines, Progresses};
ghost use Rattle.session.specs.ForEachHistory.{EndsOver, GoesThrough, HearsLines, HearsRest, StopsOver};
ghost use Rattle.session.specs.Owes.{Blames};
ghost use Rattle.session.specs.TestsLeft.{RisesByLines, TestsMoved};

use crate::changing::work_on_change;
use crate::closing::close_last;
use crate::events::{refuse, work_on_event};
use crate::fault::SessionFault;
use crate::reading::{Handed, Next, last_reading, next_reading};
use crate::work::Work;
use crate::writing::write_rows;
use catalogue::Catalogue;
use cay_host::{Host, Ledger, Steps};
use event_csv::Feed;
use std::alloc::Global;

/// Works on all lines that have their end, and writes the rows.
pub fn work_on_lines<H: Host, L: Ledger>(
    alloc: Global,
    host: &mut H,
    catalogue: &mut Catalogue,
    feed: &mut Feed,
    work: &mut Work,
    steps: &mut Steps<L>,
) -> Result<(), SessionFault>
    requires { IsAtWork catalogue.old work.old }
    ensures ends { EndsOver catalogue.old feed.old false work.old (H.told host.old) (H.told host.new) result }
    ensures stands { OnOk result (HearsLines catalogue.old feed.old work.old catalogue.new work.new) }
    ensures at_work { OnOk result (IsAtWork catalogue.new work.new) }
    ensures none_owed { OnOk result (work.new.rows ≡ []) }
    ensures gone { OnOk result (HandsOutSomeLines feed.old feed.new) }
    ensures part { OnOk result (IsPart feed.new) }
    ensures quiet { BlamesWriting result (H.told host.old) (H.told host.new) }
    ensures last { FailedLast (failed_in result) (H.told host.old) (H.told host.new) }
    ensures same { SameButOutput (H.told host.old) (H.told host.new) }
    ensures tests { RisesByLines catalogue.old feed.old false work.old.engine steps.old steps.new }
{
    work_through(alloc, host, catalogue, feed, work, steps)?;
    write_rows(host, &mut work.rows)?;
    Ok(())
}

// Works on all lines that have their end. Out of line, and all that each of them needs in line.
#[inline(never)]
fn work_through<H: Host, L: Ledger>(
    alloc: Global,
    host: &mut H,
    catalogue: &mut Catalogue,
    feed: &mut Feed,
    work: &mut Work,
    steps: &mut Steps<L>,
) -> Result<(), SessionFault>
    requires { IsAtWork catalogue.old work.old }
    ensures goes_on { OnOk result (GoesThrough catalogue.old feed.old work.old catalogue.new work.new (H.told host.old) (H.told host.new)) }
    ensures at_work { OnOk result (IsAtWork catalogue.new work.new) }
    ensures gone { OnOk result (HandsOutSomeLines feed.old feed.new) }
    ensures part { OnOk result (IsPart feed.new) }
    ensures stops { IfErr result (StopsOver catalogue.old feed.old work.old (H.told host.old) (H.told host.new)) }
    ensures quiet { BlamesWriting result (H.told host.old) (H.told host.new) }
    ensures last { FailedLast (failed_in result) (H.told host.old) (H.told host.new) }
    ensures same { SameButOutput (H.told host.old) (H.told host.new) }
    ensures tests { RisesByLines catalogue.old feed.old false work.old.engine steps.old steps.new }
{
    'lines: loop {
        if !work_on_line(alloc, host, catalogue, feed, work, steps)? {
            return Ok(());
        }
    }
}

// Works on the next line, and says whether there was one.
#[inline(always)]
fn work_on_line<H: Host, L: Ledger>(
    alloc: Global,
    host: &mut H,
    catalogue: &mut Catalogue,
    feed: &mut Feed,
    work: &mut Work,
    steps: &mut Steps<L>,
) -> Result<bool, SessionFault>
    requires { IsAtWork catalogue.old work.old }
    ensures progress { IfOk result (Progresses catalogue.old catalogue.new feed.old feed.new work.old work.new (H.told host.old) (H.told host.new)) }
    ensures at_work { OnOk result (IsAtWork catalogue.new work.new) }
    ensures gone { HandsOutSomeLines feed.old feed.new }
    ensures stops { IfErr result (StopsOver catalogue.old feed.old work.old (H.told host.old) (H.told host.new)) }
    ensures quiet { OnOk result ((H.told host.new).write_faults ≡ (H.told host.old).write_faults) }
    ensures blames { IfErr result (λ fault. Blames fault (H.told host.old) (H.told host.new)) }
    ensures last { FailedLast (failed_in result) (H.told host.old) (H.told host.new) }
    ensures same { SameButOutput (H.told host.old) (H.told host.new) }
    ensures tests { RisesByLines catalogue.old feed.old false work.old.engine steps.old steps.new }
    ensures moved { IfOk result (TestsMoved catalogue.old catalogue.new feed.old feed.new work.old.engine work.new.engine steps.old steps.new) }
{
    let spare = work.engine.take_spare();
    match next_reading(alloc, catalogue, work.near, spare, feed) {
        Err(_) => Err(SessionFault::Memory),
        Ok(Handed::NotYet) => Ok(false),
        Ok(Handed::Refused(refusal)) => Err(refuse(host, work, Box::into_inner(refusal))),
        Ok(Handed::Event(line)) => {
            work_on_event(alloc, host, catalogue, work, line, steps)?;
            Ok(true)
        }
        Ok(Handed::Change(made)) => {
            work_on_change(alloc, host, catalogue, work, made, steps)?;
            Ok(true)
        }
    }
}

/// Works on what is left where the text ends here, closes the last epoch and writes the rows.
pub fn work_on_rest<H: Host, L: Ledger>(
    alloc: Global,
    host: &mut H,
    catalogue: &mut Catalogue,
    feed: &Feed,
    work: &mut Work,
    steps: &mut Steps<L>,
) -> Result<(), SessionFault>
    requires at_work { IsAtWork catalogue.old work.old }
    requires none_left { unread_lines feed.now false ≡ [] }
    ensures ends { EndsOver catalogue.old feed.now true work.old (H.told host.old) (H.told host.new) result }
    ensures stands { OnOk result (HearsRest catalogue.old feed.now work.old catalogue.new work.new) }
    ensures through { OnOk result (IsThrough catalogue.new work.new.engine) }
    ensures quiet { BlamesWriting result (H.told host.old) (H.told host.new) }
    ensures last { FailedLast (failed_in result) (H.told host.old) (H.told host.new) }
    ensures same { SameButOutput (H.told host.old) (H.told host.new) }
    ensures tests { RisesByLines catalogue.old feed.now true work.old.engine steps.old steps.new }
{
    match last_reading(alloc, catalogue, feed) {
        Err(_) => Err(SessionFault::Memory),
        Ok(Next::NotYet) => close_last(alloc, host, catalogue, work, steps),
        Ok(Next::Refused(refused)) => Err(refuse(host, work, refused)),
        Ok(Next::Event(line)) => {
            work_on_event(alloc, host, catalogue, work, line, steps)?;
            close_last(alloc, host, catalogue, work, steps)
        }
        Ok(Next::Change(made)) => {
            work_on_change(alloc, host, catalogue, work, made, steps)?;
            close_last(alloc, host, catalogue, work, steps)
        }
    }
}
