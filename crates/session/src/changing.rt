//! The work on control lines that change the queries.
ghost use Rattle.std.specs.Prelude.{◌≡◌, ◌↔◌, ℕ, ◌<◌, None, IfErr, OnOk, false, length};
ghost use Rattle.cay_host.specs.Calls.{FailedLast};
ghost use Rattle.cay_host.specs.Output.{SameButOutput};
ghost use Rattle.catalogue.specs.Catalogued.{query_in};
ghost use Rattle.catalogue.specs.Leaving.{IsUnread};
ghost use Rattle.catalogue.specs.Standing.{IsUpTo};
ghost use Rattle.catalogue.specs.Taking.{IsFit, added_of};
ghost use Rattle.courses.specs.Course.{Adds, Drops};
ghost use Rattle.session.specs.Changes.{HasChanged};
ghost use Rattle.session.specs.Feeds.{BlamesWriting, failed_in};
ghost use Rattle.session.specs.ForEachHistory.{StopsAtEntry, TakesEntry};
ghost use Rattle.session.specs.Says.{MayBeMade, entry_by};
ghost use Rattle.session.specs.Standing.{IsAtWork};
ghost use Rattle.session.specs.TestsLeft.{RisesByOpen};

use crate::closing::close_open;
use crate::control::Change;
use crate::fault::SessionFault;
use crate::fronts::forget_front;
use crate::work::Work;
use catalogue::{Catalogue, Coming};
use cay_host::{Host, Ledger, Steps};
use event_types::Memory;
use std::alloc::Global;

/// Closes the open epoch, whose rows are those of the queries that are there, and then changes the queries. Out of
/// line, and the change is taken out of its box here, so that the work on events stays short and has no room for it.
#[inline(never)]
pub fn work_on_change<H: Host, L: Ledger>(
    alloc: Global,
    host: &mut H,
    catalogue: &mut Catalogue,
    work: &mut Work,
    made: Box<Change>,
    steps: &mut Steps<L>,
) -> Result<(), SessionFault>
    requires at_work { IsAtWork catalogue.old work.old }
    requires may { MayBeMade catalogue.old made.value }
    ensures more { OnOk result (TakesEntry catalogue.old catalogue.new (entry_by catalogue.old made.value) work.old work.new (H.told host.old) (H.told host.new)) }
    ensures at_work { OnOk result (IsAtWork catalogue.new work.new) }
    ensures stops { IfErr result (λ fault. (number : ℕ) → StopsAtEntry catalogue.old number (entry_by catalogue.old made.value) work.old (H.told host.old) (H.told host.new) fault) }
    ensures quiet { BlamesWriting result (H.told host.old) (H.told host.new) }
    ensures last { FailedLast (failed_in result) (H.told host.old) (H.told host.new) }
    ensures same { SameButOutput (H.told host.old) (H.told host.new) }
    ensures tests { RisesByOpen catalogue.old work.old.engine steps.old steps.new }
{
    let made = Box::into_inner(made);
    close_open(alloc, host, catalogue, work, steps)?;
    change(alloc, catalogue, work, made)?;
    Ok(())
}

// Changes the queries where no epoch is open.
fn change(
    alloc: Global,
    catalogue: &mut Catalogue,
    work: &mut Work,
    made: Change,
) -> Result<(), Memory>
    requires at_work { IsAtWork catalogue.old work.old }
    requires closed { work.old.engine.time ≡ None }
    requires may { MayBeMade catalogue.old made }
    ensures changed { OnOk result (HasChanged (entry_by catalogue.old made) catalogue.old catalogue.new work.old work.new) }
    ensures at_work { OnOk result (IsAtWork catalogue.new work.new) }
{
    match made {
        Change::Comes(query) => bring(alloc, catalogue, work, query),
        Change::Leaves(query) => take_out(alloc, catalogue, work, query),
    }
}

// Adds a query that was judged, which is born at the last closed time.
fn bring(
    alloc: Global,
    catalogue: &mut Catalogue,
    work: &mut Work,
    query: Coming,
) -> Result<(), Memory>
    requires at_work { IsAtWork catalogue.old work.old }
    requires closed { work.old.engine.time ≡ None }
    requires fit { IsFit catalogue.old.streams (added_of query) }
    ensures changed { OnOk result (HasChanged (Adds (added_of query)) catalogue.old catalogue.new work.old work.new) }
    ensures at_work { OnOk result (IsAtWork catalogue.new work.new) }
{
    let since = work.engine.last_closed();
    if is_before(since, work.born) {
        return Err(Memory);
    }
    let added = catalogue.take(alloc, query, since)?;
    let growth = added.growth;
    work.engine
        .add(alloc, &added.lines, &added.ends, since, growth)?;
    work.born = since;
    Ok(())
}

// Drops a query that none reads.
fn take_out(
    alloc: Global,
    catalogue: &mut Catalogue,
    work: &mut Work,
    query: usize,
) -> Result<(), Memory>
    requires at_work { IsAtWork catalogue.old work.old }
    requires closed { work.old.engine.time ≡ None }
    requires within { query < length catalogue.old.order }
    requires unread { IsUnread catalogue.old query }
    ensures changed { OnOk result (HasChanged (Drops (query_in catalogue.old query)) catalogue.old catalogue.new work.old work.new) }
    ensures at_work { OnOk result (IsAtWork catalogue.new work.new) }
{
    let stream = catalogue.stream_of(query);
    let dropped = catalogue.drop_at(alloc, query)?;
    work.engine.remove(&dropped.ends, dropped.part);
    forget_front(&mut work.fronts, stream);
    Ok(())
}

// Whether the first time is before the second, where none is before all times.
fn is_before(time: Option<u64>, other: Option<u64>) -> bool
    ensures { (result ≡ false) ↔ IsUpTo other time }
{
    match (time, other) {
        (_, None) => false,
        (None, Some(_)) => true,
        (Some(time), Some(other)) => time < other,
    }
}
