//! The closing of epochs.
ghost use Rattle.std.specs.Prelude.{◌≡◌, ◌<◌, ℕ, IsSome, IfErr, OnOk, length};
ghost use Rattle.cay_host.specs.Calls.{FailedLast};
ghost use Rattle.cay_host.specs.Output.{SameButOutput};
ghost use Rattle.session.specs.Feeds.{BlamesWriting, failed_in};
ghost use Rattle.session.specs.Fronts.{AreFronts};
ghost use Rattle.session.specs.Standing.{HasClosed, HasShut, IsAtWork, IsReadyForEvent, IsTimely};
ghost use Rattle.session.specs.ForEachHistory.{FailsAtOpen, FailsInClosing, OwesClosing, OwesOpen, PutsOpenRows, WritesOpen};
ghost use Rattle.session.specs.TestsLeft.{RisesByClosing, RisesByOpen};

use crate::fault::SessionFault;
use crate::work::Work;
use crate::writing::{put_batch, write_if_full, write_rows};
use catalogue::Catalogue;
use cay_host::{Host, Ledger, Steps};
use event_types::Memory;
use std::alloc::Global;

// Closes the open epoch, and puts its rows behind those that aren't written yet. Out of line, so that the work on a
// line that closes none stays short.
#[inline(never)]
fn close_epoch<L: Ledger>(
    alloc: Global,
    catalogue: &Catalogue,
    work: &mut Work,
    steps: &mut Steps<L>,
) -> Result<(), Memory>
    requires at_work { IsAtWork catalogue.now work.old }
    requires opened { IsSome work.old.engine.time }
    ensures rows { OnOk result (PutsOpenRows catalogue.now work.old work.new) }
    ensures fronts { OnOk result (AreFronts catalogue.now.streams work.new.fronts) }
    ensures closed { OnOk result (HasClosed catalogue.now work.old.engine work.new.engine) }
    ensures born { work.new.born ≡ work.old.born }
    ensures tests { RisesByOpen catalogue.now work.old.engine steps.old steps.new }
{
    let batch = work.engine.close(alloc, steps)?;
    put_batch(
        alloc,
        catalogue.streams(),
        &batch,
        &mut work.fronts,
        &mut work.rows,
        &mut work.tails,
    )?;
    work.engine.take_back(batch);
    Ok(())
}

/// Closes the open epoch where an event of this time comes later.
#[inline(always)]
pub fn close_before<H: Host, L: Ledger>(
    alloc: Global,
    host: &mut H,
    catalogue: &Catalogue,
    work: &mut Work,
    at: u64,
    steps: &mut Steps<L>,
) -> Result<(), SessionFault>
    requires at_work { IsAtWork catalogue.now work.old }
    requires timely { IsTimely work.old.engine at }
    ensures owes { OnOk result (OwesClosing catalogue.now at work.old work.new (H.told host.old) (H.told host.new)) }
    ensures few { OnOk result (length work.new.rows < 65536) }
    ensures ready { OnOk result (IsReadyForEvent catalogue.now at work.old.engine work.new.engine) }
    ensures fronts { OnOk result (AreFronts catalogue.now.streams work.new.fronts) }
    ensures born { work.new.born ≡ work.old.born }
    ensures fails { IfErr result (FailsInClosing catalogue.now at work.old (H.told host.old) (H.told host.new)) }
    ensures quiet { BlamesWriting result (H.told host.old) (H.told host.new) }
    ensures last { FailedLast (failed_in result) (H.told host.old) (H.told host.new) }
    ensures same { SameButOutput (H.told host.old) (H.told host.new) }
    ensures tests { RisesByClosing catalogue.now at work.old.engine steps.old steps.new }
{
    match work.engine.open_time() {
        Some(seen) if seen < at => {
            close_epoch(alloc, catalogue, work, steps)?;
            write_if_full(host, &mut work.rows)?;
            Ok(())
        }
        _ => Ok(()),
    }
}

/// Closes the open epoch, if there is one.
pub fn close_open<H: Host, L: Ledger>(
    alloc: Global,
    host: &mut H,
    catalogue: &Catalogue,
    work: &mut Work,
    steps: &mut Steps<L>,
) -> Result<(), SessionFault>
    requires at_work { IsAtWork catalogue.now work.old }
    ensures owes { OnOk result (OwesOpen catalogue.now work.old work.new (H.told host.old) (H.told host.new)) }
    ensures shut { OnOk result (HasShut catalogue.now work.old.engine work.new.engine) }
    ensures at_work { OnOk result (IsAtWork catalogue.now work.new) }
    ensures fails { IfErr result (FailsAtOpen catalogue.now work.old (H.told host.old) (H.told host.new)) }
    ensures quiet { BlamesWriting result (H.told host.old) (H.told host.new) }
    ensures last { FailedLast (failed_in result) (H.told host.old) (H.told host.new) }
    ensures same { SameButOutput (H.told host.old) (H.told host.new) }
    ensures tests { RisesByOpen catalogue.now work.old.engine steps.old steps.new }
{
    if work.engine.open_time().is_some() {
        close_epoch(alloc, catalogue, work, steps)?;
        write_if_full(host, &mut work.rows)?;
    }
    Ok(())
}

/// Closes the last epoch, and writes what there is.
pub fn close_last<H: Host, L: Ledger>(
    alloc: Global,
    host: &mut H,
    catalogue: &Catalogue,
    work: &mut Work,
    steps: &mut Steps<L>,
) -> Result<(), SessionFault>
    requires at_work { IsAtWork catalogue.now work.old }
    ensures ends { WritesOpen catalogue.now work.old (H.told host.old) (H.told host.new) result }
    ensures shut { OnOk result (HasShut catalogue.now work.old.engine work.new.engine) }
    ensures quiet { BlamesWriting result (H.told host.old) (H.told host.new) }
    ensures last { FailedLast (failed_in result) (H.told host.old) (H.told host.new) }
    ensures same { SameButOutput (H.told host.old) (H.told host.new) }
    ensures tests { RisesByOpen catalogue.now work.old.engine steps.old steps.new }
{
    close_open(alloc, host, catalogue, work, steps)?;
    write_rows(host, &mut work.rows)?;
    Ok(())
}
