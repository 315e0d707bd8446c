//! The rows of closed epochs, on their way to the output.
ghost use Rattle.std.specs.Prelude.{◌≡◌, ◌<◌, ◌++◌, [], ℕ, List, None, Some, length, OnOk, OnErr};
ghost use Rattle.std.specs.List.{All, flat_map};
ghost use Rattle.cay_host.specs.declared.call.Call.TheVariants.{Write};
ghost use Rattle.cay_host.specs.Calls.{FailedLast};
ghost use Rattle.cay_host.specs.Faults.{Rose};
ghost use Rattle.cay_host.specs.Output.{Wrote, WrotePart, SameButOutput};
ghost use Rattle.semantics.specs.Report.{line};
ghost use Rattle.epoch_draft.specs.Made.{placed};
ghost use Rattle.result_text.specs.Front.{front_of};
ghost use Rattle.result_text.specs.Tails.{AreIn};
ghost use Rattle.session.specs.BatchLines.{AreOfKnown, batch_lines};
ghost use Rattle.session.specs.Fronts.{AreFronts};
ghost use Rattle.session.specs.Owes.{Owes};

use crate::fronts::{Fronts, keep_front};
use cay_host::{Failed, Host, write_whole};
use epoch_engine::Batch;
use event_types::{Memory, Tuple};
use result_text::{Front, Lately, Rows, Tails};
use std::alloc::Global;
use stream_schema::Streams;

/// Rows are written once there are so many bytes of them.
const FULL: usize = 65536;

/// Appends the result lines of each stream's tuples, behind fronts that are made where there are none yet. Where the
/// batch has no tuples, nothing is made. Out of line, so that its loop stands alone.
#[inline(never)]
pub fn put_batch(
    alloc: Global,
    streams: &Streams,
    batch: &Batch,
    fronts: &mut Fronts,
    rows: &mut Rows,
    tails: &mut Tails,
) -> Result<(), Memory>
    requires known { AreOfKnown streams.now batch.now }
    requires fronts { AreFronts streams.now fronts.old }
    ensures put { OnOk result (rows.new ≡ rows.old ++ batch_lines streams.now batch.now) }
    ensures fronts { OnOk result (AreFronts streams.now fronts.new) }
{
    let printed = batch.printed();
    if printed.streams.is_empty() {
        return Ok(());
    }
    tails.clear_if_full();
    let mut lately = Lately::none();
    for stream in printed.streams {
        let places = printed.places[*stream].as_slice();
        if !places.is_empty() {
            keep_front(alloc, streams, *stream, fronts)?;
            let front = fronts.get(*stream).as_ref().unwrap();
            put_places(front, printed.tuples, places, rows, tails, &mut lately)?;
        }
    }
    Ok(())
}

// Appends the result lines of the tuples at these places, behind a front.
#[inline(always)]
fn put_places(
    front: &Front,
    tuples: &[Tuple],
    places: &[usize],
    rows: &mut Rows,
    tails: &mut Tails,
    lately: &mut Lately,
) -> Result<(), Memory>
    requires below { All (λ place. place < length tuples.now) places.now }
    requires lately { AreIn tails.old tuples.now lately.old }
    ensures put { OnOk result ((name : List ℕ) → front.now ≡ front_of name → rows.new ≡ rows.old ++ flat_map (line name) (placed tuples.now places.now)) }
    ensures lately { OnOk result (AreIn tails.new tuples.now lately.new) }
{
    for place in places {
        rows.append(front, tuples, *place, tails, lately)?;
    }
    Ok(())
}

/// Writes the rows once there are many, so that there are fewer than 65,536 bytes of them behind it. Takes no memory.
pub fn write_if_full<H: Host>(host: &mut H, rows: &mut Rows) -> Result<(), Failed>
    ensures ok { OnOk result ((rest : List ℕ) → Owes (rows.old ++ rest) (rows.new ++ rest) (H.told host.old) (H.told host.new)) }
    ensures few { OnOk result (length rows.new < 65536) }
    ensures quiet { OnOk result ((H.told host.new).write_faults ≡ (H.told host.old).write_faults) }
    ensures none_failed { OnOk result (FailedLast None (H.told host.old) (H.told host.new)) }
    ensures part { OnErr result (WrotePart rows.old (H.told host.old) (H.told host.new)) }
    ensures cause { OnErr result (Rose (H.told host.old).write_faults (H.told host.new).write_faults) }
    ensures last_failed { OnErr result (FailedLast (Some Write) (H.told host.old) (H.told host.new)) }
    ensures same { SameButOutput (H.told host.old) (H.told host.new) }
{
    if rows.as_slice().len() < FULL {
        Ok(())
    } else {
        write_rows(host, rows)
    }
}

/// Writes the rows, and takes them away. Takes no memory. Out of line, so that the work on events stays short.
#[inline(never)]
pub fn write_rows<H: Host>(host: &mut H, rows: &mut Rows) -> Result<(), Failed>
    ensures ok { OnOk result (Wrote rows.old (H.told host.old) (H.told host.new)) }
    ensures taken { OnOk result (rows.new ≡ []) }
    ensures quiet { OnOk result ((H.told host.new).write_faults ≡ (H.told host.old).write_faults) }
    ensures none_failed { OnOk result (FailedLast None (H.told host.old) (H.told host.new)) }
    ensures part { OnErr result (WrotePart rows.old (H.told host.old) (H.told host.new)) }
    ensures cause { OnErr result (Rose (H.told host.old).write_faults (H.told host.new).write_faults) }
    ensures last_failed { OnErr result (FailedLast (Some Write) (H.told host.old) (H.told host.new)) }
    ensures same { SameButOutput (H.told host.old) (H.told host.new) }
{
    write_whole(host, rows.as_slice())?;
    rows.clear();
    Ok(())
}
