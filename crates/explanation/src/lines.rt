//! The hearing of lines, of which none is taken as a control line.
ghost use Rattle.std.specs.Prelude.{◌≡◌, ◌≤◌, ◌++◌, ℕ, List, Some, [], false, true, is_some, IfErr, IfNone, IfOk, IfSome, Ok, OnOk};
ghost use Rattle.std.specs.List.{All};
ghost use Rattle.derivations.specs.HeardLines.{AreInOrder};
ghost use Rattle.derivations.specs.declared.history.Heard.{Heard};
ghost use Rattle.event_csv.specs.Fed.{IsLine, unread_lines};
ghost use Rattle.event_csv.specs.declared.fault.LineFault.TheVariants.{LineTooLong};
ghost use Rattle.courses.specs.declared.refusal.Refusal.TheVariants.{HasFault, IsOutOfOrder};
ghost use Rattle.courses.specs.Heard.{disorder};
ghost use Rattle.courses.specs.EventLines.{control_here, found_here, found_of};
ghost use Rattle.explanation.specs.declared.fault.HearFault.TheVariants as fault;
ghost use Rattle.explanation.specs.Hearing.{AddsFound, FailsBy, HearsLines, HearsNext, HearsRest, last_at, refusal_behind, refused_left};
ghost use Rattle.explanation.specs.HeardLines.{numbered_at};

use crate::fault::HearFault;
use courses::{ControlFault, Refusal};
use derivations::{Heard, History};
use event_csv::{Feed, Got, LineFault, ReadFail, Seen, read_event};
use std::alloc::Global;
use stream_schema::Streams;

/// Hears the lines that have their ends, up to the first that is refused.
pub(crate) fn hear_lines(
    alloc: Global,
    streams: &Streams,
    feed: &mut Feed,
    history: &mut History,
) -> Result<(), HearFault>
    ensures heard { OnOk result (HearsLines streams.now feed.old feed.new history.old history.new) }
    ensures stops { IfErr result (FailsBy (refused_left streams.now feed.old false history.old)) }
{
    'lines: loop {
        if !hear_next(alloc, streams, feed, history)? {
            return Ok(());
        }
    }
}

// Hears the next line, and says whether there was one.
fn hear_next(
    alloc: Global,
    streams: &Streams,
    feed: &mut Feed,
    history: &mut History,
) -> Result<bool, HearFault>
    ensures heard { IfOk result (HearsNext streams.now feed.old feed.new history.old history.new) }
    ensures stops { IfErr result (FailsBy (refused_left streams.now feed.old false history.old)) }
{
    match feed.next_line() {
        Got::Line { number, bytes } => {
            hear_line(alloc, streams, number, bytes, history)?;
            Ok(true)
        }
        Got::Long { number } => Err(too_long(number)),
        Got::NotYet => Ok(false),
    }
}

/// Hears the line that is left where the text has ended.
pub(crate) fn hear_rest(
    alloc: Global,
    streams: &Streams,
    feed: &Feed,
    history: &mut History,
) -> Result<(), HearFault>
    requires { unread_lines feed.now false ≡ [] }
    ensures heard { OnOk result (HearsRest streams.now feed.now history.old history.new) }
    ensures stops { IfErr result (FailsBy (refused_left streams.now feed.now true history.old)) }
{
    match feed.last_line() {
        Got::Line { number, bytes } => hear_line(alloc, streams, number, bytes, history),
        Got::Long { number } => Err(too_long(number)),
        Got::NotYet => Ok(()),
    }
}

// The refusal of a line that is too long.
fn too_long(number: u64) -> HearFault
    ensures { result ≡ fault.Refused (HasFault number LineTooLong) }
{
    HearFault::Refused(Refusal::HasFault {
        line: number,
        why: LineFault::LineTooLong,
    })
}

// Hears a line, or refuses it.
fn hear_line(
    alloc: Global,
    streams: &Streams,
    number: u64,
    bytes: &[u8],
    history: &mut History,
) -> Result<(), HearFault>
    requires { IsLine bytes.now }
    ensures heard { OnOk result (AddsFound number (found_here streams.now bytes.now) history.old history.new) }
    ensures stops { IfErr result (FailsBy (refusal_behind history.old number (found_here streams.now bytes.now))) }
{
    if bytes[0] == b'>' {
        return Err(HearFault::Refused(refuse_control(number, bytes)));
    }
    match read_event(alloc, streams, bytes) {
        Ok(seen) => hear_event(number, seen, history),
        Err(ReadFail::Bad(why)) => Err(HearFault::Refused(Refusal::HasFault { line: number, why })),
        Err(ReadFail::Memory) => Err(HearFault::Memory),
    }
}

// The refusal of a control line.
fn refuse_control(number: u64, bytes: &[u8]) -> Refusal
    ensures { (history : List Heard) → refusal_behind history number (control_here bytes.now) ≡ Some result }
{
    match std::str::from_utf8(bytes) {
        Ok(_) => Refusal::HasControlFault {
            line: number,
            why: ControlFault::NotHere,
        },
        Err(_) => Refusal::HasFault {
            line: number,
            why: LineFault::NotUtf8,
        },
    }
}

// Hears an event, unless it is detected before the last one.
fn hear_event(number: u64, seen: Seen, history: &mut History) -> Result<(), HearFault>
    ensures heard { OnOk result (AddsFound number (found_of (Ok seen)) history.old history.new) }
    ensures stops { IfErr result (FailsBy (refusal_behind history.old number (found_of (Ok seen)))) }
{
    let at = seen.tuple.at();
    match late(history, at) {
        Some(last) => Err(HearFault::Refused(Refusal::IsOutOfOrder {
            line: number,
            at,
            seen: last,
        })),
        None => put_event(number, seen, history),
    }
}

// Puts an event behind the history.
fn put_event(number: u64, seen: Seen, history: &mut History) -> Result<(), HearFault>
    requires { All (λ earlier. earlier.tuple.at ≤ seen.tuple.at) history.old }
    ensures heard { OnOk result (history.new ≡ history.old ++ numbered_at number (found_of (Ok seen))) }
    ensures memory { IfErr result (λ why. why ≡ fault.Memory) }
{
    let heard = Heard {
        stream: seen.stream,
        tuple: seen.tuple,
        line: number,
    };
    match history.push(heard) {
        Ok(()) => Ok(()),
        Err(_) => Err(HearFault::Memory),
    }
}

// The detection time of the last event, where an event of this time comes too late.
fn late(history: &History, at: u64) -> Option<u64>
    ensures late { IfSome result (λ last. (number : ℕ) → disorder number (is_some (last_at history.now)) (last_at history.now) at ≡ Some (IsOutOfOrder number at last)) }
    ensures timely { IfNone result ((last : ℕ) → last_at history.now ≡ Some last → last ≤ at) }
    ensures in_order { AreInOrder history.now }
{
    match history.as_slice().last() {
        Some(heard) => {
            let last = heard.tuple.at();
            if at < last { Some(last) } else { None }
        }
        None => None,
    }
}
