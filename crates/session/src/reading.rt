//! The lines of an event text as they are read.
ghost use Rattle.std.specs.Prelude.{◌≡◌, false, [], IfOk, IfSome};
ghost use Rattle.event_csv.specs.Fed.{IsLine, unread_lines};
ghost use Rattle.session.specs.Says.{FitsNext, Says, Shows, ShowsLast, read_as};
ghost use Rattle.event_csv.specs.declared.fault.LineFault.TheVariants as fault;
ghost use Rattle.courses.specs.declared.refusal.Refusal.TheVariants.{HasFault};
ghost use Rattle.session.specs.declared.reading.Next.TheVariants as next;
ghost use Rattle.session.specs.HandsOutSomeLines.{HandsOutSomeLines};

use crate::control::{Change, read_change};
use catalogue::Catalogue;
use courses::Refusal;
use event_csv::{Feed, Got, LineFault, ReadFail, Seen, read_event, read_quickly};
use event_types::{Memory, StreamId, Vals};
use std::alloc::Global;

/// A line that is an event: its number, and the event.
#[derive(Drop)]
pub struct EventLine {
    pub number: u64,
    pub event: Seen,
}

/// What comes next of an event text.
#[derive(Drop)]
pub enum Next {
    /// An event.
    Event(EventLine),
    /// A control line that may change the queries. Boxed, so that an event is moved with no room for it.
    Change(Box<Change>),
    /// A line with a fault.
    Refused(Refusal),
    /// No line that has its end.
    NotYet,
}

/// What comes next of an event text, as it is handed to the work on lines: only an event is held by value, so that it
/// is moved with no room for what comes rarely.
#[derive(Drop)]
pub enum Handed {
    /// An event.
    Event(EventLine),
    /// A control line that may change the queries.
    Change(Box<Change>),
    /// A line with a fault.
    Refused(Box<Refusal>),
    /// No line that has its end.
    NotYet,
}

/// Reads the next line that is neither empty nor the header; an event's name is looked for at the stream `near` first,
/// and its values are put into the list `spare`, if there is one.
#[inline(always)]
pub fn next_reading(
    alloc: Global,
    catalogue: &Catalogue,
    near: StreamId,
    spare: Option<Vals>,
    feed: &mut Feed,
) -> Result<Handed, Memory>
    requires { IfSome spare (λ vals. vals ≡ []) }
    ensures shows { IfOk result (λ handed. Shows catalogue.now feed.old feed.new (read_as handed)) }
    ensures gone { HandsOutSomeLines feed.old feed.new }
    ensures fits { IfOk result (λ handed. FitsNext catalogue.now.streams (read_as handed)) }
{
    match feed.next_line() {
        Got::Line { number, bytes } => read_soon(alloc, catalogue, near, spare, number, bytes),
        Got::Long { number } => {
            let handed = too_long_in_box(alloc, number)?;
            Ok(Box::into_inner(handed))
        }
        Got::NotYet => Ok(Handed::NotYet),
    }
}

/// Reads the line that is left where the text ends here.
pub fn last_reading(alloc: Global, catalogue: &Catalogue, feed: &Feed) -> Result<Next, Memory>
    requires { unread_lines feed.now false ≡ [] }
    ensures shows { IfOk result (ShowsLast catalogue.now feed.now) }
    ensures fits { IfOk result (FitsNext catalogue.now.streams) }
{
    match feed.last_line() {
        Got::Line { number, bytes } => read_line(alloc, catalogue, number, bytes),
        Got::Long { number } => Ok(too_long(number)),
        Got::NotYet => Ok(Next::NotYet),
    }
}

// The refusal of a line that is too long.
fn too_long(number: u64) -> Next
    ensures { result ≡ next.Refused (HasFault number fault.LineTooLong) }
{
    Next::Refused(Refusal::HasFault {
        line: number,
        why: LineFault::LineTooLong,
    })
}

// Reads the bytes of a line, most events by the quick reading.
#[inline(always)]
fn read_soon(
    alloc: Global,
    catalogue: &Catalogue,
    near: StreamId,
    spare: Option<Vals>,
    number: u64,
    bytes: &[u8],
) -> Result<Handed, Memory>
    requires line { IsLine bytes.now }
    requires spare { IfSome spare (λ vals. vals ≡ []) }
    ensures says { IfOk result (λ handed. Says catalogue.now number bytes.now (read_as handed)) }
    ensures fits { IfOk result (λ handed. FitsNext catalogue.now.streams (read_as handed)) }
{
    if bytes[0] != b'>' {
        if let Some(event) = read_quickly(alloc, catalogue.streams(), near, spare, bytes) {
            return Ok(Handed::Event(EventLine { number, event }));
        }
    }
    let handed = read_in_box(alloc, catalogue, number, bytes)?;
    Ok(Box::into_inner(handed))
}

// Reads the bytes of a line that isn't read quickly. Out of line and into a box, so that the reading of most events
// holds no room for what comes rarely.
#[inline(never)]
fn read_in_box(
    alloc: Global,
    catalogue: &Catalogue,
    number: u64,
    bytes: &[u8],
) -> Result<Box<Handed>, Memory>
    requires { IsLine bytes.now }
    ensures says { IfOk result (λ handed. Says catalogue.now number bytes.now (read_as handed.value)) }
    ensures fits { IfOk result (λ handed. FitsNext catalogue.now.streams (read_as handed.value)) }
{
    let next = read_line(alloc, catalogue, number, bytes)?;
    in_box(alloc, next)
}

// The refusal of a line that is too long, in a box. Out of line, as above.
#[inline(never)]
fn too_long_in_box(alloc: Global, number: u64) -> Result<Box<Handed>, Memory>
    ensures { IfOk result (λ handed. read_as handed.value ≡ next.Refused (HasFault number fault.LineTooLong)) }
{
    in_box(alloc, too_long(number))
}

// What was read, in a box.
fn in_box(alloc: Global, next: Next) -> Result<Box<Handed>, Memory>
    ensures { IfOk result (λ handed. read_as handed.value ≡ next) }
{
    let handed = hand_on(alloc, next)?;
    match Box::new(alloc, handed) {
        Ok(handed) => Ok(handed),
        Err(_) => Err(Memory),
    }
}

// What was read, a refusal in a box.
fn hand_on(alloc: Global, next: Next) -> Result<Handed, Memory>
    ensures { IfOk result (λ handed. read_as handed ≡ next) }
{
    match next {
        Next::Event(line) => Ok(Handed::Event(line)),
        Next::Change(made) => Ok(Handed::Change(made)),
        Next::Refused(refusal) => match Box::new(alloc, refusal) {
            Ok(refusal) => Ok(Handed::Refused(refusal)),
            Err(_) => Err(Memory),
        },
        Next::NotYet => Ok(Handed::NotYet),
    }
}

// Reads the bytes of any line.
fn read_line(
    alloc: Global,
    catalogue: &Catalogue,
    number: u64,
    bytes: &[u8],
) -> Result<Next, Memory>
    requires { IsLine bytes.now }
    ensures says { IfOk result (Says catalogue.now number bytes.now) }
    ensures fits { IfOk result (FitsNext catalogue.now.streams) }
{
    if bytes[0] == b'>' {
        return read_change(alloc, catalogue, number, bytes);
    }
    match read_event(alloc, catalogue.streams(), bytes) {
        Ok(event) => Ok(Next::Event(EventLine { number, event })),
        Err(ReadFail::Bad(why)) => Ok(Next::Refused(Refusal::HasFault { line: number, why })),
        Err(ReadFail::Memory) => Err(Memory),
    }
}
