//! Control lines as they are read.
ghost use Rattle.std.specs.Prelude.{◌≡◌, IfOk, IsTrue, Ok};
ghost use Rattle.event_csv.specs.Control.{Asked, is_control};
ghost use Rattle.event_csv.specs.Fed.{IsLine};
ghost use Rattle.courses.specs.ControlLines.{OfControl, added_entry, control_entry, verdict_of};
ghost use Rattle.courses.specs.QuerySet.{set_in};
ghost use Rattle.session.specs.Says.{Asks, Finds, FitsNext, Says, refusal_for};
ghost use Rattle.session.specs.declared.reading.Next.TheVariants as next;

use crate::reading::Next;
use catalogue::{AddFault, Catalogue, Coming, DropFault};
use cel_lexer::is_name;
use courses::{ControlFault, Refusal};
use event_csv::{Control, ControlError, LineFault, read_control};
use event_types::{Memory, Text};
use std::alloc::Global;

/// A change of the queries that are there.
#[derive(Drop)]
pub enum Change {
    /// A query comes.
    Comes(Coming),
    /// The query with this number leaves.
    Leaves(usize),
}

/// Reads a control line over the queries that are there. Out of line, so that the reading of events stays short.
#[inline(never)]
pub fn read_change(
    alloc: Global,
    catalogue: &Catalogue,
    number: u64,
    bytes: &[u8],
) -> Result<Next, Memory>
    requires line { IsLine bytes.now }
    requires control { IsTrue (is_control bytes.now) }
    ensures says { IfOk result (Says catalogue.now number bytes.now) }
    ensures fits { IfOk result (FitsNext catalogue.now.streams) }
{
    match read_control(bytes) {
        Ok(Control::Add(text)) => read_query(alloc, catalogue, number, text),
        Ok(Control::Remove(name)) => read_name(alloc, catalogue, number, name),
        Err(ControlError::NotUtf8) => Ok(Next::Refused(Refusal::HasFault {
            line: number,
            why: LineFault::NotUtf8,
        })),
        Err(ControlError::BadForm) => Ok(refused(number, ControlFault::BadForm)),
    }
}

// Reads the text of a query that is to come.
fn read_query(
    alloc: Global,
    catalogue: &Catalogue,
    number: u64,
    text: &[u8],
) -> Result<Next, Memory>
    ensures says { IfOk result (Finds catalogue.now number (added_entry (verdict_of catalogue.now.streams text.now))) }
    ensures fits { IfOk result (FitsNext catalogue.now.streams) }
{
    match catalogue.judge(alloc, text) {
        Ok(query) => asked(alloc, Change::Comes(query)),
        Err(AddFault::Bad { line: _, why }) => Ok(refused(number, ControlFault::Query(why))),
        Err(AddFault::Memory) => Err(Memory),
    }
}

// Reads the name of a query that is to leave.
fn read_name(alloc: Global, catalogue: &Catalogue, number: u64, name: &str) -> Result<Next, Memory>
    ensures says { IfOk result (Finds catalogue.now number (control_entry (set_in catalogue.now) (Ok (Asked.Removing name.now)))) }
    ensures fits { IfOk result (FitsNext catalogue.now.streams) }
{
    if !is_name(name) {
        return Ok(refused(number, ControlFault::BadForm));
    }
    match catalogue.query_to_drop(alloc, name) {
        Ok(query) => asked(alloc, Change::Leaves(query)),
        Err(DropFault::UnknownQuery) => {
            let name = Text::make(alloc, name)?;
            Ok(refused(number, ControlFault::UnknownQuery { name }))
        }
        Err(DropFault::InUse { reader }) => {
            let name = Text::make(alloc, name)?;
            Ok(refused(number, ControlFault::InUse { name, reader }))
        }
        Err(DropFault::Memory) => Err(Memory),
    }
}

// A change that a control line asks for.
fn asked(alloc: Global, made: Change) -> Result<Next, Memory>
    ensures { IfOk result (Asks made) }
{
    match Box::new(alloc, made) {
        Ok(made) => Ok(Next::Change(made)),
        Err(_) => Err(Memory),
    }
}

// The refusal of a control line.
fn refused(line: u64, why: ControlFault) -> Next
    ensures { result ≡ next.Refused (refusal_for line (OfControl why)) }
{
    Next::Refused(Refusal::HasControlFault { line, why })
}
