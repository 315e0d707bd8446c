//! The events of a stream, and what is read of a stream.
ghost use Rattle.std.specs.Prelude.{◌≡◌, ◌++◌, IfOk, OnOk, map};
ghost use Rattle.derivations.specs.DerivedPrograms.{derived_heard, heard_one};
ghost use Rattle.derivations.specs.DerivedTuples.{as_read};
ghost use Rattle.derivations.specs.HeardLines.{event_of, events_of};

use crate::deriv::{Deriv, Derived, Deriveds};
use crate::history::Heard;
use event_types::{List, Memory, StreamId};
use std::alloc::Global;

// The events of a stream, each with its place in the history.
pub(crate) fn heard_on(
    alloc: Global,
    history: &[Heard],
    stream: StreamId,
) -> Result<Deriveds, Memory>
    ensures { IfOk result (λ found. found ≡ derived_heard 1 (events_of history.now) stream) }
{
    let mut found = List::new(alloc);
    for index in 0..history.len() {
        add_heard(alloc, &mut found, &history[index], index + 1, stream)?;
    }
    Ok(found)
}

// Adds the event with its place, where it was heard on the stream.
fn add_heard(
    alloc: Global,
    out: &mut Deriveds,
    heard: &Heard,
    place: usize,
    stream: StreamId,
) -> Result<(), Memory>
    ensures { OnOk result (out.new ≡ out.old ++ heard_one place (event_of heard.now) stream) }
{
    if heard.stream != stream {
        return Ok(());
    }
    let tuple = heard.tuple.copy(alloc)?;
    out.add(Derived {
        tuple,
        deriv: Deriv::Event(place),
    })
}

// Adds the tuples of a stream as they are read.
pub(crate) fn add_read(
    alloc: Global,
    out: &mut Deriveds,
    is_declared: bool,
    found: &[Derived],
) -> Result<(), Memory>
    ensures { OnOk result (out.new ≡ out.old ++ map (as_read is_declared) found.now) }
{
    for one in found {
        out.add(read(alloc, is_declared, one)?)?;
    }
    Ok(())
}

// The tuple as it is read of a stream.
fn read(alloc: Global, is_declared: bool, one: &Derived) -> Result<Derived, Memory>
    ensures { IfOk result (λ read. read ≡ as_read is_declared one.now) }
{
    let copy = one.copy(alloc)?;
    if is_declared {
        return Ok(copy);
    }
    Ok(Derived {
        tuple: copy.tuple,
        deriv: Deriv::Query(Box::new(alloc, copy.deriv)?),
    })
}
