//! What reads each of the streams, by their numbers.
ghost use Rattle.std.specs.Prelude.{◌≡◌, ◌<◌, ◌∷◌, [], ℕ, IsTrue, OnOk, length, map};
ghost use Rattle.automaton.specs.Networks.{IsNetwork};
ghost use Rattle.automaton.specs.States.{is_used};
ghost use Rattle.static_index.specs.Conditions.{HasId};
ghost use Rattle.static_index.specs.FixedParts.{fixed_parts};
ghost use Rattle.stream_readers.specs.Changing.{Files, FilesWait, Parts, PartsWait};
ghost use Rattle.stream_readers.specs.Filing.{filed_to};
ghost use Rattle.stream_readers.specs.Readers.{reader_at};
ghost use Rattle.stream_readers.specs.Targets.{targets_at};
ghost use Rattle.stream_readers.specs.Ways.{first_parts};

use crate::leaving::Gone;
use crate::reader::Reader;
use crate::target::Target;
use automaton::{Network, Step};
use event_types::{List, Memory, StreamId};
use scalar_expr::Conj;
use std::alloc::Global;

/// What reads each stream; nothing reads a stream that isn't listed.
pub(crate) type Streams = List<Reader>;

// Puts readers of nothing at the end until there is one for the stream. After want of memory there may be more
// than before.
fn lengthen(alloc: Global, readers: &mut Streams, stream: StreamId) -> Result<(), Memory>
    ensures long { OnOk result (stream < length readers.new) }
    ensures same { (number : ℕ) → reader_at readers.new number ≡ reader_at readers.old number }
{
    while readers.len() <= stream {
        readers.add(Reader::new(alloc))?;
    }
    Ok(())
}

/// The targets of a root of a stream come.
pub(crate) fn file_root(
    alloc: Global,
    readers: &mut Streams,
    stream: StreamId,
    network: &Network,
    number: usize,
) -> Result<(), Memory>
    requires used { IsTrue (is_used network.now number) }
    requires network { IsNetwork network.now }
    ensures { OnOk result (Files stream (map (filed_to network.now) (targets_at network.now number)) readers.old readers.new) }
{
    lengthen(alloc, readers, stream)?;
    readers.get_mut(stream).add_root(alloc, network, number)
}

/// A target on which tuples of a stream get on comes.
pub(crate) fn file_target(
    alloc: Global,
    readers: &mut Streams,
    stream: StreamId,
    target: Target,
    step: &Step,
) -> Result<(), Memory>
    ensures { OnOk result (Files stream (record { target = target; parts = first_parts step.now } ∷ []) readers.old readers.new) }
{
    lengthen(alloc, readers, stream)?;
    readers.get_mut(stream).add_target(alloc, target, step)
}

/// A target on which tuples of a stream got on leaves.
pub(crate) fn drop_target(readers: &mut Streams, stream: StreamId, gone: Gone)
    ensures { Parts stream gone readers.old readers.new }
{
    if stream < readers.len() {
        readers.get_mut(stream).leave(gone);
    }
}

/// A state comes that waits on a stream by a condition.
pub(crate) fn file_wait(
    alloc: Global,
    readers: &mut Streams,
    stream: StreamId,
    number: usize,
    choose: &Conj,
) -> Result<(), Memory>
    requires { ¬ HasId number (reader_at readers.old stream).waits }
    ensures { OnOk result (FilesWait stream (record { id = number; parts = fixed_parts choose.now }) readers.old readers.new) }
{
    lengthen(alloc, readers, stream)?;
    readers.get_mut(stream).add_wait(number, choose)
}

/// A state that waited on a stream leaves. Takes no memory.
pub(crate) fn drop_wait(readers: &mut Streams, stream: StreamId, number: usize)
    requires { HasId number (reader_at readers.old stream).waits }
    ensures { PartsWait stream number readers.old readers.new }
{
    if stream < readers.len() {
        readers.get_mut(stream).leave_wait(number);
    }
}
