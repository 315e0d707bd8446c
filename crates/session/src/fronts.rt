//! The fronts of rows, stream by stream.
ghost use Rattle.std.specs.Prelude.{◌≡◌, List, OnOk, Some, slice_get};
ghost use Rattle.stream_schema.specs.Streams.{Entry, retired};
ghost use Rattle.catalogue.specs.Standing.{IsKnown};
ghost use Rattle.result_text.specs.Front.{front_of};
ghost use Rattle.session.specs.Fronts.{AreFronts, name_in};

use event_types::{List, Memory, StreamId};
use result_text::Front;
use std::alloc::Global;
use stream_schema::Streams;

/// The fronts of rows by the numbers of their streams. That of a stream is made with its first row.
pub type Fronts = List<Option<Front>>;

/// Makes the front of a stream's rows, unless it is there.
#[inline(always)]
pub fn keep_front(
    alloc: Global,
    streams: &Streams,
    stream: StreamId,
    fronts: &mut Fronts,
) -> Result<(), Memory>
    requires known { IsKnown streams.now stream }
    requires fronts { AreFronts streams.now fronts.old }
    ensures there { OnOk result (slice_get fronts.new stream ≡ Some (Some (front_of (name_in streams.now stream)))) }
    ensures fronts { OnOk result (AreFronts streams.now fronts.new) }
{
    if stream < fronts.len() && fronts.get(stream).is_some() {
        Ok(())
    } else {
        make_front(alloc, streams, stream, fronts)
    }
}

// Makes the front of a stream's rows. Out of line, since it is made once.
#[inline(never)]
fn make_front(
    alloc: Global,
    streams: &Streams,
    stream: StreamId,
    fronts: &mut Fronts,
) -> Result<(), Memory>
    requires known { IsKnown streams.now stream }
    requires fronts { AreFronts streams.now fronts.old }
    ensures there { OnOk result (slice_get fronts.new stream ≡ Some (Some (front_of (name_in streams.now stream)))) }
    ensures fronts { OnOk result (AreFronts streams.now fronts.new) }
{
    let front = Front::of(alloc, streams.name(stream))?;
    'places: while fronts.len() <= stream {
        fronts.add(None)?;
    }
    *fronts.get_mut(stream) = Some(front);
    Ok(())
}

/// Forgets the front of the rows of a stream that is retired. Takes no memory.
pub fn forget_front(fronts: &mut Fronts, stream: StreamId)
    ensures { (streams : List Entry) → AreFronts streams fronts.old → AreFronts (retired streams stream) fronts.new }
{
    if stream < fronts.len() {
        *fronts.get_mut(stream) = None;
    }
}
