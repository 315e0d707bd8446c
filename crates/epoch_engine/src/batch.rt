//! The results of an epoch.
ghost use Rattle.std.specs.Prelude.{◌≡◌, ◌<◌, length, map};
ghost use Rattle.std.specs.List.{All};
ghost use Rattle.semantics.specs.Denotation.{streams_of};
ghost use Rattle.epoch_draft.specs.Drafts.{DraftFits};
ghost use Rattle.epoch_draft.specs.Made.{ArePlaced, placed};
ghost use Rattle.epoch_engine.specs.Batches.{IsBatch};
ghost use Rattle.epoch_engine.specs.Results.{results_of};

use crate::room::Room;
use event_types::{StreamId, Tuple};
use short_lists::ShortList;
use std::marker::Model;

/// What a batch shows: printed streams in print order, tuples, and for each stream, by its number, the places of its own
/// among these, in their order and counted from 0. A tuple that several streams have may stand once. Each printed stream
/// that has tuples is there, and some that are there may have none.
#[derive(Clone, Copy, Drop)]
pub struct Printed<'a> {
    pub streams: &'a [StreamId],
    pub tuples: &'a [Tuple],
    pub places: &'a [ShortList],
}

/// The results of an epoch: for each stream that is printed and has some its tuples in their order. They stand in the room
/// in which the epoch was closed, which the engine takes back.
#[derive(Drop)]
pub struct Batch {
    room: Box<Room>,
}

impl Model for Batch {
    ghost use Rattle.std.specs.Prelude.{ℕ, List};
    ghost use Rattle.event_types.specs.Tuple.{TupleView};
    ghost use Rattle.semantics.specs.Denotation.{streams_of};
    ghost use Rattle.epoch_engine.specs.Batches.{IsBatch};
    ghost use Rattle.epoch_engine.specs.Results.{results_of};

    ghost Value = { List (ℕ × List TupleView) };

    ghost view = { λ b. results_of b.room.value.streams (streams_of b.room.value.drawing.draft.made) };

    ghost invariant = { λ b. IsBatch b.room.value };
}

impl Batch {
    /// The batch of the streams that are listed in a room. Takes no memory.
    pub(crate) fn make(room: Box<Room>) -> Batch
        requires { IsBatch room.value }
        ensures { result ≡ results_of room.value.streams (streams_of room.value.drawing.draft.made) }
    {
        Batch { room }
    }

    /// The printed streams with their tuples. Takes no memory.
    pub fn printed(&self) -> Printed<'_>
        ensures results { self.now ≡ results_of result.streams.now (streams_of (map (placed result.tuples.now) result.places.now)) }
        ensures within { All (λ stream. stream < length result.places.now) result.streams.now }
        ensures below { ArePlaced result.tuples.now result.places.now }
    {
        let made = self.room.drawing.draft.made.show();
        Printed {
            streams: self.room.streams.as_slice(),
            tuples: made.tuples,
            places: made.places,
        }
    }

    /// The room in which the epoch was closed. Takes no memory.
    pub(crate) fn into_room(self) -> Box<Room>
        ensures { DraftFits (length result.value.drawing.draft.made) (length result.value.drawing.draft.beads) result.value.drawing.draft }
    {
        self.room
    }
}
