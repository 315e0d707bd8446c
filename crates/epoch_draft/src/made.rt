//! The tuples that an epoch brings, by stream.
//!
//! Contracts see a `Made` as the list of the streams' lists of tuples.
ghost use Rattle.std.specs.Prelude.{◌≡◌, ◌<◌, ◌⊎◌, ◌++◌, ◌∷◌, [], Contains, IfOk, None, OnOk, Some, ℕ, length, map, slice_get, slice_index_or, slice_set};
ghost use Rattle.std.specs.List.{All};
ghost use Rattle.event_types.specs.Order.{sorted};
ghost use Rattle.event_types.specs.Tuple.{TupleView};
ghost use Rattle.scalar_expr.specs.Fits.{Fits};
ghost use Rattle.semantics.specs.Denotation.{joined, selected};
ghost use Rattle.semantics.specs.Runs.{rebound};
ghost use Rattle.epoch_draft.specs.Made.{ArePlaced, EndsWith, placed};

use crate::filling::{clear_short_lists, lengthen_short_lists};
use crate::placing::put_places_in_order;
use crate::spare::Spare;
use event_types::{List, Memory, StreamId, Tuple, Tuples};
use scalar_expr::Map;
use short_lists::ShortList;
use std::alloc::Global;
use std::marker::Model;

/// Tuples by stream. They stand in one list, and each stream has the places of its own there, so that a tuple that
/// several streams have can stand once. `sorting` is room in which places are sorted, and `spare` has room for the values
/// of copies.
#[derive(Drop)]
pub struct Made {
    alloc: Global,
    tuples: Tuples,
    places: List<ShortList>,
    sorting: Vec<usize>,
    spare: Spare,
}

/// Tuples, and for each stream the places of its own among them, in the order in which it has them; places are counted
/// from 0.
#[derive(Clone, Copy, Drop)]
pub struct PlacedTuples<'a> {
    pub tuples: &'a [Tuple],
    pub places: &'a [ShortList],
}

impl Model for Made {
    ghost use Rattle.std.specs.Prelude.{List, map};
    ghost use Rattle.event_types.specs.Tuple.{TupleView};
    ghost use Rattle.epoch_draft.specs.Made.{ArePlaced, placed};

    ghost Value = { List (List TupleView) };

    ghost view = { λ made. map (placed made.tuples) made.places };

    ghost invariant = { λ made. ArePlaced made.tuples made.places };
}

impl Made {
    /// No stream, and so no tuple.
    pub(crate) fn make(alloc: Global) -> Result<Made, Memory>
        ensures { IfOk result (λ made. made ≡ []) }
    {
        let spare = Spare::make(alloc)?;
        Ok(Made {
            alloc,
            tuples: List::new(alloc),
            places: List::new(alloc),
            sorting: Vec::new(alloc),
            spare,
        })
    }

    /// Makes it so many streams, where none has tuples. After want of memory there may be fewer.
    pub(crate) fn fit(&mut self, streams: usize) -> Result<(), Memory>
        requires { (stream : ℕ) → slice_index_or self.old stream [] ≡ [] }
        ensures as_many { OnOk result (length self.new ≡ streams) }
        ensures empty { (stream : ℕ) → slice_index_or self.new stream [] ≡ [] }
    {
        self.places.truncate(streams);
        lengthen_short_lists(self.alloc, &mut self.places, streams)
    }

    /// The number of streams.
    pub fn len(&self) -> usize
        ensures { result ≡ length self.now }
    {
        self.places.len()
    }

    /// The tuple of a stream at a place among its own, counted from 0.
    pub(crate) fn get(&self, stream: StreamId, place: usize) -> &Tuple
        requires { place < length (slice_index_or self.now stream []) }
        ensures { slice_get (slice_index_or self.now stream []) place ≡ Some result.now }
    {
        let places = self.places.get(stream).as_slice();
        self.tuples.get(places[place])
    }

    /// All tuples, and the places of each stream. Takes no memory.
    pub fn show(&self) -> PlacedTuples<'_>
        ensures value { self.now ≡ map (placed result.tuples.now) result.places.now }
        ensures below { ArePlaced result.tuples.now result.places.now }
    {
        PlacedTuples {
            tuples: self.tuples.as_slice(),
            places: self.places.as_slice(),
        }
    }

    /// Puts a tuple behind those of a stream. After want of memory the tuples are of no more use.
    #[inline(always)]
    pub(crate) fn add(&mut self, stream: StreamId, tuple: Tuple) -> Result<(), Memory>
        requires { stream < length self.old }
        ensures { OnOk result (self.new ≡ slice_set self.old stream (slice_index_or self.old stream [] ++ tuple ∷ [])) }
    {
        let place = self.tuples.len();
        self.tuples.add(tuple)?;
        self.places.get_mut(stream).add(place)
    }

    /// An equal tuple, in room that is kept for its values, if any is. After want of memory all tuples are still there.
    pub(crate) fn copy(&mut self, tuple: &Tuple) -> Result<Tuple, Memory>
        ensures value { IfOk result (λ copy. copy ≡ tuple.now) }
        ensures same { self.new ≡ self.old }
    {
        self.spare.copy(self.alloc, tuple)
    }

    /// The values of both, from the start of the left tuple to the detection of the right one, in room that is kept for
    /// values, if any is. After want of memory all tuples are still there.
    pub(crate) fn join(&mut self, left: &Tuple, right: &Tuple) -> Result<Tuple, Memory>
        requires { left.now.at < right.now.from }
        ensures value { IfOk result (λ tuple. tuple ≡ joined left.now right.now) }
        ensures same { self.new ≡ self.old }
    {
        self.spare.join(self.alloc, left, right)
    }

    /// Drops a tuple that stands elsewhere, and keeps the room of its values for copies. Takes no memory.
    pub(crate) fn keep_room(&mut self, tuple: Tuple)
        ensures { self.new ≡ self.old }
    {
        self.spare.keep(tuple);
    }

    /// The values of a projection over a tuple, with its times, in room that is kept for values, if any is. After want of
    /// memory all tuples are still there.
    pub(crate) fn project(&mut self, projection: &Map, tuple: &Tuple) -> Result<Tuple, Memory>
        requires { All (λ s. Fits s tuple.now None) projection.now.parts }
        ensures value { IfOk result (λ projected. projected ≡ selected projection.now.parts tuple.now) }
        ensures same { self.new ≡ self.old }
    {
        self.spare.project(self.alloc, projection, tuple)
    }

    /// The new binding of an iteration, in room that is kept for values, if any is. After want of memory all tuples are
    /// still there.
    pub(crate) fn rebind(
        &mut self,
        projection: &Map,
        binding: &Tuple,
        event: &Tuple,
    ) -> Result<Tuple, Memory>
        requires later { binding.now.at < event.now.from }
        requires fits { All (λ s. Fits s event.now (Some binding.now)) projection.now.parts }
        ensures value { IfOk result (λ tuple. tuple ≡ rebound projection.now.parts binding.now event.now) }
        ensures same { self.new ≡ self.old }
    {
        self.spare.rebind(self.alloc, projection, binding, event)
    }

    /// Puts the last tuple of a stream, `other`, behind those of a stream too. After want of memory the tuples are of no
    /// more use.
    #[inline(always)]
    pub(crate) fn add_again(&mut self, stream: StreamId, other: StreamId) -> Result<(), Memory>
        requires stream { stream < length self.old }
        requires other { 0 < length (slice_index_or self.old other []) }
        ensures { (tuple : TupleView) → EndsWith (slice_index_or self.old other []) tuple → OnOk result (self.new ≡ slice_set self.old stream (slice_index_or self.old stream [] ++ tuple ∷ [])) }
    {
        let places = self.places.get(other).as_slice();
        let place = places[places.len() - 1];
        self.places.get_mut(stream).add(place)
    }

    /// Takes the tuples of a stream out, as copies. After want of memory the tuples are of no more use.
    pub(crate) fn take(&mut self, stream: StreamId) -> Result<Vec<Tuple>, Memory>
        requires { stream < length self.old }
        ensures value { IfOk result (λ tuples. tuples.items ≡ slice_index_or self.old stream []) }
        ensures taken { OnOk result (self.new ≡ slice_set self.old stream []) }
    {
        let places = self.places.get(stream).as_slice();
        let tuples = copies(self.alloc, &mut self.spare, self.tuples.as_slice(), places)?;
        self.places.get_mut(stream).clear();
        Ok(tuples)
    }

    /// Makes these the tuples of a stream. After want of memory the tuples are of no more use.
    pub(crate) fn put(&mut self, stream: StreamId, tuples: Vec<Tuple>) -> Result<(), Memory>
        requires { stream < length self.old }
        ensures { OnOk result (self.new ≡ slice_set self.old stream tuples.items) }
    {
        self.places.get_mut(stream).clear();
        for tuple in tuples {
            self.add(stream, tuple)?;
        }
        Ok(())
    }

    /// Puts the tuples of these streams, which are all that have some, in order. After want of memory the tuples are of no
    /// more use.
    pub(crate) fn put_in_order(&mut self, streams: &[usize]) -> Result<(), Memory>
        requires streams { All (λ stream. stream < length self.old) streams.now }
        requires others { (stream : ℕ) → (slice_index_or self.old stream [] ≡ []) ⊎ Contains streams.now stream }
        ensures as_many { OnOk result (length self.new ≡ length self.old) }
        ensures ordered { OnOk result ((stream : ℕ) → slice_index_or self.new stream [] ≡ sorted (slice_index_or self.old stream [])) }
    {
        for stream in streams {
            self.put_one_in_order(*stream)?;
        }
        Ok(())
    }

    // Puts the tuples of a stream in order, by their places.
    fn put_one_in_order(&mut self, stream: StreamId) -> Result<(), Memory>
        requires { stream < length self.old }
        ensures { OnOk result (self.new ≡ slice_set self.old stream (sorted (slice_index_or self.old stream []))) }
    {
        let places = self.places.get_mut(stream);
        if places.len() < 2 {
            return Ok(());
        }
        put_places_in_order(places, self.tuples.as_slice(), &mut self.sorting)
    }

    /// Takes the tuples of these streams away, which are all that there are, and keeps their room and that of their
    /// values. Takes no memory.
    pub(crate) fn clear(&mut self, streams: &[usize])
        requires streams { All (λ stream. stream < length self.old) streams.now }
        requires others { (stream : ℕ) → (slice_index_or self.old stream [] ≡ []) ⊎ Contains streams.now stream }
        ensures as_many { length self.new ≡ length self.old }
        ensures empty { (stream : ℕ) → slice_index_or self.new stream [] ≡ [] }
    {
        clear_short_lists(&mut self.places, streams);
        self.spare.empty(&mut self.tuples);
    }
}

// Copies of the tuples at these places, in room that is kept for their values, if any is.
fn copies(
    alloc: Global,
    spare: &mut Spare,
    tuples: &[Tuple],
    places: &[usize],
) -> Result<Vec<Tuple>, Memory>
    requires { All (λ place. place < length tuples.now) places.now }
    ensures { IfOk result (λ copies. copies.items ≡ placed tuples.now places.now) }
{
    let mut copies = Vec::with_capacity(alloc, places.len())?;
    for place in places {
        copies.push(spare.copy(alloc, &tuples[*place])?)?;
    }
    Ok(copies)
}
