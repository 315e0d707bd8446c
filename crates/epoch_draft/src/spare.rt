//! Room for values that is used again.
ghost use Rattle.std.specs.Prelude.{◌≡◌, ◌<◌, ◌++◌, [], IfOk, IfSome, None, OnOk, Some};
ghost use Rattle.std.specs.List.{All};
ghost use Rattle.scalar_expr.specs.Fits.{Fits};
ghost use Rattle.semantics.specs.Denotation.{joined, selected};
ghost use Rattle.semantics.specs.Runs.{rebound};

use event_types::{Copied, List, Memory, Tuple, Tuples, Vals, Value};
use scalar_expr::{Map, evaluate, join};
use std::alloc::Global;
use std::marker::Model;

/// Lists in which values of tuples stood, each empty now, so that the next copies need no new room.
#[derive(Drop)]
pub(crate) struct Spare {
    lists: List<Vals>,
}

impl Model for Spare {
    ghost use Rattle.std.specs.Prelude.{◌≡◌, []};
    ghost use Rattle.std.specs.List.{All};

    ghost Value = { Unit {0} };

    ghost view = { λ s. tt };

    ghost invariant = { λ s. All (λ vals. vals ≡ []) s.lists };
}

// The most lists that are kept.
const MOST: usize = 64;

impl Spare {
    /// None is kept yet, and there is room for all that will be.
    pub(crate) fn make(alloc: Global) -> Result<Spare, Memory> {
        let lists = List::with_room(alloc, MOST)?;
        Ok(Spare { lists })
    }

    /// An equal tuple, whose values stand in one of the lists, if any is kept.
    pub(crate) fn copy(&mut self, alloc: Global, tuple: &Tuple) -> Result<Tuple, Memory>
        ensures { IfOk result (λ copy. copy ≡ tuple.now) }
    {
        match self.take() {
            Some(vals) => copy_in(alloc, vals, tuple),
            None => tuple.copy(alloc),
        }
    }

    /// The values of both, from the start of the left tuple to the detection of the right one, in one of the lists, if
    /// any is kept.
    pub(crate) fn join(
        &mut self,
        alloc: Global,
        left: &Tuple,
        right: &Tuple,
    ) -> Result<Tuple, Memory>
        requires { left.now.at < right.now.from }
        ensures { IfOk result (λ tuple. tuple ≡ joined left.now right.now) }
    {
        match self.take() {
            Some(vals) => join_in(alloc, vals, left, right),
            None => join(alloc, left, right),
        }
    }

    /// The values of a projection over a tuple, with its times, in one of the lists, if any is kept.
    pub(crate) fn project(
        &mut self,
        alloc: Global,
        projection: &Map,
        tuple: &Tuple,
    ) -> Result<Tuple, Memory>
        requires { All (λ s. Fits s tuple.now None) projection.now.parts }
        ensures { IfOk result (λ projected. projected ≡ selected projection.now.parts tuple.now) }
    {
        let room = self.room(alloc, projection.parts.len())?;
        let vals = evaluate(alloc, room, projection, tuple, None)?;
        match Tuple::make(vals, tuple.from(), tuple.at()) {
            Ok(projected) => Ok(projected),
            Err(_) => unreachable!(),
        }
    }

    /// The new binding of an iteration, in one of the lists, if any is kept.
    pub(crate) fn rebind(
        &mut self,
        alloc: Global,
        projection: &Map,
        binding: &Tuple,
        event: &Tuple,
    ) -> Result<Tuple, Memory>
        requires later { binding.now.at < event.now.from }
        requires fits { All (λ s. Fits s event.now (Some binding.now)) projection.now.parts }
        ensures { IfOk result (λ tuple. tuple ≡ rebound projection.now.parts binding.now event.now) }
    {
        let room = self.room(alloc, projection.parts.len())?;
        let vals = evaluate(alloc, room, projection, event, Some(binding))?;
        match Tuple::make(vals, binding.from(), event.at()) {
            Ok(tuple) => Ok(tuple),
            Err(_) => unreachable!(),
        }
    }

    // An empty list: one of those that are kept, or else one with room for so many values.
    #[inline(always)]
    fn room(&mut self, alloc: Global, values: usize) -> Result<Vals, Memory>
        ensures { IfOk result (λ vals. vals ≡ []) }
    {
        match self.take() {
            Some(vals) => Ok(vals),
            None => List::with_room(alloc, values),
        }
    }

    // One of the lists, if any is kept. Takes no memory.
    fn take(&mut self) -> Option<Vals>
        ensures { IfSome result (λ vals. vals ≡ []) }
    {
        self.lists.pop()
    }

    /// Drops all tuples of a list, and keeps its room and that of values that no other tuple shares. Takes no memory.
    pub(crate) fn empty(&mut self, tuples: &mut Tuples)
        ensures { tuples.new ≡ [] }
    {
        while let Some(tuple) = tuples.pop() {
            self.keep(tuple);
        }
    }

    /// Drops a tuple, and keeps the room of its values, unless another tuple shares them. Takes no memory.
    pub(crate) fn keep(&mut self, tuple: Tuple) {
        if let Some(vals) = tuple.into_vals() {
            self.put(vals);
        }
    }

    // Drops the values, and keeps their room unless that of enough is kept.
    fn put(&mut self, vals: Vals) {
        let mut vals = vals;
        if self.lists.len() < MOST {
            vals.clear();
            let _kept = self.lists.push(vals);
        }
    }
}

// An equal tuple, whose values stand in a list that is empty.
fn copy_in(alloc: Global, vals: Vals, tuple: &Tuple) -> Result<Tuple, Memory>
    requires { vals ≡ [] }
    ensures { IfOk result (λ copy. copy ≡ tuple.now) }
{
    let mut vals = vals;
    add_copies(alloc, &mut vals, tuple.vals().as_slice())?;
    match Tuple::make(vals, tuple.from(), tuple.at()) {
        Ok(copy) => Ok(copy),
        Err(_) => unreachable!(),
    }
}

// The values of both, from the start of the left tuple to the detection of the right one, in a list that is empty.
fn join_in(alloc: Global, vals: Vals, left: &Tuple, right: &Tuple) -> Result<Tuple, Memory>
    requires empty { vals ≡ [] }
    requires later { left.now.at < right.now.from }
    ensures { IfOk result (λ tuple. tuple ≡ joined left.now right.now) }
{
    let mut vals = vals;
    add_copies(alloc, &mut vals, left.vals().as_slice())?;
    add_copies(alloc, &mut vals, right.vals().as_slice())?;
    match Tuple::make(vals, left.from(), right.at()) {
        Ok(tuple) => Ok(tuple),
        Err(_) => unreachable!(),
    }
}

// Puts equal values at the end, whole numbers and texts without more ado.
#[inline(always)]
fn add_copies(alloc: Global, vals: &mut Vals, more: &[Value]) -> Result<(), Memory>
    ensures { OnOk result (vals.new ≡ vals.old ++ more.now) }
{
    for value in more {
        match value {
            Value::Int(number) => vals.add(Value::Int(*number))?,
            Value::Text(text) => vals.add(Value::Text(text.copied(alloc)?))?,
            _ => vals.add(value.copied(alloc)?)?,
        }
    }
    Ok(())
}
