//! What an epoch brings, as far as it is made.
ghost use Rattle.std.specs.Prelude.{◌≡◌, ◌<◌, ◌⊎◌, ◌++◌, ◌∷◌, [], Contains, IfOk, OnOk, ℕ, length, slice_index_or, slice_set};
ghost use Rattle.std.specs.List.{All};
ghost use Rattle.event_types.specs.Order.{sorted};
ghost use Rattle.epoch_draft.specs.Drafts.{DraftFits, without};
ghost use Rattle.epoch_draft.specs.Made.{IsLastIn};
ghost use Rattle.epoch_draft.specs.Marks.{MarksMore, MarksNoOther};

use crate::made::Made;
use crate::marks::Marks;
use event_types::{List, Memory, StreamId, Tuple, Tuples};
use inst_chain::{Bead, Chain};
use instances::{Instance, SpentBeads};
use std::alloc::Global;

/// Tuples by stream.
pub type Lists = List<Tuples>;

/// The beads of new instances, by the numbers of their states.
pub type Beads = List<Chain<Instance>>;

/// What an epoch brings: the tuples of derived streams, the beads of new instances, the streams for which tuples were made
/// (`due`), and the states for which beads were (`reached`). New ones take their memory from `alloc`, unless they stand in
/// beads that are used again (`spent`).
#[derive(Drop)]
pub struct Draft {
    pub alloc: Global,
    pub made: Made,
    pub beads: Beads,
    pub due: Marks,
    pub reached: Marks,
    pub(crate) spent: SpentBeads,
}

/// A waiting state and a tuple by which it was found: the state's number, and the tuple's stream and its
/// place there, counted from 0.
#[derive(Clone, Copy, Drop)]
pub struct Pair {
    pub state: usize,
    pub stream: StreamId,
    pub place: usize,
}

/// Pairs of waiting states and tuples.
pub type Pairs = List<Pair>;

impl Draft {
    /// A draft for so many states and streams, in which nothing is made.
    pub fn make(alloc: Global, states: usize, streams: usize) -> Result<Draft, Memory>
        ensures fits { IfOk result (λ draft. DraftFits streams states draft) }
        ensures none_made { IfOk result (λ draft. (stream : ℕ) → slice_index_or draft.made stream [] ≡ []) }
        ensures none_due { IfOk result (λ draft. draft.due.numbers ≡ []) }
        ensures no_beads { IfOk result (λ draft. (state : ℕ) → slice_index_or draft.beads state [] ≡ []) }
    {
        let made = Made::make(alloc)?;
        let mut draft = Draft {
            alloc,
            made,
            beads: List::new(alloc),
            due: Marks::new(alloc),
            reached: Marks::new(alloc),
            spent: SpentBeads::new(),
        };
        draft.fit(states, streams)?;
        Ok(draft)
    }

    /// Takes all tuples and all beads out, and makes room for exactly so many states and streams. After want of memory
    /// the draft is of no more use.
    pub(crate) fn fit(&mut self, states: usize, streams: usize) -> Result<(), Memory>
        requires { DraftFits (length self.old.made) (length self.old.beads) self.old }
        ensures fits { OnOk result (DraftFits streams states self.new) }
        ensures none_made { OnOk result ((stream : ℕ) → slice_index_or self.new.made stream [] ≡ []) }
        ensures none_due { OnOk result (self.new.due.numbers ≡ []) }
        ensures no_beads { OnOk result ((state : ℕ) → slice_index_or self.new.beads state [] ≡ []) }
    {
        self.clear();
        self.made.fit(streams)?;
        fit_chains(&mut self.beads, states)?;
        self.due.fit(streams)?;
        self.reached.fit(states)
    }

    /// Takes all tuples and all beads out, and keeps the room. Takes no memory.
    pub fn clear(&mut self)
        requires { DraftFits (length self.old.made) (length self.old.beads) self.old }
        ensures fits { DraftFits (length self.old.made) (length self.old.beads) self.new }
        ensures none_made { (stream : ℕ) → slice_index_or self.new.made stream [] ≡ [] }
        ensures none_due { self.new.due.numbers ≡ [] }
        ensures no_beads { (state : ℕ) → slice_index_or self.new.beads state [] ≡ [] }
    {
        self.made.clear(self.due.numbers.as_slice());
        clear_chains(&mut self.beads, self.reached.numbers.as_slice());
        self.due.clear();
        self.reached.clear();
    }

    /// Puts a tuple behind those of a stream. After want of memory the draft is of no more use.
    #[inline(always)]
    pub(crate) fn add_made(&mut self, stream: StreamId, tuple: Tuple) -> Result<(), Memory>
        requires fits { DraftFits (length self.old.made) (length self.old.beads) self.old }
        requires stream { stream < length self.old.made }
        ensures made { OnOk result (self.new.made ≡ slice_set self.old.made stream (slice_index_or self.old.made stream [] ++ tuple ∷ [])) }
        ensures beads { OnOk result (self.new.beads ≡ self.old.beads) }
        ensures due { OnOk result (MarksMore self.old.due self.new.due) }
        ensures no_other { OnOk result (MarksNoOther stream self.old.due self.new.due) }
        ensures fits { OnOk result (DraftFits (length self.old.made) (length self.old.beads) self.new) }
    {
        self.due.mark(stream)?;
        self.made.add(stream, tuple)
    }

    /// Puts a tuple behind those of a stream. Where `last` is a stream that ends with it, it stands already and isn't copied.
    /// After want of memory the draft is of no more use.
    #[inline(always)]
    pub(crate) fn add_copy(
        &mut self,
        stream: StreamId,
        tuple: &Tuple,
        last: Option<StreamId>,
    ) -> Result<(), Memory>
        requires fits { DraftFits (length self.old.made) (length self.old.beads) self.old }
        requires stream { stream < length self.old.made }
        requires last { IsLastIn self.old.made tuple.now last }
        ensures made { OnOk result (self.new.made ≡ slice_set self.old.made stream (slice_index_or self.old.made stream [] ++ tuple.now ∷ [])) }
        ensures beads { OnOk result (self.new.beads ≡ self.old.beads) }
        ensures due { OnOk result (MarksMore self.old.due self.new.due) }
        ensures no_other { OnOk result (MarksNoOther stream self.old.due self.new.due) }
        ensures fits { OnOk result (DraftFits (length self.old.made) (length self.old.beads) self.new) }
    {
        self.due.mark(stream)?;
        match last {
            Some(last) => self.made.add_again(stream, last),
            None => {
                let copy = self.made.copy(tuple)?;
                self.made.add(stream, copy)
            }
        }
    }

    /// Takes the tuples of a stream out, as copies. After want of memory the draft is of no more use.
    pub(crate) fn take_made(&mut self, stream: StreamId) -> Result<Vec<Tuple>, Memory>
        requires fits { DraftFits (length self.old.made) (length self.old.beads) self.old }
        requires stream { stream < length self.old.made }
        ensures value { IfOk result (λ tuples. tuples.items ≡ slice_index_or self.old.made stream []) }
        ensures taken { OnOk result (self.new ≡ without self.old stream) }
        ensures fits { OnOk result (DraftFits (length self.old.made) (length self.old.beads) self.new) }
    {
        self.made.take(stream)
    }

    /// Makes these the tuples of a stream. After want of memory the draft is of no more use.
    pub(crate) fn put_made(&mut self, stream: StreamId, tuples: Vec<Tuple>) -> Result<(), Memory>
        requires fits { DraftFits (length self.old.made) (length self.old.beads) self.old }
        requires stream { stream < length self.old.made }
        ensures made { OnOk result (self.new.made ≡ slice_set self.old.made stream tuples.items) }
        ensures beads { OnOk result (self.new.beads ≡ self.old.beads) }
        ensures due { OnOk result (MarksMore self.old.due self.new.due) }
        ensures no_other { OnOk result (MarksNoOther stream self.old.due self.new.due) }
        ensures fits { OnOk result (DraftFits (length self.old.made) (length self.old.beads) self.new) }
    {
        self.due.mark(stream)?;
        self.made.put(stream, tuples)
    }

    /// Puts the tuples of each stream in order. After want of memory the draft is of no more use.
    pub(crate) fn put_in_order(&mut self) -> Result<(), Memory>
        requires { DraftFits (length self.old.made) (length self.old.beads) self.old }
        ensures made { OnOk result ((stream : ℕ) → slice_index_or self.new.made stream [] ≡ sorted (slice_index_or self.old.made stream [])) }
        ensures beads { OnOk result (self.new.beads ≡ self.old.beads) }
        ensures fits { OnOk result (DraftFits (length self.old.made) (length self.old.beads) self.new) }
    {
        self.made.put_in_order(self.due.numbers.as_slice())
    }

    /// Makes a bead of an instance for a state. After want of memory the draft is of no more use.
    pub(crate) fn add_bead(&mut self, state: usize, instance: Instance) -> Result<(), Memory>
        requires fits { DraftFits (length self.old.made) (length self.old.beads) self.old }
        requires state { state < length self.old.beads }
        ensures beads { OnOk result (self.new.beads ≡ slice_set self.old.beads state (instance ∷ slice_index_or self.old.beads state [])) }
        ensures made { OnOk result (self.new.made ≡ self.old.made) }
        ensures due { OnOk result (self.new.due ≡ self.old.due) }
        ensures fits { OnOk result (DraftFits (length self.old.made) (length self.old.beads) self.new) }
    {
        self.reached.mark(state)?;
        let bead = bead_of(self.alloc, &mut self.made, &mut self.spent, instance)?;
        put_first(self.beads.get_mut(state), bead);
        Ok(())
    }
}

// A bead of an instance: a spent one, if any is kept, of whose instance the room of the values is kept.
fn bead_of(
    alloc: Global,
    made: &mut Made,
    spent: &mut SpentBeads,
    instance: Instance,
) -> Result<Bead<Instance>, Memory>
    ensures value { IfOk result (λ bead. bead ≡ instance) }
    ensures same { made.new ≡ made.old }
{
    let Some(mut bead) = spent.take() else {
        return match Bead::make(alloc, instance) {
            Ok(bead) => Ok(bead),
            Err(_) => Err(Memory),
        };
    };
    let old = bead.replace(instance);
    made.keep_room(old.tuple);
    Ok(bead)
}

// Puts a bead in front of a chain, at once however long it is. Takes no memory.
fn put_first(chain: &mut Chain<Instance>, bead: Bead<Instance>)
    ensures { chain.new ≡ bead ∷ chain.old }
{
    let mut whole = Chain::new();
    whole.link(bead);
    whole.append(chain);
    std::mem::swap(chain, &mut whole);
}

// Makes it so many chains, where all are empty. After want of memory there may be fewer.
fn fit_chains(chains: &mut Beads, count: usize) -> Result<(), Memory>
    requires { (place : ℕ) → slice_index_or chains.old place [] ≡ [] }
    ensures as_many { OnOk result (length chains.new ≡ count) }
    ensures empty { OnOk result ((place : ℕ) → slice_index_or chains.new place [] ≡ []) }
{
    chains.truncate(count);
    while chains.len() < count {
        chains.add(Chain::new())?;
    }
    Ok(())
}

// Drops the beads of the chains at these places.
fn clear_chains(chains: &mut Beads, numbers: &[usize])
    requires numbers { All (λ number. number < length chains.old) numbers.now }
    requires others { (place : ℕ) → (slice_index_or chains.old place [] ≡ []) ⊎ Contains numbers.now place }
    ensures as_many { length chains.new ≡ length chains.old }
    ensures empty { (place : ℕ) → slice_index_or chains.new place [] ≡ [] }
{
    for number in numbers {
        *chains.get_mut(*number) = Chain::new();
    }
}
