//! The epoch that is open.
ghost use Rattle.std.specs.Prelude.{◌≡◌, ℕ, ◌<◌, ◌≤◌, ◌∷◌, ◌++◌, [], None, false, length, slice_index_or, slice_set, IfErr, IfOk, OnErr, OnOk};
ghost use Rattle.epoch_draft.specs.Filling.{IsLengthened};
ghost use Rattle.epoch_engine.specs.Running.{AreTouched};

use crate::spare::Spare;
use epoch_draft::{Lists, Marks, lengthen, lengthen_lists};
use event_types::{List, Memory, StreamId, Tuple};
use std::alloc::Global;

/// The tuples of each stream, the streams that have some, the time, where an epoch is open, and the room that values of
/// closed epochs had.
#[derive(Drop)]
pub struct Epoch {
    pub tuples: Lists,
    pub touched: Marks,
    pub time: Option<u64>,
    pub spare: Spare,
}

impl Epoch {
    /// No epoch is open, and none of so many streams has tuples.
    pub(crate) fn make(alloc: Global, streams: usize) -> Result<Epoch, Memory>
        ensures as_many { IfOk result (λ epoch. length epoch.tuples ≡ streams) }
        ensures empty { IfOk result (λ epoch. (stream : ℕ) → slice_index_or epoch.tuples stream [] ≡ []) }
        ensures touched { IfOk result (λ epoch. AreTouched epoch.tuples epoch.touched) }
        ensures time { IfOk result (λ epoch. epoch.time ≡ None) }
    {
        let spare = Spare::make(alloc)?;
        let mut epoch = Epoch {
            tuples: List::new(alloc),
            touched: Marks::new(alloc),
            time: None,
            spare,
        };
        epoch.grow(alloc, streams)?;
        Ok(epoch)
    }

    /// Makes room for so many streams. Want of memory leaves the tuples as they were.
    pub(crate) fn grow(&mut self, alloc: Global, streams: usize) -> Result<(), Memory>
        requires touched { AreTouched self.old.tuples self.old.touched }
        requires streams { length self.old.tuples ≤ streams }
        ensures as_many { OnOk result (length self.new.tuples ≡ streams) }
        ensures more { OnOk result (IsLengthened [] self.old.tuples self.new.tuples) }
        ensures kept { OnErr result (self.new.tuples ≡ self.old.tuples) }
        ensures touched { AreTouched self.new.tuples self.new.touched }
        ensures time { self.new.time ≡ self.old.time }
    {
        let had = self.tuples.len();
        match self.lengthen(alloc, streams) {
            Ok(()) => Ok(()),
            Err(fault) => {
                self.touched.flags.truncate(had);
                self.tuples.truncate(had);
                Err(fault)
            }
        }
    }

    // The same, where want of memory may leave more room than before.
    fn lengthen(&mut self, alloc: Global, streams: usize) -> Result<(), Memory>
        requires flags { length self.old.touched.flags ≤ streams }
        requires tuples { length self.old.tuples ≤ streams }
        ensures flags { IsLengthened false self.old.touched.flags self.new.touched.flags }
        ensures tuples { IsLengthened [] self.old.tuples self.new.tuples }
        ensures many_flags { OnOk result (length self.new.touched.flags ≡ streams) }
        ensures many_tuples { OnOk result (length self.new.tuples ≡ streams) }
        ensures numbers { self.new.touched.numbers ≡ self.old.touched.numbers }
        ensures time { self.new.time ≡ self.old.time }
    {
        lengthen(&mut self.touched.flags, streams, false)?;
        lengthen_lists(alloc, &mut self.tuples, streams)
    }

    /// Puts a tuple behind those of its stream. Want of memory hands it back.
    #[inline(always)]
    pub(crate) fn add(&mut self, stream: StreamId, tuple: Tuple) -> Result<(), Tuple>
        requires stream { stream < length self.old.tuples }
        requires touched { AreTouched self.old.tuples self.old.touched }
        ensures ok { OnOk result (self.new.tuples ≡ slice_set self.old.tuples stream (slice_index_or self.old.tuples stream [] ++ tuple ∷ [])) }
        ensures handed_back { IfErr result (λ back. back ≡ tuple) }
        ensures kept { OnErr result (self.new.tuples ≡ self.old.tuples) }
        ensures time { self.new.time ≡ self.old.time }
        ensures touched { AreTouched self.new.tuples self.new.touched }
    {
        if self.touched.mark(stream).is_err() {
            return Err(tuple);
        }
        self.tuples.get_mut(stream).push(tuple)
    }

    /// Drops all tuples, and closes the epoch. Takes no memory.
    pub(crate) fn close(&mut self)
        requires { AreTouched self.old.tuples self.old.touched }
        ensures as_many { length self.new.tuples ≡ length self.old.tuples }
        ensures empty { (stream : ℕ) → slice_index_or self.new.tuples stream [] ≡ [] }
        ensures touched { AreTouched self.new.tuples self.new.touched }
        ensures unmarked { self.new.touched.numbers ≡ [] }
        ensures time { self.new.time ≡ None }
    {
        self.spare
            .clear(&mut self.tuples, self.touched.numbers.as_slice());
        self.touched.clear();
        self.time = None;
    }
}
