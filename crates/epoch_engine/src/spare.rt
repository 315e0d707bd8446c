//! Room for values that is used again.
ghost use Rattle.std.specs.Prelude.{◌≡◌, ℕ, ◌<◌, ◌⊎◌, [], Contains, IfOk, IfSome, length, slice_index_or};
ghost use Rattle.std.specs.List.{All};

use epoch_draft::Lists;
use event_types::{List, Memory, Tuples, Vals};
use std::alloc::Global;
use std::marker::Model;

/// Lists in which values stood, each empty now, so that the next values need no new room.
#[derive(Drop)]
pub struct Spare {
    lists: List<Vals>,
}

impl Model for Spare {
    ghost use Rattle.std.specs.Prelude.{◌≡◌, []};
    ghost use Rattle.std.specs.List.{All};

    ghost Value = { Unit {0} };

    ghost view = { λ s. tt };

    ghost invariant = { λ s. All (λ vals. vals ≡ []) s.lists };
}

// The most lists that are kept.
const MOST: usize = 64;

impl Spare {
    /// None is kept yet, and there is room for all that will be.
    pub(crate) fn make(alloc: Global) -> Result<Spare, Memory> {
        let lists = List::with_room(alloc, MOST)?;
        Ok(Spare { lists })
    }

    /// One of the lists, if any is kept. Takes no memory.
    pub(crate) fn take(&mut self) -> Option<Vals>
        ensures { IfSome result (λ vals. vals ≡ []) }
    {
        self.lists.pop()
    }

    /// Drops the tuples of the lists at these places, and keeps their room and that of their values. Takes no memory.
    pub(crate) fn clear(&mut self, lists: &mut Lists, numbers: &[usize])
        requires numbers { All (λ number. number < length lists.old) numbers.now }
        requires others { (place : ℕ) → (slice_index_or lists.old place [] ≡ []) ⊎ Contains numbers.now place }
        ensures as_many { length lists.new ≡ length lists.old }
        ensures empty { (place : ℕ) → slice_index_or lists.new place [] ≡ [] }
    {
        for number in numbers {
            self.empty(lists.get_mut(*number));
        }
    }

    // Drops the tuples of a list, and keeps the room of values that no other tuple shares.
    fn empty(&mut self, tuples: &mut Tuples)
        ensures { tuples.new ≡ [] }
    {
        while let Some(tuple) = tuples.pop() {
            if let Some(vals) = tuple.into_vals() {
                self.put(vals);
            }
        }
    }

    // Drops the values, and keeps their room unless that of enough is kept.
    fn put(&mut self, vals: Vals) {
        let mut vals = vals;
        if self.lists.len() < MOST {
            vals.clear();
            let _kept = self.lists.push(vals);
        }
    }
}
