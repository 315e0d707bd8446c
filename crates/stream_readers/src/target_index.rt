//! Targets by what the first condition on the way to each asks of a tuple alone.
ghost use Rattle.std.specs.Prelude.{◌≡◌, ◌++◌, ◌∷◌, [], IsPermutation, OnErr, OnOk};
ghost use Rattle.std.specs.List.{flat_map};
ghost use Rattle.static_index.specs.FixedParts.{fixed_parts};
ghost use Rattle.stream_readers.specs.Filing.{targets_met};
ghost use Rattle.stream_readers.specs.Leaving.{left_by};

use crate::leaving::Gone;
use crate::slots::{Slots, clear_slot, free_place, gather, note_freed, put_slot};
use crate::target::{Target, Targets};
use crate::target_places::{TargetPlaces, part, with_target};
use event_types::{List, Memory, Numbers, Tuple};
use scalar_expr::Conj;
use static_index::StaticIndex;
use std::alloc::Global;
use std::collections::HashMap;
use std::marker::Model;

/// Targets, each under the fixed parts of a condition. An id of the index is the place of a target; a place
/// whose target left is free, and used again.
#[derive(Drop)]
pub(crate) struct TargetIndex {
    slots: Slots,
    conditions: StaticIndex,
    // The places that came to be free.
    freed: Numbers,
    // The place of each target, unless one came twice.
    places: Option<TargetPlaces>,
}

impl Model for TargetIndex {
    ghost use Rattle.std.specs.Prelude.{List};
    ghost use Rattle.stream_readers.specs.Filing.{Filed};

    ghost Value = { List Filed };

    ghost use Rattle.stream_readers.specs.Places.{MayHavePlaces};
    ghost use Rattle.stream_readers.specs.Filing.{AreAtPlaces, filed_in};

    ghost view = { λ s. filed_in s.slots s.conditions };

    ghost invariant = { λ s. AreAtPlaces s.slots s.conditions × MayHavePlaces s.places s.slots };
}

impl TargetIndex {
    /// No targets. Takes no memory.
    pub(crate) fn new(alloc: Global) -> TargetIndex
        ensures { result ≡ [] }
    {
        TargetIndex {
            slots: List::new(alloc),
            conditions: StaticIndex::new(alloc),
            freed: List::new(alloc),
            places: Some(HashMap::new(alloc)),
        }
    }

    /// Adds a target. Want of memory leaves the others as they were.
    pub(crate) fn add(&mut self, target: Target, condition: &Conj) -> Result<(), Memory>
        ensures added { OnOk result (IsPermutation self.new (self.old ++ record { target = target; parts = fixed_parts condition.now } ∷ [])) }
        ensures kept { OnErr result (self.new ≡ self.old) }
    {
        let place = free_place(&self.slots, &self.freed);
        self.places = with_target(self.places.take(), &self.slots, target, place)?;
        put_slot(&mut self.slots, place, target)?;
        self.freed.pop();
        match self.conditions.add(place, condition) {
            Ok(()) => Ok(()),
            Err(fault) => {
                clear_slot(&mut self.slots, place);
                note_freed(&mut self.freed, place);
                Err(fault)
            }
        }
    }

    /// A target leaves. Where memory is wanting to note its place, that is not used again.
    pub(crate) fn leave(&mut self, gone: Gone)
        ensures { self.new ≡ flat_map (left_by gone) self.old }
    {
        part(
            &mut self.places,
            &mut self.slots,
            &mut self.conditions,
            &mut self.freed,
            gone,
        );
    }

    /// The targets whose fixed parts all hold for the tuple. Both lists are used anew, the first for places.
    pub(crate) fn find(
        &self,
        tuple: &Tuple,
        places: &mut Numbers,
        found: &mut Targets,
    ) -> Result<(), Memory>
        ensures { OnOk result (found.new ≡ targets_met tuple.now self.now) }
    {
        self.conditions.matching(tuple, places)?;
        gather(&self.slots, places.as_slice(), found)
    }
}
