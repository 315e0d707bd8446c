//! What the first half of a closing makes.
ghost use Rattle.std.specs.Prelude.{IfOk, OnOk, length};
ghost use Rattle.epoch_draft.specs.Drafts.{DraftFits};
ghost use Rattle.epoch_draft.specs.Drawings.{IsStill};

use crate::agenda::Agenda;
use crate::draft::{Draft, Pairs};
use event_types::{List, Memory};
use std::alloc::Global;
use stream_readers::Found;

/// The draft of an epoch, the pairs of waiting states and tuples that meet there, what a tuple finds, and the
/// turns that are to come in the order of work. Between two closings nothing is drawn, paired or to come. All
/// keep their room.
#[derive(Drop)]
pub struct Drawing {
    pub draft: Draft,
    pub pairs: Pairs,
    pub(crate) found: Found,
    pub(crate) agenda: Agenda,
}

impl Drawing {
    /// A drawing with room for so many states and streams, in which nothing is drawn.
    pub fn make(alloc: Global, states: usize, streams: usize) -> Result<Drawing, Memory>
        ensures { IfOk result (IsStill streams states) }
    {
        let draft = Draft::make(alloc, states, streams)?;
        Ok(Drawing {
            draft,
            pairs: List::new(alloc),
            found: Found::new(alloc),
            agenda: Agenda::new(alloc),
        })
    }

    /// Forgets all that was drawn, and makes room for exactly so many states and streams. After want of memory the drawing
    /// is of no more use.
    pub fn fit(&mut self, states: usize, streams: usize) -> Result<(), Memory>
        requires { DraftFits (length self.old.draft.made) (length self.old.draft.beads) self.old.draft }
        ensures { OnOk result (IsStill streams states self.new) }
    {
        self.clear();
        self.draft.fit(states, streams)
    }

    /// Forgets all that was drawn, and keeps the room. Takes no memory.
    pub fn clear(&mut self)
        requires { DraftFits (length self.old.draft.made) (length self.old.draft.beads) self.old.draft }
        ensures { IsStill (length self.old.draft.made) (length self.old.draft.beads) self.new }
    {
        self.draft.clear();
        self.pairs.clear();
        if !self.agenda.is_empty() {
            self.agenda.clear();
        }
    }
}
