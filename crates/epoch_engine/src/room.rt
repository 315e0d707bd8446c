//! The room in which an epoch is closed.
ghost use Rattle.std.specs.Prelude.{◌≡◌, ◌==◌, ◌&&◌, IfOk, IfSome, IsTrue, OnOk, length};
ghost use Rattle.automaton.specs.Networks.{IsNetwork};
ghost use Rattle.epoch_draft.specs.Drafts.{DraftFits};
ghost use Rattle.epoch_engine.specs.Batches.{ArePrinted};
ghost use Rattle.epoch_engine.specs.Running.{FitsPlan, IsPlan, IsStillFor};

use crate::listing::{Due, list_all, list_due};
use crate::plan::Plan;
use epoch_draft::Drawing;
use event_types::{List, Memory, Numbers};
use std::alloc::Global;

/// What is drawn in a closing, and the printed streams that may have results, in print order. It keeps its room from
/// closing to closing.
#[derive(Drop)]
pub struct Room {
    pub drawing: Drawing,
    pub streams: Numbers,
    noted: Vec<Due>,
}

impl Room {
    /// Room to close epochs of a plan's network, in which nothing is drawn.
    pub(crate) fn make(alloc: Global, plan: &Plan) -> Result<Box<Room>, Memory>
        ensures still { IfOk result (λ room. IsStillFor plan.now room.value.drawing) }
        ensures network { IsNetwork plan.now.merged }
    {
        let states = plan.merged.network().places();
        let drawing = Drawing::make(alloc, states, plan.layout.kinds.len())?;
        let room = Room {
            drawing,
            streams: List::new(alloc),
            noted: Vec::new(alloc),
        };
        match Box::new(alloc, room) {
            Ok(room) => Ok(room),
            Err(_) => Err(Memory),
        }
    }

    /// Forgets what was drawn, and makes room for the streams and the states of a plan. After want of memory the room is
    /// of no more use.
    pub(crate) fn fit(&mut self, plan: &Plan) -> Result<(), Memory>
        requires { DraftFits (length self.old.drawing.draft.made) (length self.old.drawing.draft.beads) self.old.drawing.draft }
        ensures { OnOk result (IsStillFor plan.now self.new.drawing) }
    {
        let states = plan.merged.network().places();
        self.drawing.fit(states, plan.layout.kinds.len())
    }

    /// Whether there is room for the streams and the states of a plan.
    fn fits(&self, plan: &Plan) -> bool
        ensures { result ≡ ((length self.now.drawing.draft.made == length plan.now.layout.kinds) && (length self.now.drawing.draft.beads == length plan.now.merged)) }
    {
        let draft = &self.drawing.draft;
        draft.made.len() == plan.layout.kinds.len()
            && draft.beads.len() == plan.merged.network().places()
    }

    /// Forgets what was drawn, if the room fits a plan, and says whether it does. Takes no memory.
    pub(crate) fn clear_for(&mut self, plan: &Plan) -> bool
        requires { DraftFits (length self.old.drawing.draft.made) (length self.old.drawing.draft.beads) self.old.drawing.draft }
        ensures { IsTrue result → IsStillFor plan.now self.new.drawing }
    {
        let fits = self.fits(plan);
        if fits {
            self.drawing.clear();
        }
        fits
    }

    /// Lists the printed streams that are due, in print order, and where a stream is printed more than once all that are
    /// printed. After want of memory the list is of no more use.
    pub(crate) fn list(&mut self, plan: &Plan) -> Result<(), Memory>
        requires plan { IsPlan plan.now }
        requires fits { FitsPlan plan.now self.old.drawing }
        ensures listed { OnOk result (ArePrinted plan.now.layout.outs self.old.drawing.draft.made self.new.streams) }
        ensures same { self.new.drawing ≡ self.old.drawing }
    {
        if !plan.prints.are_once {
            return list_all(&mut self.streams, &plan.layout.outs);
        }
        let due = self.drawing.draft.due.numbers.as_slice();
        list_due(&mut self.streams, &mut self.noted, &plan.prints.turns, due)
    }
}

/// Fits the room that is kept, if any is, to a plan. Want of memory drops it.
pub(crate) fn fit_room(kept: &mut Option<Box<Room>>, plan: &Plan)
    requires { IfSome kept.old (λ room. DraftFits (length room.value.drawing.draft.made) (length room.value.drawing.draft.beads) room.value.drawing.draft) }
    ensures { IfSome kept.new (λ room. IsStillFor plan.now room.value.drawing) }
{
    if let Some(mut room) = kept.take() {
        if room.fit(plan).is_ok() {
            *kept = Some(room);
        }
    }
}
