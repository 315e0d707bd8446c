//! Histories: the events that were heard, with the numbers of their lines.
ghost use Rattle.std.specs.Prelude.{◌≡◌, ◌≤◌, ◌<◌, ◌∷◌, ◌++◌, [], Some, IfErr, OnErr, OnOk, length, slice_get};
ghost use Rattle.derivations.specs.HeardLines.{AreInOrder, AreSoundLines, IsNotBefore};

use event_types::{List, StreamId, Tuple};
use std::alloc::Global;
use std::marker::Model;

/// An event, and the number of its line, counted from 1.
#[derive(Drop)]
pub struct Heard {
    pub stream: StreamId,
    pub tuple: Tuple,
    pub line: u64,
}

/// Events whose detection times never fall, each with the number of its line.
#[derive(Drop)]
pub struct History {
    heard: List<Heard>,
}

impl Model for History {
    ghost use Rattle.std.specs.Prelude.{List};
    ghost use Rattle.derivations.specs.HeardLines.{AreInOrder, AreSoundLines};
    ghost use Rattle.derivations.specs.declared.history.Heard.{Heard};

    ghost Value = { List Heard };

    ghost view = { λ h. h.heard };

    ghost invariant = { λ h. AreInOrder h.heard × AreSoundLines h.heard };
}

impl History {
    /// No events. Takes no memory.
    pub fn new(alloc: Global) -> History
        ensures { result ≡ [] }
    {
        History {
            heard: List::new(alloc),
        }
    }

    /// Puts an event at the end. Want of memory hands it back.
    pub fn push(&mut self, heard: Heard) -> Result<(), Heard>
        requires { IsNotBefore self.old heard }
        ensures ok { OnOk result (self.new ≡ self.old ++ heard ∷ []) }
        ensures handed_back { IfErr result (λ back. back ≡ heard) }
        ensures kept { OnErr result (self.new ≡ self.old) }
    {
        let is_sound = heard.tuple.from() <= heard.tuple.at();
        prove!(is_sound);
        self.heard.push(heard)
    }

    /// The events in their order. Takes no memory.
    pub fn as_slice(&self) -> &[Heard]
        ensures value { result.now ≡ self.now }
        ensures in_order { AreInOrder self.now }
        ensures sound { AreSoundLines self.now }
    {
        self.heard.as_slice()
    }
}
