//! Ids filed for each of the two questions.
ghost use Rattle.std.specs.Prelude.{OnOk};
ghost use Rattle.static_index.specs.Choosing.{Covers, IsBest};
ghost use Rattle.static_index.specs.Filing.{FindsAsked, IsFiled, KeepsOthers};

use crate::choosing::choose;
use crate::entry::{Asked, Choice, Entry};
use crate::heading::heading_of;
use crate::ranged_parts::RangedParts;
use crate::tables::Tables;
use event_types::{Memory, Numbers, Tuple};
use std::alloc::Global;

// Each id is filed two times: under the first fixed part of its condition, and under what was chosen.
#[derive(Drop)]
pub(crate) struct Filing {
    firsts: Tables,
    choices: Tables,
}

impl Filing {
    pub(crate) fn new(alloc: Global) -> Filing {
        Filing {
            firsts: Tables::new(alloc),
            choices: Tables::new(alloc),
        }
    }

    // Under what a condition is found by the fewest events.
    pub(crate) fn choose(&self, parts: &RangedParts) -> Choice
        ensures best { IsBest result parts.now }
        ensures covers { Covers parts.now result }
    {
        choose(&self.choices, parts.list())
    }

    // Files an id. Want of memory leaves the others as they were, and the id under no heading or under any.
    pub(crate) fn file(&mut self, alloc: Global, id: usize, entry: &Entry) -> Result<(), Memory>
        requires { Covers entry.now.parts entry.now.choice.value }
        ensures ok { OnOk result (IsFiled self.new id entry.now) }
        ensures kept { KeepsOthers id self.old self.new }
    {
        self.firsts
            .file(alloc, heading_of(&entry.parts, Choice::Part(0)), id)?;
        let filed = self
            .choices
            .file(alloc, heading_of(&entry.parts, *entry.choice), id);
        if filed.is_err() {
            self.firsts
                .forget(heading_of(&entry.parts, Choice::Part(0)), id);
        }
        filed
    }

    // Takes an id away.
    pub(crate) fn forget(&mut self, id: usize, entry: &Entry)
        ensures { KeepsOthers id self.old self.new }
    {
        self.firsts
            .forget(heading_of(&entry.parts, Choice::Part(0)), id);
        self.choices
            .forget(heading_of(&entry.parts, *entry.choice), id);
    }

    // Puts the ids that an event may meet behind those that are there.
    pub(crate) fn collect(
        &self,
        asked: Asked,
        event: &Tuple,
        found: &mut Numbers,
    ) -> Result<(), Memory>
        ensures { OnOk result (FindsAsked asked event.now self.now found.new) }
    {
        match asked {
            Asked::First => self.firsts.collect(event, found),
            Asked::All => self.choices.collect(event, found),
        }
    }
}
