//! The turns that are to come in the order of work.
ghost use Rattle.std.specs.Prelude.{◌≡◌, ◌<◌, Contains, OnOk, length};
ghost use Rattle.std.specs.List.{All};
ghost use Rattle.std.specs.Ordering.{nat_cmp};
ghost use Rattle.std.specs.BTreeMap.{insert_entry};
ghost use Rattle.epoch_draft.specs.Agenda.{AreBehind, IsPlannedIn};
ghost use Rattle.epoch_draft.specs.Turns.{HaveTurns};

use crate::stored_network::StoredNetwork;
use event_types::{Memory, StreamId};
use std::collections::BTreeMap;

/// Turns in the order of work, each with its stream.
pub(crate) type Agenda = BTreeMap<usize, StreamId>;

/// Puts the turns of these streams on the agenda, as far as the streams are read and their turns are behind the last that
/// was. After want of memory the agenda is of no more use.
#[inline(always)]
pub(crate) fn plan(
    agenda: &mut Agenda,
    stored: &StoredNetwork<'_>,
    due: &[StreamId],
    last: usize,
) -> Result<(), Memory>
    requires in_turn { HaveTurns stored.now.layout.now.order stored.now.turns.now.turns }
    requires ordered { All (Contains stored.now.layout.now.order) due.now }
    requires turns { All (λ stream. stream < length stored.now.turns.now.turns.given) due.now }
    requires read { All (λ stream. stream < length stored.now.turns.now.read) due.now }
    requires behind { AreBehind stored.now.layout.now.order stored.now.turns.now.turns last agenda.old.entries }
    ensures behind { OnOk result (AreBehind stored.now.layout.now.order stored.now.turns.now.turns last agenda.new.entries) }
    ensures kept { OnOk result (All (Contains agenda.new.entries) agenda.old.entries) }
    ensures planned { OnOk result (All (IsPlannedIn stored.now.turns.now last agenda.new.entries) due.now) }
{
    if due.is_empty() {
        return Ok(());
    }
    plan_each(agenda, stored, due, last)
}

// The same, with a walk also where there is no stream.
fn plan_each(
    agenda: &mut Agenda,
    stored: &StoredNetwork<'_>,
    due: &[StreamId],
    last: usize,
) -> Result<(), Memory>
    requires in_turn { HaveTurns stored.now.layout.now.order stored.now.turns.now.turns }
    requires ordered { All (Contains stored.now.layout.now.order) due.now }
    requires turns { All (λ stream. stream < length stored.now.turns.now.turns.given) due.now }
    requires read { All (λ stream. stream < length stored.now.turns.now.read) due.now }
    requires behind { AreBehind stored.now.layout.now.order stored.now.turns.now.turns last agenda.old.entries }
    ensures behind { OnOk result (AreBehind stored.now.layout.now.order stored.now.turns.now.turns last agenda.new.entries) }
    ensures kept { OnOk result (All (Contains agenda.new.entries) agenda.old.entries) }
    ensures planned { OnOk result (All (IsPlannedIn stored.now.turns.now last agenda.new.entries) due.now) }
{
    for stream in due {
        if !*stored.turns.read.get(*stream) {
            continue;
        }
        let turn = stored.turns.turns.turn(*stream);
        if turn <= last {
            continue;
        }
        note(agenda, turn, *stream)?;
    }
    Ok(())
}

// Puts a turn on the agenda, with its stream.
fn note(agenda: &mut Agenda, turn: usize, stream: StreamId) -> Result<(), Memory>
    ensures { OnOk result (agenda.new.entries ≡ insert_entry nat_cmp agenda.old.entries turn stream) }
{
    match agenda.insert(turn, stream) {
        Ok(_replaced) => Ok(()),
        Err(_) => Err(Memory),
    }
}
