//! The printed streams that are due.
ghost use Rattle.std.specs.Prelude.{◌≡◌, ◌<◌, OnOk, length, map};
ghost use Rattle.std.specs.List.{All, filter};
ghost use Rattle.std.specs.List.Sorted.{IsNonDecreasingBy, IsPermutation};
ghost use Rattle.epoch_engine.specs.Prints.{AreListed, due_of, is_printed};

use epoch_draft::Turns;
use event_types::{Memory, Numbers, StreamId};
use long_lists::LongNumbers;

/// A printed stream that is due, and its turn.
#[derive(Clone, Copy, Drop)]
pub struct Due {
    pub turn: usize,
    pub stream: StreamId,
}

/// Lists those of these streams that have a turn, in the order of their turns. `noted` is used anew. After want of memory
/// the list is of no more use.
pub(crate) fn list_due(
    streams: &mut Numbers,
    noted: &mut Vec<Due>,
    turns: &Turns,
    due: &[StreamId],
) -> Result<(), Memory>
    requires { All (λ stream. stream < length turns.now.given) due.now }
    ensures { OnOk result (AreListed turns.now due.now streams.new) }
{
    note_due(noted, turns, due)?;
    sort_due(noted);
    list_noted(streams, noted.as_slice())
}

/// Lists all printed streams. After want of memory the list is of no more use.
pub(crate) fn list_all(streams: &mut Numbers, outs: &LongNumbers) -> Result<(), Memory>
    ensures { OnOk result (streams.new ≡ outs.now) }
{
    streams.clear();
    for place in 0..outs.len() {
        streams.add(*outs.get(place))?;
    }
    Ok(())
}

// Notes those of these streams that have a turn.
#[inline(always)]
fn note_due(noted: &mut Vec<Due>, turns: &Turns, due: &[StreamId]) -> Result<(), Memory>
    requires { All (λ stream. stream < length turns.now.given) due.now }
    ensures { OnOk result (noted.new.items ≡ map (due_of turns.now) (filter (is_printed turns.now) due.now)) }
{
    noted.clear();
    for stream in due {
        let turn = turns.turn(*stream);
        if turn == 0 {
            continue;
        }
        noted.push(Due {
            turn,
            stream: *stream,
        })?;
    }
    Ok(())
}

// Puts streams in the order of their turns. Takes no memory.
fn sort_due(noted: &mut Vec<Due>)
    ensures same { IsPermutation noted.old.items noted.new.items }
    ensures rise { IsNonDecreasingBy (λ due. due.turn) noted.new.items }
{
    noted.sort_unstable_by_key(|due| due.turn);
}

// Lists these streams.
fn list_noted(streams: &mut Numbers, noted: &[Due]) -> Result<(), Memory>
    ensures { OnOk result (streams.new ≡ map (λ due. due.stream) noted.now) }
{
    streams.clear();
    for due in noted {
        streams.add(due.stream)?;
    }
    Ok(())
}
