//! The event text, whole or piece by piece.
ghost use Rattle.std.specs.Prelude.{◌≡◌, ◌++◌, ◌<◌, ◌≤◌, ◌^◌, [], drop, length, take, IfOk, OnErr, OnOk};
ghost use Rattle.load_texts.specs.EventText.{event_text};

use crate::lines::Lines;
use event_types::{Memory, Text};
use std::alloc::Global;
use std::marker::Model;
use std::str;

/// The bytes of a piece of the event text. The last piece may have fewer.
pub const PIECE: usize = 4096;

/// An event text that is handed out piece by piece, and isn't held whole.
#[derive(Drop)]
pub struct EventText {
    lines: Lines,
    rest: Vec<u8>,
}

impl Model for EventText {
    ghost use Rattle.std.specs.Prelude.{List, ℕ, ◌++◌};

    ghost Value = { List ℕ };

    ghost view = { λ t. t.rest.items ++ t.lines };
}

impl EventText {
    /// The text of so many events. Takes no memory.
    pub fn of(alloc: Global, seed: u64, events: u64) -> EventText
        requires { seed < 2 ^ 31 }
        ensures { result ≡ event_text seed events }
    {
        EventText {
            lines: Lines::of(seed, events),
            rest: Vec::new(alloc),
        }
    }

    /// Puts the next piece in the place of the one before. It has no byte where none is left.
    pub fn next_piece(&mut self, piece: &mut Vec<u8>) -> Result<(), Memory>
        ensures piece { OnOk result (piece.new.items ≡ take 4096 self.old) }
        ensures rest { OnOk result (self.new ≡ drop 4096 self.old) }
        ensures kept { OnErr result (self.new ≡ self.old) }
    {
        make_piece(&mut self.lines, &mut self.rest)?;
        let size = self.rest.len().min(PIECE);
        piece.clear();
        piece.extend_from_slice(&self.rest[..size])?;
        take_away(&mut self.rest, size);
        Ok(())
    }
}

// Makes lines until there is a piece of them, or none is left to be made.
fn make_piece(lines: &mut Lines, text: &mut Vec<u8>) -> Result<(), Memory>
    ensures moved { text.new.items ++ lines.new ≡ text.old.items ++ lines.old }
    ensures enough { OnOk result (length text.new.items < 4096 → lines.new ≡ []) }
{
    'lines: while text.len() < PIECE && lines.append_next(text)? {}
    Ok(())
}

// Takes the first so many bytes away.
fn take_away(bytes: &mut Vec<u8>, many: usize)
    requires { many ≤ length bytes.old.items }
    ensures { bytes.new.items ≡ drop many bytes.old.items }
{
    let left = bytes.len() - many;
    bytes.copy_within(many.., 0);
    bytes.truncate(left);
}

/// The whole event text of so many events, whose lines are as `Stock,,1,S838,5758,113`.
pub fn event_text(alloc: Global, seed: u64, events: u64) -> Result<Text, Memory>
    requires { seed < 2 ^ 31 }
    ensures { IfOk result (λ text. text ≡ event_text seed events) }
{
    let mut lines = Lines::of(seed, events);
    let mut text = Vec::new(alloc);
    'lines: while lines.append_next(&mut text)? {}
    match str::from_utf8(&text) {
        Ok(text) => Text::make(alloc, text),
        Err(_) => Err(Memory),
    }
}
