//! The lines of the event text, made one after another.
ghost use Rattle.std.specs.Prelude.{◌≡◌, ◌+◌, ◌++◌, ◌<◌, ◌≤◌, ◌^◌, [], drop, false, length, true, IfOk};
ghost use Rattle.load_texts.specs.EventText.{lines_from, marked, stock_line};

use crate::draws::{drawn, given};
use event_types::Memory;
use itoa::write_digits;
use std::marker::Model;

// The room of a line: its marks, its LF and four numbers of at most 20 digits.
const ROOM: usize = 92;

/// The lines that are still to be made.
#[derive(Drop)]
pub struct Lines {
    seed: u64,
    number: u64,
    made: u64,
    events: u64,
    line: [u8; ROOM],
}

impl Model for Lines {
    ghost use Rattle.std.specs.Prelude.{List, ℕ, ◌≡◌, ◌<◌, ◌≤◌, ◌*◌, ◌-◌, ◌^◌};
    ghost use Rattle.load_texts.specs.Draws.{after_draws};
    ghost use Rattle.load_texts.specs.EventText.{lines_from};

    ghost Value = { List ℕ };

    ghost view = { λ l. lines_from l.seed l.made (l.events - l.made) };

    ghost invariant = { λ l. (l.made ≤ l.events) × (l.number < 2 ^ 31) × (l.number ≡ after_draws l.seed (3 * l.made)) };
}

impl Lines {
    /// All lines of so many events. Takes no memory.
    pub fn of(seed: u64, events: u64) -> Lines
        requires { seed < 2 ^ 31 }
        ensures { result ≡ lines_from seed 0 events }
    {
        Lines {
            seed,
            number: seed,
            made: 0,
            events,
            line: [0; ROOM],
        }
    }

    /// Puts the next line behind a text. False where none is left.
    pub fn append_next(&mut self, text: &mut Vec<u8>) -> Result<bool, Memory>
        ensures moved { text.new.items ++ self.new ≡ text.old.items ++ self.old }
        ensures fewer { IfOk result (λ more. more ≡ true → length self.new < length self.old) }
        ensures none { IfOk result (λ more. more ≡ false → self.new ≡ []) }
    {
        if self.made == self.events {
            return Ok(false);
        }
        let first = drawn(self.number);
        let second = drawn(first);
        let third = drawn(second);
        let name = given(first) % 1000;
        let price = given(second) % 10000;
        let volume = given(third) % 1000;
        let begin = write_line(&mut self.line, 1 + self.made / 2, name, price, volume);
        text.extend_from_slice(&self.line[begin..])?;
        self.number = third;
        self.made += 1;
        Ok(true)
    }
}

// Writes the line of an event at the end of the room, and gives where it begins.
#[inline(always)]
fn write_line(room: &mut [u8; ROOM], at: u64, name: u64, price: u64, volume: u64) -> usize
    ensures begins { result ≤ 92 }
    ensures written { drop result room.new ≡ stock_line at name price volume }
{
    room[ROOM - 1] = b'\n';
    let begin = write_marked(b",", volume, room, ROOM - 1);
    let begin = write_marked(b",", price, room, begin);
    let begin = write_marked(b",S", name, room, begin);
    write_marked(b"Stock,,", at, room, begin)
}

// Writes a mark and a number so that they end where `end` says, and gives where they begin.
#[inline(always)]
fn write_marked(mark: &[u8], number: u64, room: &mut [u8], end: usize) -> usize
    requires { (length mark.now + 20 ≤ end) × (end ≤ length room.old) }
    ensures begins { (result ≤ end) × (end ≤ result + (length mark.now + 20)) }
    ensures written { drop result room.new ≡ marked mark.now number ++ drop end room.old }
{
    let behind = write_digits(number, room, end);
    let begin = behind - mark.len();
    room[begin..behind].copy_from_slice(mark);
    begin
}
