//! The event text as it comes, cut into lines.
ghost use Rattle.std.specs.Prelude.{◌≡◌, ◌+◌, ◌<◌, ◌^◌, [], false, length, OnOk, OnErr};
ghost use Rattle.std.specs.Borrow.{sem};
ghost use Rattle.std.specs.Io.BufRead.{Rests};
ghost use Rattle.event_csv.specs.Fed.{IsPart, LeavesLast, TakesFromFeed, fed_more, line_feeds_so_far, unread_lines, unfed};
ghost use Rattle.event_csv.specs.Place.{BegunOrShort, IsPlace, fed_at};
ghost use Rattle.event_csv.specs.contracts.feed.Feed.{the_row};

use crate::got::Got;
use crate::place::{Place, is_skipped, take_line, without_return};
use event_types::Memory;
use std::alloc::Global;
use std::marker::Model;

/// The event text as it comes, cut at line feeds.
#[derive(Drop)]
pub struct Feed {
    bytes: Vec<u8>,
    place: Place,
}

impl Model for Feed {
    ghost use Rattle.event_csv.specs.Fed.{Fed};
    ghost use Rattle.event_csv.specs.Place.{IsPlace, fed_at};

    ghost Value = { Fed };

    ghost view = { λ a. fed_at a.bytes.items a.place };

    ghost invariant = { λ a. IsPlace a.bytes.items a.place };
}

impl Feed {
    /// Takes no memory.
    pub fn new(alloc: Global) -> Feed
        ensures { result ≡ unfed }
    {
        Feed {
            bytes: Vec::new(alloc),
            place: Place {
                gone: 0,
                begun: false,
                met: false,
                start: 0,
                searched: 0,
            },
        }
    }

    /// Puts more bytes at the end of the text. The memory of lines that are gone is used again.
    pub fn push(&mut self, piece: &[u8]) -> Result<(), Memory>
        requires { line_feeds_so_far self.old + length piece.now < 2 ^ 64 }
        ensures ok { OnOk result (self.new ≡ fed_more self.old piece.now) }
        ensures kept { OnErr result (self.new ≡ self.old) }
    {
        self.compact();
        self.bytes.extend_from_slice(piece)?;
        Ok(())
    }

    // Drops the bytes of lines that are gone, once they are no fewer than those that are left.
    fn compact(&mut self)
        ensures { self.new ≡ self.old }
    {
        let left = self.bytes.len() - self.place.start;
        if self.place.start >= left {
            self.bytes.copy_within(self.place.start.., 0);
            self.bytes.truncate(left);
            self.place.searched -= self.place.start;
            self.place.start = 0;
        }
    }

    /// Takes the next line, past empty lines and the header. Takes no memory.
    #[inline(always)]
    pub fn next_line(&mut self) -> Got<'_>
        ensures* taken { sem 𝓛 (Rests the_row self.entry (λ new. TakesFromFeed self.old new result
            × (line_feeds_so_far new ≡ line_feeds_so_far self.old))) }
    {
        take_line(self.bytes.as_slice(), &mut self.place)
    }

    /// The line that is left where the text ends here, unless it is empty or the header. Takes no memory.
    pub fn last_line(&self) -> Got<'_>
        requires { unread_lines self.now false ≡ [] }
        ensures { LeavesLast self.now result }
    {
        let bytes = self.bytes.as_slice();
        let mut place = self.place;
        match take_line(bytes, &mut place) {
            Got::NotYet => last_of(bytes, place),
            found => found,
        }
    }
}

// The line that is left behind the last line feed.
fn last_of(bytes: &[u8], place: Place) -> Got<'_>
    requires place { IsPlace bytes.now place }
    requires begun { BegunOrShort bytes.now place }
    requires part { IsPart (fed_at bytes.now place) }
    ensures { LeavesLast (fed_at bytes.now place) result }
{
    let line = without_return(&bytes[place.start..]);
    if is_skipped(line, place.met) {
        return Got::NotYet;
    }
    Got::Line {
        number: place.gone + 1,
        bytes: line,
    }
}
