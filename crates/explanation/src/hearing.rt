//! The hearing of an event text in which no control line is taken.
ghost use Rattle.std.specs.Prelude.{◌≡◌, List, [], IfErr, OnOk, take};
ghost use Rattle.semantics.specs.TypedPrograms.{HaveTheirKinds};
ghost use Rattle.stream_schema.specs.Streams.{Entry};
ghost use Rattle.cel_types.specs.SourceLaws.{kinds_in};
ghost use Rattle.derivations.specs.HeardLines.{events_of};
ghost use Rattle.explanation.specs.HearingView.{HasHeard, HearsEnd, HearsPiece, IsHearing, StopsAtEnd, StopsAtPiece};

use crate::fault::HearFault;
use crate::lines::{hear_lines, hear_rest};
use derivations::History;
use event_csv::Feed;
use std::alloc::Global;
use std::marker::Model;
use stream_schema::Streams;

/// The hearing of one event text, which is fed piece by piece: its events are kept, each with the number of its line.
#[derive(Drop)]
pub struct Hearing {
    feed: Feed,
    history: History,
    limit: u64,
    fed: u64,
}

impl Model for Hearing {
    ghost use Rattle.explanation.specs.HearingView.{HearingView};

    ghost Value = { HearingView };

    ghost view = { λ h. record { feed = h.feed; history = h.history; limit = h.limit; fed = h.fed } };
}

impl Hearing {
    /// Nothing is heard yet, and at most so many bytes of the event text are to be taken. Takes no memory.
    pub fn new(alloc: Global, limit: u64) -> Hearing
        ensures limit { result.limit ≡ limit }
        ensures heard { (streams : List Entry) → HasHeard streams [] result }
    {
        Hearing {
            feed: Feed::new(alloc),
            history: History::new(alloc),
            limit,
            fed: 0,
        }
    }

    /// Hears the lines that end in the next piece of the event text, over these streams. After a fault no more can be heard.
    pub fn feed(&mut self, alloc: Global, streams: &Streams, piece: &[u8]) -> Result<(), HearFault>
        requires { IsHearing streams.now self.old }
        ensures heard { OnOk result (HearsPiece streams.now piece.now self.old self.new) }
        ensures stops { IfErr result (StopsAtPiece streams.now piece.now self.old) }
        ensures limit { self.new.limit ≡ self.old.limit }
    {
        let within = front_of(piece, self.limit - self.fed);
        if self.feed.push(within).is_err() {
            return Err(HearFault::Memory);
        }
        hear_lines(alloc, streams, &mut self.feed, &mut self.history)?;
        if within.len() < piece.len() {
            return Err(HearFault::TooMuch { limit: self.limit });
        }
        self.fed += within.len() as u64;
        Ok(())
    }

    /// Hears the line that is left where the event text has ended.
    pub fn finish(&mut self, alloc: Global, streams: &Streams) -> Result<(), HearFault>
        requires { IsHearing streams.now self.old }
        ensures heard { OnOk result (HearsEnd streams.now self.old self.new) }
        ensures stops { IfErr result (StopsAtEnd streams.now self.old) }
        ensures kinds { OnOk result (HaveTheirKinds (kinds_in streams.now) (events_of self.new.history)) }
    {
        hear_rest(alloc, streams, &self.feed, &mut self.history)
    }

    /// The events that were heard. Takes no memory.
    pub fn history(&self) -> &History
        ensures { result.now ≡ self.now.history }
    {
        &self.history
    }
}

// The first so many bytes, or all.
fn front_of(bytes: &[u8], many: u64) -> &[u8]
    ensures { result.now ≡ take many bytes.now }
{
    if (bytes.len() as u64) < many {
        bytes
    } else {
        &bytes[..many as usize]
    }
}
