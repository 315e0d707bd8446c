//! The merge of several event files.
ghost use Rattle.std.specs.Prelude.{◌≡◌, ◌≤◌, false, option_map, IfErr, IfOk, IsSome, OnErr, OnOk};
ghost use Rattle.source_merge.specs.Merging.{Refuses, after_given, begun, comes_late, next_given, turn_of, with_event, without_turn};
ghost use Rattle.source_merge.specs.Sources.{is_below};

use crate::fault::TakeFault;
use crate::held::Held;
use crate::rank::Rank;
use crate::source::{Source, bound, later, turn_and_mark, unread_sources};
use event_csv::Seen;
use event_types::{List, Memory};
use std::alloc::Global;
use std::collections::BinaryHeap;
use std::marker::Model;

/// Several event files, from 1 to 16, whose events are merged by detection time, then by file, then by place. Each event
/// may lag behind its own file by so much. The file whose events are behind those of all others has the next turn.
///
/// A file whose greatest detection time so far is 7, where a lateness of 2 is allowed, brings no event below 5 any more.
/// Once that holds of each file that hasn't ended, the events below 5 are settled, and are given.
#[derive(Drop)]
pub struct Merger {
    slack: u64,
    sources: List<Source>,
    // the file whose turn it is, with its number, and the watermark
    turn: Option<(usize, Source)>,
    mark: Option<u64>,
    held: BinaryHeap<Held>,
    // how many events were taken
    taken: u64,
}

impl Model for Merger {
    ghost use Rattle.std.specs.BinaryHeap.{heap_items};
    ghost use Rattle.source_merge.specs.Held.{IsMerge, listed};
    ghost use Rattle.source_merge.specs.Merging.{Merging};
    ghost use Rattle.source_merge.specs.Ranks.{in_order};

    ghost Value = { Merging };

    ghost view = { λ m. record { slack = m.slack; sources = m.sources; held = in_order (listed (heap_items m.held)); count = m.taken } };

    ghost invariant = { λ m. IsMerge m.slack m.sources m.turn m.mark (heap_items m.held) m.taken };
}

impl Merger {
    /// A merge of so many files of which nothing was read.
    pub fn make(alloc: Global, files: usize, slack: u64) -> Result<Merger, Memory>
        requires some { 1 ≤ files }
        requires few { files ≤ 16 }
        ensures { IfOk result (λ merger. merger ≡ begun files slack) }
    {
        let sources = unread_sources(alloc, files)?;
        let (turn, mark) = turn_and_mark(slack, sources.as_slice());
        Ok(Merger {
            slack,
            sources,
            turn,
            mark,
            held: BinaryHeap::new(alloc),
            taken: 0,
        })
    }

    /// The number of the file whose turn it is, counted from 0; none where all have ended. Takes no memory.
    pub fn turn(&self) -> Option<usize>
        ensures { result ≡ turn_of self.now }
    {
        let (file, _) = self.turn?;
        Some(file)
    }

    /// Takes the next event of the file whose turn it is, unless it is late. Want of memory, or of a number below 2^64 for
    /// it, hands it back too.
    pub fn take(&mut self, seen: Seen) -> Result<(), TakeFault>
        requires { IsSome (turn_of self.old) }
        ensures timely { OnOk result (comes_late self.old seen.tuple.at ≡ false) }
        ensures ok { OnOk result (self.new ≡ with_event self.old seen) }
        ensures refused { IfErr result (Refuses self.old seen) }
        ensures kept { OnErr result (self.new ≡ self.old) }
    {
        let (file, source) = self.turn.unwrap();
        let at = seen.tuple.at();
        let bound = bound(self.slack, source.greatest);
        if at < bound {
            return Err(TakeFault::Late { at, bound, seen });
        }
        let Some(taken) = self.taken.checked_add(1) else {
            return Err(TakeFault::Memory { seen });
        };
        let rank = Rank {
            at,
            file,
            place: self.taken,
        };
        match self.held.push(Held { rank, seen }) {
            Err(refused) => Err(TakeFault::Memory {
                seen: refused.value.seen,
            }),
            Ok(_) => {
                self.taken = taken;
                let source = Source {
                    greatest: Some(later(source.greatest, at)),
                    ended: source.ended,
                };
                *self.sources.get_mut(file) = source;
                let (turn, mark) = turn_and_mark(self.slack, self.sources.as_slice());
                self.turn = turn;
                self.mark = mark;
                Ok(())
            }
        }
    }

    /// Ends the file whose turn it is. Takes no memory.
    pub fn end(&mut self)
        requires { IsSome (turn_of self.old) }
        ensures { self.new ≡ without_turn self.old }
    {
        let (file, source) = self.turn.unwrap();
        let source = Source {
            greatest: source.greatest,
            ended: true,
        };
        *self.sources.get_mut(file) = source;
        let (turn, mark) = turn_and_mark(self.slack, self.sources.as_slice());
        self.turn = turn;
        self.mark = mark;
    }

    /// Gives the next settled event, if there is one that wasn't given. Takes no memory.
    pub fn next(&mut self) -> Option<Seen>
        ensures given { result ≡ option_map (λ taken. taken.1) (next_given self.old) }
        ensures others { self.new ≡ after_given self.old }
    {
        let first = self.held.peek()?;
        if !is_below(self.mark, first.rank.at) {
            return None;
        }
        let given = self.held.pop()?;
        Some(given.seen)
    }
}

// Whether a time is below the watermark, or all files have ended.
fn is_below(mark: Option<u64>, at: u64) -> bool
    ensures { result ≡ is_below mark at }
{
    match mark {
        None => true,
        Some(mark) => at < mark,
    }
}
