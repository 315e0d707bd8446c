//! The automaton lines of a catalogue, and what stands beside them.
ghost use Rattle.std.specs.Prelude.{◌≡◌, ◌++◌, IfOk, OnErr, OnOk, length};
ghost use Rattle.catalogue.specs.HeldParts.{first_lines, first_held, sizes_held, with_lines};

use crate::adding::Added;
use crate::numbering::numbers_below;
use crate::sharing::{Share, Shares};
use automaton::{Layout, Line, Sizes};
use event_types::{Copied, Memory, Numbers};
use long_lists::{LongList, LongNumbers};
use splitter::Chains;
use std::alloc::Global;

/// The automaton lines of queries in the order of work, for each of them the number of its end, how many lines and streams
/// each query has, and the layout of the streams. Those of one query leave without a step for each of the others.
pub struct HeldLines {
    pub lines: LongList<Line>,
    pub ends: LongNumbers,
    pub shares: Shares,
    pub layout: Layout,
}

// As of a catalogue.
impl Drop for HeldLines {
    fn drop(self) {
        let HeldLines {
            lines: _lines,
            ends: _ends,
            shares: _shares,
            layout: _layout,
        } = self;
    }
}

/// How many lines, ends and shares there were, and how many streams in the layout, before a query came.
#[derive(Clone, Copy, Drop)]
pub struct Before {
    pub lines: usize,
    pub ends: usize,
    pub shares: usize,
    pub sizes: Sizes,
}

impl HeldLines {
    /// Lines whose ends have the first numbers. Want of memory drops them.
    pub fn of(alloc: Global, chains: Chains, shares: Shares) -> Result<HeldLines, Memory>
        ensures { IfOk result (λ held. held ≡ first_lines chains shares) }
    {
        let lines = chains.lines;
        let mut held = HeldLines {
            lines: LongList::new(alloc),
            ends: LongList::new(alloc),
            shares,
            layout: chains.layout,
        };
        held.ends = LongList::of(alloc, numbers_below(alloc, lines.len())?)?;
        held.lines = LongList::of(alloc, lines)?;
        Ok(held)
    }

    /// How much there is.
    pub fn sizes(&self) -> Before
        ensures { result ≡ sizes_held self.now }
    {
        Before {
            lines: self.lines.len(),
            ends: self.ends.len(),
            shares: self.shares.lines.len(),
            sizes: self.layout.sizes(),
        }
    }

    /// Puts the lines and the ends of a query behind those that are there, with its share and what the layout grows by.
    pub fn put(&mut self, alloc: Global, told: &Added) -> Result<(), Memory>
        requires { length self.old.shares.streams ≡ length self.old.shares.lines }
        ensures ok { OnOk result (self.new ≡ with_lines self.old told.now) }
        ensures kept { OnErr result (self.new ≡ self.old) }
    {
        let lines = told.lines.copied(alloc)?;
        let growth = told.growth.copy(alloc)?;
        let share = Share {
            lines: told.lines.len(),
            streams: told.growth.order.len(),
        };
        let before = self.sizes();
        put_each_end(&mut self.ends, &told.ends)?;
        if let Err(_) = self.shares.add(share) {
            self.take_back(before);
            return Err(Memory);
        }
        if let Err(_) = self.lines.append(lines) {
            self.take_back(before);
            return Err(Memory);
        }
        if let Err(_) = self.layout.grow(growth) {
            self.take_back(before);
            return Err(Memory);
        }
        Ok(())
    }

    /// Takes out what came last. Takes no memory.
    pub fn take_back(&mut self, before: Before)
        ensures { self.new ≡ first_held self.old before }
    {
        self.lines.truncate(before.lines);
        self.ends.truncate(before.ends);
        self.shares.truncate(before.shares);
        self.layout.cut_back(before.sizes);
    }
}

// Puts numbers behind those that are there.
fn put_each_end(ends: &mut LongNumbers, more: &Numbers) -> Result<(), Memory>
    ensures ok { OnOk result (ends.new ≡ ends.old ++ more.now) }
    ensures kept { OnErr result (ends.new ≡ ends.old) }
{
    let many = ends.len();
    for end in more.as_slice() {
        if let Err(_) = ends.add(*end) {
            ends.truncate(many);
            return Err(Memory);
        }
    }
    Ok(())
}
