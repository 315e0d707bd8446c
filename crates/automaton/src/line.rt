//! Automaton lines: a query as a chain of steps and waits.
ghost use Rattle.std.specs.Prelude.{◌≡◌, IfOk};

use crate::step::Step;
use crate::wait::Wait;
use event_types::{Copied, List, Memory, StreamId};
use std::alloc::Global;

/// A forward edge with its waiting state: the step into the state, and what a binding waits for there.
#[derive(Drop)]
pub struct Hop {
    pub step: Step,
    pub wait: Wait,
}

/// The hops of a line, in their order.
pub type Hops = List<Hop>;

/// An automaton line: it begins in the stream `root`, goes through the hops, and publishes what passes
/// its last step on the stream `out`.
///
/// `A NEXT {c} B` has the line with the root `A` and one hop, an empty step with a wait on `B` that
/// chooses by `c`.
#[derive(Drop)]
pub struct Line {
    pub root: StreamId,
    pub hops: Hops,
    pub last: Step,
    pub out: StreamId,
}

/// The lines of a query, or of a set of queries.
pub type Lines = List<Line>;

impl Hop {
    /// An equal hop.
    pub fn copy(&self, alloc: Global) -> Result<Hop, Memory>
        ensures { IfOk result (λ copy. copy ≡ self.now) }
    {
        let step = self.step.copied(alloc)?;
        let wait = self.wait.copy(alloc)?;
        Ok(Hop { step, wait })
    }
}

impl Copied for Hop {
    fn copied(&self, alloc: Global) -> Result<Self, Memory> {
        self.copy(alloc)
    }
}

impl Line {
    /// An equal line.
    pub fn copy(&self, alloc: Global) -> Result<Line, Memory>
        ensures { IfOk result (λ copy. copy ≡ self.now) }
    {
        let hops = self.hops.copied(alloc)?;
        let last = self.last.copied(alloc)?;
        Ok(Line {
            root: self.root,
            hops,
            last,
            out: self.out,
        })
    }
}

impl Copied for Line {
    fn copied(&self, alloc: Global) -> Result<Self, Memory> {
        self.copy(alloc)
    }
}
