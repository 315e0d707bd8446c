//! Beads that are used again.

use crate::instance::Instance;
use inst_chain::{Bead, Chain};
use std::marker::Model;

/// Beads whose instances were taken out, so that the next instances need no new ones. No contract says which instances
/// still stand in them.
#[derive(Drop)]
pub struct SpentBeads {
    beads: Chain<Instance>,
    // how many there are
    count: usize,
}

impl Model for SpentBeads {
    ghost Value = { Unit {0} };

    ghost view = { λ s. tt };
}

// The most beads that are kept.
const MOST: usize = 64;

impl SpentBeads {
    /// None is kept yet. Takes no memory.
    pub fn new() -> SpentBeads {
        SpentBeads {
            beads: Chain::new(),
            count: 0,
        }
    }

    /// Keeps a bead, if there is one, unless enough are kept. Takes no memory.
    pub fn put(&mut self, bead: Option<Bead<Instance>>) {
        if let Some(bead) = bead
            && self.count < MOST
        {
            self.count += 1;
            self.beads.link(bead);
        }
    }

    /// One of the beads, if any is kept. Takes no memory.
    pub fn take(&mut self) -> Option<Bead<Instance>> {
        let bead = self.beads.pop()?;
        self.count = self.count.saturating_sub(1);
        Some(bead)
    }
}
