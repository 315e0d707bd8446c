//! Waits: what a binding waits for.
ghost use Rattle.std.specs.Prelude.{◌≡◌, IfOk};

use event_types::{Memory, StreamId};
use scalar_expr::{Conj, Map};
use std::alloc::Global;

/// A rebind edge: the condition under which the new binding goes on, and its values.
#[derive(Drop)]
pub struct Turn {
    pub on: Conj,
    pub set: Map,
}

/// A filter edge: a binding waits for its nexts in a stream, and in a FOLD goes on from each.
#[derive(Drop)]
pub struct Wait {
    pub stream: StreamId,
    pub choose: Conj,
    pub fold: Option<Turn>,
}

impl Turn {
    /// An equal rebind edge.
    pub fn copy(&self, alloc: Global) -> Result<Turn, Memory>
        ensures { IfOk result (λ copy. copy ≡ self.now) }
    {
        let on = self.on.copy(alloc)?;
        let set = self.set.copy(alloc)?;
        Ok(Turn { on, set })
    }
}

impl Wait {
    /// An equal wait.
    pub fn copy(&self, alloc: Global) -> Result<Wait, Memory>
        ensures { IfOk result (λ copy. copy ≡ self.now) }
    {
        let choose = self.choose.copy(alloc)?;
        let fold = match &self.fold {
            Some(turn) => Some(turn.copy(alloc)?),
            None => None,
        };
        Ok(Wait {
            stream: self.stream,
            choose,
            fold,
        })
    }
}
