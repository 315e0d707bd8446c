//! Steps: what a tuple passes on its way to a state or out of the network.
ghost use Rattle.std.specs.Prelude.{◌≡◌, IfOk};

use event_types::{Copied, List, Memory};
use scalar_expr::{Conj, Map};
use std::alloc::Global;

/// A stage of a step.
#[derive(Drop)]
pub enum Stage {
    /// The tuple goes on where the condition holds.
    Keep(Conj),
    /// The tuple goes on with the projection's values, its times unchanged.
    Make(Map),
}

/// The stages that a tuple passes one after another.
pub type Step = List<Stage>;

impl Copied for Stage {
    fn copied(&self, alloc: Global) -> Result<Self, Memory> {
        match self {
            Stage::Keep(condition) => Ok(Stage::Keep(condition.copy(alloc)?)),
            Stage::Make(projection) => Ok(Stage::Make(projection.copy(alloc)?)),
        }
    }
}
