//! Instances.

use event_types::{Copied, List, Memory, Tuple};
use std::alloc::Global;

/// A binding that waits at a state.
#[derive(Drop)]
pub struct Instance {
    pub tuple: Tuple,
    /// The detection time of the tuple of the root stream with which the binding began.
    pub first: u64,
}

/// A list of instances.
pub type Instances = List<Instance>;

impl Copied for Instance {
    fn copied(&self, alloc: Global) -> Result<Self, Memory> {
        let tuple = self.tuple.copy(alloc)?;
        Ok(Instance {
            tuple,
            first: self.first,
        })
    }
}
