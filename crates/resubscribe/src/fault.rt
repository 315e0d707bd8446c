//! Why queries have no order.
ghost use Rattle.std.specs.Prelude.{◌≡◌};

use event_types::{Memory, Numbers};

/// Why queries have no order.
#[derive(Drop)]
pub enum OrderFault {
    /// The queries of a cycle by their numbers: each reads the next, and the last reads the first.
    Cycle(Numbers),
    /// There was no memory.
    Memory,
}

impl From<Memory> for OrderFault {
    ghost use Rattle.resubscribe.specs.declared.fault.OrderFault.TheVariants as fault;

    ghost from_gives = { λ _ made. made ≡ fault.Memory };

    fn from(_error: Memory) -> OrderFault {
        OrderFault::Memory
    }
}
