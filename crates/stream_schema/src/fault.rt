//! Why a schema isn't made.
ghost use Rattle.std.specs.Prelude.{◌≡◌};

use event_types::Memory;

/// Why a schema isn't made, or has no further attribute.
#[derive(Clone, Copy, PartialEq, Eq, Debug, Drop)]
pub enum SchemaFault {
    /// There would be `count` attributes, more than 256.
    TooWide { count: usize },
    /// There was no memory.
    Memory,
}

impl From<Memory> for SchemaFault {
    ghost use Rattle.stream_schema.specs.declared.fault.SchemaFault.TheVariants as fault;

    ghost from_gives = { λ _ made. made ≡ fault.Memory };

    fn from(_error: Memory) -> SchemaFault {
        SchemaFault::Memory
    }
}
