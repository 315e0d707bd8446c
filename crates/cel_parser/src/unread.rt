//! Why some symbols are not read.
ghost use Rattle.std.specs.Prelude.{◌≡◌};
ghost use Rattle.cel_parser.specs.declared.unread.Unread.TheVariants as unread;

use event_types::Memory;
use std::alloc::{AllocError, AllocFailed};

/// Why some symbols are not read.
#[derive(Clone, Copy, Debug, PartialEq, Eq, Drop)]
pub enum Unread {
    /// The grammar doesn't have them.
    Bad,
    Memory,
}

impl From<Memory> for Unread {
    ghost from_gives = { λ _ fault. fault ≡ unread.Memory };

    fn from(_memory: Memory) -> Unread {
        Unread::Memory
    }
}

impl From<AllocError> for Unread {
    ghost from_gives = { λ _ fault. fault ≡ unread.Memory };

    fn from(_error: AllocError) -> Unread {
        Unread::Memory
    }
}

impl<T: Drop> From<AllocFailed<T>> for Unread {
    ghost from_gives = { λ _ fault. fault ≡ unread.Memory };

    fn from(_error: AllocFailed<T>) -> Unread {
        Unread::Memory
    }
}
