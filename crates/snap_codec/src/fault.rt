//! Why a snapshot is refused.
ghost use Rattle.std.specs.Prelude.{◌≡◌};
ghost use Rattle.snap_codec.specs.declared.fault.SnapFault.TheVariants.{Memory};

use std::alloc::{AllocError, AllocFailed};

/// Why a snapshot is refused. Faults are judged in the order in which they stand here; places in the bytes count from 0.
#[derive(Clone, Copy, PartialEq, Eq, Debug, Drop)]
pub enum SnapFault {
    /// There are more than 4,294,967,296 bytes.
    TooBig,
    /// The first eight bytes aren't those with which a snapshot begins.
    NotSnapshot,
    /// The item that begins at this place needs more bytes than are left.
    Cut { at: u64 },
    /// The item that begins at this place can't stand there: no tag begins so, a text isn't UTF-8, a decimal has more
    /// than 18 places, or a tuple starts after its detection.
    BadByte { at: u64 },
    /// Bytes stand behind the snapshot, the first of them at this place.
    Extra { at: u64 },
    /// The text isn't one of queries that are accepted.
    BadQueries,
    /// There aren't as many births as queries, or as many stores as waiting states, or an open event is of no declared
    /// stream, or there are open events where no epoch is open, or none where one is.
    BadCount,
    /// A time stands against the order in which a run has it.
    BadTime,
    /// A tuple hasn't the kinds that its place asks for.
    Unfit,
    /// The open events or the items of a store aren't sorted.
    Unsorted,
    /// There was no memory.
    Memory,
}

impl From<AllocError> for SnapFault {
    ghost from_gives = { λ _ fault. fault ≡ Memory };

    fn from(_error: AllocError) -> SnapFault {
        SnapFault::Memory
    }
}

impl<T: Drop> From<AllocFailed<T>> for SnapFault {
    ghost from_gives = { λ _ fault. fault ≡ Memory };

    fn from(_error: AllocFailed<T>) -> SnapFault {
        SnapFault::Memory
    }
}

impl From<event_types::Memory> for SnapFault {
    ghost from_gives = { λ _ fault. fault ≡ Memory };

    fn from(_error: event_types::Memory) -> SnapFault {
        SnapFault::Memory
    }
}
