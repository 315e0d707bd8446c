//! Why a statement has no type.
use event_types::{Kind, Memory, Text};
use std::alloc::AllocFailed;

/// Why a statement has no type: the first fault that is met on the way from the sources inwards out.
#[derive(Drop)]
pub enum TypeFault {
    /// The mark may not stand there, or the schema hasn't the attribute; with its mark, as `$1.Name`.
    UnknownAttr { name: Text },
    /// Another kind is wanted than is given, as in `Name > 1`, or in `Price + 0.5` where Price is a DEC 2.
    KindMismatch { want: Kind, got: Kind },
    /// FOLD assigns an attribute that the left schema hasn't.
    NotAssignable { name: Text },
    /// An attribute stands twice, as in `SELECT Name, Name`.
    DuplicateAttr { name: Text },
    /// The schemas of UNION differ at the attribute of this place, counted from 1.
    UnionMismatch { place: usize },
    /// A schema would have so many attributes, more than 256.
    TooWide { count: usize },
    /// A product would have so many places, more than 18.
    TooFine { places: usize },
    /// There was no memory.
    Memory,
}

impl From<Memory> for TypeFault {
    ghost use Rattle.std.specs.Prelude.{◌≡◌};
    ghost use Rattle.cel_types.specs.declared.fault.TypeFault.TheVariants as fault;

    ghost from_gives = { λ _ made. made ≡ fault.Memory };

    fn from(_error: Memory) -> TypeFault {
        TypeFault::Memory
    }
}

impl<T: Drop> From<AllocFailed<T>> for TypeFault {
    ghost use Rattle.std.specs.Prelude.{◌≡◌};
    ghost use Rattle.cel_types.specs.declared.fault.TypeFault.TheVariants as fault;

    ghost from_gives = { λ _ made. made ≡ fault.Memory };

    fn from(_error: AllocFailed<T>) -> TypeFault {
        TypeFault::Memory
    }
}
