//! Why a query text is refused.
ghost use Rattle.std.specs.Prelude.{◌≡◌};

use event_types::{Kind, Memory, Names, Text};

/// Why a query text is refused, by the first fault in this order: that it is too long, its tokens, its
/// statements, their names, the names that they read, and their types. Statements are numbered from 1.
#[derive(Drop)]
pub enum QueryFault {
    /// The text is not UTF-8.
    NotUtf8,
    /// No token stands there, as at `'open`.
    BadToken,
    /// A number is above 2^127-1, or the units of a decimal are.
    NumberPast128,
    /// A statement has more than 1,024 tokens.
    TooManyTokens { number: u64 },
    /// A statement is nested more than 64 deep.
    TooDeep { number: u64 },
    /// The grammar does not have the statement.
    BadStatement { number: u64 },
    /// The text has more than 1,048,576 bytes.
    TooLong,
    /// The name is `stream`, which begins the header of an event text.
    Reserved { name: Text },
    /// An earlier statement has the name.
    Duplicate { name: Text },
    /// No statement has the name that is read.
    Unknown { name: Text },
    /// The mark may not stand there, or the schema hasn't the attribute; with its mark, as `$1.Name`.
    UnknownAttr { name: Text },
    /// Another kind is wanted than is given, as in `Name > 1`.
    KindMismatch { want: Kind, got: Kind },
    /// FOLD assigns an attribute that the left schema hasn't.
    NotAssignable { name: Text },
    /// An attribute stands twice, as in `SELECT Name, Name`.
    DuplicateAttr { name: Text },
    /// The schemas of UNION differ at the attribute of this place, counted from 1.
    UnionMismatch { place: usize },
    /// A schema would have so many attributes, more than 256.
    TooWide { count: usize },
    /// A product would have so many places, more than 18.
    TooFine { places: usize },
}

/// Why a query text gives no catalogue.
#[derive(Drop)]
pub enum LoadFault {
    /// The text is refused, with the line of the place at fault, counted from 1.
    Bad { line: u64, why: QueryFault },
    /// Queries read one another in a circle: each name reads the next, and the last reads the first.
    Cycle(Names),
    /// There was no memory.
    Memory,
}

impl From<Memory> for LoadFault {
    ghost use Rattle.catalogue.specs.declared.fault.LoadFault.TheVariants as fault;

    ghost from_gives = { λ _ made. made ≡ fault.Memory };

    fn from(_error: Memory) -> LoadFault {
        LoadFault::Memory
    }
}

/// Why a query does not leave a catalogue.
#[derive(Drop)]
pub enum DropFault {
    /// No query has the name. A declared stream is none.
    UnknownQuery,
    /// Queries read the stream of the query; this is the first of them in print order.
    InUse { reader: Text },
    /// There was no memory.
    Memory,
}

impl From<Memory> for DropFault {
    ghost use Rattle.catalogue.specs.declared.fault.DropFault.TheVariants as fault;

    ghost from_gives = { λ _ made. made ≡ fault.Memory };

    fn from(_error: Memory) -> DropFault {
        DropFault::Memory
    }
}

/// Why a query does not come to a catalogue.
#[derive(Drop)]
pub enum AddFault {
    /// The text is refused, with the line of the place at fault, counted from 1.
    Bad { line: u64, why: QueryFault },
    /// There was no memory.
    Memory,
}

impl From<Memory> for AddFault {
    ghost use Rattle.catalogue.specs.declared.fault.AddFault.TheVariants as fault;

    ghost from_gives = { λ _ made. made ≡ fault.Memory };

    fn from(_error: Memory) -> AddFault {
        AddFault::Memory
    }
}
