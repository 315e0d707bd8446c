//! The calls of the run of `PAIRS`, of which each reads or writes at most one byte.

/// Calls that come one after another and do the same.
#[derive(Clone, Copy)]
pub struct Stage<'a> {
    pub name: &'a str,
    /// The number of the first, counted from 1.
    pub first: u64,
    pub calls: u64,
    /// How the run ends where one of them fails.
    pub status: &'a str,
    /// The bytes that were written before the first.
    pub written: usize,
    /// Whether each of them writes a byte.
    pub writes: bool,
}

const READING_QUERIES: Stage = Stage {
    name: "a byte of the queries, or their end, can't be read",
    first: 2,
    calls: 115,
    status: "cayuga: cannot read the queries",
    written: 0,
    writes: false,
};

const READING_EVENTS: Stage = Stage {
    name: "a byte of the events can't be read",
    first: 118,
    calls: 57,
    status: "cayuga: cannot read the events",
    ..READING_QUERIES
};

/// The first row is written once the third line has come, whose event closes the epoch of the second.
const WRITING: Stage = Stage {
    name: "a byte of the first row can't be written",
    first: 175,
    calls: 27,
    status: "cayuga: cannot write the results",
    written: 0,
    writes: true,
};

/// All calls of the run, in order, and one that it doesn't make.
pub const STAGES: [Stage; 8] = [
    Stage {
        name: "the queries can't be opened",
        first: 1,
        calls: 1,
        status: "cayuga: cannot open the queries",
        ..READING_QUERIES
    },
    READING_QUERIES,
    Stage {
        name: "the events can't be opened",
        first: 117,
        calls: 1,
        status: "cayuga: cannot open the events",
        ..READING_QUERIES
    },
    READING_EVENTS,
    WRITING,
    Stage {
        name: "the end of the events can't be read",
        first: 202,
        calls: 1,
        written: 27,
        ..READING_EVENTS
    },
    Stage {
        name: "a byte of the second row can't be written",
        first: 203,
        written: 27,
        ..WRITING
    },
    Stage {
        name: "there is no such call",
        first: 230,
        calls: 1,
        status: "",
        written: 54,
        writes: false,
    },
];
