//! Runs over a host in memory, and what has to come of each.

/// A run over a host in memory, and what has to come of it.
#[derive(Clone, Copy)]
pub struct Case<'a> {
    pub name: &'a str,
    pub queries: &'a [u8],
    pub events: &'a [u8],
    pub words: &'a [&'a str],
    /// The most bytes of a read and of a write.
    pub pieces: (usize, usize),
    /// The number of the call that fails, counted from 1, or 0.
    pub failing: u64,
    pub limit: u64,
    /// The text of the status, which is empty where the job was done.
    pub status: &'a str,
    pub written: &'a [u8],
}

/// One event of ten bytes, which passes: two calls that attach, a read of each text and one that ends it, and
/// the write of the row.
const PLAIN: Case = Case {
    name: "the events have as many bytes as the limit",
    queries: b"STREAM S (a INT);\nSELECT * FROM FILTER {a > 1} S PUBLISH Q;\n",
    events: b"S,10,10,5\n",
    words: &["run", "q", "e"],
    pieces: (1000, 1000),
    failing: 0,
    limit: 10,
    status: "",
    written: b"Q,10,10,5\n",
};

/// The same with the line of stats.
const STATS: Case = Case {
    words: &["run", "--stats", "q", "e"],
    ..PLAIN
};

/// Three events that make two pairs, read and written byte by byte. The queries have 114 bytes, the events 57,
/// and each row has 27.
pub const PAIRS: Case = Case {
    name: "bytes that come and go one by one make the same pairs",
    queries: b"STREAM Stock (Name TEXT, Price INT, Volume INT);\n\
        SELECT * FROM Stock NEXT {$2.Name = $1.Name} Stock PUBLISH Pair;\n",
    events: b"Stock,1,1,IBM,10,5\nStock,2,2,IBM,11,6\nStock,3,3,IBM,12,7\n",
    pieces: (1, 1),
    limit: 99,
    written: b"Pair,1,2,IBM,10,5,IBM,11,6\nPair,2,3,IBM,11,6,IBM,12,7\n",
    ..PLAIN
};

/// Each of three events of eight bytes. A piece has one line of them, and seven reads take the 45 bytes of the
/// queries to their end.
const ALL: Case = Case {
    queries: b"STREAM S (a INT);\nSELECT * FROM S PUBLISH A;\n",
    events: b"S,1,1,5\nS,2,2,6\nS,3,3,7\n",
    pieces: (8, 5),
    limit: 99,
    ..PLAIN
};

/// Pieces, calls that fail, and limits.
pub const CASES: [Case; 9] = [
    PLAIN,
    Case {
        name: "the events have one byte more than the limit",
        limit: 9,
        status: "cayuga: more than 9 bytes of events",
        written: b"",
        ..PLAIN
    },
    Case {
        name: "no stats stand behind events that are too many",
        limit: 9,
        status: "cayuga: more than 9 bytes of events",
        written: b"",
        ..STATS
    },
    Case {
        name: "the end of the queries can't be read",
        failing: 3,
        status: "cayuga: cannot read the queries",
        written: b"",
        ..PLAIN
    },
    // Before it stand the six calls that take the texts, two writes of the row, and one of the line.
    Case {
        name: "the second write of the line of stats fails",
        pieces: (1000, 7),
        failing: 10,
        status: "cayuga: cannot write the results",
        written: b"Q,10,10,5\n# state",
        ..STATS
    },
    Case {
        name: "check opens no events, and its second write fails",
        words: &["check", "q"],
        pieces: (1000, 7),
        failing: 5,
        status: "cayuga: cannot write the results",
        written: b"STREAM ",
        ..PLAIN
    },
    PAIRS,
    // Before it stand two calls that attach, seven reads of the queries, two of the events, and two writes of
    // the first row.
    Case {
        name: "the third line of the events can't be read",
        failing: 14,
        status: "cayuga: cannot read the events",
        written: b"A,1,1,5\n",
        ..ALL
    },
    // Before it stand two calls that attach, seven reads of the queries, three of the events, two writes of
    // the first row, and one of the second.
    Case {
        name: "the second write of the second row fails",
        failing: 16,
        status: "cayuga: cannot write the results",
        written: b"A,1,1,5\nA,2,2",
        ..ALL
    },
];
