//! Runs over event texts with control lines, and what has to come of each.
use super::cases::{Case, PAIRS};

/// Two events that make a pair, then a query that comes, and two events more. The query that is there from the start has
/// the pairs before and after, and the query that came has the one that began after it came.
pub const COMES: Case = Case {
    name: "a query that comes has what began after it came",
    events: b"Stock,1,1,IBM,10,5\nStock,2,2,IBM,11,6\n\
        >ADD SELECT * FROM Stock NEXT {$2.Name = $1.Name} Stock PUBLISH Pair2;\n\
        Stock,3,3,IBM,12,7\nStock,4,4,IBM,13,8\n",
    pieces: (1000, 1000),
    limit: 1000,
    written: b"Pair,1,2,IBM,10,5,IBM,11,6\nPair,2,3,IBM,11,6,IBM,12,7\n\
        Pair,3,4,IBM,12,7,IBM,13,8\nPair2,3,4,IBM,12,7,IBM,13,8\n",
    ..PAIRS
};

/// The pair of the first two events alone.
const ONE_PAIR: &[u8] = b"Pair,1,2,IBM,10,5,IBM,11,6\n";

/// Control lines that come between epochs, and such as are refused.
pub const CONTROLS: [Case; 9] = [
    COMES,
    // The two queries have one root state and share a waiting state, where the last event waits.
    Case {
        name: "the stats are those of the queries that are there in the end",
        words: &["run", "--stats", "q", "e"],
        written: b"Pair,1,2,IBM,10,5,IBM,11,6\nPair,2,3,IBM,11,6,IBM,12,7\n\
            Pair,3,4,IBM,12,7,IBM,13,8\nPair2,3,4,IBM,12,7,IBM,13,8\n\
            # states 2, plain 3, live 1\n",
        ..COMES
    },
    Case {
        name: "a query that leaves has the rows of the epoch that it closes, and no later ones",
        events: b"Stock,1,1,IBM,10,5\nStock,2,2,IBM,11,6\n>DROP Pair\nStock,3,3,IBM,12,7\n",
        written: ONE_PAIR,
        ..COMES
    },
    Case {
        name: "a query that leaves and comes again in one piece begins anew",
        events: b"Stock,1,1,IBM,10,5\nStock,2,2,IBM,11,6\n>DROP Pair\n\
            >ADD SELECT * FROM Stock NEXT {$2.Name = $1.Name} Stock PUBLISH Pair;\n\
            Stock,3,3,IBM,12,7\nStock,4,4,IBM,13,8\n",
        written: b"Pair,1,2,IBM,10,5,IBM,11,6\nPair,3,4,IBM,12,7,IBM,13,8\n",
        ..COMES
    },
    Case {
        name: "an event of the epoch that a control line closed comes too late",
        events: b"Stock,1,1,IBM,10,5\nStock,2,2,IBM,11,6\n>DROP Pair\nStock,2,2,IBM,1,1\n",
        status: "cayuga: events line 4: detection 2 is already closed",
        written: ONE_PAIR,
        ..COMES
    },
    Case {
        name: "a control line that is refused closes nothing",
        events: b"Stock,1,1,IBM,10,5\nStock,2,2,IBM,11,6\n>DROP Pair2\n",
        status: "cayuga: control line 3: no query Pair2",
        written: b"",
        ..COMES
    },
    Case {
        name: "a query that another reads doesn't leave",
        queries: b"STREAM Stock (Name TEXT, Price INT, Volume INT);\n\
            SELECT * FROM Stock NEXT {$2.Name = $1.Name} Stock PUBLISH Pair;\n\
            SELECT * FROM Pair PUBLISH P;\n",
        events: b">DROP Pair\n",
        status: "cayuga: control line 1: Pair is read by P",
        written: b"",
        ..COMES
    },
    Case {
        name: "a query that reads an unknown stream doesn't come",
        events: b">ADD SELECT * FROM Stok PUBLISH Z;\n",
        status: "cayuga: control line 1: stream Stok is unknown",
        written: b"",
        ..COMES
    },
    Case {
        name: "other lines that begin with the mark of a control line are none",
        events: b">STOP\n",
        status: "cayuga: control line 1: not a control line",
        written: b"",
        ..COMES
    },
];
