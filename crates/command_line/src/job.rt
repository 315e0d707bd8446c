//! What the words of the command line ask for.
use event_types::Text;

/// A job, with the names of its files.
#[derive(Drop)]
pub enum Job {
    /// Runs the queries over the events, and writes the report: `run QUERIES EVENTS`. With `--stats` a line
    /// with the numbers of states and of waiting bindings is asked for too.
    Run {
        queries: Text,
        events: Text,
        stats: bool,
    },
    /// Writes the canonical text of the queries: `check QUERIES`.
    Check {
        queries: Text,
    },
    /// Writes a line for each query, in the order of work: `plan QUERIES`.
    Plan {
        queries: Text,
    },
    /// Writes each result of the queries over the events with the event lines that made it: `explain QUERIES EVENTS`.
    Explain {
        queries: Text,
        events: Text,
    },
    /// Runs the generator's texts, whose events are made from the seed, and writes one line of numbers: `load SEED N`.
    Load {
        seed: u64,
        events: u64,
    },
}
