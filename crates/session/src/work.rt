//! The work on the events.
use crate::fronts::Fronts;
use epoch_engine::Engine;
use event_types::StreamId;
use result_text::{Rows, Tails};

/// What was heard, the rows of closed epochs that aren't written yet, the tails of rows and their fronts, the stream of
/// the event that was taken last, where the next line's name is looked for first, and a time after which no query was
/// born. Before any event, the stream is 0.
#[derive(Drop)]
pub struct Work {
    pub engine: Engine,
    pub rows: Rows,
    pub tails: Tails,
    pub fronts: Fronts,
    pub near: StreamId,
    pub born: Option<u64>,
}
