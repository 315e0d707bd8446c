//! Why each result is there: what is heard of an event text in which no control line is taken, and the text of the results,
//! each with the event lines behind it.
//!
//! Contracts see a `Hearing` as its limit, how many bytes it was fed, what its feed holds, and its history (`HearingView`).
#![tactic(auto)]

mod fault;
mod hearing;
mod laws;
mod lines;
mod ordering;
mod results;
mod texts;

pub use derivations::History;
pub use fault::HearFault;
pub use hearing::Hearing;
pub use laws::numbered_events_are_heard;
pub use texts::explain;
