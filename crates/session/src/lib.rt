//! Sessions: the report of queries over an event text, written as its bytes come.
//!
//! Contracts see a `Session` as its catalogue, its engine, the limit on the bytes of its event text, its
//! feed, the number of bytes that it was fed, and whether it has ended (`SessionView`).
#![tactic(auto)]

mod changing;
mod closing;
mod control;
mod counting;
mod events;
mod fault;
mod fronts;
mod laws;
mod lines;
mod reading;
mod session;
mod work;
mod writing;

pub use fault::SessionFault;
pub use laws::{
    closing_gives_results, closing_gives_results_of_catalogue, closing_gives_results_of_text,
};
pub use session::Session;
