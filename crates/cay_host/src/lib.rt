//! The outside of a run: a host with two files to read and one output.
//!
//! Contracts see a host as what it tells of itself: its counts of faults, which call was the last, where that
//! one failed, which sides are attached, and, where it tells them, its files, the bytes left to read and the bytes written. They see a
//! `MemHost` as what it tells and as its setting: its room, its pieces, the numbers of the calls that
//! fail, and the calls so far. They see a `TallyHost` as what it tells: its two counts of faults and the
//! number of lines written. `Steps` stands in `steps`, and is passed on here.
#![tactic(auto)]

mod call;
mod files;
mod host;
mod mem_host;
mod side;
mod tally_host;
mod writing;

pub use call::Call;
pub use host::{Failed, Host};
pub use mem_host::MemHost;
pub use side::Side;
pub use steps::{Ledger, Quiet, Steps};
pub use tally_host::TallyHost;
pub use writing::write_whole;
