//! The words of the command line, and the job that they name.
//!
//! Contracts see a `Job` as itself, and words as their bytes.
#![tactic(auto)]

mod command;
mod job;
mod laws;
mod numbers;
mod table;

pub use job::Job;
pub use laws::plain_words_are_jobs;
pub use table::job_of;
