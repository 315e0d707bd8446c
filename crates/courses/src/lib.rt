//! Courses: what event texts say in which control lines add queries and drop them.
//!
//! The definitions are in `specs/`; the functions have laws as their contracts, and do nothing.
#![tactic(auto)]

mod fault;
mod laws;
mod refusal;

pub use fault::ControlFault;
pub use laws::{
    control_entries_add_no_line, course_report_grows_by_epochs, event_lines_are_heard_alone,
    event_lines_are_read_alike, events_alone_are_a_history, refused_lines_stay, reports_grow,
    verdicts_are_judged,
};
pub use refusal::Refusal;
