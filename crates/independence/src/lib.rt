//! What the lines of a query depend on: the statements that it reads from, and the events of their
//! streams. The functions do nothing: their contracts say what follows from the definitions.
#![tactic(auto)]

mod laws;

pub use laws::{
    added_queries_change_no_course, added_queries_change_no_event, added_queries_change_no_line,
    added_queries_change_no_report, numbers_change_no_report, results_depend_on_reads_alone,
    same_events_have_same_times,
};
