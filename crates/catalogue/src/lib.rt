//! Query texts: which are accepted, as which queries over which streams, and why others are refused.
//!
//! Contracts see a `Catalogue` as its file, its streams by number, the numbers of its queries in the order of
//! work, what these publish and their expressions in this order, the ends of their automaton lines, and the
//! layout of these (`program_in` is its program, and `StandsInOrder` what holds of each catalogue).
#![tactic(auto)]

mod accepted;
mod adding;
mod arranging;
mod counting;
mod declaring;
mod dropping;
mod fault;
mod filing;
mod growing;
mod held_lines;
mod held_queries;
mod laws;
mod laying;
mod leaving;
mod loading;
mod naming;
mod numbering;
mod placing;
mod publishing;
mod reading;
mod sharing;
mod statements;
mod taking;
mod tallying;

pub use accepted::Catalogue;
pub use adding::{Added, Coming};
pub use dropping::Dropped;
pub use fault::{AddFault, DropFault, LoadFault, QueryFault};
pub use laws::{
    accepted_texts_are_programs, accepted_texts_are_wide_programs, added_text_has_one_verdict,
    declarations_have_one_answer, declared_streams_come_first, loaded_texts_are_accepted,
    names_are_those_of_statements, names_have_one_answer, newcomers_are_new,
    queries_come_and_leave, queries_have_one_answer, text_has_one_verdict, text_has_some_verdict,
    text_is_one_file, work_is_in_order,
};
pub use loading::load;
