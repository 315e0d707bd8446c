//! The event text: its lines as the bytes come, and the event of each line.
//!
//! Contracts see a `Feed` as the number of lines that are gone, whether the front of the text is passed,
//! whether a line that isn't empty was met, and the bytes that are left.
#![tactic(auto)]

mod control;
mod copied;
mod decimals;
mod event;
mod fault;
mod feed;
mod fields;
mod front;
mod got;
mod laws;
mod numbers;
mod place;
mod quick;
mod quotes;

pub use control::{Control, ControlError, read_control};
pub use event::{Seen, read_event};
pub use fault::{LineFault, ReadFail};
pub use feed::Feed;
pub use got::Got;
pub use laws::{
    lines_have_their_first_fault, lines_stay, numbers_are_read_as_they_are_written,
    pieces_give_the_lines_of_the_text, undeclared_streams_change_no_event,
};
pub use quick::read_quickly;
