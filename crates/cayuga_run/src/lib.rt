//! The jobs of the program: what the words ask for, the reading of the files, and what is written.
//!
//! Contracts see a `Status` as itself, a host by what it tells, and words and texts as their bytes.
#![tactic(auto)]

mod accepting;
mod events;
mod explain;
mod hearing;
mod laws;
mod load;
mod pieces;
mod run;
mod sides;
mod stats;
mod status;
mod top;
mod wording;
mod writing;

pub use catalogue::QueryFault;
pub use courses::{ControlFault, Refusal, refused_lines_stay, reports_grow};
pub use event_csv::LineFault;
pub use laws::texts_ask_for_one_status;
pub use session::{Session, SessionFault};
pub use status::Status;
pub use top::{cayuga, cayuga_within};
