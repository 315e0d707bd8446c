//! Why a control line is refused.
use catalogue::QueryFault;
use event_types::Text;

/// Why a control line is refused, which is UTF-8 and not too long.
#[derive(Drop)]
pub enum ControlFault {
    /// The line begins neither with `>ADD ` nor with `>DROP `, or no name follows the latter: `>STOP`, `>DROP 2nd`.
    BadForm,
    /// The text behind `>ADD ` is refused: `>ADD SELECT * FROM Stok PUBLISH Z;`.
    Query(QueryFault),
    /// No query has the name behind `>DROP `; a declared stream is none.
    UnknownQuery { name: Text },
    /// Queries read the query of that name; the first of them in print order is the reader.
    InUse { name: Text, reader: Text },
    /// The job takes no control lines.
    NotHere,
}
