//! Why an event line isn't read.

/// What is wrong with an event line: the first of these, in this order. `BadInt` and `BadDec` are one place in it:
/// the first value field that isn't of its kind. Fields are counted from 1. The lines that show a fault are of the
/// stream `Stock (Name TEXT, Price INT, Volume INT)`.
#[derive(Clone, Copy, PartialEq, Eq, Debug, Drop)]
pub enum LineFault {
    /// The line has more than 65,536 bytes, a carriage return at its end counted: 65,537 times `x`.
    LineTooLong,
    /// The line isn't UTF-8, as `Stock,7,8,\xFF,1,2` with the one byte FF.
    NotUtf8,
    /// The first field isn't the name of a declared stream, as in `Stocks,7,8,IBM,1,2`.
    UnknownStream,
    /// The fields aren't three and one for each attribute: `Stock,7,8,IBM,1` has five of six.
    FieldCount { want: usize, got: usize },
    /// Field 2 is neither empty nor a time, as in `Stock,x,8,IBM,1,2`; or else field 3 isn't a time, as in
    /// `Stock,7,,IBM,1,2`.
    BadTime { field: usize },
    /// The start is greater than the detection: `Stock,8,7,IBM,1,2`.
    StartAfterDetection,
    /// The first value field that isn't of its kind, which is INT: field 6 in `Stock,7,8,IBM,1,two`.
    BadInt { field: usize },
    /// The first value field that isn't of its kind, which is a DEC of so many places: field 5 in
    /// `Trade,1,1,IBM,1.234`, where the stream is `Trade (Name TEXT, Price DEC 2)`.
    BadDec { field: usize, places: u8 },
}

/// Why an event line isn't read.
#[derive(Clone, Copy, PartialEq, Eq, Debug, Drop)]
pub enum ReadFail {
    /// The line has this fault.
    Bad(LineFault),
    /// There was no memory for the event.
    Memory,
}
