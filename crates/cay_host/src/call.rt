//! The calls of a host.
use crate::side::Side;

/// A call of a host, with the side that it is of.
#[derive(Clone, Copy, Debug, PartialEq, Eq, Drop)]
pub enum Call {
    Attach(Side),
    Read(Side),
    Write,
}
