//! The marks before attributes.

/// Which tuple an attribute is of: no mark, `$1`, `$2` or `$`.
#[derive(Clone, Copy, PartialEq, Eq, Debug, Drop)]
pub enum Mark {
    Bare,
    First,
    Second,
    So,
}
