//! The six comparisons.

/// A comparison of two values of one kind: `=`, `<>`, `<`, `<=`, `>` and `>=`.
#[derive(Clone, Copy, PartialEq, Eq, PartialOrd, Ord, Debug, Drop)]
pub enum Cmp {
    Eq,
    Ne,
    Lt,
    Le,
    Gt,
    Ge,
}
