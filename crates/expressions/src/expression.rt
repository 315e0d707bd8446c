//! Expressions over streams.
use event_types::StreamId;
use scalar_expr::{Conj, Map};

/// An expression of the algebra: `a NEXT {c} b` is `Next` of the condition `c`, with the streams `a` and
/// `b` as `Read`.
///
/// The first condition of `Fold` chooses the next events, the second says whether the iteration goes
/// on, and the projection gives the new binding.
pub enum Expr {
    Read(StreamId),
    Filter(Conj, Box<Expr>),
    Select(Map, Box<Expr>),
    Union(Box<Expr>, Box<Expr>),
    Next(Conj, Box<Expr>, Box<Expr>),
    Fold(Conj, Conj, Map, Box<Expr>, Box<Expr>),
}

// One call lets an expression go, where a derive would take it apart at each place.
impl Drop for Expr {
    fn drop(self) {
        match self {
            Expr::Read(_) => {}
            Expr::Filter(_condition, _inner) => {}
            Expr::Select(_projection, _inner) => {}
            Expr::Union(_left, _right) => {}
            Expr::Next(_condition, _left, _right) => {}
            Expr::Fold(_choose, _on, _projection, _left, _right) => {}
        }
    }
}
