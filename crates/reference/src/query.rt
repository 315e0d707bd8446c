//! Queries as they are evaluated.
use event_types::StreamId;
use expressions::Expr;

/// A query: its name, the number of the stream that it publishes, and the expression that says what.
#[derive(Clone, Copy)]
pub struct Query<'a> {
    pub name: &'a str,
    pub stream: StreamId,
    pub expr: &'a Expr,
}
