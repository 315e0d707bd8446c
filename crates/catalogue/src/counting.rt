//! How many lines expressions have, and whether they read a stream.
ghost use Rattle.std.specs.Prelude.{◌≡◌, ◌<◌, ◌^◌};
ghost use Rattle.expressions.specs.Views.{ex_of};
ghost use Rattle.catalogue.specs.Counting.{lines_in, reads, right_many};

use event_types::StreamId;
use expressions::Expr;

/// Whether the expression reads the stream.
pub fn does_read(expr: &Expr, stream: StreamId) -> bool
    ensures { result ≡ reads stream (ex_of expr.now) }
{
    match expr {
        Expr::Read(read) => *read == stream,
        Expr::Filter(_, inner) => does_read(inner, stream),
        Expr::Select(_, inner) => does_read(inner, stream),
        Expr::Union(left, right) => does_read(left, stream) || does_read(right, stream),
        Expr::Next(_, left, right) => does_read(left, stream) || does_read(right, stream),
        Expr::Fold(_, _, _, left, right) => does_read(left, stream) || does_read(right, stream),
    }
}

/// How many lines the expression has.
#[cycle(counting)]
pub fn count(expr: &Expr) -> usize
    requires { lines_in (ex_of expr.now) < 2 ^ 64 }
    ensures { result ≡ lines_in (ex_of expr.now) }
{
    match expr {
        Expr::Read(_) => 1,
        Expr::Filter(_, inner) => count(inner),
        Expr::Select(_, inner) => count(inner),
        Expr::Union(left, right) => count(left) + count(right),
        Expr::Next(_, left, right) => count(left) + count_right(right),
        Expr::Fold(_, _, _, left, right) => count(left) + count_right(right),
    }
}

// The same of a right side, which has none of its own where it reads a stream.
#[cycle(counting)]
fn count_right(expr: &Expr) -> usize
    requires { right_many (ex_of expr.now) (lines_in (ex_of expr.now)) < 2 ^ 64 }
    ensures { result ≡ right_many (ex_of expr.now) (lines_in (ex_of expr.now)) }
{
    match expr {
        Expr::Read(_) => 0,
        _ => count(expr),
    }
}
