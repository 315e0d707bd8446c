//! The numbers of the streams that queries publish.
ghost use Rattle.std.specs.Prelude.{◌≡◌, ◌+◌, ◌-◌, ◌^◌, ◌<◌, ◌≤◌, ◌++◌, IfOk, OnOk, length, map};
ghost use Rattle.std.specs.List.{range_with_len};
ghost use Rattle.expressions.specs.Views.{ex_of};
ghost use Rattle.splitter.specs.Chains.{chain_end};
ghost use Rattle.splitter.specs.Splitting.{parts_of, right_side_of};
ghost use Rattle.splitter.specs.Work.{work_of};
ghost use Rattle.stream_schema.specs.Streams.{hidden_entries};
ghost use Rattle.catalogue.specs.Numbering.{HasNumbers};
ghost use Rattle.catalogue.specs.Parts.{published_from};

use event_types::{List, Memory, Numbers, StreamId};
use expressions::Expr;
use std::alloc::Global;
use stream_schema::Streams;

/// What a query publishes: its stream, and hidden streams from a number on; and its birth, the last closed
/// time when it was added, or none.
#[derive(Drop)]
pub struct Published {
    pub stream: StreamId,
    pub hidden: StreamId,
    pub birth: Option<u64>,
}

/// What queries in the order of work publish that are there from the start: the streams behind the declared
/// ones, and hidden streams behind those of all queries.
pub fn number_all(
    alloc: Global,
    declared: usize,
    expressions: &List<Expr>,
) -> Result<List<Published>, Memory>
    requires room { chain_end (work_of declared expressions.now) declared < 2 ^ 64 }
    requires given { declared + length expressions.now < 2 ^ 64 }
    ensures { IfOk result (λ published. published ≡ published_from declared (declared + length expressions.now) (map ex_of expressions.now)) }
{
    let mut published: List<Published> = List::new(alloc);
    let mut hidden = declared + expressions.len();
    for place in 0..expressions.len() {
        published.add(Published {
            stream: declared + place,
            hidden,
            birth: None,
        })?;
        hidden = behind_hidden(expressions.get(place), hidden);
    }
    Ok(published)
}

/// The first number behind the hidden streams of an expression, which have the numbers from `next` on.
#[cycle(hiding)]
pub fn behind_hidden(expr: &Expr, next: StreamId) -> StreamId
    requires { HasNumbers (ex_of expr.now) next }
    ensures { result ≡ (parts_of (ex_of expr.now) next).next }
{
    match expr {
        Expr::Read(_) => next,
        Expr::Filter(_, inner) => behind_hidden(inner, next),
        Expr::Select(_, inner) => behind_hidden(inner, next),
        Expr::Union(left, right) => {
            let middle = behind_hidden(left, next);
            behind_hidden(right, middle)
        }
        Expr::Next(_, left, right) => {
            let middle = behind_hidden(left, next);
            behind_right(right, middle)
        }
        Expr::Fold(_, _, _, left, right) => {
            let middle = behind_hidden(left, next);
            behind_right(right, middle)
        }
    }
}

// The same of a right side, which takes one number more where it doesn't read a stream.
#[cycle(hiding)]
fn behind_right(expr: &Expr, next: StreamId) -> StreamId
    requires numbers { HasNumbers (ex_of expr.now) next }
    requires last { (right_side_of (ex_of expr.now) (parts_of (ex_of expr.now) next)).next < 2 ^ 64 }
    ensures { result ≡ (right_side_of (ex_of expr.now) (parts_of (ex_of expr.now) next)).next }
{
    match expr {
        Expr::Read(_) => next,
        _ => behind_hidden(expr, next) + 1,
    }
}

/// Puts hidden streams behind so many that are there, up to a number.
pub fn hide_up_to(streams: &mut Streams, many: usize, end: usize) -> Result<(), Memory>
    requires there { length streams.old ≡ many }
    requires up { many ≤ end }
    ensures { OnOk result (streams.new ≡ streams.old ++ hidden_entries many (end - many)) }
{
    for _ in many..end {
        streams.hide()?;
    }
    Ok(())
}

/// The first so many numbers.
pub fn numbers_below(alloc: Global, many: usize) -> Result<Numbers, Memory>
    ensures { IfOk result (λ numbers. numbers ≡ range_with_len 0 many) }
{
    let mut numbers: Numbers = List::new(alloc);
    for number in 0..many {
        numbers.add(number)?;
    }
    Ok(numbers)
}
