//! Expressions as lines.
ghost use Rattle.std.specs.Prelude.{◌≡◌, ◌≢◌, ◌<◌, ◌≤◌, ◌^◌, ◌++◌, IfOk, OnErr, OnOk};
ghost use Rattle.semantics.specs.Reading.{ReadsOnly};
ghost use Rattle.expressions.specs.Views.{ex_of};
ghost use Rattle.splitter.specs.Room.{HasRoom};
ghost use Rattle.splitter.specs.Splitting.{parts_of, right_side_of, split_lines};

use crate::namer::Namer;
use crate::open::{Open, hop_each, keep_each, make_each, publish_each, read_line};
use automaton::{Lines, Turn, Wait};
use event_types::{List, Memory, StreamId};
use expressions::Expr;
use std::alloc::Global;

/// The automaton lines that publish the expression on a stream, those of its hidden streams before
/// those that read them.
///
/// `A NEXT {c} (B NEXT {d} C)` has two lines. The first has the root `B` and one hop on `C`, and
/// publishes a hidden stream. The second has the root `A` and one hop on that hidden stream, and
/// publishes `out`.
pub fn split(alloc: Global, expr: &Expr, out: StreamId, namer: &mut Namer) -> Result<Lines, Memory>
    requires unread { ReadsOnly (λ stream. stream ≢ out) (ex_of expr.now) }
    requires above { out < namer.old }
    requires fresh { ReadsOnly (λ stream. stream < namer.old) (ex_of expr.now) }
    requires room { (parts_of (ex_of expr.now) namer.old).next ≤ 2 ^ 64 }
    ensures value { IfOk result (λ lines. lines ≡ split_lines (ex_of expr.now) out namer.old) }
    ensures next { OnOk result (namer.new ≡ (parts_of (ex_of expr.now) namer.old).next) }
    ensures kept { OnErr result (namer.new ≡ namer.old) }
{
    let mut ahead = namer.same();
    let mut lines = List::new(alloc);
    let own = open_lines(alloc, expr, &mut ahead, &mut lines)?;
    publish_each(&mut lines, own, out)?;
    *namer = ahead;
    Ok(lines)
}

// The open lines of the expression; those of its hidden streams are put behind the others.
#[cycle(splitting)]
fn open_lines(
    alloc: Global,
    expr: &Expr,
    namer: &mut Namer,
    hidden: &mut Lines,
) -> Result<Vec<Open>, Memory>
    requires { HasRoom (ex_of expr.now) namer.old }
    ensures value { IfOk result (λ lines. lines.items ≡ (parts_of (ex_of expr.now) namer.old).open_lines) }
    ensures hidden { OnOk result (hidden.new ≡ hidden.old ++ (parts_of (ex_of expr.now) namer.old).hidden) }
    ensures next { OnOk result (namer.new ≡ (parts_of (ex_of expr.now) namer.old).next) }
{
    match expr {
        Expr::Read(stream) => read_line(alloc, *stream),
        Expr::Filter(condition, inner) => {
            let mut lines = open_lines(alloc, inner, namer, hidden)?;
            keep_each(alloc, &mut lines, condition)?;
            Ok(lines)
        }
        Expr::Select(projection, inner) => {
            let mut lines = open_lines(alloc, inner, namer, hidden)?;
            make_each(alloc, &mut lines, projection)?;
            Ok(lines)
        }
        Expr::Union(left, right) => {
            let mut lines = open_lines(alloc, left, namer, hidden)?;
            let mut more = open_lines(alloc, right, namer, hidden)?;
            lines.append(&mut more)?;
            Ok(lines)
        }
        Expr::Next(condition, left, right) => {
            let mut lines = open_lines(alloc, left, namer, hidden)?;
            let stream = right_stream(alloc, right, namer, hidden)?;
            let wait = Wait {
                stream,
                choose: condition.copy(alloc)?,
                fold: None,
            };
            hop_each(alloc, &mut lines, &wait)?;
            Ok(lines)
        }
        Expr::Fold(choose, on, set, left, right) => {
            let mut lines = open_lines(alloc, left, namer, hidden)?;
            let stream = right_stream(alloc, right, namer, hidden)?;
            let turn = Turn {
                on: on.copy(alloc)?,
                set: set.copy(alloc)?,
            };
            let wait = Wait {
                stream,
                choose: choose.copy(alloc)?,
                fold: Some(turn),
            };
            hop_each(alloc, &mut lines, &wait)?;
            Ok(lines)
        }
    }
}

// The stream on which a right side is waited for.
#[cycle(splitting)]
fn right_stream(
    alloc: Global,
    expr: &Expr,
    namer: &mut Namer,
    hidden: &mut Lines,
) -> Result<StreamId, Memory>
    requires room { HasRoom (ex_of expr.now) namer.old }
    requires last { (right_side_of (ex_of expr.now) (parts_of (ex_of expr.now) namer.old)).next ≤ 2 ^ 64 }
    ensures value { IfOk result (λ stream. stream ≡ (right_side_of (ex_of expr.now) (parts_of (ex_of expr.now) namer.old)).stream) }
    ensures hidden { OnOk result (hidden.new ≡ hidden.old ++ (right_side_of (ex_of expr.now) (parts_of (ex_of expr.now) namer.old)).hidden) }
    ensures next { OnOk result (namer.new ≡ (right_side_of (ex_of expr.now) (parts_of (ex_of expr.now) namer.old)).next) }
{
    match expr {
        Expr::Read(stream) => Ok(*stream),
        _ => {
            let lines = open_lines(alloc, expr, namer, hidden)?;
            let stream = namer.hand_out();
            publish_each(hidden, lines, stream)?;
            Ok(stream)
        }
    }
}
