//! How often expressions read each stream.
ghost use Rattle.std.specs.Prelude.{◌≡◌, ◌≤◌, IfOk, OnOk, OnErr, length};
ghost use Rattle.expressions.specs.Views.{ex_of};
ghost use Rattle.semantics.specs.Expressions.{Read};
ghost use Rattle.catalogue.specs.Tallies.{AddsReads, AreTallied, HaveReads, StayTallied, tally_of};

use event_types::{List, Memory, Numbers, StreamId};
use expressions::Expr;
use std::alloc::Global;

/// How many reads of each stream the expressions have.
pub fn tally_all(alloc: Global, expressions: &List<Expr>) -> Result<Numbers, Memory>
    ensures { IfOk result (AreTallied expressions.now) }
{
    let mut tallies: Numbers = List::new(alloc);
    for place in 0..expressions.len() {
        tally(&mut tallies, expressions.get(place))?;
    }
    Ok(tallies)
}

/// The tally of a stream.
pub fn tally_at(tallies: &Numbers, stream: StreamId) -> usize
    ensures { result ≡ tally_of tallies.now stream }
{
    if stream < tallies.len() {
        *tallies.get(stream)
    } else {
        0
    }
}

/// Tallies the reads of one expression more, or none of them.
pub fn tally(tallies: &mut Numbers, expr: &Expr) -> Result<(), Memory>
    ensures ok { OnOk result (AddsReads (ex_of expr.now) tallies.old tallies.new) }
    ensures kept { OnErr result (StayTallied tallies.old tallies.new) }
{
    match expr {
        Expr::Read(read) => tally_read(tallies, *read),
        Expr::Filter(_, inner) => tally(tallies, inner),
        Expr::Select(_, inner) => tally(tallies, inner),
        Expr::Union(left, right) => {
            tally(tallies, left)?;
            if let Err(_) = tally(tallies, right) {
                untally(tallies, left);
                return Err(Memory);
            }
            Ok(())
        }
        Expr::Next(_, left, right) => {
            tally(tallies, left)?;
            if let Err(_) = tally(tallies, right) {
                untally(tallies, left);
                return Err(Memory);
            }
            Ok(())
        }
        Expr::Fold(_, _, _, left, right) => {
            tally(tallies, left)?;
            if let Err(_) = tally(tallies, right) {
                untally(tallies, left);
                return Err(Memory);
            }
            Ok(())
        }
    }
}

/// Takes the reads of an expression out of the tallies. Takes no memory.
pub fn untally(tallies: &mut Numbers, expr: &Expr)
    requires { HaveReads (ex_of expr.now) tallies.old }
    ensures { AddsReads (ex_of expr.now) tallies.new tallies.old }
{
    match expr {
        Expr::Read(read) => untally_read(tallies, *read),
        Expr::Filter(_, inner) => untally(tallies, inner),
        Expr::Select(_, inner) => untally(tallies, inner),
        Expr::Union(left, right) => {
            untally(tallies, left);
            untally(tallies, right);
        }
        Expr::Next(_, left, right) => {
            untally(tallies, left);
            untally(tallies, right);
        }
        Expr::Fold(_, _, _, left, right) => {
            untally(tallies, left);
            untally(tallies, right);
        }
    }
}

// Tallies one read more.
fn tally_read(tallies: &mut Numbers, stream: StreamId) -> Result<(), Memory>
    ensures ok { OnOk result (AddsReads (Read stream) tallies.old tallies.new) }
    ensures kept { OnErr result (StayTallied tallies.old tallies.new) }
{
    if tallies.len() <= stream {
        return tally_first(tallies, stream);
    }
    let tally = *tallies.get(stream);
    if tally == usize::MAX {
        return Err(Memory);
    }
    *tallies.get_mut(stream) = tally + 1;
    Ok(())
}

// Tallies the first read of a stream behind the last.
fn tally_first(tallies: &mut Numbers, stream: StreamId) -> Result<(), Memory>
    requires { length tallies.old ≤ stream }
    ensures ok { OnOk result (AddsReads (Read stream) tallies.old tallies.new) }
    ensures kept { OnErr result (StayTallied tallies.old tallies.new) }
{
    for _ in tallies.len()..stream {
        tallies.add(0)?;
    }
    tallies.add(1)
}

// Takes one read out.
fn untally_read(tallies: &mut Numbers, stream: StreamId)
    requires { HaveReads (Read stream) tallies.old }
    ensures { AddsReads (Read stream) tallies.new tallies.old }
{
    let tally = *tallies.get(stream);
    *tallies.get_mut(stream) = tally - 1;
}
