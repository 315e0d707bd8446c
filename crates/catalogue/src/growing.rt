//! What comes with a query: its lines with what the layout grows by, the numbers of their ends, and its streams.
ghost use Rattle.std.specs.Prelude.{◌≡◌, ◌+◌, ◌-◌, ◌^◌, ◌<◌, ◌≤◌, ◌++◌, ◌∷◌, None, IfOk, OnOk, OnErr, false, length, sum_by, take, drop};
ghost use Rattle.std.specs.List.{range_with_len};
ghost use Rattle.expressions.specs.Views.{ex_of};
ghost use Rattle.stream_schema.specs.Streams.{hidden_entries, number_of};
ghost use Rattle.catalogue.specs.Fitting.{HasGrown, IsGrown, MayGrow};
ghost use Rattle.catalogue.specs.Tallies.{AddsReads, StayTallied};

use crate::tallying::{tally, untally};
use automaton::{Growth, Layout, Line, Lines};
use event_types::{List, Memory, Numbers};
use expressions::Expr;
use long_lists::LongList;
use splitter::{Namer, add_query};
use std::alloc::Global;
use stream_schema::{Schema, Streams};

// The most numbers of streams that a query takes: its own, and one for each hidden stream.
const MOST: usize = 1_025;

/// The automaton lines of a query, and what the layout of all lines grows by.
#[derive(Drop)]
pub struct Lined {
    pub lines: Lines,
    pub growth: Growth,
}

/// The automaton lines of a query whose stream has the next number and this schema, and what the layout grows by. The
/// layout is used to find it, and is left as it was.
pub fn lines_of_one(
    alloc: Global,
    layout: &mut Layout,
    schema: &Schema,
    expr: &Expr,
) -> Result<Lined, Memory>
    requires { MayGrow layout.old schema.now (ex_of expr.now) }
    ensures ok { IfOk result (λ lined. HasGrown layout.old schema.now (ex_of expr.now) lined.lines lined.growth) }
    ensures same { layout.new ≡ layout.old }
{
    let sizes = layout.sizes();
    let lines = add_one(alloc, layout, schema, expr)?;
    let growth = layout.growth_behind(alloc, sizes);
    layout.cut_back(sizes);
    Ok(Lined {
        lines,
        growth: growth?,
    })
}

// The same lines, whose streams the layout has then.
fn add_one(
    alloc: Global,
    layout: &mut Layout,
    schema: &Schema,
    expr: &Expr,
) -> Result<Lines, Memory>
    requires { MayGrow layout.old schema.now (ex_of expr.now) }
    ensures ok { IfOk result (λ lines. IsGrown layout.old schema.now (ex_of expr.now) lines layout.new) }
    ensures kept { OnErr result (layout.new ≡ layout.old) }
{
    let stream = layout.kinds.len();
    if stream > usize::MAX - MOST {
        return Err(Memory);
    }
    let sizes = layout.sizes();
    let kinds = schema.kinds(alloc)?;
    layout.kinds.add(kinds)?;
    if let Err(_) = layout.outs.add(stream) {
        layout.cut_back(sizes);
        return Err(Memory);
    }
    let mut lines: Lines = List::new(alloc);
    let mut namer = Namer::new(stream + 1);
    if let Err(_) = add_query(alloc, expr, stream, &mut namer, &mut lines, layout) {
        layout.cut_back(sizes);
        return Err(Memory);
    }
    Ok(lines)
}

/// How many lines there are, and hops on them.
pub fn size_of(lines: &[Line]) -> usize
    requires { sum_by (λ line. 1 + length line.hops) lines.now < 2 ^ 64 }
    ensures { result ≡ sum_by (λ line. 1 + length line.hops) lines.now }
{
    let mut size = 0;
    for line in lines {
        size += 1 + line.hops.len();
    }
    size
}

/// The same of the lines from one place up to another.
pub fn size_between(lines: &LongList<Line>, first: usize, end: usize) -> usize
    requires up { first ≤ end }
    requires within { end ≤ length lines.now }
    requires few { sum_by (λ line. 1 + length line.hops) lines.now < 2 ^ 64 }
    ensures { result ≡ sum_by (λ line. 1 + length line.hops) (take (end - first) (drop first lines.now)) }
{
    let mut size = 0;
    for place in first..end {
        size += 1 + lines.get(place).hops.len();
    }
    size
}

/// So many numbers from one on.
pub fn numbers_from(alloc: Global, first: usize, many: usize) -> Result<Numbers, Memory>
    requires { first + many < 2 ^ 64 }
    ensures { IfOk result (λ numbers. numbers ≡ range_with_len first many) }
{
    let mut numbers: Numbers = List::new(alloc);
    for number in 0..many {
        numbers.add(first + number)?;
    }
    Ok(numbers)
}

/// Tallies the reads of a query and publishes its stream with so many hidden ones. Want of memory drops the schema.
pub fn publish(
    streams: &mut Streams,
    reads: &mut Numbers,
    expr: &Expr,
    name: &str,
    schema: Schema,
    hidden: usize,
) -> Result<(), Memory>
    requires { number_of name.now streams.old ≡ None }
    ensures ok { OnOk result (streams.new ≡ streams.old ++ record { name = name.now; schema = schema; declared = false } ∷ hidden_entries (length streams.old + 1) hidden) }
    ensures tallied { OnOk result (AddsReads (ex_of expr.now) reads.old reads.new) }
    ensures kept { OnErr result (streams.new ≡ streams.old) }
    ensures tallies_kept { OnErr result (StayTallied reads.old reads.new) }
{
    tally(reads, expr)?;
    if let Err(_) = streams.publish(name, schema, hidden) {
        untally(reads, expr);
        return Err(Memory);
    }
    Ok(())
}
