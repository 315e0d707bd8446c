//! The lines of queries in the order of work, with their layout.
ghost use Rattle.std.specs.Prelude.{◌≡◌, ◌+◌, ◌-◌, ◌<◌, ◌≤◌, ◌^◌, ◌++◌, ◌∷◌, [], List, length, map, IfOk, OnErr, OnOk};
ghost use Rattle.std.specs.List.{All, range_with_len};
ghost use Rattle.event_types.specs.declared.kind.Kind.{Kind};
ghost use Rattle.semantics.specs.TypedPrograms.{PublishInTurn};
ghost use Rattle.expressions.specs.Views.{ex_of};
ghost use Rattle.splitter.specs.Laws.{IsApart, split_order};
ghost use Rattle.splitter.specs.Splitting.{parts_of, split_lines};
ghost use Rattle.splitter.specs.Chains.{chain_end};
ghost use Rattle.splitter.specs.Growing.{GrowInTurn};
ghost use Rattle.splitter.specs.SourceWidths.{HasWidths};
ghost use Rattle.splitter.specs.Work.{AreChains, kinds_by, work_of};

use crate::kinds::add_kinds;
use crate::namer::Namer;
use crate::splitting::split;
use automaton::{Layout, Lines};
use event_types::{KindLists, List, Memory, StreamId};
use expressions::Expr;
use long_lists::{LongList, LongNumbers};
use std::alloc::Global;

/// The automaton lines of queries, and the layout of their streams.
#[derive(Drop)]
pub struct Chains {
    pub lines: Lines,
    pub layout: Layout,
}

impl Chains {
    /// The lines of queries in the order of work, and the layout of their streams.
    ///
    /// The expressions stand in the order of work, and publish the streams after the declared ones. Each
    /// query has a place in that order, counted from 0; the places come in print order. `kinds` has the
    /// kinds of the declared and the published streams.
    ///
    /// `SELECT * FROM A NEXT (B NEXT C) PUBLISH Q` has two lines, that of a hidden stream and that of `Q`.
    pub fn make(
        alloc: Global,
        declared: usize,
        expressions: &List<Expr>,
        places: &[usize],
        kinds: KindLists,
    ) -> Result<Chains, Memory>
        requires typed { PublishInTurn (kinds_by kinds) (range_with_len 0 declared) (work_of declared expressions.now) }
        requires wide { All (λ query. HasWidths (kinds_by kinds) query.expr) (work_of declared expressions.now) }
        requires given { length kinds ≡ declared + length expressions.now }
        requires placed { All (λ place. place < length expressions.now) places.now }
        requires room { chain_end (work_of declared expressions.now) declared < 2 ^ 64 }
        ensures { IfOk result (AreChains declared expressions.now places.now kinds) }
    {
        let mut namer = Namer::new(kinds.len());
        let mut lines = List::new(alloc);
        let mut layout = Layout {
            order: LongList::new(alloc),
            outs: streams_at(alloc, declared, places)?,
            kinds,
        };
        for place in 0..expressions.len() {
            let stream = declared + place;
            add_query(
                alloc,
                expressions.get(place),
                stream,
                &mut namer,
                &mut lines,
                &mut layout,
            )?;
        }
        Ok(Chains { lines, layout })
    }
}

// The streams of the queries at these places.
fn streams_at(alloc: Global, declared: usize, places: &[usize]) -> Result<LongNumbers, Memory>
    requires { All (λ place. declared + place < 2 ^ 64) places.now }
    ensures { IfOk result (λ streams. streams ≡ map (λ place. declared + place) places.now) }
{
    let mut streams = LongNumbers::new(alloc);
    for place in places {
        streams.add(declared + *place)?;
    }
    Ok(streams)
}

/// Adds the lines of a query that publishes a stream, and what the layout tells of its hidden streams, and both to the order
/// of work. The layout has the kinds of all streams below the first hidden one. Want of memory leaves the layout as it was.
pub fn add_query(
    alloc: Global,
    expr: &Expr,
    stream: StreamId,
    namer: &mut Namer,
    lines: &mut Lines,
    layout: &mut Layout,
) -> Result<(), Memory>
    requires apart { IsApart (ex_of expr.now) stream namer.old }
    requires room { (parts_of (ex_of expr.now) namer.old).next < 2 ^ 64 }
    requires typed { (all : List (List Kind)) × GrowInTurn layout.old.kinds (split_lines (ex_of expr.now) stream namer.old) all }
    ensures lines { OnOk result (lines.new ≡ lines.old ++ split_lines (ex_of expr.now) stream namer.old) }
    ensures order { OnOk result (layout.new.order ≡ layout.old.order ++ split_order (ex_of expr.now) stream namer.old) }
    ensures outs { OnOk result (layout.new.outs ≡ layout.old.outs) }
    ensures kinds { OnOk result (GrowInTurn layout.old.kinds (split_lines (ex_of expr.now) stream namer.old) layout.new.kinds) }
    ensures next { OnOk result (namer.new ≡ (parts_of (ex_of expr.now) namer.old).next) }
    ensures kept { OnErr result (layout.new ≡ layout.old) }
{
    let first = namer.next();
    let streams = layout.kinds.len();
    let worked = layout.order.len();
    let more = split(alloc, expr, stream, namer)?;
    add_kinds(alloc, &more, &mut layout.kinds)?;
    if let Err(_) = add_order(&mut layout.order, first, namer.next(), stream) {
        layout.kinds.truncate(streams);
        return Err(Memory);
    }
    if let Err(_) = lines.append(more) {
        layout.kinds.truncate(streams);
        layout.order.truncate(worked);
        return Err(Memory);
    }
    Ok(())
}

// Adds the hidden streams from one number up to another, and the query's own stream.
fn add_order(
    order: &mut LongNumbers,
    first: StreamId,
    next: StreamId,
    stream: StreamId,
) -> Result<(), Memory>
    requires { first ≤ next }
    ensures ok { OnOk result (order.new ≡ order.old ++ (range_with_len first (next - first) ++ stream ∷ [])) }
    ensures kept { OnErr result (order.new ≡ order.old) }
{
    let worked = order.len();
    for number in first..next {
        if let Err(_) = order.add(number) {
            order.truncate(worked);
            return Err(Memory);
        }
    }
    if let Err(_) = order.add(stream) {
        order.truncate(worked);
        return Err(Memory);
    }
    Ok(())
}
