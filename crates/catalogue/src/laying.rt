//! What a catalogue has of an accepted file.
ghost use Rattle.std.specs.Prelude.{◌≡◌, ◌<◌, ◌≤◌, ◌+◌, ◌^◌, IfOk, length, sum_by};
ghost use Rattle.stream_schema.specs.Streams.{AreThere};
ghost use Rattle.catalogue.specs.Laid.{AreLaid, IsHeldOf};
ghost use Rattle.catalogue.specs.Parts.{IsAccepted, parts_of};

use crate::growing::size_of;
use crate::held_lines::HeldLines;
use crate::held_queries::HeldQueries;
use crate::numbering::{Published, hide_up_to, number_all};
use crate::placing::chains_of;
use crate::sharing::{Shares, share_all};
use crate::tallying::tally_all;
use cel_parser::File;
use event_types::{List, Memory, Numbers};
use expressions::Expr;
use splitter::Chains;
use std::alloc::Global;
use stream_schema::Streams;
use work_order::{WorkOrder, places_in};

/// The streams of a file, the numbers of its queries in the order of work, and their expressions in this order.
#[derive(Drop)]
pub struct Typed {
    pub streams: Streams,
    pub order: Numbers,
    pub expressions: List<Expr>,
}

/// Of queries their order of work, and in it what they publish, their lines with the layout of these, how many are those of
/// each, and the tallies of what they read; and how many streams are declared.
#[derive(Drop)]
pub struct Laid {
    pub declared: usize,
    pub order: WorkOrder,
    pub chains: Chains,
    pub published: List<Published>,
    pub shares: Shares,
    pub reads: Numbers,
}

/// What a catalogue has beside its file.
#[derive(Drop)]
pub struct Held {
    pub declared: usize,
    pub streams: Streams,
    pub work: HeldQueries,
    pub chains: HeldLines,
    pub next_end: usize,
    pub size: usize,
    pub reads: Numbers,
}

/// What is laid out of the queries of an accepted file. Want of memory drops it.
pub fn lay_out(alloc: Global, file: &File, typed: &Typed) -> Result<Laid, Memory>
    requires accepted { IsAccepted (parts_of file.now typed.now.streams typed.now.order typed.now.expressions) }
    requires typed { length typed.now.expressions ≡ length typed.now.order }
    requires there { AreThere typed.now.streams }
    ensures { IfOk result (AreLaid (parts_of file.now typed.now.streams typed.now.order typed.now.expressions)) }
{
    let declared = file.size() - typed.order.len();
    let order = WorkOrder::of(alloc, &typed.order)?;
    let places = places_in(alloc, &typed.order)?;
    let published = number_all(alloc, declared, &typed.expressions)?;
    let reads = tally_all(alloc, &typed.expressions)?;
    let chains = chains_of(
        alloc,
        file,
        &typed.streams,
        &typed.order,
        &typed.expressions,
        places.as_slice(),
    )?;
    let shares = share_all(alloc, &published, &typed.expressions)?;
    Ok(Laid {
        declared,
        order,
        chains,
        published,
        shares,
        reads,
    })
}

/// What a catalogue has of so many statements, with hidden streams behind theirs. Want of memory drops it.
pub fn hold(alloc: Global, many: usize, typed: Typed, laid: Laid) -> Result<Held, Memory>
    requires there { length typed.streams ≡ many }
    requires up { many ≤ length laid.chains.layout.kinds }
    requires few { sum_by (λ line. 1 + length line.hops) laid.chains.lines < 2 ^ 64 }
    ensures { IfOk result (IsHeldOf many typed laid) }
{
    let next_end = laid.chains.lines.len();
    let size = size_of(laid.chains.lines.as_slice());
    let kinds = laid.chains.layout.kinds.len();
    let chains = HeldLines::of(alloc, laid.chains, laid.shares)?;
    let work = HeldQueries::of(alloc, laid.order, laid.published, typed.expressions)?;
    let mut streams = typed.streams;
    hide_up_to(&mut streams, many, kinds)?;
    Ok(Held {
        declared: laid.declared,
        streams,
        work,
        chains,
        next_end,
        size,
        reads: laid.reads,
    })
}
