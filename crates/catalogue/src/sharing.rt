//! How many of all lines and of all streams are those of each query.
ghost use Rattle.std.specs.Prelude.{◌≡◌, ◌<◌, ◌+◌, ◌^◌, ◌++◌, ◌∷◌, [], IfOk, OnErr, OnOk, length, sum_by, take};
ghost use Rattle.std.specs.List.{All};
ghost use Rattle.expressions.specs.Views.{ex_of};
ghost use Rattle.catalogue.specs.Catalogued.{queries_of, query_of};
ghost use Rattle.catalogue.specs.Counting.{lines_all, lines_in};
ghost use Rattle.catalogue.specs.Numbering.{HasNumbers};
ghost use Rattle.catalogue.specs.Sharing.{first_shares, share_of, shares_of, with_share, without_share};

use crate::counting::count;
use crate::numbering::{Published, behind_hidden};
use event_types::{List, Memory};
use expressions::Expr;
use long_lists::LongSums;
use std::alloc::Global;

/// How many lines a query has, and how many streams these publish: its own, and hidden ones.
#[derive(Clone, Copy, Drop)]
pub struct Share {
    pub lines: usize,
    pub streams: usize,
}

/// The shares of queries in the order of work. What the queries before one have together is found in logarithmic time.
#[derive(Drop)]
pub struct Shares {
    pub lines: LongSums,
    pub streams: LongSums,
}

/// The lines of one query, or its streams in the order of work: from a place among all up to another.
#[derive(Clone, Copy, Drop)]
pub struct Span {
    pub first: usize,
    pub end: usize,
}

impl Shares {
    /// Puts the share of a query last. Want of memory, or of a number of 64 bits for all together, changes nothing.
    pub fn add(&mut self, share: Share) -> Result<(), Memory>
        ensures ok { OnOk result (self.new ≡ with_share self.old share) }
        ensures kept { OnErr result (self.new ≡ self.old) }
    {
        let queries = self.lines.len();
        add_number(&mut self.lines, share.lines)?;
        if let Err(_) = add_number(&mut self.streams, share.streams) {
            self.lines.truncate(queries);
            return Err(Memory);
        }
        Ok(())
    }

    /// Takes the share at a place out. Takes no memory.
    pub fn remove(&mut self, place: usize)
        requires lines { place < length self.old.lines }
        requires streams { place < length self.old.streams }
        ensures { self.new ≡ without_share self.old place }
    {
        self.lines.remove(place);
        self.streams.remove(place);
    }

    /// Drops the shares behind the first so many. Takes no memory.
    pub fn truncate(&mut self, queries: usize)
        ensures { self.new ≡ first_shares self.old queries }
    {
        self.lines.truncate(queries);
        self.streams.truncate(queries);
    }
}

/// Of numbers that say how much each has, what that at a place has.
pub fn span_at(numbers: &LongSums, place: usize) -> Span
    requires { place < length numbers.now }
    ensures first { result.first ≡ sum_by (λ number. number) (take place numbers.now) }
    ensures end { result.end ≡ sum_by (λ number. number) (take (place + 1) numbers.now) }
{
    let first = numbers.before(place);
    Span {
        first,
        end: first + numbers.get(place),
    }
}

// Puts a number last.
fn add_number(numbers: &mut LongSums, number: usize) -> Result<(), Memory>
    ensures ok { OnOk result (numbers.new ≡ numbers.old ++ number ∷ []) }
    ensures kept { OnErr result (numbers.new ≡ numbers.old) }
{
    let together = numbers.before(numbers.len());
    if number > usize::MAX - together {
        return Err(Memory);
    }
    numbers.add(number)
}

/// The shares of queries in the order of work.
pub fn share_all(
    alloc: Global,
    published: &List<Published>,
    expressions: &List<Expr>,
) -> Result<Shares, Memory>
    requires typed { length published.now ≡ length expressions.now }
    requires ahead { All (λ query. query.stream < query.hidden) published.now }
    requires numbers { All (λ query. HasNumbers query.expr query.hidden) (queries_of [] published.now expressions.now) }
    requires few { lines_all expressions.now < 2 ^ 64 }
    ensures { IfOk result (λ shares. shares ≡ shares_of (queries_of [] published.now expressions.now)) }
{
    let mut shares = Shares {
        lines: LongSums::new(alloc),
        streams: LongSums::new(alloc),
    };
    for place in 0..published.len() {
        let share = share_one(published.get(place), expressions.get(place));
        shares.add(share)?;
    }
    Ok(shares)
}

// The share of one query.
fn share_one(published: &Published, expr: &Expr) -> Share
    requires ahead { published.now.stream < published.now.hidden }
    requires numbers { HasNumbers (ex_of expr.now) published.now.hidden }
    requires few { lines_in (ex_of expr.now) < 2 ^ 64 }
    ensures { result ≡ share_of (query_of [] published.now expr.now) }
{
    let end = behind_hidden(expr, published.hidden);
    Share {
        lines: count(expr),
        streams: end - published.hidden + 1,
    }
}
