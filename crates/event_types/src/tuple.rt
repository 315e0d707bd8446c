//! Tuples: values with a start and a detection time.
ghost use Rattle.std.specs.Prelude.{◌≡◌, ◌<◌, ◌≤◌, ◌↔◌, IsErr, IsOk, IfOk, IfErr, IfSome};
ghost use Rattle.std.specs.Cmp.{partial_order_from_total, partial_equiv_from_equiv};
ghost use Rattle.std.specs.Ordering.{as_partial_cmp, eq_by_cmp};
ghost use Rattle.std.specs.Cmp.Rules.{comparing};
ghost use Rattle.std.proofs.Common.{rules};
ghost use Rattle.std.proofs.lemmas.Cmp.{eq_by_cmp_equiv};
ghost use Rattle.event_types.specs.Order.{tuple_cmp, sorted};
ghost use Rattle.event_types.specs.OrderLaws.{tuple_total};

use crate::list::{Copied, List};
use crate::memory::Memory;
use crate::value::Vals;
use std::alloc::Global;
use std::cmp::Ordering;
use std::marker::Model;
use std::rc::Rc;

/// A tuple: values with a start and a detection time. Times are whole numbers of the event file.
///
/// Tuples are ordered by start, then by their values from left to right, a shorter list first, then by
/// detection.
#[derive(Drop)]
pub struct Tuple {
    kept: Kept,
    from: u64,
    at: u64,
}

// How a tuple keeps its values: as its own, or shared with its copies.
#[derive(Drop)]
enum Kept {
    Own(Vals),
    Shared(Rc<Vals>),
}

impl Model for Tuple {
    ghost use Rattle.std.specs.Prelude.{◌≤◌};
    ghost use Rattle.event_types.specs.Tuple.{TupleView};
    ghost use Rattle.event_types.specs.Kept.{kept_vals};

    ghost Value = { TupleView };

    ghost view = { λ t. record { vals = kept_vals t.kept; from = t.from; at = t.at } };

    ghost invariant = { λ t. t.from ≤ t.at };
}

/// A list of tuples.
pub type Tuples = List<Tuple>;

/// The number of a stream, counted from 0.
pub type StreamId = usize;

/// The values of a tuple that would start after its detection.
#[derive(Drop)]
pub struct BadSpan {
    pub vals: Vals,
}

impl Tuple {
    /// The tuple of these values, unless its start would be after its detection. Takes no memory.
    pub fn make(vals: Vals, from: u64, at: u64) -> Result<Tuple, BadSpan>
        ensures value { IfOk result (λ tuple. tuple ≡ record { vals = vals; from = from; at = at }) }
        ensures bad_span { IsErr result ↔ (at < from) }
        ensures in_order { IsOk result ↔ (from ≤ at) }
        ensures handed_back { IfErr result (λ fault. fault.vals ≡ vals) }
    {
        if at < from {
            return Err(BadSpan { vals });
        }
        Ok(Tuple {
            kept: Kept::Own(vals),
            from,
            at,
        })
    }

    /// The values, in the order of the schema's attributes.
    pub fn vals(&self) -> &Vals
        ensures { result.now ≡ self.now.vals }
    {
        match &self.kept {
            Kept::Own(vals) => vals,
            Kept::Shared(vals) => vals.as_ref(),
        }
    }

    /// The values, taken out of the tuple, unless others share them. Takes no memory.
    pub fn into_vals(self) -> Option<Vals>
        ensures { IfSome result (λ vals. vals ≡ self.vals) }
    {
        match self.kept {
            Kept::Own(vals) => Some(vals),
            Kept::Shared(vals) => Rc::into_inner(vals),
        }
    }

    /// The start.
    pub fn from(&self) -> u64
        ensures value { result ≡ self.now.from }
        ensures in_order { self.now.from ≤ self.now.at }
    {
        self.from
    }

    /// The detection time.
    pub fn at(&self) -> u64
        ensures value { result ≡ self.now.at }
        ensures in_order { self.now.from ≤ self.now.at }
    {
        self.at
    }

    /// An equal tuple.
    pub fn copy(&self, alloc: Global) -> Result<Tuple, Memory>
        ensures { IfOk result (λ copy. copy ≡ self.now) }
    {
        let kept = match &self.kept {
            Kept::Own(vals) => Kept::Own(vals.copied(alloc)?),
            Kept::Shared(vals) => Kept::Shared(vals.clone()?),
        };
        Ok(Tuple {
            kept,
            from: self.from,
            at: self.at,
        })
    }

    /// An equal tuple, whose copies share its values and take no memory.
    pub fn shared(&self, alloc: Global) -> Result<Tuple, Memory>
        ensures { IfOk result (λ copy. copy ≡ self.now) }
    {
        let vals = match &self.kept {
            Kept::Own(vals) => Rc::new(alloc, vals.copied(alloc)?)?,
            Kept::Shared(vals) => vals.clone()?,
        };
        Ok(Tuple {
            kept: Kept::Shared(vals),
            from: self.from,
            at: self.at,
        })
    }
}

impl Copied for Tuple {
    fn copied(&self, alloc: Global) -> Result<Self, Memory> {
        self.copy(alloc)
    }
}

impl PartialEq for Tuple {
    ghost eq = { eq_by_cmp tuple_cmp };

    ghost laws = { partial_equiv_from_equiv (eq_by_cmp_equiv tuple_total) };

    fn eq(&self, other: &Tuple) -> bool {
        self.from == other.from && self.at == other.at && self.vals() == other.vals()
    }
}

impl Eq for Tuple {
    ghost laws = { eq_by_cmp_equiv tuple_total };
}

impl PartialOrd for Tuple {
    ghost partial_cmp = { as_partial_cmp tuple_cmp };

    ghost laws = { partial_order_from_total tuple_total };

    fn partial_cmp(&self, other: &Tuple) -> Option<Ordering> {
        Some(self.cmp(other))
    }
}

impl Ord for Tuple {
    ghost cmp = { tuple_cmp };

    ghost total = { tuple_total };

    ghost matches_partial_cmp = { Prim.search (comparing, rules) };

    ghost matches_eq = { Prim.search (comparing, rules) };

    fn cmp(&self, other: &Tuple) -> Ordering {
        let starts = self.from.cmp(&other.from);
        if starts.is_ne() {
            return starts;
        }
        self.vals().cmp(other.vals()).then(self.at.cmp(&other.at))
    }
}

/// Puts tuples in their order. Takes no memory.
#[inline]
pub fn put_in_order(tuples: &mut Tuples)
    ensures { tuples.new ≡ sorted tuples.old }
{
    if 1 < tuples.len() {
        tuples.sort();
    }
}
