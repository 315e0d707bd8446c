//! The events that are held.
ghost use Rattle.std.specs.Cmp.{partial_equiv_from_equiv, partial_order_from_total};
ghost use Rattle.std.specs.Cmp.Rules.{comparing};
ghost use Rattle.std.specs.Ordering.{as_partial_cmp, eq_by_cmp};
ghost use Rattle.std.proofs.Common.{rules};
ghost use Rattle.std.proofs.lemmas.Cmp.{eq_by_cmp_equiv};
ghost use Rattle.source_merge.specs.Held.{held_cmp, held_total};

use crate::rank::Rank;
use event_csv::Seen;
use std::cmp::Ordering;

/// An event that is held, and where it stands. The first one is the greatest, so that a heap has it on top.
#[derive(Drop)]
pub(crate) struct Held {
    pub(crate) rank: Rank,
    pub(crate) seen: Seen,
}

impl PartialEq for Held {
    ghost eq = { eq_by_cmp held_cmp };

    ghost laws = { partial_equiv_from_equiv (eq_by_cmp_equiv held_total) };

    fn eq(&self, other: &Held) -> bool {
        other.rank == self.rank
    }
}

impl Eq for Held {
    ghost laws = { eq_by_cmp_equiv held_total };
}

impl PartialOrd for Held {
    ghost partial_cmp = { as_partial_cmp held_cmp };

    ghost laws = { partial_order_from_total held_total };

    fn partial_cmp(&self, other: &Held) -> Option<Ordering> {
        Some(self.cmp(other))
    }
}

impl Ord for Held {
    ghost cmp = { held_cmp };

    ghost total = { held_total };

    ghost matches_partial_cmp = { Prim.search (comparing, rules) };

    ghost matches_eq = { Prim.search (comparing, rules) };

    #[inline(always)]
    fn cmp(&self, other: &Held) -> Ordering {
        other.rank.cmp(&self.rank)
    }
}
