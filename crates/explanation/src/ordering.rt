//! The order of results.
ghost use Rattle.std.specs.Prelude.{◌≡◌};
ghost use Rattle.std.specs.Cmp.{partial_order_from_total, partial_equiv_from_equiv};
ghost use Rattle.std.specs.Ordering.{as_partial_cmp, eq_by_cmp};
ghost use Rattle.std.specs.Cmp.Rules.{comparing};
ghost use Rattle.std.proofs.Common.{rules};
ghost use Rattle.std.proofs.lemmas.Cmp.{eq_by_cmp_equiv};
ghost use Rattle.event_types.specs.Order.{sort_by};
ghost use Rattle.explanation.specs.Explained.{explained_cmp};
ghost use Rattle.explanation.specs.ExplainedLaws.{explained_total};

use crate::results::{Explained, Results};
use std::cmp::Ordering;

impl PartialEq for Explained {
    ghost eq = { eq_by_cmp explained_cmp };

    ghost laws = { partial_equiv_from_equiv (eq_by_cmp_equiv explained_total) };

    fn eq(&self, other: &Explained) -> bool {
        self.cmp(other).is_eq()
    }
}

impl Eq for Explained {
    ghost laws = { eq_by_cmp_equiv explained_total };
}

impl PartialOrd for Explained {
    ghost partial_cmp = { as_partial_cmp explained_cmp };

    ghost laws = { partial_order_from_total explained_total };

    fn partial_cmp(&self, other: &Explained) -> Option<Ordering> {
        Some(self.cmp(other))
    }
}

impl Ord for Explained {
    ghost cmp = { explained_cmp };

    ghost total = { explained_total };

    ghost matches_partial_cmp = { Prim.search (comparing, rules) };

    ghost matches_eq = { Prim.search (comparing, rules) };

    fn cmp(&self, other: &Explained) -> Ordering {
        self.derived
            .tuple
            .at()
            .cmp(&other.derived.tuple.at())
            .then(self.query.cmp(&other.query))
            .then(self.derived.cmp(&other.derived))
    }
}

/// Puts results in order. Takes no memory.
pub(crate) fn put_results_in_order(results: &mut Results)
    ensures { results.new ≡ sort_by explained_cmp results.old }
{
    if 1 < results.len() {
        results.sort();
    }
}
