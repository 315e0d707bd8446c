//! The orders in which open events and what waits stand in an image.
ghost use Rattle.std.specs.Prelude.{◌≡◌};
ghost use Rattle.std.specs.Cmp.{partial_order_from_total, partial_equiv_from_equiv};
ghost use Rattle.std.specs.Cmp.Rules.{comparing};
ghost use Rattle.std.specs.Ordering.{as_partial_cmp, eq_by_cmp};
ghost use Rattle.std.proofs.Common.{rules};
ghost use Rattle.std.proofs.lemmas.Cmp.{eq_by_cmp_equiv};
ghost use Rattle.snap_codec.specs.Order.{item_cmp, item_total, open_cmp, open_total};

use crate::image::{Item, Open};
use std::cmp::Ordering;

impl Open {
    /// The order of two open events: by the place of the stream, and then by the tuple.
    pub fn order(&self, other: &Open) -> Ordering
        ensures { result ≡ open_cmp self.now other.now }
    {
        self.place
            .cmp(&other.place)
            .then(self.tuple.cmp(&other.tuple))
    }
}

impl PartialEq for Open {
    ghost eq = { eq_by_cmp open_cmp };

    ghost laws = { partial_equiv_from_equiv (eq_by_cmp_equiv open_total) };

    fn eq(&self, other: &Open) -> bool {
        self.order(other).is_eq()
    }
}

impl Eq for Open {
    ghost laws = { eq_by_cmp_equiv open_total };
}

impl PartialOrd for Open {
    ghost partial_cmp = { as_partial_cmp open_cmp };

    ghost laws = { partial_order_from_total open_total };

    fn partial_cmp(&self, other: &Open) -> Option<Ordering> {
        Some(self.order(other))
    }
}

impl Ord for Open {
    ghost cmp = { open_cmp };

    ghost total = { open_total };

    ghost matches_partial_cmp = { Prim.search (comparing, rules) };

    ghost matches_eq = { Prim.search (comparing, rules) };

    fn cmp(&self, other: &Open) -> Ordering {
        self.order(other)
    }
}

impl Item {
    /// The order of two that wait: by the tuple, and then by the time with which they began.
    pub fn order(&self, other: &Item) -> Ordering
        ensures { result ≡ item_cmp self.now other.now }
    {
        self.tuple
            .cmp(&other.tuple)
            .then(self.first.cmp(&other.first))
    }
}

impl PartialEq for Item {
    ghost eq = { eq_by_cmp item_cmp };

    ghost laws = { partial_equiv_from_equiv (eq_by_cmp_equiv item_total) };

    fn eq(&self, other: &Item) -> bool {
        self.order(other).is_eq()
    }
}

impl Eq for Item {
    ghost laws = { eq_by_cmp_equiv item_total };
}

impl PartialOrd for Item {
    ghost partial_cmp = { as_partial_cmp item_cmp };

    ghost laws = { partial_order_from_total item_total };

    fn partial_cmp(&self, other: &Item) -> Option<Ordering> {
        Some(self.order(other))
    }
}

impl Ord for Item {
    ghost cmp = { item_cmp };

    ghost total = { item_total };

    ghost matches_partial_cmp = { Prim.search (comparing, rules) };

    ghost matches_eq = { Prim.search (comparing, rules) };

    fn cmp(&self, other: &Item) -> Ordering {
        self.order(other)
    }
}
