//! The order of derivations, and of tuples with derivations.
ghost use Rattle.std.specs.Prelude.{◌≡◌};
ghost use Rattle.std.specs.Cmp.{partial_order_from_total, partial_equiv_from_equiv};
ghost use Rattle.std.specs.Ordering.{as_partial_cmp, eq_by_cmp};
ghost use Rattle.std.specs.Cmp.Rules.{comparing};
ghost use Rattle.std.proofs.Common.{rules, map};
ghost use Rattle.std.proofs.lemmas.Cmp.{eq_by_cmp_equiv};
ghost use Rattle.derivations.specs.Derivation.{listed};
ghost use Rattle.derivations.specs.DerivationOrder.{all_cmp, by_cmp, by_place, deriv_cmp, derived_cmp, sorted_derived};
ghost use Rattle.derivations.specs.DerivationOrderLaws.{deriv_total, derived_total};
ghost use Rattle.derivations.specs.Views.{derivation_of};

use crate::deriv::{Deriv, Derived, Deriveds};
use std::cmp::Ordering;

// The order of derivations: by variant, then by their parts from left to right.
#[cycle(comparing)]
fn compare(x: &Deriv, y: &Deriv) -> Ordering
    ensures { result ≡ by_cmp (derivation_of x.now) (derivation_of y.now) }
{
    match (x, y) {
        (Deriv::Event(i), Deriv::Event(j)) => i.cmp(j),
        (Deriv::Query(a), Deriv::Query(b)) => compare(a, b),
        (Deriv::Left(a), Deriv::Left(b)) => compare(a, b),
        (Deriv::Right(a), Deriv::Right(b)) => compare(a, b),
        (Deriv::Next(a, c), Deriv::Next(b, d)) => compare(a, b).then(compare(c, d)),
        (Deriv::Fold(a, c), Deriv::Fold(b, d)) => {
            compare(a, b).then(compare_all(c.as_slice(), d.as_slice()))
        }
        _ => place(x).cmp(&place(y)),
    }
}

// The order of lists of derivations.
#[cycle(comparing)]
fn compare_all(xs: &[Deriv], ys: &[Deriv]) -> Ordering
    ensures { result ≡ all_cmp (listed (map derivation_of xs.now)) (listed (map derivation_of ys.now)) }
{
    for place in 0..xs.len() {
        if place == ys.len() {
            return Ordering::Greater;
        }
        let order = compare(&xs[place], &ys[place]);
        if order.is_ne() {
            return order;
        }
    }
    if xs.len() < ys.len() {
        Ordering::Less
    } else {
        Ordering::Equal
    }
}

// The place of a derivation's variant.
fn place(x: &Deriv) -> u8
    ensures { result ≡ by_place (derivation_of x.now) }
{
    match x {
        Deriv::Event(_) => 0,
        Deriv::Query(_) => 1,
        Deriv::Left(_) => 2,
        Deriv::Right(_) => 3,
        Deriv::Next(_, _) => 4,
        Deriv::Fold(_, _) => 5,
    }
}

impl PartialEq for Deriv {
    ghost eq = { eq_by_cmp deriv_cmp };

    ghost laws = { partial_equiv_from_equiv (eq_by_cmp_equiv deriv_total) };

    fn eq(&self, other: &Deriv) -> bool {
        compare(self, other).is_eq()
    }
}

impl Eq for Deriv {
    ghost laws = { eq_by_cmp_equiv deriv_total };
}

impl PartialOrd for Deriv {
    ghost partial_cmp = { as_partial_cmp deriv_cmp };

    ghost laws = { partial_order_from_total deriv_total };

    fn partial_cmp(&self, other: &Deriv) -> Option<Ordering> {
        Some(self.cmp(other))
    }
}

impl Ord for Deriv {
    ghost cmp = { deriv_cmp };

    ghost total = { deriv_total };

    ghost matches_partial_cmp = { Prim.search (comparing, rules) };

    ghost matches_eq = { Prim.search (comparing, rules) };

    fn cmp(&self, other: &Deriv) -> Ordering {
        compare(self, other)
    }
}

impl PartialEq for Derived {
    ghost eq = { eq_by_cmp derived_cmp };

    ghost laws = { partial_equiv_from_equiv (eq_by_cmp_equiv derived_total) };

    fn eq(&self, other: &Derived) -> bool {
        self.cmp(other).is_eq()
    }
}

impl Eq for Derived {
    ghost laws = { eq_by_cmp_equiv derived_total };
}

impl PartialOrd for Derived {
    ghost partial_cmp = { as_partial_cmp derived_cmp };

    ghost laws = { partial_order_from_total derived_total };

    fn partial_cmp(&self, other: &Derived) -> Option<Ordering> {
        Some(self.cmp(other))
    }
}

impl Ord for Derived {
    ghost cmp = { derived_cmp };

    ghost total = { derived_total };

    ghost matches_partial_cmp = { Prim.search (comparing, rules) };

    ghost matches_eq = { Prim.search (comparing, rules) };

    fn cmp(&self, other: &Derived) -> Ordering {
        self.tuple
            .cmp(&other.tuple)
            .then(self.deriv.cmp(&other.deriv))
    }
}

/// Puts tuples in their order, and those that are equal in that of their derivations. Takes no memory.
pub fn put_derived_in_order(found: &mut Deriveds)
    ensures { found.new ≡ sorted_derived found.old }
{
    if 1 < found.len() {
        found.sort();
    }
}
