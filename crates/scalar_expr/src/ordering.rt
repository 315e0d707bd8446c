//! The canonical order of scalars and predicates.
ghost use Rattle.std.specs.Prelude.{◌≡◌};
ghost use Rattle.std.specs.Cmp.{partial_order_from_total, partial_equiv_from_equiv};
ghost use Rattle.std.specs.Ordering.{as_partial_cmp, eq_by_cmp};
ghost use Rattle.std.specs.Cmp.Rules.{comparing};
ghost use Rattle.std.proofs.Common.{rules};
ghost use Rattle.std.proofs.lemmas.Cmp.{eq_by_cmp_equiv};
ghost use Rattle.scalar_expr.specs.TermOrder.{sc_place, pr_place, sc_cmp, pr_cmp, pred_cmp, scalar_cmp};
ghost use Rattle.scalar_expr.specs.TermOrderLaws.{pred_total, scalar_total};
ghost use Rattle.scalar_expr.specs.Views.{sc_of, pr_of};

use crate::predicate::Pred;
use crate::scalar::Scalar;
use std::cmp::Ordering;

// The order of scalars: by variant, then by their parts from left to right.
pub(crate) fn compare_scalars(x: &Scalar, y: &Scalar) -> Ordering
    ensures { result ≡ sc_cmp (sc_of x.now) (sc_of y.now) }
{
    match (x, y) {
        (Scalar::Lit(v), Scalar::Lit(w)) => v.order(w),
        (Scalar::Event(i), Scalar::Event(j)) => i.cmp(j),
        (Scalar::Binding(i), Scalar::Binding(j)) => i.cmp(j),
        (Scalar::Add(a, b), Scalar::Add(c, d)) => compare_scalars(a, c).then(compare_scalars(b, d)),
        (Scalar::Sub(a, b), Scalar::Sub(c, d)) => compare_scalars(a, c).then(compare_scalars(b, d)),
        (Scalar::Mul(a, b), Scalar::Mul(c, d)) => compare_scalars(a, c).then(compare_scalars(b, d)),
        (Scalar::Min(a, b), Scalar::Min(c, d)) => compare_scalars(a, c).then(compare_scalars(b, d)),
        (Scalar::Max(a, b), Scalar::Max(c, d)) => compare_scalars(a, c).then(compare_scalars(b, d)),
        _ => scalar_place(x).cmp(&scalar_place(y)),
    }
}

// The place of a scalar's variant.
pub(crate) fn scalar_place(x: &Scalar) -> u8
    ensures { result ≡ sc_place (sc_of x.now) }
{
    match x {
        Scalar::Lit(_) => 0,
        Scalar::Event(_) => 1,
        Scalar::Binding(_) => 2,
        Scalar::Dur => 3,
        Scalar::Add(_, _) => 4,
        Scalar::Sub(_, _) => 5,
        Scalar::Mul(_, _) => 6,
        Scalar::Min(_, _) => 7,
        Scalar::Max(_, _) => 8,
    }
}

// The order of predicates: by variant, then by their parts from left to right.
fn compare_preds(p: &Pred, q: &Pred) -> Ordering
    ensures { result ≡ pr_cmp (pr_of p.now) (pr_of q.now) }
{
    match (p, q) {
        (Pred::Test(x, cmp, y), Pred::Test(v, other, w)) => compare_scalars(x, v)
            .then(cmp.cmp(other))
            .then(compare_scalars(y, w)),
        (Pred::And(p, q), Pred::And(r, s)) => compare_preds(p, r).then(compare_preds(q, s)),
        (Pred::Or(p, q), Pred::Or(r, s)) => compare_preds(p, r).then(compare_preds(q, s)),
        (Pred::Not(p), Pred::Not(q)) => compare_preds(p, q),
        _ => pred_place(p).cmp(&pred_place(q)),
    }
}

// The place of a predicate's variant.
pub(crate) fn pred_place(p: &Pred) -> u8
    ensures { result ≡ pr_place (pr_of p.now) }
{
    match p {
        Pred::True => 0,
        Pred::Test(_, _, _) => 1,
        Pred::And(_, _) => 2,
        Pred::Or(_, _) => 3,
        Pred::Not(_) => 4,
    }
}

impl PartialEq for Scalar {
    ghost eq = { eq_by_cmp scalar_cmp };

    ghost laws = { partial_equiv_from_equiv (eq_by_cmp_equiv scalar_total) };

    fn eq(&self, other: &Scalar) -> bool {
        compare_scalars(self, other).is_eq()
    }
}

impl PartialEq for Pred {
    ghost eq = { eq_by_cmp pred_cmp };

    ghost laws = { partial_equiv_from_equiv (eq_by_cmp_equiv pred_total) };

    fn eq(&self, other: &Pred) -> bool {
        self.cmp(other).is_eq()
    }
}

impl Eq for Pred {
    ghost laws = { eq_by_cmp_equiv pred_total };
}

impl PartialOrd for Pred {
    ghost partial_cmp = { as_partial_cmp pred_cmp };

    ghost laws = { partial_order_from_total pred_total };

    fn partial_cmp(&self, other: &Pred) -> Option<Ordering> {
        Some(self.cmp(other))
    }
}

impl Ord for Pred {
    ghost cmp = { pred_cmp };

    ghost total = { pred_total };

    ghost matches_partial_cmp = { Prim.search (comparing, rules) };

    ghost matches_eq = { Prim.search (comparing, rules) };

    fn cmp(&self, other: &Pred) -> Ordering {
        compare_preds(self, other)
    }
}
