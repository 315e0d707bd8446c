//! The rules in whose places trees stand.
ghost use Rattle.std.specs.Prelude.{◌≡◌};
ghost use Rattle.cel_print.specs.ScalarWords as scalar;
ghost use Rattle.cel_print.specs.PredicateWords as pred;
ghost use Rattle.cel_print.specs.SourceWords as source;

/// The rule in whose place a scalar stands.
#[derive(Clone, Copy)]
pub enum ScalarPlace {
    Scalar,
    Product,
    Factor,
}

/// The rule in whose place a predicate stands.
#[derive(Clone, Copy)]
pub enum PredPlace {
    Pred,
    Conj,
    Neg,
}

/// The rule in whose place a source stands.
#[derive(Clone, Copy)]
pub enum SourcePlace {
    Source,
    Term,
}

/// Whether a sum or a difference may stand there as it is.
pub(crate) fn takes_sum(place: ScalarPlace) -> bool
    ensures { result ≡ scalar.takes_sum place }
{
    matches!(place, ScalarPlace::Scalar)
}

/// Whether a product may stand there as it is.
pub(crate) fn takes_product(place: ScalarPlace) -> bool
    ensures { result ≡ scalar.takes_product place }
{
    !matches!(place, ScalarPlace::Factor)
}

/// Whether an OR may stand there as it is.
pub(crate) fn takes_or(place: PredPlace) -> bool
    ensures { result ≡ pred.takes_or place }
{
    matches!(place, PredPlace::Pred)
}

/// Whether an AND may stand there as it is.
pub(crate) fn takes_and(place: PredPlace) -> bool
    ensures { result ≡ pred.takes_and place }
{
    !matches!(place, PredPlace::Neg)
}

/// Whether a UNION, a NEXT or a FOLD may stand there as it is.
pub(crate) fn takes_link(place: SourcePlace) -> bool
    ensures { result ≡ source.takes_link place }
{
    matches!(place, SourcePlace::Source)
}
