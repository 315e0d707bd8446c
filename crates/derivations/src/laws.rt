//! Laws of derivations. The functions do nothing: their contracts say what follows from the definitions.
ghost use Rattle.derivations.specs.Laws.{DerivationsDiffer, DerivedTuplesAreDenoted, DerivingIsListed, ListedDerives};

/// The tuples with their derivations are those of the program's streams, in their order, so each has as many
/// derivations as copies.
pub fn derived_tuples_are_denoted()
    ensures { DerivedTuplesAreDenoted }
{}

/// No derivation is listed twice.
pub fn derivations_differ()
    ensures { DerivationsDiffer }
{}

/// A derivation is listed for a tuple exactly where it derives it.
pub fn listed_derivations_are_those_that_derive()
    ensures derives { ListedDerives }
    ensures listed { DerivingIsListed }
{}
