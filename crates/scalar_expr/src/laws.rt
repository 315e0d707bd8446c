//! Laws over canonical forms, kinds, nexts and runs. The functions do nothing: their contracts say what
//! follows from the definitions.
ghost use Rattle.scalar_expr.specs.CanonicalLaws.{HasOneForm, KeepsTruth, PartsKeepTruth};
ghost use Rattle.scalar_expr.specs.KindLaws.{TypedHasItsKind};
ghost use Rattle.scalar_expr.specs.NextsLaws.{NextsOfABag, NextsStartLater, RunsEnd};

/// A predicate may be tested by its canonical form, so `normal` keeps the truth.
pub fn canonical_form_keeps_truth()
    ensures { KeepsTruth }
{}

/// A conjunction of the parts of two is true where both are.
pub fn parts_keep_truth()
    ensures { PartsKeepTruth }
{}

/// Predicates with the same parts have one canonical form, so states may be shared by it.
pub fn same_parts_have_one_form()
    ensures { HasOneForm }
{}

/// A tuple that starts at or before the binding's detection is never among its nexts.
pub fn nexts_start_later()
    ensures { NextsStartLater }
{}

/// The nexts of a binding may be sought in any order.
pub fn nexts_of_a_bag()
    ensures { NextsOfABag }
{}

/// The runs from a binding end of themselves, since each event of a run starts after the one before.
pub fn runs_end()
    ensures { RunsEnd }
{}

/// The kind that `kind_of` tells of a typed scalar is the only one that it has.
pub fn typed_has_its_kind()
    ensures { TypedHasItsKind }
{}
