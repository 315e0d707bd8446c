//! Laws over types. The functions do nothing: their contracts say what follows from the definitions.
ghost use Rattle.cel_types.specs.Laws.{MeaningOrFault, OneDeclarationFault, OneMeaning, OnePredicateFault, OneScalarFault, OneSchema, OneTerm, SchemaOrFault, TermOrFault};
ghost use Rattle.cel_types.specs.Typed.{ConditionsAreTyped, MeaningsAreTyped, TermsAreOfKind};

/// What a scalar means, or why it means nothing, is settled by its scope.
pub fn scalar_has_one_type()
    ensures term { OneTerm }
    ensures fault { OneScalarFault }
    ensures not_both { TermOrFault }
{}

/// What a predicate means, or why it means nothing, is settled by its scope.
pub fn predicate_has_one_type()
    ensures term { OneMeaning }
    ensures fault { OnePredicateFault }
    ensures not_both { MeaningOrFault }
{}

/// What `declare` answers, want of memory aside, is settled by the statement.
pub fn declaration_has_one_schema()
    ensures schema { OneSchema }
    ensures fault { OneDeclarationFault }
    ensures not_both { SchemaOrFault }
{}

/// The terms of scalars and conditions are typed over the kinds of the schemas that they are over, so
/// they may be evaluated.
pub fn terms_are_typed()
    ensures scalars { TermsAreOfKind }
    ensures predicates { MeaningsAreTyped }
    ensures conditions { ConditionsAreTyped }
{}
