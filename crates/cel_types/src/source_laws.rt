//! Laws over queries. The functions do nothing: their contracts say what follows from the definitions.
ghost use Rattle.cel_types.specs.SourceLaws.{ExpressionOrFault, OneExpression, OneQueryFault, QueriesAreTyped};

/// What `elaborate` answers, want of memory aside, is settled by the statement and the table of streams.
pub fn query_has_one_type()
    ensures expression { OneExpression }
    ensures fault { OneQueryFault }
    ensures not_both { ExpressionOrFault }
{}

/// What `elaborate` gives may be evaluated over streams of the kinds of their schemas.
pub fn queries_are_typed()
    ensures { QueriesAreTyped }
{}
