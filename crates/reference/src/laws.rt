//! Laws over queries that are evaluated.
ghost use Rattle.reference.specs.Laws.{TypedQueriesSuit};

/// The epochs of a typed program may be closed, whatever events of their streams' kinds were heard.
pub fn typed_queries_suit()
    ensures { TypedQueriesSuit }
{}
