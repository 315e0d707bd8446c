//! Laws of the order: queries have one order or one cycle, and keep their order where one comes or leaves.
ghost use Rattle.resubscribe.specs.Laws.{AddedComesLast, LeavingKeepsOrder, NotBoth, OneCycle, OneOrder, SomeOutcome};

/// Queries have at most one order and at most one cycle, and never both. This does nothing.
pub fn one_outcome()
    ensures order { OneOrder }
    ensures cycle { OneCycle }
    ensures not_both { NotBoth }
{}

/// Queries that read queries have an order or a cycle. This does nothing.
pub fn some_outcome()
    ensures { SomeOutcome }
{}

/// A query that is added comes last, and one that none reads leaves the others in their order. This does nothing.
pub fn others_keep_their_order()
    ensures added { AddedComesLast }
    ensures left { LeavingKeepsOrder }
{}
