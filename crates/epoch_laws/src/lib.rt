//! Laws of an epoch: what comes of the tuples of one detection time, and what waits after it.
//!
//! The definitions stand in `specs/`. The functions are laws: they do nothing, and their contracts say
//! what follows from the definitions. An engine that closes an epoch as `IsEpoch` and `ArePurged` say
//! goes on standing for its history (`StoresStandFor`), and its batch is what the queries denote.
#![tactic(auto)]

ghost use Rattle.epoch_laws.specs.Batch.{BatchIsResults};
ghost use Rattle.epoch_laws.specs.BirthLaws.{BornLinesReadLater, InstancesFlow, InstancesWait, LaterInstancesFlow, UnbornLinesReadAll};
ghost use Rattle.epoch_laws.specs.CloseLaws.{EpochGrows, EpochStarts, StandsAtStart, StandsClosed, StandsPurged};
ghost use Rattle.epoch_laws.specs.LineLaws.{LineGivesInEpoch, StateKeeps};
ghost use Rattle.epoch_laws.specs.PurgeLaws.{DeadLater, DeadStayDead};
ghost use Rattle.epoch_laws.specs.StandingLaws.{CloseStands, ClosingIsResults, EpochFlows, OfferStands, OpenIsLast, PurgeStands, StartStands, TrimmedIsAlive};
ghost use Rattle.epoch_laws.specs.StreamLaws.{StreamsEarly, StreamsGive};
ghost use Rattle.epoch_laws.specs.WaitLaws.{WaitEarly, WaitGivesInEpoch, WaitKeeps};

/// What leaves a wait in an epoch comes from the bindings that waited before it.
pub fn wait_gives()
    ensures { WaitGivesInEpoch }
{}

/// The bindings that wait after an epoch are those that waited before it, stepped through it.
pub fn wait_keeps()
    ensures { WaitKeeps }
{}

/// What left a wait before an epoch stands.
pub fn wait_early()
    ensures { WaitEarly }
{}

/// What a line gives in an epoch comes from the bindings that waited before it.
pub fn line_gives()
    ensures { LineGivesInEpoch }
{}

/// The bindings that wait at a state after an epoch are those before it, stepped through it.
pub fn state_keeps()
    ensures { StateKeeps }
{}

/// The streams over the events before a time are what the streams were before it.
pub fn streams_early()
    ensures { StreamsEarly }
{}

/// A derived stream has in an epoch what its lines give in it.
pub fn streams_give()
    ensures { StreamsGive }
{}

/// A binding that isn't alive at a time has no eligible tuple from then on.
pub fn dead_stay_dead()
    ensures { DeadStayDead }
{}

/// Nor is it alive later.
pub fn dead_later()
    ensures { DeadLater }
{}

/// Empty stores stand for the empty history.
pub fn stands_at_start()
    ensures { StandsAtStart }
{}

/// Stores that are purged, in whole, in part or not at all, stand for what they stood for.
pub fn stands_purged()
    ensures { StandsPurged }
{}

/// After an epoch the stores stand for the longer history, and its tuples are what the streams have at
/// its time.
pub fn stands_closed()
    ensures { StandsClosed }
{}

/// Before the first derived stream is made, the tuples of an epoch are those that were heard.
pub fn epoch_starts()
    ensures { EpochStarts }
{}

/// One more derived stream of an epoch is made in the order of work.
pub fn epoch_grows()
    ensures { EpochGrows }
{}

/// The tuples of an epoch in a query's stream, put in order, are the query's results at its time.
pub fn batch_is_results()
    ensures { BatchIsResults }
{}

/// An engine with empty stores stands for the empty history.
pub fn start_stands()
    ensures { StartStands }
{}

/// An offered event that may follow comes to the end of the history.
pub fn offer_stands()
    ensures { OfferStands }
{}

/// A closing gives the tuples that the streams have at the open time, and leaves no epoch open.
pub fn close_stands()
    ensures { CloseStands }
{}

/// What a closing gives for a query is its results.
pub fn closing_is_results()
    ensures { ClosingIsResults }
{}

/// An open epoch is that of the last time of its history.
pub fn open_is_last()
    ensures { OpenIsLast }
{}

/// What leaves a state in an epoch is within what flows out of the state's prefix at its time; of what began
/// after the birth of a line that uses the state it is all.
pub fn epoch_flows()
    ensures { EpochFlows }
{}

/// Purges change nothing of what an engine stands for.
pub fn purge_stands()
    ensures { PurgeStands }
{}

/// Purged whole, the stores have, of what began after the birth of a line that uses their state, exactly the
/// waiting instances that are alive.
pub fn trimmed_is_alive()
    ensures { TrimmedIsAlive }
{}

/// The instances that flow along a prefix hold the tuples that flow there.
pub fn instances_flow()
    ensures { InstancesFlow }
{}

/// Those that wait at a state hold the bindings that wait there.
pub fn instances_wait()
    ensures { InstancesWait }
{}

/// The instances that began after a birth are those that flow over the streams cut there.
///
/// So states may be shared by queries that came at different times: a tuple is detected no earlier than
/// its instance began, and what is eligible for it starts, and is detected, later still.
pub fn later_instances_flow()
    ensures { LaterInstancesFlow }
{}

/// Lines with births give what they give over the streams cut at these births.
pub fn born_lines_read_later()
    ensures { BornLinesReadLater }
{}

/// Without births, lines give what they give over all times.
pub fn unborn_lines_read_all()
    ensures { UnbornLinesReadAll }
{}
