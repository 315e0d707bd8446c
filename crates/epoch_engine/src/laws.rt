//! Laws of engines over the histories for which they stand.
ghost use Rattle.epoch_engine.specs.AddingLaws.{AddedLinesAreThere, AddedStands, BornLinesAreItsOwn, DroppedStands, OtherLinesStay};
ghost use Rattle.epoch_engine.specs.Laws.{BatchIsStreams, ClosedStands, NewStands, OfferedStands, TrimmedIsCounted, TrimmedStands, UnbornAreCounted};
ghost use Rattle.epoch_engine.specs.WorkLaws.{FewerAskForLess, StoredAreThere, StoredAskForAll, WaitingAskForAll};

/// A new engine over lines without births stands for the empty history.
pub fn new_stands()
    ensures { NewStands }
{}

/// An engine that took a tuple stands for the history with its event behind.
pub fn offered_stands()
    ensures { OfferedStands }
{}

/// An engine that closed its epoch stands for the same history.
pub fn closed_stands()
    ensures { ClosedStands }
{}

/// The batch of an epoch has exactly what the printed streams have at its time over the history.
pub fn batch_is_streams()
    ensures { BatchIsStreams }
{}

/// An engine whose stores were purged stands for the same history, and each store has exactly the instances that
/// wait, are alive and began after the least birth of the lines that use its state.
pub fn trimmed_stands()
    ensures { TrimmedStands }
{}

/// The instances of an engine whose stores were purged are as many as wait, are alive and are of use.
pub fn trimmed_is_counted()
    ensures { TrimmedIsCounted }
{}

/// Without births all are counted that wait and are alive.
pub fn unborn_are_counted()
    ensures { UnbornAreCounted }
{}

/// With bindings that are among those that wait, each as often at most, an epoch asks for no more tests than with all
/// of these.
pub fn fewer_ask_for_less()
    ensures { FewerAskForLess }
{}

/// The bindings that an engine stores can be told by the prefixes of its states.
pub fn stored_are_there()
    ensures { StoredAreThere }
{}

/// The closing of an epoch takes no more tests than the epoch asks for with what is stored.
pub fn stored_ask_for_all()
    ensures { StoredAskForAll }
{}

/// And no more than it asks for with all that waits.
pub fn waiting_ask_for_all()
    ensures { WaitingAskForAll }
{}

/// A merged network has the lines of its ends with their births.
pub fn born_lines_are_its_own()
    ensures { BornLinesAreItsOwn }
{}

/// An engine to which lines came has them beside those that it had.
pub fn added_lines_are_there()
    ensures { AddedLinesAreThere }
{}

/// An engine that ends left has the lines of the other ends.
pub fn other_lines_stay()
    ensures { OtherLinesStay }
{}

/// An engine to which lines came, born at its last closed time, stands for these beside those that it had.
pub fn added_stands()
    ensures { AddedStands }
{}

/// An engine that lines left, whose out streams no other line reads, stands for those that stay.
pub fn dropped_stands()
    ensures { DroppedStands }
{}
