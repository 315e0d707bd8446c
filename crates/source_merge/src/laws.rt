//! Laws of what a merge gives.
ghost use Rattle.source_merge.specs.Calls.{CallsGiveSettled, CallsKeepEvents};
ghost use Rattle.source_merge.specs.Growing.{ComeFirst, EndInOneWay, TurnsLeaveLines, TurnsStay};
ghost use Rattle.source_merge.specs.Sources.{TurnsAreTheEarliest};
ghost use Rattle.source_merge.specs.Standing.{BegunStands, ComeLater, EndedStands, GivenStands, SettledAreGiven, TakenStands, TurnsAreFollowed};

/// Over every list of calls the events that were given are a front of those that are settled. The event that is given next
/// stands behind them there, and there is none exactly where they are all.
pub fn given_events_are_a_front_of_the_settled_ones()
    ensures { CallsGiveSettled }
{}

/// Over every list of calls the events that were given and those that are held are, up to order, those that were taken.
pub fn merged_events_are_those_taken()
    ensures { CallsKeepEvents }
{}

/// A merge stands to the turns of its files as its calls come: at their first, after an event that isn't late, after the
/// end of a file, and after an event was given.
pub fn merges_stand_to_their_turns()
    ensures begun { BegunStands }
    ensures taken { TakenStands }
    ensures ended { EndedStands }
    ensures given { GivenStands }
{}

/// A merge follows the turns over the lines of its files: where it stands before a turn that goes, the next line of that
/// turn's file has an event that isn't late, and after it is taken the merge stands behind the turn; or the file has no line
/// left, and the merge stands there after its end.
pub fn merges_follow_the_turns()
    ensures { TurnsAreFollowed }
{}

/// Once no event is given any more, those that were given are the settled ones, and what is given later isn't below the
/// watermark at that time.
pub fn settled_events_are_given_once_and_in_order()
    ensures whole { SettledAreGiven }
    ensures later { ComeLater }
{}

/// The turn is that of a file which hasn't ended and before which no other has its turn: none that hasn't ended has an
/// earlier greatest time, and those of the same have higher numbers. There is none exactly where all have ended.
pub fn turns_are_those_of_the_earliest_files()
    ensures { TurnsAreTheEarliest }
{}

/// Turns that all go are the first so many turns. Where the files go on, turns that went go the same way; and a turn that
/// stops, or finds that all files have ended, does so again.
pub fn turns_stay_as_files_go_on()
    ensures first { ComeFirst }
    ensures stay { TurnsStay }
{}

/// Behind turns that go, each file has left the lines behind those that it gave.
pub fn turns_take_lines_in_their_order()
    ensures { TurnsLeaveLines }
{}

/// Turns end in one way: however many turns come to one that doesn't go, they come to the same files.
pub fn turns_end_in_one_way()
    ensures { EndInOneWay }
{}
