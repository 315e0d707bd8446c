//! Laws of queries that come and go while an engine runs.
//!
//! The functions are laws: they do nothing, and their contracts say what follows from the definitions. A
//! catalogue and an engine are at one (`AreAtOne`) where the engine's network and layout are those of the
//! catalogue's lines and layout. They stay so where a query comes to both or leaves both, and then each query
//! has what it denotes over the events since its addition, whatever other queries came or went.
#![tactic(auto)]

ghost use Rattle.change_laws.specs.Laws.{ClosingsGiveResults, ComingStands, CoursesStand, DroppedMayBeRemoved, LastClosedIsLatest, LeavingStands, NewAreAtOne, ToldMayBeAdded};

/// A catalogue as it is loaded, and a new engine over its lines and layout, are at one.
pub fn new_are_at_one()
    ensures { NewAreAtOne }
{}

/// A query may come to a catalogue born at the last closed time of its engine.
pub fn last_closed_is_latest()
    ensures { LastClosedIsLatest }
{}

/// What a catalogue tells of a query that came meets what its engine asks of lines.
pub fn told_may_be_added()
    ensures { ToldMayBeAdded }
{}

/// What a catalogue gives out of a query that left meets what its engine asks of ends.
pub fn dropped_may_be_removed()
    ensures { DroppedMayBeRemoved }
{}

/// A query that comes to a catalogue and to its engine between epochs leaves them at one.
pub fn coming_stands()
    ensures { ComingStands }
{}

/// So does a query that leaves them.
pub fn leaving_stands()
    ensures { LeavingStands }
{}

/// Over every list of offers, closings, additions and removals the engine stands for the program of the
/// catalogue and the events that were offered.
pub fn courses_stand()
    ensures { CoursesStand }
{}

/// Each closing on the way gives the results of each query that is there, in print order.
pub fn closings_give_results()
    ensures { ClosingsGiveResults }
{}
