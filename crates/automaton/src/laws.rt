//! Laws over the streams of lines.
ghost use Rattle.automaton.specs.Additions.{AddedAlone, AddedInOrder, AddedSame};
ghost use Rattle.automaton.specs.Work.{StreamsAreDerived};

/// The streams that are made in the order of work are what the lines give over them.
pub fn streams_are_derived()
    ensures { StreamsAreDerived }
{}

/// Lines that come, as those of one more query, stand behind the others in the order of work.
pub fn added_lines_stay_in_order()
    ensures { AddedInOrder }
{}

/// Lines that come change no stream that was there.
pub fn added_lines_change_no_stream()
    ensures { AddedSame }
{}

/// Lines that come make their streams by themselves, over those that were there.
pub fn added_lines_stand_alone()
    ensures { AddedAlone }
{}
