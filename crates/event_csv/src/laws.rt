//! Laws of the lines of a text, and of what they say.
ghost use Rattle.event_csv.specs.Faults.{LinesHaveTheirFirstFault};
ghost use Rattle.event_csv.specs.Fed.{LinesStay};
ghost use Rattle.event_csv.specs.ReadBack.{DecimalsAreReadAsTheyAreWritten, NumbersAreReadAsTheyAreWritten, TimesAreReadAsTheyAreWritten};
ghost use Rattle.event_csv.specs.Rounds.{PiecesGiveTheLines, RoundsGiveTheLines};
ghost use Rattle.event_csv.specs.Undeclared.{UndeclaredChangeNoEvent};

/// The lines that are left stay as more bytes come, and where the text ends: no byte takes a line back.
pub fn lines_stay()
    ensures { LinesStay }
{}

/// The lines are those of the whole text, wherever it is cut into pieces and whenever lines are taken.
pub fn pieces_give_the_lines_of_the_text()
    ensures pushed { PiecesGiveTheLines }
    ensures taken { RoundsGiveTheLines }
{}

/// A line is refused with the first fault of the table that it has; one that has none is the event that
/// its fields say.
pub fn lines_have_their_first_fault()
    ensures { LinesHaveTheirFirstFault }
{}

/// A time, a whole number and a decimal are read from the fields that result lines have for them.
pub fn numbers_are_read_as_they_are_written()
    ensures times { TimesAreReadAsTheyAreWritten }
    ensures numbers { NumbersAreReadAsTheyAreWritten }
    ensures decimals { DecimalsAreReadAsTheyAreWritten }
{}

/// Streams that are added and not declared change the reading of no line.
pub fn undeclared_streams_change_no_event()
    ensures { UndeclaredChangeNoEvent }
{}
