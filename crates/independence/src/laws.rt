//! Laws over accepted query texts.
ghost use Rattle.independence.specs.Courses.{AddedQueriesChangeNoCourse};
ghost use Rattle.independence.specs.Enlarging.{AddedQueriesChangeNoEvent, AddedQueriesChangeNoLine, SameEventsHaveSameTimes};
ghost use Rattle.independence.specs.Independence.{ResultsDependOnReadsAlone};
ghost use Rattle.independence.specs.Renumbered.{NumbersChangeNoReport};
ghost use Rattle.independence.specs.Reports.{AddedQueriesChangeNoReport};

/// No line of a query depends on a query that it doesn't read from. "Read from" is followed through
/// published streams.
pub fn results_depend_on_reads_alone()
    ensures { ResultsDependOnReadsAlone }
{}

/// An event text is read alike where queries are added, up to the numbers of the streams.
pub fn added_queries_change_no_event()
    ensures { AddedQueriesChangeNoEvent }
{}

/// The same events close the same epochs.
pub fn same_events_have_same_times()
    ensures { SameEventsHaveSameTimes }
{}

/// A set of queries that is enlarged by others, whatever streams they declare beside, gives each old query
/// the same lines over the same events.
pub fn added_queries_change_no_line()
    ensures { AddedQueriesChangeNoLine }
{}

/// The same of whole event texts without control lines, which are refused, heard and closed alike.
pub fn added_queries_change_no_report()
    ensures { AddedQueriesChangeNoReport }
{}

/// A set of queries that is enlarged by others, whatever streams they declare beside, gives each query of
/// the smaller set, and each that a control line adds, the same lines, where no line of the event text is
/// refused with either.
pub fn added_queries_change_no_course()
    ensures { AddedQueriesChangeNoCourse }
{}

/// Sets of queries that differ in the numbers of their streams alone, those of retired and hidden ones
/// included, refuse the same line of an event text with the same fault, close the same entries and report
/// the same, also behind courses of the same entries. A catalogue to which a query came and which it left
/// numbers the next one otherwise than a catalogue that never had it.
pub fn numbers_change_no_report()
    ensures { NumbersChangeNoReport }
{}
