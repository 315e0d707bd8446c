//! Laws of courses and of event texts with control lines.
ghost use Rattle.courses.specs.Laws.{ControlEntriesAddNoLine, CourseReportGrowsByEpochs, EventLinesAreHeardAlone, EventLinesAreReadAlike, EventsAloneAreAHistory, RefusedLinesStay, ReportsGrow, VerdictsAreJudged};

/// The verdict that is computed for the text of an added query is the one that the rules give, for each text over any streams.
pub fn verdicts_are_judged()
    ensures { VerdictsAreJudged }
{}

/// A refused line stays refused, whatever bytes follow.
pub fn refused_lines_stay()
    ensures { RefusedLinesStay }
{}

/// What was reported stays, whatever bytes follow.
pub fn reports_grow()
    ensures { ReportsGrow }
{}

/// The report of a course without control entries is that of its events.
pub fn events_alone_are_a_history()
    ensures { EventsAloneAreAHistory }
{}

/// A run may write its report epoch by epoch.
pub fn course_report_grows_by_epochs()
    ensures { CourseReportGrowsByEpochs }
{}

/// A query that comes or goes changes nothing of what was reported.
pub fn control_entries_add_no_line()
    ensures { ControlEntriesAddNoLine }
{}

/// Over event texts without control lines the first refused line, what is heard and what is closed are those of event lines.
pub fn event_lines_are_heard_alone()
    ensures { EventLinesAreHeardAlone }
{}

/// Over event texts without control lines the lines are read alike, whether control lines are taken or not.
pub fn event_lines_are_read_alike()
    ensures { EventLinesAreReadAlike }
{}
