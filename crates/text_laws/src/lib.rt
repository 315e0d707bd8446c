//! What a report depends on where query texts and event texts are split, cut or reordered.
//!
//! The functions are laws: they do nothing, and their contracts say what follows from the definitions.
//! They are over event texts without control lines, for whoever splits the work over several processes.
#![tactic(auto)]

ghost use Rattle.text_laws.specs.LineOrder.{LineOrderWithinEpochsChangesNoReport};
ghost use Rattle.text_laws.specs.KeyParts.{PartsByAKeyReportTheirKeys};
ghost use Rattle.text_laws.specs.QueryParts.{PartsInTurnReportTheWhole, QueryPartsReportTheWhole};
ghost use Rattle.text_laws.specs.Restarts.{LateResultsDependOnLateLines, RestartReportsTheSame};

/// Lines of one detection time may come in any order, where none is refused.
pub fn line_order_within_epochs_changes_no_report()
    ensures { LineOrderWithinEpochsChangesNoReport }
{}

/// A query set may be split: each part refuses and closes what the whole does, and the parts' lines
/// are those of the whole.
pub fn query_parts_report_the_whole()
    ensures { QueryPartsReportTheWhole }
{}

/// Where the parts are the queries of the file in turn, the epochs of the parts, part after part, are
/// those of the whole.
pub fn parts_in_turn_report_the_whole()
    ensures { PartsInTurnReportTheWhole }
{}

/// The results that start at a time or later depend on no line whose event starts before it.
pub fn late_results_depend_on_late_lines()
    ensures { LateResultsDependOnLateLines }
{}

/// A run that begins in the middle of an event text reports what it would have, once the span of all
/// results of the whole text has passed.
pub fn restart_reports_the_same()
    ensures { RestartReportsTheSame }
{}

/// A part by the key of a keyed query text's events reports the results of its keys, where no line is
/// refused.
pub fn parts_by_a_key_report_their_keys()
    ensures { PartsByAKeyReportTheirKeys }
{}
