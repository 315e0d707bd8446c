//! What a program reports over histories that are reordered, cut or split.
//!
//! The functions are laws: they do nothing, and their contracts say what follows from the definitions of
//! `semantics`, for each program, typed or not.
#![tactic(auto)]

ghost use Rattle.history_laws.specs.Epochs.{OrderChangesNoResult, OrderWithinEpochsChangesNoReport};
ghost use Rattle.history_laws.specs.LateStarts.{LateStartsDependOnLateEvents, ReportStandsAfterARestart, ResultsStandAfterARestart};
ghost use Rattle.history_laws.specs.Keys.{PartsByAKeyHaveTheirResults, PartsByAKeyHaveTheirStreams};
ghost use Rattle.history_laws.specs.Spans.{LimitsBoundSpans};

/// The results at a time don't depend on the order of the events.
pub fn order_changes_no_result()
    ensures { OrderChangesNoResult }
{}

/// Nor does the report, where only events of one detection time change places.
pub fn order_within_epochs_changes_no_report()
    ensures { OrderWithinEpochsChangesNoReport }
{}

/// A result depends on no event that starts before the result does.
pub fn late_starts_depend_on_late_events()
    ensures { LateStartsDependOnLateEvents }
{}

/// So where results span at most so much, they are the same in both histories once that much time has
/// passed.
pub fn results_stand_after_a_restart()
    ensures { ResultsStandAfterARestart }
{}

/// From then on the reports are the same bytes.
pub fn report_stands_after_a_restart()
    ensures { ReportStandsAfterARestart }
{}

/// Over the events of some keys a keyed program has the tuples of these keys on each stream.
pub fn parts_by_a_key_have_their_streams()
    ensures { PartsByAKeyHaveTheirStreams }
{}

/// So it has the results of these keys, in their order.
pub fn parts_by_a_key_have_their_results()
    ensures { PartsByAKeyHaveTheirResults }
{}

/// Results span at most so much where conditions limit DUR to it, or what is read spans no more.
pub fn limits_bound_spans()
    ensures { LimitsBoundSpans }
{}
