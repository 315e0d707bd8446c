//! What queries mean: the values of scalars, the truth of predicates, what an expression denotes, and
//! the report of a program over a history.
//!
//! The definitions stand in `specs/`, and contracts of the crates above cite them. The functions here
//! are laws: they do nothing, and their contracts say what follows from the definitions.
#![tactic(auto)]

ghost use Rattle.semantics.specs.Laws.{TimesAscend, LaterEventsChangeNothing, ReportGrows, ReportGrowsByEpochs};
ghost use Rattle.semantics.specs.Statements.{NoResultsBeforeBirth, SameStatementsGiveSameResults, StreamsAreDenoted};

/// The detection times of a history ascend, each once.
pub fn times_ascend()
    ensures { TimesAscend }
{}

/// The results at a time don't depend on later events.
pub fn later_events_change_nothing()
    ensures { LaterEventsChangeNothing }
{}

/// What was reported stays, whatever is heard later.
pub fn report_grows()
    ensures { ReportGrows }
{}

/// A run may write its report epoch by epoch.
pub fn report_grows_by_epochs()
    ensures { ReportGrowsByEpochs }
{}

/// The streams of a typed program are those that its statements describe, whatever the order of work.
pub fn streams_are_denoted()
    ensures { StreamsAreDenoted }
{}

/// A query that is added gives nothing up to the time of its addition.
pub fn no_results_before_birth()
    ensures { NoResultsBeforeBirth }
{}

/// No result depends on a query or an event that the query doesn't read from.
pub fn same_statements_give_same_results()
    ensures { SameStatementsGiveSameResults }
{}
