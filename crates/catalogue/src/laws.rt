//! Laws of the passes. The functions do nothing: their contracts say what follows from the definitions.
ghost use Rattle.catalogue.specs.Adding.{OneAddedVerdict, SomeAddedVerdict};
ghost use Rattle.catalogue.specs.Changes.{ProgramsKeepKinds, ProgramsLoseQueries, ProgramsTakeQueries};
ghost use Rattle.catalogue.specs.Holding.{LoadedAreAccepted};
ghost use Rattle.catalogue.specs.Laws.{FileOrFault, OneCycleOfNames, OneFile, OneFileFault, OneNameFault, OrderOrCycle, SoundOrFault};
ghost use Rattle.catalogue.specs.Newcomers.{NewcomersAreUnknown, NoneIsLatest};
ghost use Rattle.catalogue.specs.Programs.{AcceptedArePrograms, AcceptedAreWidePrograms, AllAreWorkedOn, DeclaredAreTold, DeclaredComeFirst, NumbersAreQueries, QueriesHaveTheirNames, StreamsHaveTheirNames, WorkIsInOrder};
ghost use Rattle.catalogue.specs.Verdicts.{DeclaredOrFault, OneDeclaration, OneDeclareFault, OnePublication, OnePublishFault, OneVerdict, PublishedOrFault, SomeVerdict};

/// Whether a text is a file, and which, or else its first fault, is settled by the text.
pub fn text_is_one_file()
    ensures file { OneFile }
    ensures fault { OneFileFault }
    ensures not_both { FileOrFault }
{}

/// The first fault of names, or else the cycle of queries, is settled by the statements and their lines.
pub fn names_have_one_answer()
    ensures fault { OneNameFault }
    ensures sound { SoundOrFault }
    ensures cycle { OneCycleOfNames }
    ensures order { OrderOrCycle }
{}

/// The declared streams, or the first fault of a declaration, are settled by the statements and their lines.
pub fn declarations_have_one_answer()
    ensures streams { OneDeclaration }
    ensures fault { OneDeclareFault }
    ensures not_both { DeclaredOrFault }
{}

/// The streams that queries publish, or the first fault of a query, are settled by the statements, their
/// lines, the declared streams and the order.
pub fn queries_have_one_answer()
    ensures streams { OnePublication }
    ensures fault { OnePublishFault }
    ensures not_both { PublishedOrFault }
{}

/// A text is accepted as one program, or refused with one fault on one line, or for one cycle of names.
pub fn text_has_one_verdict()
    ensures { OneVerdict }
{}

/// Each text is accepted or refused so.
pub fn text_has_some_verdict()
    ensures { SomeVerdict }
{}

/// A text from which a catalogue was loaded is accepted as what the catalogue holds, by its parts.
pub fn loaded_texts_are_accepted()
    ensures { LoadedAreAccepted }
{}

/// An accepted text is a program over the kinds of its streams.
pub fn accepted_texts_are_programs()
    ensures { AcceptedArePrograms }
{}

/// Its projections have the widths of their sources.
pub fn accepted_texts_are_wide_programs()
    ensures { AcceptedAreWidePrograms }
{}

/// The queries of an accepted text are worked on in the order of their numbers that the catalogue gives.
pub fn work_is_in_order()
    ensures order { WorkIsInOrder }
    ensures numbers { NumbersAreQueries }
    ensures all { AllAreWorkedOn }
{}

/// The queries of an accepted text have the names of their statements, and so have their streams.
pub fn names_are_those_of_statements()
    ensures queries { QueriesHaveTheirNames }
    ensures streams { StreamsHaveTheirNames }
{}

/// The declared streams of an accepted text have the first numbers.
pub fn declared_streams_come_first()
    ensures first { DeclaredComeFirst }
    ensures told { DeclaredAreTold }
{}

/// A program to which a query comes is one, and so is one from which a query leaves whose stream none
/// reads. Streams behind those of a program may have any kinds.
pub fn queries_come_and_leave()
    ensures come { ProgramsTakeQueries }
    ensures leave { ProgramsLoseQueries }
    ensures kinds { ProgramsKeepKinds }
{}

/// The text of a query that is to be added is accepted as one query, typed over the streams that are there, or refused
/// with one fault on one line.
pub fn added_text_has_one_verdict()
    ensures one { OneAddedVerdict }
    ensures some { SomeAddedVerdict }
{}

/// A query may come to a catalogue as it is loaded before any epoch was closed; and the streams that come with a query
/// into the order of work are new to the layout.
pub fn newcomers_are_new()
    ensures latest { NoneIsLatest }
    ensures unknown { NewcomersAreUnknown }
{}
