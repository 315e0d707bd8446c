//! Laws of the grammar: no symbols have two readings, and what a parenthesis holds tells what it is. They are
//! proved by the readers of `specs/`, and the functions do nothing.
ghost use Rattle.cel_grammar.specs.Laws.{OneFile, OnePred, OneScalar, OneSource, OneStatement, ParenLaw, SentencesAreAFile};

/// Symbols have at most one reading.
pub fn one_reading()
    ensures scalar { OneScalar }
    ensures predicate { OnePred }
    ensures source { OneSource }
    ensures statement { OneStatement }
    ensures file { OneFile }
{}

/// A parenthesis that holds a comparison, TRUE, NOT, AND or OR is a predicate's, any other one is a
/// scalar's.
pub fn parentheses_tell()
    ensures { ParenLaw }
{}

/// What stands up to each semicolon is a statement within the limits exactly where all of the symbols
/// are a file of these statements, and none of its sentences goes beyond the limits.
pub fn sentences_are_a_file()
    ensures { SentencesAreAFile }
{}
