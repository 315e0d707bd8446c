//! What the queries of a file read, each name once.
ghost use Rattle.std.specs.Prelude.{◌≡◌, ◌++◌, ◌∷◌, [], IfOk, OnOk, map, if◌then◌else◌};
ghost use Rattle.cel_grammar.specs.Views.{source_of, statement_of};
ghost use Rattle.cel_types.specs.Aggregates.{is_among};
ghost use Rattle.cel_types.specs.Statements.{read_names};
ghost use Rattle.catalogue.specs.Statements.{is_query, reads_by};
ghost use Rattle.plan_text.specs.Parts.{with_name};
ghost use Rattle.plan_text.specs.Reads.{once, reads_once};

use cel_grammar::{Source, Statement};
use cel_parser::File;
use cel_types::names_read;
use event_types::{List, Memory, Names, Text};
use std::alloc::Global;

/// For each query of a file the names that it reads, by the queries' numbers.
pub(crate) fn reads_in(alloc: Global, file: &File) -> Result<List<Names>, Memory>
    ensures { IfOk result (λ reads. reads ≡ reads_once (map statement_of file.now.statements)) }
{
    let mut reads: List<Names> = List::new(alloc);
    for place in 0..file.size() {
        add_statement(alloc, file.statement(place), &mut reads)?;
    }
    Ok(reads)
}

// Adds what the statement reads, if it is a query.
fn add_statement(
    alloc: Global,
    statement: &Statement,
    reads: &mut List<Names>,
) -> Result<(), Memory>
    ensures { OnOk result (reads.new ≡ reads.old ++ (if is_query (statement_of statement.now) then once (reads_by (statement_of statement.now)) ∷ [] else [])) }
{
    match statement {
        Statement::Stream { .. } => Ok(()),
        Statement::Query { source, .. } => {
            let names = reads_of(alloc, source)?;
            reads.add(names)
        }
    }
}

// The names that the source reads, each once.
fn reads_of(alloc: Global, source: &Source) -> Result<Names, Memory>
    ensures { IfOk result (λ names. names ≡ once (read_names (source_of source.now))) }
{
    let read = names_read(alloc, source)?;
    let mut names: Names = List::new(alloc);
    for name in read.as_slice() {
        add_name(alloc, name.as_str(), &mut names)?;
    }
    Ok(names)
}

// Adds the name, if it isn't there yet.
fn add_name(alloc: Global, name: &str, names: &mut Names) -> Result<(), Memory>
    ensures { OnOk result (names.new ≡ with_name names.old name.now) }
{
    if is_among(names.as_slice(), name) {
        return Ok(());
    }
    names.add(Text::make(alloc, name)?)
}

// Whether the name is among those.
fn is_among(names: &[Text], name: &str) -> bool
    ensures { result ≡ is_among names.now name.now }
{
    names.iter().any(|other| name == other.as_str())
}
