//! The names that queries read: each is a statement's, and those of queries give the queries' numbers.
ghost use Rattle.std.specs.Prelude.{◌≡◌, ◌++◌, ◌∷◌, [], None, IfErr, IfOk, OnOk, length, map};
ghost use Rattle.std.specs.List.{cons_option};
ghost use Rattle.cel_grammar.specs.Views.{source_of, statement_of};
ghost use Rattle.cel_types.specs.Statements.{read_names};
ghost use Rattle.stream_schema.specs.Streams.{stream_names};
ghost use Rattle.catalogue.specs.First.{HaveNone, IsFirst};
ghost use Rattle.catalogue.specs.Naming.{read_fault, read_fault_at};
ghost use Rattle.catalogue.specs.Reading.{numbers_of, reads_added, reads_in};
ghost use Rattle.catalogue.specs.Statements.{reads_by};
ghost use Rattle.catalogue.specs.Tables.{AreNamed};
ghost use Rattle.catalogue.specs.Telling.{TellsBad};

use crate::fault::{LoadFault, QueryFault};
use crate::naming::Named;
use cel_grammar::{Source, Statement};
use cel_parser::File;
use cel_types::names_read;
use event_types::{List, Memory, Numbers, Text};
use resubscribe::Reads;
use std::alloc::Global;

/// What each query reads, by the queries' numbers from 0, or the first fault of a name that is read, in file order and then
/// from left to right.
pub fn read_all(alloc: Global, file: &File, named: &Named) -> Result<Reads, LoadFault>
    requires { AreNamed (map statement_of file.now.statements) named.now }
    ensures ok { IfOk result (λ reads. reads ≡ reads_in (map statement_of file.now.statements)) }
    ensures none { OnOk result (HaveNone (read_fault_at (map statement_of file.now.statements)) (length file.now.statements)) }
    ensures err { IfErr result (TellsBad (IsFirst (read_fault_at (map statement_of file.now.statements)) file.now.lines)) }
{
    let mut reads: Reads = List::new(alloc);
    for place in 0..file.size() {
        if let Some(why) = add_statement(alloc, named, file.statement(place), &mut reads)? {
            return Err(LoadFault::Bad {
                line: file.line(place),
                why,
            });
        }
    }
    Ok(reads)
}

// Adds what the statement reads, if it is a query, or tells the fault of the names that it reads.
fn add_statement(
    alloc: Global,
    named: &Named,
    statement: &Statement,
    reads: &mut Reads,
) -> Result<Option<QueryFault>, Memory>
    ensures fault { IfOk result (λ fault. fault ≡ read_fault (stream_names named.now.all) (reads_by (statement_of statement.now))) }
    ensures reads { IfOk result (λ fault. fault ≡ None → reads.new ≡ reads.old ++ reads_added (stream_names named.now.queries) (statement_of statement.now)) }
{
    match statement {
        Statement::Stream { .. } => Ok(None),
        Statement::Query { source, .. } => {
            let mut numbers: Numbers = List::new(alloc);
            let fault = add_source(alloc, named, source, &mut numbers)?;
            reads.add(numbers)?;
            Ok(fault)
        }
    }
}

// Adds the numbers of the queries that the source reads, or tells the fault of the names that it reads.
fn add_source(
    alloc: Global,
    named: &Named,
    source: &Source,
    numbers: &mut Numbers,
) -> Result<Option<QueryFault>, Memory>
    ensures fault { IfOk result (λ fault. fault ≡ read_fault (stream_names named.now.all) (read_names (source_of source.now))) }
    ensures numbers { IfOk result (λ fault. fault ≡ None → numbers.new ≡ numbers.old ++ numbers_of (stream_names named.now.queries) (read_names (source_of source.now))) }
{
    let names = names_read(alloc, source)?;
    add_names(alloc, named, names.as_slice(), numbers)
}

// Adds the numbers of the queries that have the names, or tells the first name that no statement has.
fn add_names(
    alloc: Global,
    named: &Named,
    names: &[Text],
    numbers: &mut Numbers,
) -> Result<Option<QueryFault>, Memory>
    ensures fault { IfOk result (λ fault. fault ≡ read_fault (stream_names named.now.all) names.now) }
    ensures numbers { IfOk result (λ fault. fault ≡ None → numbers.new ≡ numbers.old ++ numbers_of (stream_names named.now.queries) names.now) }
{
    for name in names {
        if let Some(fault) = add_name(alloc, named, name.as_str(), numbers)? {
            return Ok(Some(fault));
        }
    }
    Ok(None)
}

// Adds the number of the query of this name, if it is a query's, or tells that no statement has it.
fn add_name(
    alloc: Global,
    named: &Named,
    name: &str,
    numbers: &mut Numbers,
) -> Result<Option<QueryFault>, Memory>
    ensures fault { IfOk result (λ fault. fault ≡ read_fault (stream_names named.now.all) (name.now ∷ [])) }
    ensures numbers { IfOk result (λ fault. fault ≡ None → numbers.new ≡ numbers.old ++ numbers_of (stream_names named.now.queries) (name.now ∷ [])) }
{
    if named.all.find(name).is_none() {
        let name = Text::make(alloc, name)?;
        return Ok(Some(QueryFault::Unknown { name }));
    }
    add_number(named.queries.find(name), numbers)?;
    Ok(None)
}

// Adds the number, if there is one.
fn add_number(number: Option<usize>, numbers: &mut Numbers) -> Result<(), Memory>
    ensures { OnOk result (numbers.new ≡ numbers.old ++ cons_option number []) }
{
    if let Some(number) = number {
        numbers.add(number)?;
    }
    Ok(())
}
