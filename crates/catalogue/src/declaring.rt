//! The schemas of the streams that a file declares.
ghost use Rattle.std.specs.Prelude.{◌≡◌, None, IfErr, IfOk, OnOk, map};
ghost use Rattle.cel_grammar.specs.Views.{statement_of};
ghost use Rattle.cel_types.specs.Statements.{FailsAsDeclaration};
ghost use Rattle.stream_schema.specs.Streams.{AreThere, number_of};
ghost use Rattle.catalogue.specs.Arranging.{AreSound};
ghost use Rattle.catalogue.specs.Faults.{IsOfTypes};
ghost use Rattle.catalogue.specs.Statements.{name_of};
ghost use Rattle.catalogue.specs.Telling.{TellsBad};
ghost use Rattle.catalogue.specs.Typing.{Adds, FileDeclares, FailsInDeclarations, FailsOn};

use crate::fault::{LoadFault, QueryFault};
use cel_grammar::Statement;
use cel_parser::File;
use cel_types::{TypeFault, declare};
use std::alloc::Global;
use stream_schema::Streams;

// The streams that a file with sound names declares, in its order, or the first fault of a declaration.
pub(crate) fn declare_all(alloc: Global, file: &File) -> Result<Streams, LoadFault>
    requires { AreSound (map statement_of file.now.statements) }
    ensures ok { IfOk result (FileDeclares (map statement_of file.now.statements)) }
    ensures there { IfOk result AreThere }
    ensures err { IfErr result (TellsBad (FailsInDeclarations (map statement_of file.now.statements) file.now.lines)) }
{
    let mut streams = Streams::new(alloc);
    for place in 0..file.size() {
        let line = file.line(place);
        declare_one(alloc, &mut streams, file.statement(place), line)?;
    }
    Ok(streams)
}

// Adds the stream of a declaration on a line, or tells its fault there; a query adds none.
fn declare_one(
    alloc: Global,
    streams: &mut Streams,
    statement: &Statement,
    line: u64,
) -> Result<(), LoadFault>
    requires { number_of (name_of (statement_of statement.now)) streams.old ≡ None }
    ensures ok { OnOk result (Adds (statement_of statement.now) streams.old streams.new) }
    ensures there { OnOk result (AreThere streams.old → AreThere streams.new) }
    ensures err { IfErr result (TellsBad (FailsOn line (FailsAsDeclaration (statement_of statement.now)))) }
{
    match statement {
        Statement::Query { .. } => Ok(()),
        Statement::Stream { name, .. } => match declare(alloc, statement) {
            Ok(schema) => {
                streams.add(name.as_str(), schema, true)?;
                Ok(())
            }
            Err(fault) => Err(of_types(fault, line)),
        },
    }
}

/// A fault of types on a line, counted from 1: the same cause with the same names, kinds and places.
pub fn of_types(fault: TypeFault, line: u64) -> LoadFault
    ensures { TellsBad (λ at why. (at ≡ line) × IsOfTypes fault why) result }
{
    match fault {
        TypeFault::UnknownAttr { name } => bad(line, QueryFault::UnknownAttr { name }),
        TypeFault::KindMismatch { want, got } => bad(line, QueryFault::KindMismatch { want, got }),
        TypeFault::NotAssignable { name } => bad(line, QueryFault::NotAssignable { name }),
        TypeFault::DuplicateAttr { name } => bad(line, QueryFault::DuplicateAttr { name }),
        TypeFault::UnionMismatch { place } => bad(line, QueryFault::UnionMismatch { place }),
        TypeFault::TooWide { count } => bad(line, QueryFault::TooWide { count }),
        TypeFault::TooFine { places } => bad(line, QueryFault::TooFine { places }),
        TypeFault::Memory => LoadFault::Memory,
    }
}

// A fault on a line.
fn bad(line: u64, why: QueryFault) -> LoadFault
    ensures { result ≡ LoadFault.Bad line why }
{
    LoadFault::Bad { line, why }
}
