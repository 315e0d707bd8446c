//! The names of statements: none is reserved, and no two are the same.
ghost use Rattle.std.specs.Prelude.{◌≡◌, ◌++◌, ◌∷◌, [], None, IfErr, IfOk, OnOk, length, map};
ghost use Rattle.cel_grammar.specs.Views.{statement_of};
ghost use Rattle.stream_schema.specs.Streams.{AreThere, number_of, stream_names};
ghost use Rattle.catalogue.specs.First.{HaveNone, IsFirst};
ghost use Rattle.catalogue.specs.Naming.{name_fault, name_fault_at};
ghost use Rattle.catalogue.specs.Statements.{name_of, published_by};
ghost use Rattle.catalogue.specs.Tables.{AreNamed};
ghost use Rattle.catalogue.specs.Telling.{TellsBad};

use crate::fault::{LoadFault, QueryFault};
use crate::statements::{is_a_query, name};
use cel_grammar::Statement;
use cel_parser::File;
use event_types::{Memory, Text};
use std::alloc::Global;
use stream_schema::{Schema, Streams};

/// The statements by name, and the queries among them, each in file order, as streams without attributes. Their numbers
/// count from 0.
#[derive(Drop)]
pub struct Named {
    pub all: Streams,
    pub queries: Streams,
}

/// The names of a file, or its first fault of a name: each statement's name is compared with those before it.
pub fn name_all(alloc: Global, file: &File) -> Result<Named, LoadFault>
    ensures ok { IfOk result (AreNamed (map statement_of file.now.statements)) }
    ensures none { OnOk result (HaveNone (name_fault_at (map statement_of file.now.statements)) (length file.now.statements)) }
    ensures there { IfOk result (λ named. AreThere named.queries) }
    ensures err { IfErr result (TellsBad (IsFirst (name_fault_at (map statement_of file.now.statements)) file.now.lines)) }
{
    let mut named = Named {
        all: Streams::new(alloc),
        queries: Streams::new(alloc),
    };
    for place in 0..file.size() {
        let statement = file.statement(place);
        if let Some(why) = fault_of(alloc, &named.all, name(statement))? {
            return Err(LoadFault::Bad {
                line: file.line(place),
                why,
            });
        }
        admit(alloc, &mut named, statement)?;
    }
    Ok(named)
}

// The fault of a name behind those that are there.
pub(crate) fn fault_of(
    alloc: Global,
    there: &Streams,
    name: &str,
) -> Result<Option<QueryFault>, Memory>
    ensures { IfOk result (λ fault. fault ≡ name_fault (stream_names there.now) name.now) }
{
    if name == "stream" {
        let name = Text::make(alloc, name)?;
        return Ok(Some(QueryFault::Reserved { name }));
    }
    if there.find(name).is_some() {
        let name = Text::make(alloc, name)?;
        return Ok(Some(QueryFault::Duplicate { name }));
    }
    Ok(None)
}

// Puts the statement behind those that are there.
fn admit(alloc: Global, named: &mut Named, statement: &Statement) -> Result<(), Memory>
    requires new { number_of (name_of (statement_of statement.now)) named.old.all ≡ None }
    requires new_query { number_of (name_of (statement_of statement.now)) named.old.queries ≡ None }
    ensures all { OnOk result (stream_names named.new.all ≡ stream_names named.old.all ++ name_of (statement_of statement.now) ∷ []) }
    ensures queries { OnOk result (stream_names named.new.queries ≡ stream_names named.old.queries ++ published_by (statement_of statement.now)) }
    ensures there { OnOk result (AreThere named.old.queries → AreThere named.new.queries) }
{
    named.all.add(name(statement), Schema::new(alloc), true)?;
    if is_a_query(statement) {
        named
            .queries
            .add(name(statement), Schema::new(alloc), false)?;
    }
    Ok(())
}
