//! The text of a query that comes to a catalogue.
ghost use Rattle.std.specs.Prelude.{◌≡◌, ◌∷◌, [], None, IfErr, IfOk, OnOk, ⊤};
ghost use Rattle.std.specs.List.{All};
ghost use Rattle.cel_grammar.specs.Views.{statement_of};
ghost use Rattle.cel_parser.specs.OneQuery.{IsQuery};
ghost use Rattle.cel_types.specs.Statements.{Queries};
ghost use Rattle.expressions.specs.Views.{ex_of};
ghost use Rattle.stream_schema.specs.Streams.{stream_names};
ghost use Rattle.stream_schema.specs.Table.{IsOwn};
ghost use Rattle.catalogue.specs.Adding.{JudgesAdded, JudgesStatement, NotTaken, Taken};
ghost use Rattle.catalogue.specs.Fitting.{IsSameFault};
ghost use Rattle.catalogue.specs.Taking.{IsFew, IsFit, IsKnownName, added_of};
ghost use Rattle.catalogue.specs.Naming.{name_fault, read_fault};
ghost use Rattle.catalogue.specs.Statements.{name_of, reads_by};
ghost use Rattle.catalogue.specs.Telling.{TellsBad};

use crate::declaring::of_types;
use crate::fault::{AddFault, LoadFault, QueryFault};
use crate::filing::query_of;
use crate::naming::fault_of;
use crate::statements::name;
use automaton::{Growth, Lines};
use cel_grammar::Statement;
use cel_types::{elaborate, names_read};
use event_types::{Memory, Numbers, Text};
use expressions::Expr;
use std::alloc::Global;
use stream_schema::{Schema, Streams};

/// What is told of a query that came to a catalogue: its number, its automaton lines, a new end number for each of
/// them, and what the layout of all lines grows by.
#[derive(Drop)]
pub struct Added {
    pub query: usize,
    pub lines: Lines,
    pub ends: Numbers,
    pub growth: Growth,
}

/// A query that was judged and may come to a catalogue: its statement, the schema of its stream, and its expression.
#[derive(Drop)]
pub struct Coming {
    pub(crate) statement: Statement,
    pub(crate) schema: Schema,
    pub(crate) expr: Expr,
}

/// The one query of a text, typed over the streams that are there; or the text's first fault: of its length, its
/// tokens, its statement, its name, the names that it reads, or its types.
pub fn judge(alloc: Global, streams: &Streams, text: &[u8]) -> Result<Coming, LoadFault>
    ensures ok { IfOk result (λ query. JudgesAdded streams.now text.now (Taken (added_of query))) }
    ensures fit { IfOk result (λ query. IsFit streams.now (added_of query)) }
    ensures err { IfErr result (TellsBad (λ line why. JudgesAdded streams.now text.now (NotTaken line why))) }
{
    let one = query_of(alloc, text)?;
    type_one(alloc, streams, one.statement, one.line)
}

// The query of a statement on a line, typed over the streams that are there, or its first fault.
fn type_one(
    alloc: Global,
    streams: &Streams,
    statement: Statement,
    line: u64,
) -> Result<Coming, LoadFault>
    requires { IsQuery (statement_of statement) }
    ensures ok { IfOk result (λ query. JudgesStatement streams.now (statement_of statement) line (Taken (added_of query))) }
    ensures fit { IfOk result (λ query. (Queries streams.now (statement_of statement) query.schema (ex_of query.expr) → IsFew (ex_of query.expr)) → IsFit streams.now (added_of query)) }
    ensures err { IfErr result (TellsBad (λ at why. JudgesStatement streams.now (statement_of statement) line (NotTaken at why))) }
{
    check_names(alloc, streams, &statement, line)?;
    match elaborate(alloc, streams, &statement) {
        Ok((schema, expr)) => Ok(Coming {
            statement,
            schema,
            expr,
        }),
        Err(fault) => Err(of_types(fault, line)),
    }
}

// Tells the first fault of the names of a query on a line: of its own, or of those that it reads.
fn check_names(
    alloc: Global,
    streams: &Streams,
    statement: &Statement,
    line: u64,
) -> Result<(), LoadFault>
    requires { IsQuery (statement_of statement.now) }
    ensures new { OnOk result (name_fault (stream_names streams.now) (name_of (statement_of statement.now)) ≡ None) }
    ensures own { OnOk result (IsOwn (name_of (statement_of statement.now))) }
    ensures read { OnOk result (read_fault (stream_names streams.now) (reads_by (statement_of statement.now)) ≡ None) }
    ensures known { OnOk result (All (IsKnownName streams.now) (reads_by (statement_of statement.now))) }
    ensures err { IfErr result (TellsBad (λ at why. JudgesStatement streams.now (statement_of statement.now) line (NotTaken at why))) }
{
    if let Some(why) = new_name_fault(alloc, streams, name(statement))? {
        return Err(LoadFault::Bad { line, why });
    }
    match statement {
        Statement::Stream { .. } => unreachable!(),
        Statement::Query { source, .. } => {
            let names = names_read(alloc, source)?;
            if let Some(why) = first_unknown(alloc, streams, names.as_slice())? {
                return Err(LoadFault::Bad { line, why });
            }
            Ok(())
        }
    }
}

// The fault of the name of a query that comes.
fn new_name_fault(
    alloc: Global,
    streams: &Streams,
    name: &str,
) -> Result<Option<QueryFault>, Memory>
    ensures fault { IfOk result (λ fault. fault ≡ name_fault (stream_names streams.now) name.now) }
    ensures own { IsOwn name.now }
{
    fault_of(alloc, streams, name)
}

// The first of the names that no stream has, as a fault.
fn first_unknown(
    alloc: Global,
    streams: &Streams,
    names: &[Text],
) -> Result<Option<QueryFault>, Memory>
    ensures fault { IfOk result (λ fault. fault ≡ read_fault (stream_names streams.now) names.now) }
    ensures known { IfOk result (λ fault. fault ≡ None → All (IsKnownName streams.now) names.now) }
{
    for name in names {
        if let Some(fault) = unknown(alloc, streams, name.as_str())? {
            return Ok(Some(fault));
        }
    }
    Ok(None)
}

// The fault of a name that no stream has.
fn unknown(alloc: Global, streams: &Streams, name: &str) -> Result<Option<QueryFault>, Memory>
    ensures fault { IfOk result (λ fault. fault ≡ read_fault (stream_names streams.now) (name.now ∷ [])) }
    ensures known { IsKnownName streams.now name.now }
{
    if streams.find(name).is_none() {
        let name = Text::make(alloc, name)?;
        return Ok(Some(QueryFault::Unknown { name }));
    }
    Ok(None)
}

/// The same fault of a query that comes.
pub fn as_added(fault: LoadFault) -> AddFault
    requires { TellsBad (λ line why. ⊤) fault }
    ensures { IsSameFault fault result }
{
    match fault {
        LoadFault::Bad { line, why } => AddFault::Bad { line, why },
        LoadFault::Cycle(_) => unreachable!(),
        LoadFault::Memory => AddFault::Memory,
    }
}
