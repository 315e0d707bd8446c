//! What a statement is: its name, and whether it is a query.
ghost use Rattle.std.specs.Prelude.{◌≡◌};
ghost use Rattle.cel_grammar.specs.Views.{statement_of};
ghost use Rattle.catalogue.specs.Statements.{is_query, name_of};

use cel_grammar::Statement;

/// The name of the stream that the statement declares or publishes. Takes no memory.
pub fn name(statement: &Statement) -> &str
    ensures { result.now ≡ name_of (statement_of statement.now) }
{
    match statement {
        Statement::Stream { name, .. } => name.as_str(),
        Statement::Query { name, .. } => name.as_str(),
    }
}

/// Whether the statement is a query; else it declares a stream.
pub fn is_a_query(statement: &Statement) -> bool
    ensures { result ≡ is_query (statement_of statement.now) }
{
    match statement {
        Statement::Stream { .. } => false,
        Statement::Query { .. } => true,
    }
}
