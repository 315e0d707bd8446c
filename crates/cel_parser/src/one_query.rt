//! From tokens to one query.
ghost use Rattle.std.specs.Prelude.{◌≡◌, ◌≢◌, ◌<◌, ◌≤◌, None, length, IfErr, IfOk, IfSome};
ghost use Rattle.cel_grammar.specs.Views.{statement_of};
ghost use Rattle.cel_parser.specs.Cutting.{left_at};
ghost use Rattle.cel_parser.specs.OneQuery.{AreTooMany, IsNotAlone, IsNotOneQuery, IsOneQuery, IsQuery};

use crate::fault::SyntaxFault;
use crate::sentences::read_sentence;
use cel_grammar::Statement;
use cel_lexer::Tokens;
use std::alloc::Global;

/// A query on its own: its statement, and the line of its first token, counted from 1.
#[derive(Drop)]
pub struct OneQuery {
    pub statement: Statement,
    pub line: u64,
}

/// The query of a text that has no other statement, as `SELECT * FROM Stock PUBLISH All;`, or why the text is not
/// one query. It is `BadStatement` of number 1 where there is no statement, on line 1, or where the first one declares
/// a stream, and of number 2 where there is a second one; a faulty first or second statement has the fault that
/// `parse` gives it.
pub fn parse_one(alloc: Global, tokens: &Tokens<'_>) -> Result<OneQuery, SyntaxFault>
    ensures ok { IfOk result (λ one. IsOneQuery tokens.now.source (statement_of one.statement) one.line) }
    ensures err { IfErr result (λ fault. fault ≢ SyntaxFault.Memory → IsNotOneQuery tokens.now.source fault) }
{
    if tokens.size() == 0 {
        return Err(SyntaxFault::BadStatement { number: 1, line: 1 });
    }
    let line = tokens.get(0).line;
    let mut symbols = Vec::new(alloc);
    let (statement, next) = read_sentence(alloc, tokens, 0, 1, line, &mut symbols)?;
    match fault_of_first(alloc, tokens, &statement, line, next) {
        None => Ok(OneQuery { statement, line }),
        Some(fault) => {
            drop(statement);
            Err(fault)
        }
    }
}

// Why the first statement, on this line and with the next one at a place, is not the only query, if it is not.
fn fault_of_first(
    alloc: Global,
    tokens: &Tokens<'_>,
    statement: &Statement,
    line: u64,
    next: usize,
) -> Option<SyntaxFault>
    ensures none { result ≡ None → IsQuery (statement_of statement.now) × length tokens.now.items ≤ next }
    ensures some { IfSome result (λ fault. fault ≢ SyntaxFault.Memory → IsNotAlone (statement_of statement.now) line (left_at tokens.now next) fault) }
{
    match statement {
        Statement::Stream { .. } => Some(SyntaxFault::BadStatement { number: 1, line }),
        Statement::Query { .. } if next < tokens.size() => {
            Some(fault_of_second(alloc, tokens, next))
        }
        Statement::Query { .. } => None,
    }
}

// Why no sentence may begin at a place behind a query: it has a fault, or is a statement.
fn fault_of_second(alloc: Global, tokens: &Tokens<'_>, at: usize) -> SyntaxFault
    requires { at < length tokens.now.items }
    ensures { result ≢ SyntaxFault.Memory → AreTooMany (left_at tokens.now at) result }
{
    let line = tokens.get(at).line;
    let mut symbols = Vec::new(alloc);
    let read = read_sentence(alloc, tokens, at, 2, line, &mut symbols);
    read.err()
        .unwrap_or(SyntaxFault::BadStatement { number: 2, line })
}
