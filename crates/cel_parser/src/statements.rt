//! Statements from symbols.
ghost use Rattle.std.specs.Prelude.{◌≡◌, ◌≤◌, ◌*◌, [], length, map, IfOk, Err};
ghost use Rattle.cel_grammar.specs.Statements.{IsStatement};
ghost use Rattle.cel_grammar.specs.Trees as tree;
ghost use Rattle.cel_grammar.specs.Views.{statement_of};
ghost use Rattle.cel_parser.specs.Columns.{declaration_at, ended_at, query_at, statement_step, whole_at};
ghost use Rattle.cel_parser.specs.ReturnsReading.{ReturnsReading};
ghost use Rattle.cel_parser.specs.GrammarSymbols.{grammar_symbol_of};
ghost use Rattle.cel_parser.specs.StatementReader.{publish_at};

use crate::columns::read_columns;
use crate::items::read_items;
use crate::literals::name_text;
use crate::reading::{Reading, Symbols};
use crate::signs::{after_close, after_from};
use crate::sources::read_source;
use crate::symbol::Symbol;
use crate::unread::Unread;
use cel_grammar::Statement;
use event_types::Text;
use std::alloc::Global;

// Steps for each symbol: no reading goes deeper.
const STEPS: usize = 16;

/// The statement that these symbols are, without a semicolon.
pub fn read_statement(alloc: Global, symbols: &[Symbol<'_>]) -> Result<Statement, Unread>
    requires { length symbols.now ≤ 1024 }
    ensures ok { IfOk result (λ s. IsStatement (map grammar_symbol_of symbols.now) (statement_of s) []) }
    ensures bad { result ≡ Err Unread.Bad → (s : tree.Statement) → IsStatement (map grammar_symbol_of symbols.now) s [] → ⊥ }
{
    read_whole(alloc, symbols)
}

// A statement that takes all of the symbols.
#[tactic(auto, unfolding(crate::specs::Columns::whole_at))]
fn read_whole(alloc: Global, symbols: &[Symbol<'_>]) -> Result<Statement, Unread>
    requires { length symbols.now ≤ 1024 }
    ensures { ReturnsReading statement_of result (whole_at (16 * length symbols.now) (map grammar_symbol_of symbols.now)) }
{
    let (statement, rest) = read_by_word(alloc, STEPS * symbols.len(), symbols)?;
    ended(statement, rest)
}

// A statement, where no symbols follow it.
fn ended(statement: Statement, rest: &[Symbol<'_>]) -> Result<Statement, Unread>
    ensures { ReturnsReading statement_of result (ended_at (statement_of statement) (map grammar_symbol_of rest.now)) }
{
    match rest {
        [] => Ok(statement),
        _ => Err(Unread::Bad),
    }
}

// A statement by its word.
#[tactic(auto, unfolding(crate::specs::Columns::statement_step))]
fn read_by_word<'a>(alloc: Global, fuel: usize, symbols: Symbols<'a>) -> Reading<'a, Statement>
    ensures { ReturnsReading (λ s. (statement_of s.0, map grammar_symbol_of s.1.now)) result (statement_step fuel (map grammar_symbol_of symbols.now)) }
{
    match symbols {
        [Symbol::Stream, rest @ ..] => read_declaration(alloc, fuel, rest),
        [Symbol::Select, rest @ ..] => read_query(alloc, fuel, rest),
        _ => Err(Unread::Bad),
    }
}

// A declaration behind its word.
#[tactic(auto, unfolding(crate::specs::Columns::declaration_at))]
fn read_declaration<'a>(alloc: Global, fuel: usize, symbols: Symbols<'a>) -> Reading<'a, Statement>
    ensures { ReturnsReading (λ s. (statement_of s.0, map grammar_symbol_of s.1.now)) result (declaration_at fuel (map grammar_symbol_of symbols.now)) }
{
    match symbols {
        [Symbol::Name(name), Symbol::Open, rest @ ..] => {
            let (attrs, rest) = read_columns(alloc, fuel, rest)?;
            let rest = after_close(rest)?;
            let name = name_text(alloc, name)?;
            Ok((Statement::Stream { name, attrs }, rest))
        }
        _ => Err(Unread::Bad),
    }
}

// A query behind its word.
#[tactic(auto, unfolding(crate::specs::Columns::query_at))]
fn read_query<'a>(alloc: Global, fuel: usize, symbols: Symbols<'a>) -> Reading<'a, Statement>
    ensures { ReturnsReading (λ s. (statement_of s.0, map grammar_symbol_of s.1.now)) result (query_at fuel (map grammar_symbol_of symbols.now)) }
{
    let (items, rest) = read_items(alloc, fuel, symbols)?;
    let rest = after_from(rest)?;
    let (source, rest) = read_source(alloc, fuel, rest)?;
    let (name, rest) = read_publish(alloc, rest)?;
    let source = Box::into_inner(source);
    Ok((
        Statement::Query {
            items,
            source,
            name,
        },
        rest,
    ))
}

// PUBLISH and a name.
fn read_publish<'a>(alloc: Global, symbols: Symbols<'a>) -> Reading<'a, Text>
    ensures { ReturnsReading (λ p. (p.0, map grammar_symbol_of p.1.now)) result (publish_at (map grammar_symbol_of symbols.now)) }
{
    match symbols {
        [Symbol::Publish, Symbol::Name(name), rest @ ..] => Ok((name_text(alloc, name)?, rest)),
        _ => Err(Unread::Bad),
    }
}
