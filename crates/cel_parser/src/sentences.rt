//! Sentences: what stands up to each semicolon.
ghost use Rattle.std.specs.Prelude.{◌≡◌, ◌≢◌, ◌<◌, ◌≤◌, ◌∷◌, length, map, slice_get, option_map, IfErr, IfOk, Some};
ghost use Rattle.cel_grammar.specs.Sentences.{IsSentenceOf, is_deep};
ghost use Rattle.cel_grammar.specs.Spellings.{symbol_of};
ghost use Rattle.cel_grammar.specs.Views.{statement_of};
ghost use Rattle.cel_lexer.specs.Listing.{spelling};
ghost use Rattle.cel_parser.specs.Cutting.{Begins, BeginsFaulty, ended_on, left_at};
ghost use Rattle.cel_parser.specs.Faults.{IsFaulty};
ghost use Rattle.cel_parser.specs.GrammarSymbols.{grammar_symbol_of};

use crate::fault::SyntaxFault;
use crate::statements::read_statement;
use crate::symbol::Symbol;
use crate::symbols::symbol_of;
use crate::unread::Unread;
use cel_grammar::Statement;
use cel_lexer::Tokens;
use std::alloc::Global;

// The most symbols of a statement.
const MOST: usize = 1024;

// The most parentheses and braces that are open at once.
const DEEPEST: usize = 64;

/// The statement of the sentence that begins at a place, and the place behind its semicolon. The sentence has
/// this number and line, and `symbols` is room for its symbols.
pub(crate) fn read_sentence<'a>(
    alloc: Global,
    tokens: &Tokens<'a>,
    at: usize,
    number: u64,
    line: u64,
    symbols: &mut Vec<Symbol<'a>>,
) -> Result<(Statement, usize), SyntaxFault>
    requires first { option_map (λ token. token.line) (slice_get tokens.now.items at) ≡ Some line }
    ensures ok { IfOk result (λ read. Begins (left_at tokens.now at) line (statement_of read.0) (left_at tokens.now read.1)) }
    ensures further { IfOk result (λ read. at < read.1) }
    ensures within { IfOk result (λ read. read.1 ≤ length tokens.now.items) }
    ensures err { IfErr result (λ fault. fault ≢ SyntaxFault.Memory → BeginsFaulty number (left_at tokens.now at) fault) }
{
    let next = cut(tokens, at, number, line, symbols)?;
    let statement = read(alloc, symbols, number, line)?;
    Ok((statement, next))
}

// Puts the symbols of the sentence that begins at a place into `symbols`, in place of what was there,
// and gives the place behind its semicolon. The sentence has this number and line.
fn cut<'a>(
    tokens: &Tokens<'a>,
    at: usize,
    number: u64,
    line: u64,
    symbols: &mut Vec<Symbol<'a>>,
) -> Result<usize, SyntaxFault>
    requires first { option_map (λ token. token.line) (slice_get tokens.now.items at) ≡ Some line }
    ensures ok { IfOk result (λ next. left_at tokens.now at ≡ ended_on line (map grammar_symbol_of symbols.new.items) ∷ left_at tokens.now next) }
    ensures further { IfOk result (λ next. at < next) }
    ensures within { IfOk result (λ next. next ≤ length tokens.now.items) }
    ensures err { IfErr result (λ fault. fault ≢ SyntaxFault.Memory → BeginsFaulty number (left_at tokens.now at) fault) }
{
    symbols.clear();
    let mut end = at;
    while end < tokens.size() {
        let symbol = symbol_at(tokens, end);
        end += 1;
        if let Symbol::End = symbol {
            return Ok(end);
        }
        symbols.push(symbol).map_err(|_| SyntaxFault::Memory)?;
    }
    Err(SyntaxFault::BadStatement { number, line })
}

// The statement that a sentence is, which has these symbols and a semicolon.
fn read(
    alloc: Global,
    symbols: &[Symbol<'_>],
    number: u64,
    line: u64,
) -> Result<Statement, SyntaxFault>
    ensures ok { IfOk result (λ s. IsSentenceOf (ended_on line (map grammar_symbol_of symbols.now)) (statement_of s)) }
    ensures err { IfErr result (λ fault. fault ≢ SyntaxFault.Memory → IsFaulty number (ended_on line (map grammar_symbol_of symbols.now)) fault) }
{
    if symbols.len() > MOST {
        return Err(SyntaxFault::TooManyTokens { number, line });
    }
    if is_deep(symbols) {
        return Err(SyntaxFault::TooDeep { number, line });
    }
    match read_statement(alloc, symbols) {
        Ok(statement) => Ok(statement),
        Err(Unread::Bad) => Err(SyntaxFault::BadStatement { number, line }),
        Err(Unread::Memory) => Err(SyntaxFault::Memory),
    }
}

// The symbol of the token at a place.
fn symbol_at<'a>(tokens: &Tokens<'a>, place: usize) -> Symbol<'a>
    requires { place < length tokens.now.items }
    ensures { option_map (λ token. symbol_of token.what (spelling tokens.now.source token)) (slice_get tokens.now.items place) ≡ Some (grammar_symbol_of result) }
{
    let token = *tokens.get(place);
    symbol_of(token.what, tokens.text(place))
}

// Whether too many parentheses and braces are open at some symbol.
fn is_deep(symbols: &[Symbol<'_>]) -> bool
    ensures { result ≡ is_deep 0 (map grammar_symbol_of symbols.now) }
{
    let mut open: usize = 0;
    for symbol in symbols {
        match symbol {
            Symbol::Open | Symbol::BraceOpen => {
                open += 1;
                if open > DEEPEST {
                    return true;
                }
            }
            Symbol::Close | Symbol::BraceClose => open = open.saturating_sub(1),
            _ => {}
        }
    }
    false
}
