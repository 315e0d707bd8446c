//! From a text to its statements: its length, its tokens, its grammar.
ghost use Rattle.std.specs.Prelude.{◌≡◌, ◌≤◌, ◌+◌, IfErr, IfOk, OnOk, count_by, length, map, take};
ghost use Rattle.cel_grammar.specs.Views.{statement_of};
ghost use Rattle.cel_lexer.specs.Bytes.{is_line_feed};
ghost use Rattle.cel_parser.specs.OneQuery.{IsOneQuery};
ghost use Rattle.catalogue.specs.Adding.{FailsAsOneQuery};
ghost use Rattle.catalogue.specs.Faults.{IsOfSyntax, IsOfTokens};
ghost use Rattle.catalogue.specs.Filing.{FailsAsFile, IsFileWithinLimit, most_bytes};
ghost use Rattle.catalogue.specs.Telling.{TellsBad};

use crate::fault::{LoadFault, QueryFault};
use cel_lexer::{LexFault, lex};
use cel_parser::{File, OneQuery, SyntaxFault, parse, parse_one};
use std::alloc::Global;

// The greatest number of bytes of a query text.
const MOST: usize = 1_048_576;

// The statements of a text, or its first fault of length, tokens or grammar.
pub(crate) fn file_of(alloc: Global, text: &[u8]) -> Result<File, LoadFault>
    ensures ok { IfOk result (λ file. IsFileWithinLimit text.now (map statement_of file.statements) file.lines) }
    ensures err { IfErr result (TellsBad (FailsAsFile text.now)) }
{
    if text.len() > MOST {
        return Err(LoadFault::Bad {
            line: last_line(text),
            why: QueryFault::TooLong,
        });
    }
    match lex(alloc, text) {
        Ok(tokens) => match parse(alloc, &tokens) {
            Ok(file) => Ok(file),
            Err(fault) => Err(of_syntax(fault)),
        },
        Err(fault) => Err(of_tokens(fault)),
    }
}

// The query of a text that has no other statement, or the text's first fault of length, tokens or grammar.
pub(crate) fn query_of(alloc: Global, text: &[u8]) -> Result<OneQuery, LoadFault>
    ensures short { OnOk result (length text.now ≤ most_bytes) }
    ensures ok { IfOk result (λ one. IsOneQuery text.now (statement_of one.statement) one.line) }
    ensures err { IfErr result (TellsBad (FailsAsOneQuery text.now)) }
{
    if text.len() > MOST {
        return Err(LoadFault::Bad {
            line: last_line(text),
            why: QueryFault::TooLong,
        });
    }
    match lex(alloc, text) {
        Ok(tokens) => match parse_one(alloc, &tokens) {
            Ok(one) => Ok(one),
            Err(fault) => Err(of_syntax(fault)),
        },
        Err(fault) => Err(of_tokens(fault)),
    }
}

// The line on which a text passes the limit.
fn last_line(text: &[u8]) -> u64
    requires { most_bytes ≤ length text.now }
    ensures { result ≡ count_by is_line_feed (take most_bytes text.now) + 1 }
{
    text[..MOST].iter().filter(|byte| **byte == b'\n').count() as u64 + 1
}

// A fault of tokens.
fn of_tokens(fault: LexFault) -> LoadFault
    ensures { TellsBad (IsOfTokens fault) result }
{
    match fault {
        LexFault::NotUtf8 { line } => LoadFault::Bad {
            line,
            why: QueryFault::NotUtf8,
        },
        LexFault::BadToken { line } => LoadFault::Bad {
            line,
            why: QueryFault::BadToken,
        },
        LexFault::NumberPast128 { line } => LoadFault::Bad {
            line,
            why: QueryFault::NumberPast128,
        },
        LexFault::Memory => LoadFault::Memory,
    }
}

// A fault of statements.
fn of_syntax(fault: SyntaxFault) -> LoadFault
    ensures { TellsBad (IsOfSyntax fault) result }
{
    match fault {
        SyntaxFault::TooManyTokens { number, line } => LoadFault::Bad {
            line,
            why: QueryFault::TooManyTokens { number },
        },
        SyntaxFault::TooDeep { number, line } => LoadFault::Bad {
            line,
            why: QueryFault::TooDeep { number },
        },
        SyntaxFault::BadStatement { number, line } => LoadFault::Bad {
            line,
            why: QueryFault::BadStatement { number },
        },
        SyntaxFault::Memory => LoadFault::Memory,
    }
}
