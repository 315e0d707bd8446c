//! From a text to its tokens.
ghost use Rattle.std.specs.Prelude.{◌≡◌, ◌≢◌, ◌+◌, Ok, Err, IfErr, IfOk, IsUtf8, count_by, length};
ghost use Rattle.cel_lexer.specs.Bytes.{is_line_feed};
ghost use Rattle.cel_lexer.specs.Faults.{tokens_of};
ghost use Rattle.cel_lexer.specs.Listing.{AreSpans, Ascend};
ghost use Rattle.cel_lexer.specs.Tokens.{mark_len, tokens_behind_mark};

use crate::fault::LexFault;
use crate::pieces::{Piece, piece_at};
use crate::token::Token;
use crate::tokens::Tokens;
use std::alloc::Global;

/// The tokens of a query text, or its first fault. A mark EF BB BF at the front is skipped.
pub fn lex(alloc: Global, text: &[u8]) -> Result<Tokens<'_>, LexFault>
    ensures source { IfOk result (λ found. found.source ≡ text.now) }
    ensures items { IfOk result (λ found. tokens_of text.now ≡ Ok found.items) }
    ensures spans { IfOk result (λ found. Ascend 0 (length text.now) found.items) }
    ensures err { IfErr result (λ fault. fault ≢ LexFault.Memory → tokens_of text.now ≡ Err fault) }
{
    let source = match std::str::from_utf8(text) {
        Ok(source) => source,
        Err(error) => {
            let line = line_feeds(&text[..error.valid_up_to()]) + 1;
            return Err(LexFault::NotUtf8 { line });
        }
    };
    let items = cut(alloc, source.as_bytes())?;
    Ok(Tokens::over(source, items))
}

// The tokens of a text that is UTF-8.
fn cut(alloc: Global, text: &[u8]) -> Result<Vec<Token>, LexFault>
    requires { IsUtf8 text.now }
    ensures items { IfOk result (λ found. tokens_behind_mark text.now ≡ Ok found.items) }
    ensures spans { IfOk result (λ found. AreSpans text.now found.items) }
    ensures err { IfErr result (λ fault. fault ≢ LexFault.Memory → tokens_behind_mark text.now ≡ Err fault) }
{
    let mut found = Vec::new(alloc);
    let mut at = mark_len(text);
    let mut line: u64 = 1;
    while at < text.len() {
        match piece_at(&text[at..]) {
            Piece::Gap(len) => {
                if text[at] == b'\n' {
                    line += 1;
                }
                at += len;
            }
            Piece::Lexeme(what, len) => {
                let token = Token {
                    what,
                    line,
                    begin: at,
                    end: at + len,
                };
                found.push(token).map_err(|_| LexFault::Memory)?;
                at += len;
            }
            Piece::BadToken => return Err(LexFault::BadToken { line }),
            Piece::NumberPast128 => return Err(LexFault::NumberPast128 { line }),
        }
    }
    Ok(found)
}

// How many bytes the mark at the front of a text has.
fn mark_len(text: &[u8]) -> usize
    ensures { result ≡ mark_len text.now }
{
    if text.starts_with(b"\xEF\xBB\xBF") {
        3
    } else {
        0
    }
}

// How many line feeds a text has.
fn line_feeds(text: &[u8]) -> u64
    ensures { result ≡ count_by is_line_feed text.now }
{
    text.iter().filter(|b| **b == b'\n').count() as u64
}
