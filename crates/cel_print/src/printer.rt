//! The canonical text of files.
ghost use Rattle.std.specs.Prelude.{◌≡◌, ◌<◌, ◌++◌, IfOk, OnOk, Some, length, map, option_map, slice_get};
ghost use Rattle.cel_grammar.specs.Sentences.{ReadsAs};
ghost use Rattle.cel_grammar.specs.Views.{statement_of};
ghost use Rattle.cel_print.specs.Laws.{lines_from};
ghost use Rattle.cel_print.specs.Spelled.{canon, line_of};

use crate::statements::append_statement;
use cel_parser::File;
use event_types::{Memory, Text};
use std::alloc::Global;
use std::str;

/// The canonical text of a file: each statement on its line.
pub fn print(alloc: Global, file: &File) -> Result<Text, Memory>
    ensures text { IfOk result (λ text. text ≡ canon (map statement_of file.now.statements)) }
    ensures read_again { IfOk result (λ text. ReadsAs text (map statement_of file.now.statements) (lines_from 1 (map statement_of file.now.statements))) }
{
    let mut text = Vec::new(alloc);
    for i in 0..file.size() {
        append_statement(&mut text, file.statement(i))?;
    }
    text_of(alloc, text.as_slice())
}

/// The line of the statement at a place, counted from 0, with its `;` and LF.
pub fn print_one(alloc: Global, file: &File, i: usize) -> Result<Text, Memory>
    requires { i < length file.now.statements }
    ensures { IfOk result (λ text. option_map (λ s. line_of (statement_of s)) (slice_get file.now.statements i) ≡ Some text) }
{
    let mut text = Vec::new(alloc);
    append_statement(&mut text, file.statement(i))?;
    text_of(alloc, text.as_slice())
}

// These bytes as a text, which they are where each part of them came from a text.
fn text_of(alloc: Global, bytes: &[u8]) -> Result<Text, Memory>
    ensures { IfOk result (λ text. text ≡ bytes.now) }
{
    match str::from_utf8(bytes) {
        Ok(text) => Text::make(alloc, text),
        Err(_) => Err(Memory),
    }
}
