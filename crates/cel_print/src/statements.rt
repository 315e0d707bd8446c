//! The lines of statements.
ghost use Rattle.std.specs.Prelude.{◌≡◌, ◌++◌, OnOk, codes, map};
ghost use Rattle.std.specs.List.{flat_map};
ghost use Rattle.event_types.specs.KindWord.{kind_word};
ghost use Rattle.cel_grammar.specs.Views.{column_of, statement_of};
ghost use Rattle.cel_print.specs.Parts.{column_text, columns_text};
ghost use Rattle.cel_print.specs.Spelled.{line_of};

use crate::appending::append;
use crate::items::append_items;
use crate::places::SourcePlace;
use crate::sources::append_source;
use cel_grammar::{Attr, Statement};
use event_types::{Kind, Memory};
use itoa::Buffer;

/// Puts the line of a statement behind a text.
pub(crate) fn append_statement(text: &mut Vec<u8>, statement: &Statement) -> Result<(), Memory>
    ensures { OnOk result (text.new.items ≡ text.old.items ++ line_of (statement_of statement.now)) }
{
    match statement {
        Statement::Stream { name, attrs } => {
            append(text, b"STREAM ")?;
            append(text, name.as_str().as_bytes())?;
            append(text, b" (")?;
            append_attrs(text, attrs.as_slice())?;
            append(text, b");\n")
        }
        Statement::Query {
            items,
            source,
            name,
        } => {
            append(text, b"SELECT")?;
            append_items(text, items.as_slice())?;
            append(text, b" FROM ")?;
            append_source(text, SourcePlace::Source, source)?;
            append(text, b" PUBLISH ")?;
            append(text, name.as_str().as_bytes())?;
            append(text, b";\n")
        }
    }
}

// Puts declared attributes behind a text.
fn append_attrs(text: &mut Vec<u8>, attrs: &[Attr]) -> Result<(), Memory>
    ensures { OnOk result (text.new.items ≡ text.old.items ++ columns_text (map column_of attrs.now)) }
{
    match attrs {
        [] => Ok(()),
        [first, rest @ ..] => {
            append_attr(text, first)?;
            append_further(text, rest)
        }
    }
}

// Puts further attributes behind the first one.
fn append_further(text: &mut Vec<u8>, attrs: &[Attr]) -> Result<(), Memory>
    ensures { OnOk result (text.new.items ≡ text.old.items ++ flat_map (λ attr. codes ", " ++ column_text (column_of attr)) attrs.now) }
{
    for attr in attrs {
        append(text, b", ")?;
        append_attr(text, attr)?;
    }
    Ok(())
}

// Puts a declared attribute behind a text.
fn append_attr(text: &mut Vec<u8>, attr: &Attr) -> Result<(), Memory>
    ensures { OnOk result (text.new.items ≡ text.old.items ++ column_text (column_of attr.now)) }
{
    append(text, attr.name.as_str().as_bytes())?;
    append(text, b" ")?;
    append_kind(text, attr.kind)
}

// Puts a kind behind a text.
fn append_kind(text: &mut Vec<u8>, kind: Kind) -> Result<(), Memory>
    ensures { OnOk result (text.new.items ≡ text.old.items ++ kind_word kind) }
{
    match kind {
        Kind::Int => append(text, b"INT"),
        Kind::Text => append(text, b"TEXT"),
        Kind::Dec(places) => {
            append(text, b"DEC ")?;
            append(text, Buffer::new().format(places).as_bytes())
        }
    }
}
