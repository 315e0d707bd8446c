//! The line of a query.
ghost use Rattle.std.specs.Prelude.{◌≡◌, ◌++◌, OnOk, string_bytes};
ghost use Rattle.plan_text.specs.Parts.{gap};
ghost use Rattle.plan_text.specs.Plan.{plan_line};
ghost use Rattle.plan_text.specs.Texts.{attribute_text, listed, schema_text};

use event_types::{Kind, Memory, Names};
use stream_schema::Schema;

/// Puts the line of a query behind a text: the name and the schema of its stream, and what it reads.
pub(crate) fn append_line(
    text: &mut String,
    name: &str,
    schema: &Schema,
    reads: &Names,
) -> Result<(), Memory>
    ensures { OnOk result (string_bytes text.new ≡ string_bytes text.old ++ plan_line name.now schema.now reads.now) }
{
    append(text, name)?;
    append(text, " ")?;
    append_schema(text, schema)?;
    append(text, " <- ")?;
    append_names(text, reads)?;
    append(text, "\n")
}

// Puts a schema behind a text, as `(Name TEXT, Price INT)`.
fn append_schema(text: &mut String, schema: &Schema) -> Result<(), Memory>
    ensures { OnOk result (string_bytes text.new ≡ string_bytes text.old ++ schema_text schema.now) }
{
    append(text, "(")?;
    for place in 0..schema.size() {
        append_gap(text, place)?;
        append_attribute(text, schema.name(place), schema.kind(place))?;
    }
    append(text, ")")
}

// Puts an attribute behind a text.
fn append_attribute(text: &mut String, name: &str, kind: Kind) -> Result<(), Memory>
    ensures { OnOk result (string_bytes text.new ≡ string_bytes text.old ++ attribute_text (record { name = name.now; kind = kind })) }
{
    append(text, name)?;
    write!(text, " {kind}")?;
    Ok(())
}

// Puts names behind a text, between commas.
fn append_names(text: &mut String, names: &Names) -> Result<(), Memory>
    ensures { OnOk result (string_bytes text.new ≡ string_bytes text.old ++ listed names.now) }
{
    for place in 0..names.len() {
        append_gap(text, place)?;
        append(text, names.get(place).as_str())?;
    }
    Ok(())
}

// Puts the comma before the item at a place behind a text; the first one has none.
fn append_gap(text: &mut String, place: usize) -> Result<(), Memory>
    ensures { OnOk result (string_bytes text.new ≡ string_bytes text.old ++ gap place) }
{
    if place == 0 {
        Ok(())
    } else {
        append(text, ", ")
    }
}

// Puts a piece behind a text.
fn append(text: &mut String, piece: &str) -> Result<(), Memory>
    ensures { OnOk result (string_bytes text.new ≡ string_bytes text.old ++ piece.now) }
{
    text.push_str(piece)?;
    Ok(())
}
