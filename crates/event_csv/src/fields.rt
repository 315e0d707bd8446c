//! The fields of an event line, one after another.
ghost use Rattle.std.specs.Prelude.{◌≡◌, ◌==◌, ◌∷◌, [], Some, length, count_by, IfOk, MatchOption, option_map, false, true, ◌<◌};
ghost use Rattle.std.specs.List.{list_all, position_or_len};
ghost use Rattle.csv.specs.Reading.{strip_bom};
ghost use Rattle.csv.specs.Records.{fields_of};
ghost use Rattle.event_csv.specs.Fields.{comma, fields_left, is_plain as plain_byte, line_fields, parts_left, parts_of};

use csv::{ReaderBuilder, StringRecord, Terminator};
use event_types::Memory;
use std::alloc::Global;

/// The fields that are still to come: of the rest of a line without quotes, or of a record from a place on.
#[derive(Clone, Copy)]
pub(crate) enum Fields<'a> {
    Line(Option<&'a str>),
    Row(&'a StringRecord, usize),
}

impl<'a> Fields<'a> {
    /// How many there are.
    pub(crate) fn count(&self) -> usize
        ensures { result ≡ length (fields_left self.now) }
    {
        match self {
            Fields::Line(rest) => count_of(*rest),
            Fields::Row(row, place) => row.len().saturating_sub(*place),
        }
    }

    /// Takes the next field, if there is one.
    pub(crate) fn next(&mut self) -> Option<&'a str>
        ensures { MatchOption result ((fields_left self.old ≡ []) × (fields_left self.new ≡ []))
            (λ field. fields_left self.old ≡ field.now ∷ fields_left self.new) }
    {
        match self {
            Fields::Line(rest) => {
                let text = (*rest)?;
                let (field, left) = cut(text);
                *rest = left;
                Some(field)
            }
            Fields::Row(row, place) => match row.get(*place) {
                None => None,
                Some(field) => {
                    *place += 1;
                    Some(field)
                }
            },
        }
    }
}

// The text before the first comma, and that behind it, if there is a comma.
fn cut(text: &str) -> (&str, Option<&str>)
    ensures { parts_of text.now ≡ result.0.now ∷ parts_left (option_map (λ s. s.now) result.1) }
{
    let end = place_of(b',', text.as_bytes());
    if end < text.len() {
        (&text[..end], Some(&text[end + 1..]))
    } else {
        (text, None)
    }
}

/// The first place of a byte, or the length where it doesn't stand in the text.
pub(crate) fn place_of(wanted: u8, text: &[u8]) -> usize
    ensures { result ≡ position_or_len (λ b. b == wanted) text.now }
{
    for (place, byte) in text.iter().enumerate() {
        if *byte == wanted {
            return place;
        }
    }
    text.len()
}

// The number of fields of the rest of a line, if there is a rest.
fn count_of(rest: Option<&str>) -> usize
    ensures { result ≡ length (parts_left (option_map (λ s. s.now) rest.entry)) }
{
    match rest {
        None => 0,
        Some(text) => commas(text.as_bytes()) + 1,
    }
}

fn commas(text: &[u8]) -> usize
    ensures { result ≡ count_by (λ b. b == comma) text.now }
{
    text.iter().filter(|byte| **byte == b',').count()
}

/// Whether a line has neither quotes nor a mark, so that its fields stand between its commas.
pub(crate) fn is_plain(line: &[u8]) -> bool
    requires { 0 < length line.now }
    ensures { result ≡ true → line_fields line.now ≡ Some (parts_of line.now) }
{
    !may_have_mark(line) && has_no_quote(line)
}

/// Whether a line may begin with a mark.
pub(crate) fn may_have_mark(line: &[u8]) -> bool
    ensures { result ≡ false → strip_bom line.now ≡ line.now }
{
    match line {
        [first, ..] => *first == 0xEF,
        [] => false,
    }
}

// Whether no byte is a quote or a line feed.
fn has_no_quote(line: &[u8]) -> bool
    ensures { result ≡ list_all plain_byte line.now }
{
    line.iter().all(|byte| !(*byte == b'"' || *byte == b'\n'))
}

/// The record of a line by itself, if it has one.
pub(crate) fn record_of(alloc: Global, line: &[u8]) -> Result<Option<StringRecord>, Memory>
    ensures { IfOk result (λ found. option_map fields_of found ≡ line_fields line.now) }
{
    let mut reader = ReaderBuilder::new()
        .has_headers(false)
        .terminator(Terminator::Any(b'\n'))
        .from_reader(alloc, line);
    let mut row = StringRecord::new(alloc);
    match reader.read_record(&mut row) {
        Ok(true) => Ok(Some(row)),
        Ok(false) => Ok(None),
        Err(_) => Err(Memory),
    }
}
