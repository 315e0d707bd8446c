//! The field at the front of those that are left of a line, whatever it has around it and in it, copied off without the
//! reader of `csv`.
ghost use Rattle.std.specs.Prelude.{option_map, string_bytes, IfSome};
ghost use Rattle.event_csv.specs.Quick.{EndsField, IsFirst, IsQuoted};

use crate::front::{behind_quote, take_piece, take_rest};
use std::alloc::Global;

/// The field at the front and those behind it. Only one whose last quote is missing is left.
pub(crate) fn take_any(alloc: Global, text: &[u8]) -> Option<(String, Option<&[u8]>)>
    ensures { IfSome result (λ r. IsFirst text.now (string_bytes r.0) (option_map (λ s. s.now) r.1)) }
{
    match behind_quote(text) {
        Some(behind) => take_any_quoted(alloc, behind),
        None => take_end(String::new(alloc), text),
    }
}

// The same of a field whose first quote is gone: its pieces between doubled quotes, and what stands behind its last quote.
fn take_any_quoted(alloc: Global, text: &[u8]) -> Option<(String, Option<&[u8]>)>
    ensures { IfSome result (λ r. IsQuoted text.now (string_bytes r.0) (option_map (λ s. s.now) r.1)) }
{
    let mut field = String::new(alloc);
    let mut rest = text;
    'pieces: loop {
        let (piece, behind) = take_piece(rest)?;
        match field.push_str(piece) {
            Err(_) => return None,
            Ok(()) => {}
        }
        match behind_quote(behind) {
            None => return take_end(field, behind),
            Some(more) => match field.push('"') {
                Err(_) => return None,
                Ok(()) => rest = more,
            },
        }
    }
}

// The field that goes on without quotes, and the fields behind it.
fn take_end(field: String, text: &[u8]) -> Option<(String, Option<&[u8]>)>
    ensures { IfSome result (λ r. EndsField text.now (string_bytes field) (string_bytes r.0) (option_map (λ s. s.now) r.1)) }
{
    let mut field = field;
    let (more, left) = take_rest(text)?;
    match field.push_str(more) {
        Err(_) => None,
        Ok(()) => Some((field, left)),
    }
}
