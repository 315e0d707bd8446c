//! The fields of a result line.
ghost use Rattle.std.specs.Prelude.{◌≡◌, ◌<◌, ◌++◌, ◌∷◌, [], OnOk, decimal};
ghost use Rattle.std.specs.Fmt.{signed_decimal};
ghost use Rattle.csv.specs.Writing.{fields_written, writer_setup};
ghost use Rattle.result_text.specs.Written.{any_width, bytes_of};
ghost use Rattle.semantics.specs.Report.{decimal_text, quoted, value_text};

use crate::decimals::append_decimal;
use csv::Writer;
use event_types::{Memory, Value};
use itoa::Buffer;
use std::alloc::Global;

/// Writes the first field of a line.
pub(crate) fn start(writer: &mut Writer<Vec<u8>>, field: &[u8]) -> Result<(), Memory>
    requires setup { writer_setup writer.old ≡ any_width }
    requires between { fields_written writer.old ≡ 0 }
    ensures bytes { OnOk result (bytes_of writer.new ≡ bytes_of writer.old ++ quoted field.now) }
    ensures setup { OnOk result (writer_setup writer.new ≡ any_width) }
    ensures begun { OnOk result (0 < fields_written writer.new) }
{
    match writer.write_field(field) {
        Ok(()) => Ok(()),
        Err(_) => Err(Memory),
    }
}

/// Writes a time as the first field.
pub(crate) fn start_time(writer: &mut Writer<Vec<u8>>, time: u64) -> Result<(), Memory>
    requires setup { writer_setup writer.old ≡ any_width }
    requires between { fields_written writer.old ≡ 0 }
    ensures bytes { OnOk result (bytes_of writer.new ≡ bytes_of writer.old ++ decimal time) }
    ensures setup { OnOk result (writer_setup writer.new ≡ any_width) }
    ensures begun { OnOk result (0 < fields_written writer.new) }
{
    start(writer, Buffer::new().format(time).as_bytes())
}

/// Writes a further field of a line, behind a comma.
pub(crate) fn add(writer: &mut Writer<Vec<u8>>, field: &[u8]) -> Result<(), Memory>
    requires setup { writer_setup writer.old ≡ any_width }
    requires begun { 0 < fields_written writer.old }
    ensures bytes { OnOk result (bytes_of writer.new ≡ bytes_of writer.old ++ 44 ∷ quoted field.now) }
    ensures setup { OnOk result (writer_setup writer.new ≡ any_width) }
    ensures several { OnOk result (1 < fields_written writer.new) }
{
    match writer.write_field(field) {
        Ok(()) => Ok(()),
        Err(_) => Err(Memory),
    }
}

/// Writes a value as a further field.
pub(crate) fn add_value(
    alloc: Global,
    writer: &mut Writer<Vec<u8>>,
    value: &Value,
) -> Result<(), Memory>
    requires setup { writer_setup writer.old ≡ any_width }
    requires begun { 0 < fields_written writer.old }
    ensures bytes { OnOk result (bytes_of writer.new ≡ bytes_of writer.old ++ 44 ∷ value_text value.now) }
    ensures setup { OnOk result (writer_setup writer.new ≡ any_width) }
    ensures several { OnOk result (1 < fields_written writer.new) }
{
    match value {
        Value::Int(number) => add_number(writer, *number),
        Value::Over => add(writer, b"OVER"),
        Value::Text(text) => add(writer, text.as_str().as_bytes()),
        Value::Dec { scale, units } => add_decimal(alloc, writer, *scale, *units),
    }
}

// Writes a number as a further field.
fn add_number(writer: &mut Writer<Vec<u8>>, number: i128) -> Result<(), Memory>
    requires setup { writer_setup writer.old ≡ any_width }
    requires begun { 0 < fields_written writer.old }
    ensures bytes { OnOk result (bytes_of writer.new ≡ bytes_of writer.old ++ 44 ∷ signed_decimal number) }
    ensures setup { OnOk result (writer_setup writer.new ≡ any_width) }
    ensures several { OnOk result (1 < fields_written writer.new) }
{
    add(writer, Buffer::new().format(number).as_bytes())
}

// Writes a decimal as a further field.
fn add_decimal(
    alloc: Global,
    writer: &mut Writer<Vec<u8>>,
    scale: u8,
    units: i128,
) -> Result<(), Memory>
    requires setup { writer_setup writer.old ≡ any_width }
    requires begun { 0 < fields_written writer.old }
    ensures bytes { OnOk result (bytes_of writer.new ≡ bytes_of writer.old ++ 44 ∷ decimal_text scale units) }
    ensures setup { OnOk result (writer_setup writer.new ≡ any_width) }
    ensures several { OnOk result (1 < fields_written writer.new) }
{
    let mut text = Vec::new(alloc);
    append_decimal(&mut text, scale, units)?;
    add(writer, text.as_slice())
}

/// Writes a time as a further field.
pub(crate) fn add_time(writer: &mut Writer<Vec<u8>>, time: u64) -> Result<(), Memory>
    requires setup { writer_setup writer.old ≡ any_width }
    requires begun { 0 < fields_written writer.old }
    ensures bytes { OnOk result (bytes_of writer.new ≡ bytes_of writer.old ++ 44 ∷ decimal time) }
    ensures setup { OnOk result (writer_setup writer.new ≡ any_width) }
    ensures several { OnOk result (1 < fields_written writer.new) }
{
    add(writer, Buffer::new().format(time).as_bytes())
}

/// Ends a line of several fields.
pub(crate) fn end(writer: &mut Writer<Vec<u8>>) -> Result<(), Memory>
    requires setup { writer_setup writer.old ≡ any_width }
    requires several { 1 < fields_written writer.old }
    ensures bytes { OnOk result (bytes_of writer.new ≡ bytes_of writer.old ++ 10 ∷ []) }
    ensures setup { OnOk result (writer_setup writer.new ≡ any_width) }
    ensures between { OnOk result (fields_written writer.new ≡ 0) }
{
    match writer.end_record() {
        Ok(()) => Ok(()),
        Err(_) => Err(Memory),
    }
}
