//! The texts of the statuses.
ghost use Rattle.std.specs.Prelude.{◌≡◌, IfOk, string_bytes};
ghost use Rattle.cayuga_run.specs.Wording.{control_words, late_words, line_words, names_joined, query_words, text_of};

use crate::status::Status;
use catalogue::QueryFault;
use cay_host::Side;
use courses::ControlFault;
use event_csv::LineFault;
use event_types::{Memory, Names, Text};
use std::alloc::Global;

impl Status {
    /// One line without its end, as `cayuga: events line 3: field 2 is not a time`; of a job that was done,
    /// no byte.
    pub fn text(&self, alloc: Global) -> Result<Text, Memory>
        ensures { IfOk result (λ text. text ≡ text_of self.now) }
    {
        let text = written(alloc, self)?;
        Text::make(alloc, text.as_str())
    }
}

// The text of a status.
fn written(alloc: Global, status: &Status) -> Result<String, Memory>
    ensures { IfOk result (λ text. string_bytes text ≡ text_of status.now) }
{
    match status {
        Status::Done => Ok(String::new(alloc)),
        Status::Usage => Ok(format!(in alloc;
            "cayuga: usage: cayuga [--stats] run QUERIES EVENTS, check QUERIES, plan QUERIES, load SEED N"
        )?),
        Status::BadQuery { line, why } => {
            let words = query_words(alloc, why)?;
            Ok(format!(in alloc; "cayuga: queries line {line}: {words}")?)
        }
        Status::Cycle(names) => {
            let words = joined(alloc, names)?;
            Ok(format!(in alloc; "cayuga: cycle: {words}")?)
        }
        Status::BadEvent { line, why } => {
            let words = line_words(alloc, why)?;
            Ok(format!(in alloc; "cayuga: events line {line}: {words}")?)
        }
        Status::OutOfOrder { line, at, seen } => {
            let words = late_words(alloc, *at, *seen)?;
            Ok(format!(in alloc; "cayuga: events line {line}: {words}")?)
        }
        Status::AttachFault(Side::Queries) => Ok(format!(in alloc;
            "cayuga: cannot open the queries"
        )?),
        Status::AttachFault(Side::Events) => Ok(format!(in alloc;
            "cayuga: cannot open the events"
        )?),
        Status::ReadFault(Side::Queries) => Ok(format!(in alloc;
            "cayuga: cannot read the queries"
        )?),
        Status::ReadFault(Side::Events) => Ok(format!(in alloc; "cayuga: cannot read the events")?),
        Status::WriteFault => Ok(format!(in alloc; "cayuga: cannot write the results")?),
        Status::TooMuch { limit } => {
            Ok(format!(in alloc; "cayuga: more than {limit} bytes of events")?)
        }
        Status::Memory => Ok(format!(in alloc; "cayuga: no memory")?),
        Status::BadControl { line, why } => {
            let words = control_words(alloc, why)?;
            Ok(format!(in alloc; "cayuga: control line {line}: {words}")?)
        }
    }
}

// The names, joined by a comma and a space.
fn joined(alloc: Global, names: &Names) -> Result<String, Memory>
    ensures { IfOk result (λ text. string_bytes text ≡ names_joined names.now) }
{
    let mut texts = Vec::new(alloc);
    for name in names.as_slice() {
        texts.push(name.as_str())?;
    }
    Ok(texts.join(alloc, ", ")?)
}

// What is wrong with the text of the queries.
fn query_words(alloc: Global, why: &QueryFault) -> Result<String, Memory>
    ensures { IfOk result (λ words. string_bytes words ≡ query_words why.now) }
{
    match why {
        QueryFault::NotUtf8 => Ok(format!(in alloc; "not UTF-8")?),
        QueryFault::BadToken => Ok(format!(in alloc; "bad token")?),
        QueryFault::NumberPast128 => Ok(format!(in alloc; "number past 128 bits")?),
        QueryFault::TooManyTokens { number } => {
            Ok(format!(in alloc; "statement {number} has more than 1024 tokens")?)
        }
        QueryFault::TooDeep { number } => {
            Ok(format!(in alloc; "statement {number} is nested more than 64 deep")?)
        }
        QueryFault::BadStatement { number } => {
            Ok(format!(in alloc; "statement {number} is not in the grammar")?)
        }
        QueryFault::TooLong => Ok(format!(in alloc; "more than 1048576 bytes of queries")?),
        QueryFault::Reserved { name } => {
            let name = name.as_str();
            Ok(format!(in alloc; "name {name} is reserved")?)
        }
        QueryFault::Duplicate { name } => {
            let name = name.as_str();
            Ok(format!(in alloc; "name {name} is taken")?)
        }
        QueryFault::Unknown { name } => {
            let name = name.as_str();
            Ok(format!(in alloc; "stream {name} is unknown")?)
        }
        QueryFault::UnknownAttr { name } => {
            let name = name.as_str();
            Ok(format!(in alloc; "attribute {name} is unknown")?)
        }
        QueryFault::KindMismatch { want, got } => {
            Ok(format!(in alloc; "{want} wanted, {got} given")?)
        }
        QueryFault::NotAssignable { name } => {
            let name = name.as_str();
            Ok(format!(in alloc; "attribute {name} cannot be assigned")?)
        }
        QueryFault::DuplicateAttr { name } => {
            let name = name.as_str();
            Ok(format!(in alloc; "attribute {name} stands twice")?)
        }
        QueryFault::UnionMismatch { place } => {
            Ok(format!(in alloc; "union differs at attribute {place}")?)
        }
        QueryFault::TooWide { count } => {
            Ok(format!(in alloc; "{count} attributes, at most 256")?)
        }
        QueryFault::TooFine { places } => { Ok(format!(in alloc; "{places} places, at most 18")?) }
    }
}

// What is wrong with an event line.
fn line_words(alloc: Global, why: &LineFault) -> Result<String, Memory>
    ensures { IfOk result (λ words. string_bytes words ≡ line_words why.now) }
{
    match why {
        LineFault::LineTooLong => Ok(format!(in alloc; "more than 65536 bytes")?),
        LineFault::NotUtf8 => Ok(format!(in alloc; "not UTF-8")?),
        LineFault::UnknownStream => Ok(format!(in alloc; "unknown stream")?),
        LineFault::FieldCount { want, got } => {
            Ok(format!(in alloc; "{want} fields wanted, {got} given")?)
        }
        LineFault::BadTime { field } => Ok(format!(in alloc; "field {field} is not a time")?),
        LineFault::StartAfterDetection => Ok(format!(in alloc; "start after detection")?),
        LineFault::BadInt { field } => {
            Ok(format!(in alloc; "field {field} is not a whole number of 128 bits")?)
        }
        LineFault::BadDec { field, places } => {
            Ok(format!(in alloc; "field {field} is not a decimal of {places} places")?)
        }
    }
}

// What is wrong with an event that comes too late.
fn late_words(alloc: Global, at: u64, seen: u64) -> Result<String, Memory>
    ensures { IfOk result (λ words. string_bytes words ≡ late_words at seen) }
{
    if at == seen {
        Ok(format!(in alloc; "detection {at} is already closed")?)
    } else {
        Ok(format!(in alloc; "detection {at} is below {seen}")?)
    }
}

// What is wrong with a control line.
fn control_words(alloc: Global, why: &ControlFault) -> Result<String, Memory>
    ensures { IfOk result (λ words. string_bytes words ≡ control_words why.now) }
{
    match why {
        ControlFault::BadForm => Ok(format!(in alloc; "not a control line")?),
        ControlFault::Query(why) => query_words(alloc, why),
        ControlFault::UnknownQuery { name } => {
            let name = name.as_str();
            Ok(format!(in alloc; "no query {name}")?)
        }
        ControlFault::InUse { name, reader } => {
            let name = name.as_str();
            let reader = reader.as_str();
            Ok(format!(in alloc; "{name} is read by {reader}")?)
        }
        ControlFault::NotHere => Ok(format!(in alloc; "not in explain")?),
    }
}
