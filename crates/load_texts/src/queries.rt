//! The query text.
ghost use Rattle.std.specs.Prelude.{◌≡◌, ◌++◌, ◌<◌, ◌≤◌, ◌%◌, IfOk, OnOk, string_bytes};
ghost use Rattle.load_texts.specs.QueryText.{query_count, query_line, query_text, selection};

use event_types::{Memory, Text};
use std::alloc::Global;

/// A query for each 400 events that were begun.
pub fn query_count(events: u64) -> u64
    requires { 0 < events }
    ensures { result ≡ query_count events }
{
    1 + (events - 1) / 400
}

/// The query text for so many events: a stream, and queries of four kinds over it and over one another.
pub fn query_text(alloc: Global, events: u64) -> Result<Text, Memory>
    requires some { 0 < events }
    requires few { events ≤ 200000 }
    ensures { IfOk result (λ text. text ≡ query_text events) }
{
    let mut text = format!(in alloc; "STREAM Stock (Name TEXT, Price INT, Volume INT);\n")?;
    for place in 0..query_count(events) {
        let selection = selection(alloc, place)?;
        let line = format!(in alloc; "{selection} PUBLISH Q{place};\n")?;
        text.push_str(&line)?;
    }
    Text::make(alloc, &text)
}

// What the query at a place selects.
fn selection(alloc: Global, place: u64) -> Result<String, Memory>
    requires { place < 200000 }
    ensures { IfOk result (λ text. string_bytes text ≡ selection place) }
{
    match place % 4 {
        0 => {
            let least = 7000 + 6 * place;
            Ok(format!(in alloc; "SELECT * FROM FILTER {{Price >= {least}}} Stock")?)
        }
        1 => Ok(format!(in alloc;
            "SELECT Name, Price, Price_2 FROM FILTER {{Name = 'S{place}'}} Stock NEXT {{$2.Name = $1.Name AND DUR <= 2000}} Stock"
        )?),
        2 => {
            let before = place - 1;
            Ok(format!(in alloc;
                "SELECT Name, Price FROM FILTER {{Name = 'S{before}'}} Stock FOLD {{$2.Name = $.Name, $2.Price < $.Price, $2.Price AS Price}} Stock"
            )?)
        }
        _ => {
            let before = place - 1;
            Ok(format!(in alloc;
                "SELECT * FROM Q{before} NEXT {{$2.Name = $1.Name AND $2.Price > $1.Price}} Stock"
            )?)
        }
    }
}
