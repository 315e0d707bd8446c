//! Attributes of declarations from symbols.
ghost use Rattle.std.specs.Prelude.{◌≡◌, ◌<◌, ◌++◌, [], ◌∷◌, IfErr, IfOk, map};
ghost use Rattle.cel_grammar.specs.Views.{column_of};
ghost use Rattle.cel_parser.specs.Columns.{columns_after, columns_behind};
ghost use Rattle.cel_parser.specs.ReturnsReading.{ReturnsReading};
ghost use Rattle.cel_parser.specs.GrammarSymbols.{grammar_symbol_of};
ghost use Rattle.cel_parser.specs.Numbers.{counted};
ghost use Rattle.cel_parser.specs.StatementReader.{column_at, columns_at, dec_of, kind_at};

use crate::literals::name_text;
use crate::numbers::plain;
use crate::reading::{Reading, Symbols};
use crate::symbol::Symbol;
use crate::unread::Unread;
use cel_grammar::{Attr, Attrs};
use event_types::Kind;
use std::alloc::Global;

// The most places of a decimal.
const MOST_PLACES: i128 = 18;

/// Names with their kinds, between commas, and the symbols behind them.
#[tactic(auto, using(crate::proofs::ColumnNext::columns_alone))]
pub(crate) fn read_columns<'a>(
    alloc: Global,
    fuel: usize,
    symbols: Symbols<'a>,
) -> Reading<'a, Attrs>
    ensures { ReturnsReading (λ p. (map column_of p.0, map grammar_symbol_of p.1.now)) result (columns_at fuel (map grammar_symbol_of symbols.now)) }
{
    more_columns(alloc, fuel, Attrs::new(alloc), symbols)
}

// Columns, with those that stand before them.
#[cycle(columns)]
#[tactic(auto, using(crate::proofs::ColumnNext::columns_after_next, crate::proofs::ColumnNext::columns_after_none))]
fn more_columns<'a>(
    alloc: Global,
    fuel: usize,
    columns: Attrs,
    symbols: Symbols<'a>,
) -> Reading<'a, Attrs>
    ensures { ReturnsReading (λ p. (map column_of p.0, map grammar_symbol_of p.1.now)) result (columns_after fuel (map column_of columns) (map grammar_symbol_of symbols.now)) }
{
    if fuel == 0 {
        return Err(Unread::Bad);
    }
    let (column, rest) = read_column(alloc, symbols)?;
    let columns = with_column(columns, column)?;
    go_on_columns(alloc, fuel - 1, columns, rest)
}

// Columns that may go on behind a comma.
#[cycle(columns)]
#[tactic(auto, unfolding(crate::specs::Columns::columns_behind))]
fn go_on_columns<'a>(
    alloc: Global,
    fuel: usize,
    columns: Attrs,
    symbols: Symbols<'a>,
) -> Reading<'a, Attrs>
    ensures { ReturnsReading (λ p. (map column_of p.0, map grammar_symbol_of p.1.now)) result (columns_behind fuel (map column_of columns) (map grammar_symbol_of symbols.now)) }
{
    if fuel == 0 {
        return Err(Unread::Bad);
    }
    match symbols {
        [Symbol::Comma, rest @ ..] => more_columns(alloc, fuel - 1, columns, rest),
        _ => Ok((columns, symbols)),
    }
}

fn with_column(mut columns: Attrs, column: Attr) -> Result<Attrs, Unread>
    ensures ok { IfOk result (λ longer. map column_of longer ≡ map column_of columns ++ column_of column ∷ []) }
    ensures memory { IfErr result (λ fault. fault ≡ Unread.Memory) }
{
    columns.add(column)?;
    Ok(columns)
}

// A name and its kind.
#[tactic(auto, unfolding(crate::specs::StatementReader::column_at))]
fn read_column<'a>(alloc: Global, symbols: Symbols<'a>) -> Reading<'a, Attr>
    ensures { ReturnsReading (λ p. (column_of p.0, map grammar_symbol_of p.1.now)) result (column_at (map grammar_symbol_of symbols.now)) }
{
    match symbols {
        [Symbol::Name(name), rest @ ..] => {
            let (kind, rest) = read_kind(rest)?;
            let name = name_text(alloc, name)?;
            Ok((Attr { name, kind }, rest))
        }
        _ => Err(Unread::Bad),
    }
}

// INT, TEXT, or DEC and its places.
#[tactic(auto, unfolding(crate::specs::StatementReader::kind_at))]
fn read_kind<'a>(symbols: Symbols<'a>) -> Reading<'a, Kind>
    ensures { ReturnsReading (λ p. (p.0, map grammar_symbol_of p.1.now)) result (kind_at (map grammar_symbol_of symbols.now)) }
{
    match symbols {
        [Symbol::Int, rest @ ..] => Ok((Kind::Int, rest)),
        [Symbol::Text, rest @ ..] => Ok((Kind::Text, rest)),
        [Symbol::Name(name), Symbol::Number(places), rest @ ..] => {
            Ok((decimal(name, *places)?, rest))
        }
        _ => Err(Unread::Bad),
    }
}

// The kind of a name and a number, which is DEC with at most 18 places.
#[tactic(auto, unfolding(crate::specs::StatementReader::dec_of))]
fn decimal(name: &str, number: i128) -> Result<Kind, Unread>
    ensures { ReturnsReading (λ k. k) result (dec_of name.now (counted number)) }
{
    let places = plain(number);
    if name != "DEC" || places > MOST_PLACES {
        return Err(Unread::Bad);
    }
    Ok(Kind::Dec(places as u8))
}
