//! Items of SELECT and aggregates of FOLD from symbols.
ghost use Rattle.std.specs.Prelude.{◌≡◌, ◌<◌, ◌++◌, [], ◌∷◌, IfErr, IfOk, map};
ghost use Rattle.cel_grammar.specs.Views.{agg_of, item_of};
ghost use Rattle.cel_parser.specs.ReturnsReading.{ReturnsReading};
ghost use Rattle.cel_parser.specs.Lists.{agg_at, aggs_after, aggs_behind, bare_at, full_at, is_bare, items_after, items_behind};
ghost use Rattle.cel_parser.specs.GrammarSymbols.{grammar_symbol_of};
ghost use Rattle.cel_parser.specs.SourceReader.{aggs_at, as_at, item_at, items_at, named_at};

use crate::literals::name_text;
use crate::reading::{Reading, Symbols};
use crate::scalars::read_scalar;
use crate::symbol::Symbol;
use crate::unread::Unread;
use cel_grammar::{Agg, Aggs, Item, Items, Mark, Raw};
use event_types::Text;
use std::alloc::Global;

/// Items between commas at the front, and the symbols behind them.
#[tactic(auto, using(crate::proofs::ListNext::items_alone))]
pub(crate) fn read_items<'a>(alloc: Global, fuel: usize, symbols: Symbols<'a>) -> Reading<'a, Items>
    ensures { ReturnsReading (λ p. (map item_of p.0, map grammar_symbol_of p.1.now)) result (items_at fuel (map grammar_symbol_of symbols.now)) }
{
    more_items(alloc, fuel, Items::new(alloc), symbols)
}

// Items, with those that stand before them.
#[cycle(items)]
#[tactic(auto, using(crate::proofs::ListNext::items_after_next, crate::proofs::ListNext::items_after_none))]
fn more_items<'a>(
    alloc: Global,
    fuel: usize,
    items: Items,
    symbols: Symbols<'a>,
) -> Reading<'a, Items>
    ensures { ReturnsReading (λ p. (map item_of p.0, map grammar_symbol_of p.1.now)) result (items_after fuel (map item_of items) (map grammar_symbol_of symbols.now)) }
{
    if fuel == 0 {
        return Err(Unread::Bad);
    }
    let (item, rest) = read_item(alloc, fuel - 1, symbols)?;
    let items = with_item(items, item)?;
    go_on_items(alloc, fuel - 1, items, rest)
}

// Items that may go on behind a comma.
#[cycle(items)]
#[tactic(auto, unfolding(crate::specs::Lists::items_behind))]
fn go_on_items<'a>(
    alloc: Global,
    fuel: usize,
    items: Items,
    symbols: Symbols<'a>,
) -> Reading<'a, Items>
    ensures { ReturnsReading (λ p. (map item_of p.0, map grammar_symbol_of p.1.now)) result (items_behind fuel (map item_of items) (map grammar_symbol_of symbols.now)) }
{
    if fuel == 0 {
        return Err(Unread::Bad);
    }
    match symbols {
        [Symbol::Comma, rest @ ..] => more_items(alloc, fuel - 1, items, rest),
        _ => Ok((items, symbols)),
    }
}

fn with_item(mut items: Items, item: Item) -> Result<Items, Unread>
    ensures ok { IfOk result (λ longer. map item_of longer ≡ map item_of items ++ item_of item ∷ []) }
    ensures memory { IfErr result (λ fault. fault ≡ Unread.Memory) }
{
    items.add(item)?;
    Ok(items)
}

// An item at the front.
#[tactic(auto, using(crate::proofs::ListNext::item_next))]
fn read_item<'a>(alloc: Global, fuel: usize, symbols: Symbols<'a>) -> Reading<'a, Item>
    ensures { ReturnsReading (λ p. (item_of p.0, map grammar_symbol_of p.1.now)) result (item_at fuel (map grammar_symbol_of symbols.now)) }
{
    if is_bare(symbols) {
        return read_bare(alloc, symbols);
    }
    read_full(alloc, fuel, symbols)
}

// Whether a name is all of the item at the front.
#[tactic(auto, unfolding(crate::specs::Lists::is_bare))]
fn is_bare(symbols: Symbols<'_>) -> bool
    ensures { result ≡ is_bare (map grammar_symbol_of symbols.now) }
{
    matches!(symbols, [Symbol::Name(_), Symbol::Comma | Symbol::From, ..])
}

// An attribute under its own name.
#[tactic(auto, unfolding(crate::specs::Lists::bare_at))]
fn read_bare<'a>(alloc: Global, symbols: Symbols<'a>) -> Reading<'a, Item>
    ensures { ReturnsReading (λ p. (item_of p.0, map grammar_symbol_of p.1.now)) result (bare_at (map grammar_symbol_of symbols.now)) }
{
    match symbols {
        [Symbol::Name(name), rest @ ..] => {
            let attribute = name_text(alloc, name)?;
            let own = name_text(alloc, name)?;
            Ok((Item::Named(Raw::Attr(Mark::Bare, attribute), own), rest))
        }
        _ => Err(Unread::Bad),
    }
}

// `*`, or a scalar under a name.
#[tactic(auto, unfolding(crate::specs::Lists::full_at))]
fn read_full<'a>(alloc: Global, fuel: usize, symbols: Symbols<'a>) -> Reading<'a, Item>
    ensures { ReturnsReading (λ p. (item_of p.0, map grammar_symbol_of p.1.now)) result (full_at fuel (map grammar_symbol_of symbols.now)) }
{
    match symbols {
        [Symbol::Star, rest @ ..] => Ok((Item::Star, rest)),
        _ => read_named(alloc, fuel, symbols),
    }
}

// A scalar under a name.
#[tactic(auto, unfolding(crate::specs::SourceReader::named_at))]
fn read_named<'a>(alloc: Global, fuel: usize, symbols: Symbols<'a>) -> Reading<'a, Item>
    ensures { ReturnsReading (λ p. (item_of p.0, map grammar_symbol_of p.1.now)) result (named_at fuel (map grammar_symbol_of symbols.now)) }
{
    let (value, rest) = read_scalar(alloc, fuel, symbols)?;
    let (name, rest) = read_as(alloc, rest)?;
    Ok((Item::Named(value, name), rest))
}

/// Aggregates at the front, each behind a comma, and the symbols behind them.
#[tactic(auto, using(crate::proofs::ListNext::aggs_alone))]
pub(crate) fn read_aggs<'a>(alloc: Global, fuel: usize, symbols: Symbols<'a>) -> Reading<'a, Aggs>
    ensures { ReturnsReading (λ p. (map agg_of p.0, map grammar_symbol_of p.1.now)) result (aggs_at fuel (map grammar_symbol_of symbols.now)) }
{
    more_aggs(alloc, fuel, Aggs::new(alloc), symbols)
}

// Aggregates, with those that stand before them.
#[cycle(aggregates)]
#[tactic(auto, unfolding(crate::specs::Lists::aggs_after, crate::specs::Lists::aggs_behind))]
fn more_aggs<'a>(alloc: Global, fuel: usize, aggs: Aggs, symbols: Symbols<'a>) -> Reading<'a, Aggs>
    ensures { ReturnsReading (λ p. (map agg_of p.0, map grammar_symbol_of p.1.now)) result (aggs_after fuel (map agg_of aggs) (map grammar_symbol_of symbols.now)) }
{
    if fuel == 0 {
        return Err(Unread::Bad);
    }
    match symbols {
        [Symbol::Comma, rest @ ..] => next_agg(alloc, fuel - 1, aggs, rest),
        _ => Ok((aggs, symbols)),
    }
}

// Aggregates behind a comma, with those that stand before it.
#[cycle(aggregates)]
#[tactic(auto, unfolding(crate::specs::Lists::aggs_behind))]
fn next_agg<'a>(alloc: Global, fuel: usize, aggs: Aggs, symbols: Symbols<'a>) -> Reading<'a, Aggs>
    ensures { ReturnsReading (λ p. (map agg_of p.0, map grammar_symbol_of p.1.now)) result (aggs_behind fuel (map agg_of aggs) (map grammar_symbol_of symbols.now)) }
{
    let (agg, rest) = read_agg(alloc, fuel, symbols)?;
    let aggs = with_agg(aggs, agg)?;
    more_aggs(alloc, fuel, aggs, rest)
}

fn with_agg(mut aggs: Aggs, agg: Agg) -> Result<Aggs, Unread>
    ensures ok { IfOk result (λ longer. map agg_of longer ≡ map agg_of aggs ++ agg_of agg ∷ []) }
    ensures memory { IfErr result (λ fault. fault ≡ Unread.Memory) }
{
    aggs.add(agg)?;
    Ok(aggs)
}

// An aggregate behind its comma.
#[tactic(auto, unfolding(crate::specs::Lists::agg_at))]
fn read_agg<'a>(alloc: Global, fuel: usize, symbols: Symbols<'a>) -> Reading<'a, Agg>
    ensures { ReturnsReading (λ p. (agg_of p.0, map grammar_symbol_of p.1.now)) result (agg_at fuel (map grammar_symbol_of symbols.now)) }
{
    let (value, rest) = read_scalar(alloc, fuel, symbols)?;
    let (name, rest) = read_as(alloc, rest)?;
    Ok((Agg { value, name }, rest))
}

// AS and a name.
fn read_as<'a>(alloc: Global, symbols: Symbols<'a>) -> Reading<'a, Text>
    ensures { ReturnsReading (λ p. (p.0, map grammar_symbol_of p.1.now)) result (as_at (map grammar_symbol_of symbols.now)) }
{
    match symbols {
        [Symbol::As, Symbol::Name(name), rest @ ..] => Ok((name_text(alloc, name)?, rest)),
        _ => Err(Unread::Bad),
    }
}
