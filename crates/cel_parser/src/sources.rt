//! Sources from symbols.
ghost use Rattle.std.specs.Prelude.{◌≡◌, ◌<◌, IfOk, IfErr, MatchResult, Err, map};
ghost use Rattle.cel_grammar.specs.Trees.{Filter, Select};
ghost use Rattle.cel_grammar.specs.Views.{item_of, pred_of, source_of};
ghost use Rattle.cel_parser.specs.ReturnsReading.{ReturnsReading};
ghost use Rattle.cel_parser.specs.Links.{link_of, linked};
ghost use Rattle.cel_parser.specs.GrammarSymbols.{grammar_symbol_of};
ghost use Rattle.cel_parser.specs.Terms.{filter_at, inner_at, linked_at, selection_at, term_step};
ghost use Rattle.cel_parser.specs.SourceReader.{source_at, source_more, term_at};

use crate::items::read_items;
use crate::links::{Link, is_link, read_condition, read_link};
use crate::literals::name_text;
use crate::reading::{Reading, Symbols};
use crate::signs::{after_close, after_from};
use crate::symbol::Symbol;
use crate::unread::Unread;
use cel_grammar::{Items, RawPred, Source};
use std::alloc::Global;

/// A source at the front, and the symbols behind it.
#[cycle(source)]
#[tactic(auto, unfolding(crate::specs::SourceReader::source_at))]
pub(crate) fn read_source<'a>(
    alloc: Global,
    fuel: usize,
    symbols: Symbols<'a>,
) -> Reading<'a, Box<Source>>
    ensures { ReturnsReading (λ e. (source_of e.0.value, map grammar_symbol_of e.1.now)) result (source_at fuel (map grammar_symbol_of symbols.now)) }
{
    if fuel == 0 {
        return Err(Unread::Bad);
    }
    let (term, rest) = read_term(alloc, fuel - 1, symbols)?;
    go_on_source(alloc, fuel - 1, term, rest)
}

// A source that begins with one.
#[cycle(source)]
#[tactic(auto, using(crate::proofs::SourceNext::source_more_next, crate::proofs::SourceNext::source_more_none))]
fn go_on_source<'a>(
    alloc: Global,
    fuel: usize,
    left: Box<Source>,
    symbols: Symbols<'a>,
) -> Reading<'a, Box<Source>>
    ensures { ReturnsReading (λ e. (source_of e.0.value, map grammar_symbol_of e.1.now)) result (source_more fuel (source_of left.value) (map grammar_symbol_of symbols.now)) }
{
    if fuel == 0 {
        return Err(Unread::Bad);
    }
    if is_link(symbols) {
        return link_source(alloc, fuel - 1, left, symbols);
    }
    Ok((left, symbols))
}

// A source that goes on behind a link.
#[cycle(source)]
#[tactic(auto, unfolding(crate::specs::Terms::linked_at))]
fn link_source<'a>(
    alloc: Global,
    fuel: usize,
    left: Box<Source>,
    symbols: Symbols<'a>,
) -> Reading<'a, Box<Source>>
    ensures { ReturnsReading (λ e. (source_of e.0.value, map grammar_symbol_of e.1.now)) result (linked_at fuel (source_of left.value) (map grammar_symbol_of symbols.now)) }
{
    let (link, rest) = read_link(alloc, fuel, symbols)?;
    let (source, rest) = with_link(alloc, left, link, read_term(alloc, fuel, rest))?;
    go_on_source(alloc, fuel, source, rest)
}

// A term at the front.
#[cycle(source)]
#[tactic(auto, using(crate::proofs::SourceNext::term_next, crate::proofs::SourceNext::term_none))]
fn read_term<'a>(alloc: Global, fuel: usize, symbols: Symbols<'a>) -> Reading<'a, Box<Source>>
    ensures { ReturnsReading (λ e. (source_of e.0.value, map grammar_symbol_of e.1.now)) result (term_at fuel (map grammar_symbol_of symbols.now)) }
{
    if fuel == 0 {
        return Err(Unread::Bad);
    }
    term_by_sign(alloc, fuel - 1, symbols)
}

// A term by what it begins with.
#[cycle(source)]
#[tactic(auto, unfolding(crate::specs::Terms::term_step))]
fn term_by_sign<'a>(alloc: Global, fuel: usize, symbols: Symbols<'a>) -> Reading<'a, Box<Source>>
    ensures { ReturnsReading (λ e. (source_of e.0.value, map grammar_symbol_of e.1.now)) result (term_step fuel (map grammar_symbol_of symbols.now)) }
{
    match symbols {
        [Symbol::Name(name), rest @ ..] => Ok((named(alloc, name)?, rest)),
        [Symbol::Open, rest @ ..] => read_inner(alloc, fuel, rest),
        [Symbol::Filter, Symbol::BraceOpen, rest @ ..] => read_filter(alloc, fuel, rest),
        _ => Err(Unread::Bad),
    }
}

// What stands in a parenthesis: a SELECT or a source.
#[cycle(source)]
#[tactic(auto, unfolding(crate::specs::Terms::inner_at))]
fn read_inner<'a>(alloc: Global, fuel: usize, symbols: Symbols<'a>) -> Reading<'a, Box<Source>>
    ensures { ReturnsReading (λ e. (source_of e.0.value, map grammar_symbol_of e.1.now)) result (inner_at fuel (map grammar_symbol_of symbols.now)) }
{
    match symbols {
        [Symbol::Select, rest @ ..] => read_selection(alloc, fuel, rest),
        _ => {
            let (source, rest) = read_source(alloc, fuel, symbols)?;
            let rest = after_close(rest)?;
            Ok((source, rest))
        }
    }
}

// A SELECT behind its word.
#[cycle(source)]
#[tactic(auto, unfolding(crate::specs::Terms::selection_at))]
fn read_selection<'a>(alloc: Global, fuel: usize, symbols: Symbols<'a>) -> Reading<'a, Box<Source>>
    ensures { ReturnsReading (λ e. (source_of e.0.value, map grammar_symbol_of e.1.now)) result (selection_at fuel (map grammar_symbol_of symbols.now)) }
{
    let (items, rest) = read_items(alloc, fuel, symbols)?;
    let rest = after_from(rest)?;
    let (source, rest) = read_source(alloc, fuel, rest)?;
    let rest = after_close(rest)?;
    Ok((selected(alloc, items, source)?, rest))
}

// A FILTER behind the opening brace.
#[cycle(source)]
#[tactic(auto, unfolding(crate::specs::Terms::filter_at))]
fn read_filter<'a>(alloc: Global, fuel: usize, symbols: Symbols<'a>) -> Reading<'a, Box<Source>>
    ensures { ReturnsReading (λ e. (source_of e.0.value, map grammar_symbol_of e.1.now)) result (filter_at fuel (map grammar_symbol_of symbols.now)) }
{
    let (condition, rest) = read_condition(alloc, fuel, symbols)?;
    with_condition(alloc, condition, read_term(alloc, fuel, rest))
}

fn named(alloc: Global, name: &str) -> Result<Box<Source>, Unread>
    ensures ok { IfOk result (λ e. e.value ≡ Source.Name name.now) }
    ensures memory { IfErr result (λ fault. fault ≡ Unread.Memory) }
{
    let name = name_text(alloc, name)?;
    Ok(Box::new(alloc, Source::Name(name))?)
}

fn selected(alloc: Global, items: Items, source: Box<Source>) -> Result<Box<Source>, Unread>
    ensures ok { IfOk result (λ e. source_of e.value ≡ Select (map item_of items) (source_of source.value)) }
    ensures memory { IfErr result (λ fault. fault ≡ Unread.Memory) }
{
    Ok(Box::new(alloc, Source::Select(items, source))?)
}

// The filter of a condition and a term that was read.
fn with_condition<'a>(
    alloc: Global,
    condition: RawPred,
    read: Reading<'a, Box<Source>>,
) -> Reading<'a, Box<Source>>
    ensures { MatchResult read.entry
        (λ e. MatchResult result (λ r. (source_of r.0.value ≡ Filter (pred_of condition) (source_of e.0.value)) × (r.1.now ≡ e.1.now)) (λ fault. fault ≡ Unread.Memory))
        (λ fault. result ≡ Err fault) }
{
    let (source, rest) = read?;
    Ok((Box::new(alloc, Source::Filter(condition, source))?, rest))
}

// A source, a link and a term that was read.
fn with_link<'a>(
    alloc: Global,
    left: Box<Source>,
    link: Link,
    read: Reading<'a, Box<Source>>,
) -> Reading<'a, Box<Source>>
    ensures { MatchResult read.entry
        (λ f. MatchResult result (λ r. (source_of r.0.value ≡ linked (link_of link) (source_of left.value) (source_of f.0.value)) × (r.1.now ≡ f.1.now)) (λ fault. fault ≡ Unread.Memory))
        (λ fault. result ≡ Err fault) }
{
    let (right, rest) = read?;
    Ok((Box::new(alloc, joined(left, link, right))?, rest))
}

fn joined(left: Box<Source>, link: Link, right: Box<Source>) -> Source
    ensures { source_of result ≡ linked (link_of link) (source_of left.value) (source_of right.value) }
{
    match link {
        Link::Union => Source::Union(left, right),
        Link::Next(condition) => Source::Next(condition, left, right),
        Link::Fold(choice, goes_on, aggs) => Source::Fold(choice, goes_on, aggs, left, right),
    }
}
