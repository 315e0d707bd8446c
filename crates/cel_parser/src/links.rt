//! Links between the terms of a source from symbols.
ghost use Rattle.std.specs.Prelude.{◌≡◌, map};
ghost use Rattle.cel_grammar.specs.Views.{pred_of};
ghost use Rattle.cel_parser.specs.ReturnsReading.{ReturnsReading};
ghost use Rattle.cel_parser.specs.Links.{condition_at, fold_at, is_link, link_at, link_of, next_at};
ghost use Rattle.cel_parser.specs.GrammarSymbols.{grammar_symbol_of};

use crate::items::read_aggs;
use crate::predicates::read_predicate;
use crate::reading::{Reading, Symbols};
use crate::signs::{after_brace, after_comma};
use crate::symbol::Symbol;
use crate::unread::Unread;
use cel_grammar::{Aggs, RawPred};
use std::alloc::Global;

/// UNION, NEXT with its condition, or FOLD with its two conditions and its aggregates.
#[derive(Drop)]
pub(crate) enum Link {
    Union,
    Next(RawPred),
    Fold(RawPred, RawPred, Aggs),
}

/// Whether a link stands at the front.
#[tactic(auto, unfolding(crate::specs::Links::is_link))]
pub(crate) fn is_link(symbols: Symbols<'_>) -> bool
    ensures { result ≡ is_link (map grammar_symbol_of symbols.now) }
{
    matches!(
        symbols,
        [Symbol::Union, ..] | [Symbol::Next, ..] | [Symbol::Fold, Symbol::BraceOpen, ..]
    )
}

/// A link at the front, and the symbols behind it.
#[tactic(auto, unfolding(crate::specs::Links::link_at))]
pub(crate) fn read_link<'a>(alloc: Global, fuel: usize, symbols: Symbols<'a>) -> Reading<'a, Link>
    ensures { ReturnsReading (λ k. (link_of k.0, map grammar_symbol_of k.1.now)) result (link_at fuel (map grammar_symbol_of symbols.now)) }
{
    match symbols {
        [Symbol::Union, rest @ ..] => Ok((Link::Union, rest)),
        [Symbol::Next, rest @ ..] => read_next(alloc, fuel, rest),
        [Symbol::Fold, Symbol::BraceOpen, rest @ ..] => read_fold(alloc, fuel, rest),
        _ => Err(Unread::Bad),
    }
}

/// A condition behind its opening brace.
#[tactic(auto, unfolding(crate::specs::Links::condition_at))]
pub(crate) fn read_condition<'a>(
    alloc: Global,
    fuel: usize,
    symbols: Symbols<'a>,
) -> Reading<'a, RawPred>
    ensures { ReturnsReading (λ p. (pred_of p.0, map grammar_symbol_of p.1.now)) result (condition_at fuel (map grammar_symbol_of symbols.now)) }
{
    let (condition, rest) = read_predicate(alloc, fuel, symbols)?;
    let rest = after_brace(rest)?;
    Ok((condition, rest))
}

// The condition of NEXT, which may be left out.
#[tactic(auto, unfolding(crate::specs::Links::next_at))]
fn read_next<'a>(alloc: Global, fuel: usize, symbols: Symbols<'a>) -> Reading<'a, Link>
    ensures { ReturnsReading (λ k. (link_of k.0, map grammar_symbol_of k.1.now)) result (next_at fuel (map grammar_symbol_of symbols.now)) }
{
    match symbols {
        [Symbol::BraceOpen, rest @ ..] => {
            let (condition, rest) = read_condition(alloc, fuel, rest)?;
            Ok((Link::Next(condition), rest))
        }
        _ => Ok((Link::Next(RawPred::True), symbols)),
    }
}

// The conditions and aggregates of FOLD behind the opening brace.
#[tactic(auto, unfolding(crate::specs::Links::fold_at))]
fn read_fold<'a>(alloc: Global, fuel: usize, symbols: Symbols<'a>) -> Reading<'a, Link>
    ensures { ReturnsReading (λ k. (link_of k.0, map grammar_symbol_of k.1.now)) result (fold_at fuel (map grammar_symbol_of symbols.now)) }
{
    let (choice, rest) = read_predicate(alloc, fuel, symbols)?;
    let rest = after_comma(rest)?;
    let (goes_on, rest) = read_predicate(alloc, fuel, rest)?;
    let (aggs, rest) = read_aggs(alloc, fuel, rest)?;
    let rest = after_brace(rest)?;
    Ok((Link::Fold(choice, goes_on, aggs), rest))
}
