//! Predicates from symbols.
ghost use Rattle.std.specs.Prelude.{◌≡◌, ◌<◌, IfOk, IfErr, MatchResult, Err, map};
ghost use Rattle.cel_grammar.specs.Parens.{holds_test};
ghost use Rattle.cel_grammar.specs.Trees.{And, Or, Not};
ghost use Rattle.cel_grammar.specs.Views.{pred_of};
ghost use Rattle.cel_parser.specs.ReturnsReading.{ReturnsReading};
ghost use Rattle.cel_parser.specs.Grouping.{closed_at};
ghost use Rattle.cel_parser.specs.GrammarSymbols.{grammar_symbol_of};
ghost use Rattle.cel_parser.specs.PredicateReader.{compare_at, conj_at, conj_more, neg_at, pred_at, pred_more, prim_at, test_at};

use crate::reading::{Reading, Symbols};
use crate::scalars::read_scalar;
use crate::symbol::Symbol;
use crate::unread::Unread;
use cel_grammar::RawPred;
use event_types::Cmp;
use std::alloc::Global;

/// A predicate at the front, and the symbols behind it.
#[cycle(predicate)]
#[tactic(auto, unfolding(crate::specs::PredicateReader::pred_at))]
pub(crate) fn read_predicate<'a>(
    alloc: Global,
    fuel: usize,
    symbols: Symbols<'a>,
) -> Reading<'a, RawPred>
    ensures { ReturnsReading (λ p. (pred_of p.0, map grammar_symbol_of p.1.now)) result (pred_at fuel (map grammar_symbol_of symbols.now)) }
{
    if fuel == 0 {
        return Err(Unread::Bad);
    }
    let (p, rest) = read_conjunction(alloc, fuel - 1, symbols)?;
    go_on_predicate(alloc, fuel - 1, p, rest)
}

// A predicate that begins with p.
#[cycle(predicate)]
#[tactic(auto, unfolding(crate::specs::PredicateReader::pred_at))]
fn go_on_predicate<'a>(
    alloc: Global,
    fuel: usize,
    p: RawPred,
    symbols: Symbols<'a>,
) -> Reading<'a, RawPred>
    ensures { ReturnsReading (λ q. (pred_of q.0, map grammar_symbol_of q.1.now)) result (pred_more fuel (pred_of p) (map grammar_symbol_of symbols.now)) }
{
    if fuel == 0 {
        return Err(Unread::Bad);
    }
    match symbols {
        [Symbol::Or, rest @ ..] => {
            let (either, rest) = with_either(alloc, p, read_conjunction(alloc, fuel - 1, rest))?;
            go_on_predicate(alloc, fuel - 1, either, rest)
        }
        _ => Ok((p, symbols)),
    }
}

// A conjunction at the front.
#[cycle(predicate)]
#[tactic(auto, unfolding(crate::specs::PredicateReader::pred_at))]
fn read_conjunction<'a>(alloc: Global, fuel: usize, symbols: Symbols<'a>) -> Reading<'a, RawPred>
    ensures { ReturnsReading (λ p. (pred_of p.0, map grammar_symbol_of p.1.now)) result (conj_at fuel (map grammar_symbol_of symbols.now)) }
{
    if fuel == 0 {
        return Err(Unread::Bad);
    }
    let (p, rest) = read_negation(alloc, fuel - 1, symbols)?;
    go_on_conjunction(alloc, fuel - 1, p, rest)
}

// A conjunction that begins with p.
#[cycle(predicate)]
#[tactic(auto, unfolding(crate::specs::PredicateReader::pred_at))]
fn go_on_conjunction<'a>(
    alloc: Global,
    fuel: usize,
    p: RawPred,
    symbols: Symbols<'a>,
) -> Reading<'a, RawPred>
    ensures { ReturnsReading (λ q. (pred_of q.0, map grammar_symbol_of q.1.now)) result (conj_more fuel (pred_of p) (map grammar_symbol_of symbols.now)) }
{
    if fuel == 0 {
        return Err(Unread::Bad);
    }
    match symbols {
        [Symbol::And, rest @ ..] => {
            let (both, rest) = with_both(alloc, p, read_negation(alloc, fuel - 1, rest))?;
            go_on_conjunction(alloc, fuel - 1, both, rest)
        }
        _ => Ok((p, symbols)),
    }
}

// A negation, or what may stand in its place.
#[cycle(predicate)]
#[tactic(auto, using(crate::proofs::PredicateNext::neg_next), unfolding(crate::specs::PredicateReader::pred_at))]
fn read_negation<'a>(alloc: Global, fuel: usize, symbols: Symbols<'a>) -> Reading<'a, RawPred>
    ensures { ReturnsReading (λ p. (pred_of p.0, map grammar_symbol_of p.1.now)) result (neg_at fuel (map grammar_symbol_of symbols.now)) }
{
    if fuel == 0 {
        return Err(Unread::Bad);
    }
    match symbols {
        [Symbol::Not, rest @ ..] => {
            let (p, rest) = read_negation(alloc, fuel - 1, rest)?;
            Ok((negated(alloc, p)?, rest))
        }
        _ => read_primary(alloc, fuel - 1, symbols),
    }
}

// TRUE, a comparison, or a predicate in parentheses.
#[cycle(predicate)]
#[tactic(auto, using(crate::proofs::PredicateNext::prim_next), unfolding(crate::specs::PredicateReader::pred_at))]
fn read_primary<'a>(alloc: Global, fuel: usize, symbols: Symbols<'a>) -> Reading<'a, RawPred>
    ensures { ReturnsReading (λ p. (pred_of p.0, map grammar_symbol_of p.1.now)) result (prim_at fuel (map grammar_symbol_of symbols.now)) }
{
    if fuel == 0 {
        return Err(Unread::Bad);
    }
    match symbols {
        [Symbol::True, rest @ ..] => Ok((RawPred::True, rest)),
        [Symbol::Open, rest @ ..] => {
            if has_test(rest) {
                let (p, rest) = read_predicate(alloc, fuel - 1, rest)?;
                closed(p, rest)
            } else {
                read_test(alloc, fuel - 1, symbols)
            }
        }
        _ => read_test(alloc, fuel - 1, symbols),
    }
}

// Two scalars with a comparison between them.
#[tactic(auto, unfolding(crate::specs::PredicateReader::test_at))]
fn read_test<'a>(alloc: Global, fuel: usize, symbols: Symbols<'a>) -> Reading<'a, RawPred>
    ensures { ReturnsReading (λ p. (pred_of p.0, map grammar_symbol_of p.1.now)) result (test_at fuel (map grammar_symbol_of symbols.now)) }
{
    let (x, rest) = read_scalar(alloc, fuel, symbols)?;
    let (comparison, rest) = read_comparison(rest)?;
    let (y, rest) = read_scalar(alloc, fuel, rest)?;
    Ok((RawPred::Test(x, comparison, y), rest))
}

fn read_comparison<'a>(symbols: Symbols<'a>) -> Reading<'a, Cmp>
    ensures { ReturnsReading (λ p. (p.0, map grammar_symbol_of p.1.now)) result (compare_at (map grammar_symbol_of symbols.now)) }
{
    match symbols {
        [Symbol::Compare(comparison), rest @ ..] => Ok((*comparison, rest)),
        _ => Err(Unread::Bad),
    }
}

// Whether a comparison, TRUE, NOT, AND or OR stands before the open parenthesis closes.
#[tactic(auto, using(crate::proofs::PredicateNext::holds_next))]
fn has_test(symbols: &[Symbol<'_>]) -> bool
    ensures { result ≡ holds_test 0 (map grammar_symbol_of symbols.now) }
{
    let mut open: usize = 0;
    for symbol in symbols {
        match symbol {
            Symbol::Open => open += 1,
            Symbol::Close => {
                if open == 0 {
                    return false;
                }
                open -= 1;
            }
            Symbol::Compare(_) | Symbol::True | Symbol::Not | Symbol::And | Symbol::Or =>
                return true,
            _ => {}
        }
    }
    false
}

// The conjunction of a predicate and one that was read.
fn with_both<'a>(alloc: Global, p: RawPred, read: Reading<'a, RawPred>) -> Reading<'a, RawPred>
    ensures { MatchResult read.entry
        (λ q. MatchResult result (λ r. (pred_of r.0 ≡ And (pred_of p) (pred_of q.0)) × (r.1.now ≡ q.1.now)) (λ fault. fault ≡ Unread.Memory))
        (λ fault. result ≡ Err fault) }
{
    let (q, rest) = read?;
    Ok((RawPred::And(Box::new(alloc, p)?, Box::new(alloc, q)?), rest))
}

// The disjunction of a predicate and one that was read.
fn with_either<'a>(alloc: Global, p: RawPred, read: Reading<'a, RawPred>) -> Reading<'a, RawPred>
    ensures { MatchResult read.entry
        (λ q. MatchResult result (λ r. (pred_of r.0 ≡ Or (pred_of p) (pred_of q.0)) × (r.1.now ≡ q.1.now)) (λ fault. fault ≡ Unread.Memory))
        (λ fault. result ≡ Err fault) }
{
    let (q, rest) = read?;
    Ok((RawPred::Or(Box::new(alloc, p)?, Box::new(alloc, q)?), rest))
}

fn negated(alloc: Global, p: RawPred) -> Result<RawPred, Unread>
    ensures ok { IfOk result (λ q. pred_of q ≡ Not (pred_of p)) }
    ensures memory { IfErr result (λ fault. fault ≡ Unread.Memory) }
{
    Ok(RawPred::Not(Box::new(alloc, p)?))
}

// A predicate that was read, where its parenthesis closes.
fn closed<'a>(p: RawPred, symbols: Symbols<'a>) -> Reading<'a, RawPred>
    ensures { ReturnsReading (λ q. (pred_of q.0, map grammar_symbol_of q.1.now)) result (closed_at (pred_of p) (map grammar_symbol_of symbols.now)) }
{
    match symbols {
        [Symbol::Close, rest @ ..] => Ok((p, rest)),
        _ => Err(Unread::Bad),
    }
}
