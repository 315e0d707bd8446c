//! Scalars from symbols.
ghost use Rattle.std.specs.Prelude.{◌≡◌, ◌<◌, IfOk, IfErr, map};
ghost use Rattle.cel_grammar.specs.Trees.{Decimal, Two};
ghost use Rattle.cel_grammar.specs.Views.{scalar_of};
ghost use Rattle.cel_parser.specs.ReturnsReading.{ReturnsReading};
ghost use Rattle.cel_parser.specs.Operations.{op_of};
ghost use Rattle.cel_parser.specs.GrammarSymbols.{grammar_symbol_of};
ghost use Rattle.cel_parser.specs.ScalarReader.{both_at, factor_at, name_at, number_at, product_at, product_more, scalar_at, scalar_more};

use crate::literals::{literal_text, name_text};
use crate::numbers::plain;
use crate::reading::{Reading, Symbols};
use crate::signs::{after_close, after_comma, after_open};
use crate::symbol::Symbol;
use crate::unread::Unread;
use cel_grammar::{Mark, Raw};
use std::alloc::Global;

/// A scalar at the front, and the symbols behind it.
#[cycle(scalar)]
#[tactic(auto, unfolding(crate::specs::ScalarReader::scalar_at))]
pub(crate) fn read_scalar<'a>(alloc: Global, fuel: usize, symbols: Symbols<'a>) -> Reading<'a, Raw>
    ensures { ReturnsReading (λ p. (scalar_of p.0, map grammar_symbol_of p.1.now)) result (scalar_at fuel (map grammar_symbol_of symbols.now)) }
{
    if fuel == 0 {
        return Err(Unread::Bad);
    }
    let (x, rest) = read_product(alloc, fuel - 1, symbols)?;
    go_on_scalar(alloc, fuel - 1, x, rest)
}

// A scalar that begins with x.
#[cycle(scalar)]
#[tactic(auto, unfolding(crate::specs::ScalarReader::scalar_at))]
fn go_on_scalar<'a>(alloc: Global, fuel: usize, x: Raw, symbols: Symbols<'a>) -> Reading<'a, Raw>
    ensures { ReturnsReading (λ p. (scalar_of p.0, map grammar_symbol_of p.1.now)) result (scalar_more fuel (scalar_of x) (map grammar_symbol_of symbols.now)) }
{
    if fuel == 0 {
        return Err(Unread::Bad);
    }
    match symbols {
        [Symbol::Plus, rest @ ..] => {
            let (more, rest) = read_product(alloc, fuel - 1, rest)?;
            let sum = joined(alloc, Operation::Add, x, more)?;
            go_on_scalar(alloc, fuel - 1, sum, rest)
        }
        [Symbol::Minus, rest @ ..] => {
            let (less, rest) = read_product(alloc, fuel - 1, rest)?;
            let difference = joined(alloc, Operation::Sub, x, less)?;
            go_on_scalar(alloc, fuel - 1, difference, rest)
        }
        _ => Ok((x, symbols)),
    }
}

// A product at the front.
#[cycle(scalar)]
#[tactic(auto, unfolding(crate::specs::ScalarReader::scalar_at))]
fn read_product<'a>(alloc: Global, fuel: usize, symbols: Symbols<'a>) -> Reading<'a, Raw>
    ensures { ReturnsReading (λ p. (scalar_of p.0, map grammar_symbol_of p.1.now)) result (product_at fuel (map grammar_symbol_of symbols.now)) }
{
    if fuel == 0 {
        return Err(Unread::Bad);
    }
    let (x, rest) = read_factor(alloc, fuel - 1, symbols)?;
    go_on_product(alloc, fuel - 1, x, rest)
}

// A product that begins with x.
#[cycle(scalar)]
#[tactic(auto, unfolding(crate::specs::ScalarReader::scalar_at))]
fn go_on_product<'a>(alloc: Global, fuel: usize, x: Raw, symbols: Symbols<'a>) -> Reading<'a, Raw>
    ensures { ReturnsReading (λ p. (scalar_of p.0, map grammar_symbol_of p.1.now)) result (product_more fuel (scalar_of x) (map grammar_symbol_of symbols.now)) }
{
    if fuel == 0 {
        return Err(Unread::Bad);
    }
    match symbols {
        [Symbol::Star, rest @ ..] => {
            let (y, rest) = read_factor(alloc, fuel - 1, rest)?;
            let product = joined(alloc, Operation::Mul, x, y)?;
            go_on_product(alloc, fuel - 1, product, rest)
        }
        _ => Ok((x, symbols)),
    }
}

// A factor at the front.
#[cycle(scalar)]
#[tactic(auto, unfolding(crate::specs::ScalarReader::scalar_at))]
fn read_factor<'a>(alloc: Global, fuel: usize, symbols: Symbols<'a>) -> Reading<'a, Raw>
    ensures { ReturnsReading (λ p. (scalar_of p.0, map grammar_symbol_of p.1.now)) result (factor_at fuel (map grammar_symbol_of symbols.now)) }
{
    if fuel == 0 {
        return Err(Unread::Bad);
    }
    match symbols {
        [Symbol::Number(n), rest @ ..] => Ok((Raw::Number(plain(*n)), rest)),
        [Symbol::Minus, rest @ ..] => read_negative(rest),
        [Symbol::Decimal { scale, units }, rest @ ..] => {
            Ok((decimal(*scale, plain(*units)), rest))
        }
        [Symbol::Quoted(literal), rest @ ..] => Ok((
            Raw::Quoted(literal_text(alloc, literal)?),
            rest,
        )),
        [Symbol::Name(name), rest @ ..] => Ok((
            Raw::Attr(Mark::Bare, name_text(alloc, name)?),
            rest,
        )),
        [Symbol::Dollar1, rest @ ..] => read_marked(alloc, Mark::First, rest),
        [Symbol::Dollar2, rest @ ..] => read_marked(alloc, Mark::Second, rest),
        [Symbol::Dollar, rest @ ..] => read_marked(alloc, Mark::So, rest),
        [Symbol::Dur, rest @ ..] => Ok((Raw::Dur, rest)),
        [Symbol::Min, rest @ ..] => read_two(alloc, fuel - 1, Operation::Min, rest),
        [Symbol::Max, rest @ ..] => read_two(alloc, fuel - 1, Operation::Max, rest),
        [Symbol::Open, rest @ ..] => {
            let (x, rest) = read_scalar(alloc, fuel - 1, rest)?;
            let rest = after_close(rest)?;
            Ok((x, rest))
        }
        _ => Err(Unread::Bad),
    }
}

// Two scalars in parentheses.
#[cycle(scalar)]
#[tactic(auto, unfolding(crate::specs::ScalarReader::scalar_at))]
fn read_two<'a>(
    alloc: Global,
    fuel: usize,
    operation: Operation,
    symbols: Symbols<'a>,
) -> Reading<'a, Raw>
    ensures { ReturnsReading (λ p. (scalar_of p.0, map grammar_symbol_of p.1.now)) result (both_at fuel (op_of operation) (map grammar_symbol_of symbols.now)) }
{
    if fuel == 0 {
        return Err(Unread::Bad);
    }
    let rest = after_open(symbols)?;
    let (x, rest) = read_scalar(alloc, fuel - 1, rest)?;
    let rest = after_comma(rest)?;
    let (y, rest) = read_scalar(alloc, fuel - 1, rest)?;
    let two = joined(alloc, operation, x, y)?;
    Ok((two, after_close(rest)?))
}

// What is done with two scalars.
#[derive(Clone, Copy)]
enum Operation {
    Add,
    Sub,
    Mul,
    Min,
    Max,
}

fn joined(alloc: Global, operation: Operation, x: Raw, y: Raw) -> Result<Raw, Unread>
    ensures ok { IfOk result (λ z. scalar_of z ≡ Two (op_of operation) (scalar_of x) (scalar_of y)) }
    ensures memory { IfErr result (λ fault. fault ≡ Unread.Memory) }
{
    let x = Box::new(alloc, x)?;
    let y = Box::new(alloc, y)?;
    Ok(match operation {
        Operation::Add => Raw::Add(x, y),
        Operation::Sub => Raw::Sub(x, y),
        Operation::Mul => Raw::Mul(x, y),
        Operation::Min => Raw::Min(x, y),
        Operation::Max => Raw::Max(x, y),
    })
}

fn decimal(scale: u8, units: i128) -> Raw
    ensures { scalar_of result ≡ Decimal scale units }
{
    Raw::Decimal { scale, units }
}

// A number or a decimal behind a minus.
fn read_negative<'a>(symbols: Symbols<'a>) -> Reading<'a, Raw>
    ensures { ReturnsReading (λ p. (scalar_of p.0, map grammar_symbol_of p.1.now)) result (number_at (map grammar_symbol_of symbols.now)) }
{
    match symbols {
        [Symbol::Number(n), rest @ ..] => Ok((Raw::Number(0 - plain(*n)), rest)),
        [Symbol::Decimal { scale, units }, rest @ ..] => {
            Ok((decimal(*scale, 0 - plain(*units)), rest))
        }
        _ => Err(Unread::Bad),
    }
}

// A point and a name behind a mark.
fn read_marked<'a>(alloc: Global, mark: Mark, symbols: Symbols<'a>) -> Reading<'a, Raw>
    ensures { ReturnsReading (λ p. (scalar_of p.0, map grammar_symbol_of p.1.now)) result (name_at mark (map grammar_symbol_of symbols.now)) }
{
    match symbols {
        [Symbol::Dot, Symbol::Name(name), rest @ ..] => Ok((
            Raw::Attr(mark, name_text(alloc, name)?),
            rest,
        )),
        _ => Err(Unread::Bad),
    }
}
