//! Signs between the parts of a tree.
ghost use Rattle.std.specs.Prelude.{◌≡◌, map};
ghost use Rattle.cel_parser.specs.ReturnsReading.{ReturnsReading};
ghost use Rattle.cel_parser.specs.GrammarSymbols.{grammar_symbol_of};
ghost use Rattle.cel_parser.specs.ScalarReader.{close_at, comma_at, open_at};
ghost use Rattle.cel_parser.specs.SourceReader.{brace_at, from_at};

use crate::reading::Symbols;
use crate::symbol::Symbol;
use crate::unread::Unread;

/// The symbols behind an opening parenthesis.
pub(crate) fn after_open<'a>(symbols: Symbols<'a>) -> Result<Symbols<'a>, Unread>
    ensures { ReturnsReading (λ rest. map grammar_symbol_of rest.now) result (open_at (map grammar_symbol_of symbols.now)) }
{
    match symbols {
        [Symbol::Open, rest @ ..] => Ok(rest),
        _ => Err(Unread::Bad),
    }
}

/// The symbols behind a comma.
pub(crate) fn after_comma<'a>(symbols: Symbols<'a>) -> Result<Symbols<'a>, Unread>
    ensures { ReturnsReading (λ rest. map grammar_symbol_of rest.now) result (comma_at (map grammar_symbol_of symbols.now)) }
{
    match symbols {
        [Symbol::Comma, rest @ ..] => Ok(rest),
        _ => Err(Unread::Bad),
    }
}

/// The symbols behind a closing parenthesis.
pub(crate) fn after_close<'a>(symbols: Symbols<'a>) -> Result<Symbols<'a>, Unread>
    ensures { ReturnsReading (λ rest. map grammar_symbol_of rest.now) result (close_at (map grammar_symbol_of symbols.now)) }
{
    match symbols {
        [Symbol::Close, rest @ ..] => Ok(rest),
        _ => Err(Unread::Bad),
    }
}

/// The symbols behind a closing brace.
pub(crate) fn after_brace<'a>(symbols: Symbols<'a>) -> Result<Symbols<'a>, Unread>
    ensures { ReturnsReading (λ rest. map grammar_symbol_of rest.now) result (brace_at (map grammar_symbol_of symbols.now)) }
{
    match symbols {
        [Symbol::BraceClose, rest @ ..] => Ok(rest),
        _ => Err(Unread::Bad),
    }
}

/// The symbols behind FROM.
pub(crate) fn after_from<'a>(symbols: Symbols<'a>) -> Result<Symbols<'a>, Unread>
    ensures { ReturnsReading (λ rest. map grammar_symbol_of rest.now) result (from_at (map grammar_symbol_of symbols.now)) }
{
    match symbols {
        [Symbol::From, rest @ ..] => Ok(rest),
        _ => Err(Unread::Bad),
    }
}
