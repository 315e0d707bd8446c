//! The symbols of tokens.
ghost use Rattle.std.specs.Prelude.{◌≡◌};
ghost use Rattle.cel_grammar.specs.Spellings.{keyword_entries, looked_up, mark_entries, sign_entries, symbol_of};
ghost use Rattle.cel_grammar.specs.Symbols as the;
ghost use Rattle.cel_parser.specs.GrammarSymbols.{grammar_symbol_of};
ghost use Rattle.event_types.specs.declared.comparison.Cmp.TheVariants as cmp;

use crate::symbol::Symbol;
use cel_lexer::What;
use event_types::Cmp;

/// The symbol of a token of this kind and text.
pub(crate) fn symbol_of(what: What, word: &str) -> Symbol<'_>
    ensures { grammar_symbol_of result ≡ symbol_of what word.now }
{
    match what {
        What::Keyword => keyword(word),
        What::Name => Symbol::Name(word),
        What::Number(n) => Symbol::Number(n),
        What::Quoted => Symbol::Quoted(word),
        What::Mark => mark(word),
        What::Sign => sign(word),
        What::Decimal { scale, units } => Symbol::Decimal { scale, units },
    }
}

// The symbol of a keyword.
fn keyword(word: &str) -> Symbol<'_>
    ensures { grammar_symbol_of result ≡ looked_up keyword_entries the.Max word.now }
{
    match word {
        "STREAM" => Symbol::Stream,
        "INT" => Symbol::Int,
        "TEXT" => Symbol::Text,
        "SELECT" => Symbol::Select,
        "AS" => Symbol::As,
        "FROM" => Symbol::From,
        "PUBLISH" => Symbol::Publish,
        "FILTER" => Symbol::Filter,
        "NEXT" => Symbol::Next,
        "FOLD" => Symbol::Fold,
        "UNION" => Symbol::Union,
        "AND" => Symbol::And,
        "OR" => Symbol::Or,
        "NOT" => Symbol::Not,
        "TRUE" => Symbol::True,
        "DUR" => Symbol::Dur,
        "MIN" => Symbol::Min,
        _ => Symbol::Max,
    }
}

// The symbol of a mark.
fn mark(word: &str) -> Symbol<'_>
    ensures { grammar_symbol_of result ≡ looked_up mark_entries the.Dollar word.now }
{
    match word {
        "$1" => Symbol::Dollar1,
        "$2" => Symbol::Dollar2,
        _ => Symbol::Dollar,
    }
}

// The symbol of a sign.
fn sign(word: &str) -> Symbol<'_>
    ensures { grammar_symbol_of result ≡ looked_up sign_entries (the.Compare cmp.Ge) word.now }
{
    match word {
        "(" => Symbol::Open,
        ")" => Symbol::Close,
        "{" => Symbol::BraceOpen,
        "}" => Symbol::BraceClose,
        "," => Symbol::Comma,
        ";" => Symbol::End,
        "." => Symbol::Dot,
        "*" => Symbol::Star,
        "+" => Symbol::Plus,
        "-" => Symbol::Minus,
        "=" => Symbol::Compare(Cmp::Eq),
        "<>" => Symbol::Compare(Cmp::Ne),
        "<" => Symbol::Compare(Cmp::Lt),
        "<=" => Symbol::Compare(Cmp::Le),
        ">" => Symbol::Compare(Cmp::Gt),
        _ => Symbol::Compare(Cmp::Ge),
    }
}
