//! Tokens over their source.
ghost use Rattle.std.specs.Prelude.{◌≡◌, ◌<◌, length, slice_get, option_map, Ok, Some};
ghost use Rattle.cel_lexer.specs.Faults.{AreTokens, tokens_of};
ghost use Rattle.cel_lexer.specs.Listing.{spelling};

use crate::token::Token;
use std::marker::Model;

/// The tokens of a source, in order: all that it has.
#[derive(Drop)]
pub struct Tokens<'a> {
    source: &'a str,
    items: Vec<Token>,
}

impl<'a> Model for Tokens<'a> {
    ghost use Rattle.cel_lexer.specs.Faults.{AreTokens};
    ghost use Rattle.cel_lexer.specs.Listing.{Listing};

    ghost Value = { Listing };

    ghost view = { λ t. record { source = t.source.now; items = t.items.items } };

    ghost invariant = { λ t. AreTokens t.source.now t.items.items };
}

impl<'a> Tokens<'a> {
    /// These tokens over a source.
    pub(crate) fn over(source: &'a str, items: Vec<Token>) -> Tokens<'a>
        requires { AreTokens source.now items.items }
        ensures source { result.source ≡ source.now }
        ensures items { result.items ≡ items.items }
    {
        Tokens { source, items }
    }

    /// How many tokens there are.
    pub fn size(&self) -> usize
        ensures value { result ≡ length self.now.items }
        ensures all { tokens_of self.now.source ≡ Ok self.now.items }
    {
        self.items.len()
    }

    /// The token at a place, counted from 0.
    pub fn get(&self, i: usize) -> &Token
        requires { i < length self.now.items }
        ensures { slice_get self.now.items i ≡ Some result.now }
    {
        &self.items[i]
    }

    /// The slice of the source that the token at a place has.
    pub fn text(&self, i: usize) -> &'a str
        requires { i < length self.now.items }
        ensures { option_map (spelling self.now.source) (slice_get self.now.items i) ≡ Some result.now }
    {
        let token = self.items[i];
        &self.source[token.begin..token.end]
    }
}
