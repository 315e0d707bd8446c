//! What readers of symbols return.
use crate::symbol::Symbol;
use crate::unread::Unread;

/// Symbols that are looked at in place.
pub(crate) type Symbols<'a> = &'a [Symbol<'a>];

/// What stands at the front, and the symbols behind it.
pub(crate) type Reading<'a, T> = Result<(T, Symbols<'a>), Unread>;
