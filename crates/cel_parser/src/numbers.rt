//! The numbers of symbols.
ghost use Rattle.std.specs.Prelude.{◌≡◌, pos};
ghost use Rattle.cel_parser.specs.Numbers.{counted};

/// A number, or 0 for one below it, which no token has.
pub(crate) fn plain(n: i128) -> i128
    ensures { result ≡ pos (counted n) }
{
    if n < 0 { 0 } else { n }
}
