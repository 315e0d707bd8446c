//! Random numbers that a seed decides.
ghost use Rattle.std.specs.Prelude.{◌≡◌, ◌/◌, ◌<◌, ◌^◌};
ghost use Rattle.load_texts.specs.Draws.{drawn};

/// The number that a draw puts in the place of this one (a linear congruential generator).
pub(crate) fn drawn(number: u64) -> u64
    requires { number < 2 ^ 31 }
    ensures value { result ≡ drawn number }
    ensures small { result < 2 ^ 31 }
{
    (number * 1103515245 + 12345) % (1 << 31)
}

/// What a draw gives: the upper bits of the number that it put in place. It is below
/// 32,768 where that number is below 2^31.
pub(crate) fn given(number: u64) -> u64
    ensures { result ≡ number / 65536 }
{
    number / 65536
}
