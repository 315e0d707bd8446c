//! The numbers that words write.
ghost use Rattle.std.specs.Prelude.{◌≡◌};
ghost use Rattle.command_line.specs.Numbers.{are_digits as digits_test, number_within};

/// The number that one decimal digit or more write, where it is at least and at most so much. Takes no memory.
pub(crate) fn number_within(least: u64, most: u64, word: &str) -> Option<u64>
    ensures { result ≡ number_within least most word.now }
{
    if word.is_empty() || !are_digits(word.as_bytes()) {
        return None;
    }
    match word.parse::<u64>() {
        Ok(number) => {
            if least <= number && number <= most {
                Some(number)
            } else {
                None
            }
        }
        Err(_) => None,
    }
}

// Whether each byte of a word is a decimal digit.
fn are_digits(word: &[u8]) -> bool
    ensures { result ≡ digits_test word.now }
{
    word.iter().all(|byte| 48 <= *byte && *byte <= 57)
}
