//! The numbers and times that fields write.
ghost use Rattle.std.specs.Prelude.{◌≡◌, ◌≤◌, ◌<◌, length, neg_ℤ, pos, true, Some, None, MatchOption, if◌then◌else◌};
ghost use Rattle.std.specs.Str.Parse.{digits_value};
ghost use Rattle.event_csv.specs.Numbers.{are_digits as digits_test, int_of, negative_of, number_up_to, positive_of, time_of};

/// The time that a field writes.
pub(crate) fn time(field: &[u8]) -> Option<u64>
    ensures { result ≡ time_of field.now }
{
    if field.is_empty() {
        return None;
    }
    if field.len() <= SHORT {
        return short(field);
    }
    long_time(field)
}

/// The INT that a field writes.
pub(crate) fn int(field: &[u8]) -> Option<i128>
    ensures { result ≡ int_of field.now }
{
    match field {
        [] => None,
        [b'-', digits @ ..] => negative(digits),
        [b'+', digits @ ..] => positive(digits),
        _ => positive(field),
    }
}

fn negative(digits: &[u8]) -> Option<i128>
    ensures { result ≡ negative_of digits.now }
{
    let number = up_to(digits, 1 << 127)?;
    Some(below_zero(number))
}

/// The number below zero.
pub(crate) fn below_zero(number: u128) -> i128
    requires { number ≤ 170141183460469231731687303715884105728 }
    ensures { result ≡ neg_ℤ (pos number) }
{
    if number == 1 << 127 {
        i128::MIN
    } else {
        -(number as i128)
    }
}

fn positive(digits: &[u8]) -> Option<i128>
    ensures { result ≡ positive_of digits.now }
{
    let number = up_to(digits, i128::MAX as u128)?;
    Some(number as i128)
}

/// The number that digits write, where it is at most `most`.
pub(crate) fn up_to(digits: &[u8], most: u128) -> Option<u128>
    requires { 9 ≤ most }
    ensures { result ≡ number_up_to most digits.now }
{
    if digits.is_empty() {
        return None;
    }
    if digits.len() <= SHORT {
        let number = short(digits)? as u128;
        return if number <= most { Some(number) } else { None };
    }
    if are_digits(digits) {
        magnitude(digits, most)
    } else {
        None
    }
}

/// As many digits as write only numbers of 64 bits.
pub(crate) const SHORT: usize = 19;

// The number that few bytes write, where each is a digit.
fn short(text: &[u8]) -> Option<u64>
    requires { length text.now ≤ 19 }
    ensures { result ≡ (if digits_test text.now then Some (digits_value 10 text.now) else None) }
{
    let mut number: u64 = 0;
    for byte in text {
        if *byte < b'0' || b'9' < *byte {
            return None;
        }
        number = number * 10 + (*byte - b'0') as u64;
    }
    Some(number)
}

fn long_time(field: &[u8]) -> Option<u64>
    ensures { result ≡ time_of field.now }
{
    if field.is_empty() || !are_digits(field) {
        return None;
    }
    match magnitude(field, u64::MAX as u128) {
        Some(number) => Some(number as u64),
        None => None,
    }
}

fn are_digits(text: &[u8]) -> bool
    ensures { result ≡ digits_test text.now }
{
    text.iter().all(|byte| 48 <= *byte && *byte <= 57)
}

// The number that digits write, where it is at most `most`.
fn magnitude(digits: &[u8], most: u128) -> Option<u128>
    requires digits { digits_test digits.now ≡ true }
    requires room { 9 ≤ most }
    ensures { MatchOption result (most < digits_value 10 digits.now) (λ number. (number ≡ digits_value 10 digits.now) × (number ≤ most)) }
{
    let mut number: u128 = 0;
    for byte in digits {
        if *byte < 48 || 57 < *byte {
            return None;
        }
        let digit = (*byte - 48) as u128;
        if (most - digit) / 10 < number {
            return None;
        }
        number = number * 10 + digit;
    }
    Some(number)
}
