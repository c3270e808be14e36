// Numbers as functions read and write them.

ghost use Rattle.std.specs.Prelude.{◌≡◌, ◌≤◌, ◌^◌, ◌+ℤ◌, ◌≤ℤ◌, neg_ℤ, pos, IfSome};
ghost use Rattle.var_functions.specs.Numbers.{magnitude, signed, within, number_within, picked, int_sum};

use crate::texts::Argument;

/// Below this and from its negation on are the numbers of 32 signed bits.
const SMALL_LIMIT: u64 = 1 << 31;

/// And those of 64.
pub(crate) const LIMIT: u64 = 1 << 63;

/// The number that one or more decimal digits write, where it is at most 2 ^ 63.
fn magnitude(digits: &[u8]) -> Option<u64>
    ensures { result ≡ magnitude digits.now }
{
    if digits.is_empty() {
        return None;
    }
    let mut value: u128 = 0;
    for byte in digits {
        if !byte.is_ascii_digit() {
            return None;
        }
        value = value * 10 + u128::from(*byte - b'0');
        if value > 1 << 63 {
            return None;
        }
    }
    Some(value as u64)
}

/// The number of a sign and a magnitude.
fn signed(negative: bool, magnitude: u64) -> i128
    ensures { result ≡ signed negative magnitude }
{
    if negative {
        -i128::from(magnitude)
    } else {
        i128::from(magnitude)
    }
}

/// The number, where it is within the limit.
fn within(limit: u64, number: i128) -> Option<i64>
    requires { limit ≤ 2 ^ 63 }
    ensures value { result ≡ within limit number }
    ensures bounds { IfSome result (λ z. (neg_ℤ (pos limit) ≤ℤ z) × (z ≤ℤ pos limit)) }
{
    if -i128::from(limit) <= number && number < i128::from(limit) {
        Some(number as i64)
    } else {
        None
    }
}

/// The number that a text writes: an optional `-` and decimal digits, where it is within the limit.
pub(crate) fn number_within(limit: u64, text: &[u8]) -> Option<i64>
    requires { limit ≤ 2 ^ 63 }
    ensures value { result ≡ number_within limit text.now }
    ensures bounds { IfSome result (λ z. (neg_ℤ (pos limit) ≤ℤ z) × (z ≤ℤ pos limit)) }
{
    match text {
        [] => None,
        [b'-', digits @ ..] => within(limit, signed(true, magnitude(digits)?)),
        [_, ..] => within(limit, signed(false, magnitude(text)?)),
    }
}

/// The number that a word picks from the least to the most.
pub(crate) fn picked(least: i64, most: i64, word: u64) -> i128
    ensures { result ≡ picked least most word }
{
    let count = u128::from(most.abs_diff(least)) + 1;
    let step = u128::from(word) % count;
    i128::from(least) + step as i128
}

/// A sum with one more number.
fn plus(sum: i128, number: i64) -> i128
    requires low { neg_ℤ (pos (2 ^ 96)) ≤ℤ sum }
    requires high { sum ≤ℤ pos (2 ^ 96) }
    ensures { result ≡ sum +ℤ number }
{
    sum + i128::from(number)
}

/// The sum of numbers of 32 signed bits each, where it is within 32 signed bits.
pub(crate) fn int_sum(texts: &[Argument]) -> Option<i64>
    ensures { result ≡ int_sum texts.now }
{
    let mut sum: i128 = 0;
    for text in texts {
        sum = plus(sum, number_within(SMALL_LIMIT, text.bytes())?);
    }
    within(SMALL_LIMIT, sum)
}
