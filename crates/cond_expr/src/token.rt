// The tokens of a condition.

ghost use Rattle.std.specs.Prelude.{◌≡◌, ◌∷◌, ◌++◌, ◌≤◌, ◌<◌, ◌^◌, ◌==◌, position, length, IfOk, option_map};
ghost use Rattle.cond_expr.specs.Tokens.{leading_digits, magnitude_of, numeral, signed, number_after, text_at, operators, marks, first_word, known_token, token_at};

use crate::value::{CondValue, Operator};
use jm_base::{M, Text};
use std::alloc::Global;

/// A token. A byte that begins no token is unknown.
#[derive(Drop)]
pub enum Token {
    /// A number, a text, `true` or `false`.
    Value(CondValue),
    /// `!`
    Not,
    /// `(`
    Open,
    /// `)`
    Close,
    /// An operator between two operands.
    Operate(Operator),
    /// A byte that begins no token.
    Unknown,
}

/// How many digits the bytes begin with.
fn digit_count(bytes: &[u8]) -> usize
    ensures count { result ≡ length (leading_digits bytes.now) }
    ensures bound { result ≤ length bytes.now }
{
    for (count, byte) in bytes.iter().enumerate() {
        if !byte.is_ascii_digit() {
            return count;
        }
    }
    bytes.len()
}

/// The number that the digits at the start write, where it is at most 2 ^ 63.
fn magnitude(bytes: &[u8]) -> Option<u64>
    ensures { result ≡ magnitude_of (leading_digits bytes.now) }
{
    let mut value: u128 = 0;
    for byte in bytes {
        if !byte.is_ascii_digit() {
            return Some(value as u64);
        }
        value = value * 10 + u128::from(*byte - b'0');
        if value > 1 << 63 {
            return None;
        }
    }
    Some(value as u64)
}

/// The number of 64 signed bits that a sign and a magnitude write.
fn signed(negative: bool, magnitude: u64) -> Option<i64>
    ensures { result ≡ signed negative magnitude }
{
    if negative {
        if magnitude < 1 << 63 {
            return Some(-(magnitude as i64));
        }
        if magnitude == 1 << 63 {
            return Some(i64::MIN);
        }
        return None;
    }
    if magnitude < 1 << 63 {
        return Some(magnitude as i64);
    }
    None
}

/// The number that the digits at the start write after a sign.
fn numeral(negative: bool, bytes: &[u8]) -> Option<i64>
    ensures { result ≡ numeral negative (leading_digits bytes.now) }
{
    if digit_count(bytes) == 0 {
        return None;
    }
    signed(negative, magnitude(bytes)?)
}

/// The number token that begins with a sign or a digit, and its length.
fn number_at(negative: bool, bytes: &[u8]) -> Option<(Token, usize)>
    ensures { result ≡ number_after negative bytes.now }
{
    let number = numeral(negative, bytes)?;
    Some((
        Token::Value(CondValue::Number(number)),
        usize::from(negative) + digit_count(bytes),
    ))
}

/// Where the quote stands that ends a text.
fn end_of_text(quote: u8, bytes: &[u8]) -> Option<usize>
    ensures { result ≡ position (λ b. b == quote) bytes.now }
{
    bytes.iter().position(|b| *b == quote)
}

/// The text token of a quote and the bytes after it, and its length.
fn text_at(alloc: Global, quote: u8, bytes: &[u8]) -> M<Option<(Token, usize)>>
    ensures { IfOk result (λ found. found ≡ text_at quote bytes.now) }
{
    match end_of_text(quote, bytes) {
        Some(length) => {
            let text = Text::new(alloc, &bytes[..length])?;
            Ok(Some((Token::Value(CondValue::Text(text)), length + 2)))
        }
        None => Ok(None),
    }
}

/// The operator that the bytes begin with, and its length.
fn operator_at(bytes: &[u8]) -> Option<(Token, usize)>
    ensures { result ≡ first_word operators bytes.now }
{
    if bytes.starts_with(b"==") {
        return Some((Token::Operate(Operator::Equal), 2));
    }
    if bytes.starts_with(b"!=") {
        return Some((Token::Operate(Operator::NotEqual), 2));
    }
    if bytes.starts_with(b"<=") {
        return Some((Token::Operate(Operator::LessOrEqual), 2));
    }
    if bytes.starts_with(b"<") {
        return Some((Token::Operate(Operator::Less), 1));
    }
    if bytes.starts_with(b">=") {
        return Some((Token::Operate(Operator::GreaterOrEqual), 2));
    }
    if bytes.starts_with(b">") {
        return Some((Token::Operate(Operator::Greater), 1));
    }
    if bytes.starts_with(b"&&") {
        return Some((Token::Operate(Operator::And), 2));
    }
    if bytes.starts_with(b"||") {
        return Some((Token::Operate(Operator::Or), 2));
    }
    None
}

/// The mark or truth that the bytes begin with, and its length.
fn mark_at(bytes: &[u8]) -> Option<(Token, usize)>
    ensures { result ≡ first_word marks bytes.now }
{
    if bytes.starts_with(b"!") {
        return Some((Token::Not, 1));
    }
    if bytes.starts_with(b"(") {
        return Some((Token::Open, 1));
    }
    if bytes.starts_with(b")") {
        return Some((Token::Close, 1));
    }
    if bytes.starts_with(b"true") {
        return Some((Token::Value(CondValue::Truth(true)), 4));
    }
    if bytes.starts_with(b"false") {
        return Some((Token::Value(CondValue::Truth(false)), 5));
    }
    None
}

/// The mark, truth or operator that the bytes begin with, and its length.
fn word_at(bytes: &[u8]) -> Option<(Token, usize)>
    ensures { result ≡ first_word (operators ++ marks) bytes.now }
{
    match operator_at(bytes) {
        Some(found) => Some(found),
        None => mark_at(bytes),
    }
}

/// The token that the bytes begin with, where there is one, and its length.
fn known_token(alloc: Global, bytes: &[u8]) -> M<Option<(Token, usize)>>
    ensures { IfOk result (λ found. found ≡ known_token bytes.now) }
{
    match bytes {
        [] => Ok(None),
        [quote @ (b'"' | b'\''), rest @ ..] => {
            let found = text_at(alloc, *quote, rest)?;
            Ok(found)
        }
        [b'-', rest @ ..] => Ok(number_at(true, rest)),
        [b'0'..=b'9', ..] => Ok(number_at(false, bytes)),
        _ => Ok(word_at(bytes)),
    }
}

/// The token that the bytes begin with, and how many bytes it has.
pub fn token_at(alloc: Global, bytes: &[u8]) -> M<(Token, usize)>
    requires { 0 < length bytes.now }
    ensures value { IfOk result (λ found. found ≡ token_at bytes.now) }
    ensures some { IfOk result (λ found. 0 < found.1) }
    ensures within { IfOk result (λ found. found.1 ≤ length bytes.now) }
{
    let found = known_token(alloc, bytes)?;
    Ok(found.unwrap_or((Token::Unknown, 1)))
}
