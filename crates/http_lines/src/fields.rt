// What the fields of a head say of the length of its body.

ghost use Rattle.std.specs.Prelude.{◌≡◌, ◌≤◌, ◌^◌, ◌<◌, ◌*◌, ◌+◌, min, length, map, All, None};
ghost use Rattle.httparse.specs.Spans.{header_bytes, IsHeaderWithin};
ghost use Rattle.http_lines.specs.HeaderFields.{length_value, with_length, next_length, length_after};

use httparse::spans::HeaderSpan;

/// One more than the greatest Content-Length.
const SIZE_END: u64 = 1 << 63;

/// A number with one more digit, cut at one more than the greatest Content-Length.
fn next_number(number: u64, digit: u8) -> u64
    requires least { number ≤ 2 ^ 63 }
    requires digit { digit ≤ 9 }
    ensures { result ≡ min (number * 10 + digit) (2 ^ 63) }
{
    if number > SIZE_END / 10 {
        return SIZE_END;
    }
    (number * 10 + u64::from(digit)).min(SIZE_END)
}

/// The number that digits write (RFC 9110, section 8.6): nothing where there are none, another byte is among them, or it is 2^63 or more.
pub fn length_value(value: &[u8]) -> Option<u64>
    ensures { result ≡ length_value value.now }
{
    if value.is_empty() {
        return None;
    }
    let mut number: u64 = 0;
    for byte in value {
        if !byte.is_ascii_digit() {
            return None;
        }
        number = next_number(number, *byte - b'0');
    }
    if number < SIZE_END {
        Some(number)
    } else {
        None
    }
}

/// A further length: nothing where another one is known.
fn with_length(known: Option<u64>, size: u64) -> Option<Option<u64>>
    ensures { result ≡ with_length known size }
{
    match known {
        None => Some(Some(size)),
        Some(first) if first == size => Some(Some(first)),
        Some(_) => None,
    }
}

/// What is known of the length after a further field: nothing where it is wrong.
fn next_length(known: Option<u64>, name: &[u8], value: &[u8]) -> Option<Option<u64>>
    ensures { result ≡ next_length (name.now, value.now) known }
{
    if name.eq_ignore_ascii_case(b"content-length") {
        return with_length(known, length_value(value)?);
    }
    Some(known)
}

/// The length that the fields of a head give its body (RFC 9112, section 6.2): an inner nothing where none gives one. Nothing where a
/// Content-Length is not a number of digits below 2^63, or two of them differ in value.
pub fn length_of(head: &[u8], fields: &[HeaderSpan]) -> Option<Option<u64>>
    requires { All (IsHeaderWithin (length head.now)) fields.now }
    ensures { result ≡ length_after None (map (header_bytes head.now) fields.now) }
{
    let mut known = None;
    for field in fields {
        match next_length(known, field.name.of(head), field.value.of(head)) {
            Some(next) => known = next,
            None => return None,
        }
    }
    Some(known)
}
