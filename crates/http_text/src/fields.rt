// The fields of a head that frame its body.

ghost use Rattle.std.specs.Prelude.{◌≡◌, ◌≤◌, false, length, map, All};
ghost use Rattle.httparse.specs.Spans.{header_bytes, IsHeaderWithin};
ghost use Rattle.http_text.specs.ResponseHeads.{next_coding, chunked_after, framing_in};

use http_lines::length_of;
use httparse::spans::HeaderSpan;

/// What the fields of a head say of its body.
#[derive(Clone, Copy, Debug, PartialEq, Eq)]
pub(crate) struct Framing {
    /// Whether it comes in chunks (RFC 9112, section 7.1).
    pub(crate) chunked: bool,
    /// Its length in bytes (RFC 9112, section 6.2).
    pub(crate) size: Option<u64>,
}

/// Whether a body comes in chunks after a further field: nothing where it has another coding.
fn next_coding(chunked: bool, name: &[u8], value: &[u8]) -> Option<bool>
    ensures { result ≡ next_coding (name.now, value.now) chunked }
{
    if name.eq_ignore_ascii_case(b"transfer-encoding") {
        if !value.eq_ignore_ascii_case(b"chunked") {
            return None;
        }
        return Some(true);
    }
    Some(chunked)
}

/// Whether the fields of a head say that its body comes in chunks; nothing where they say another coding.
fn is_chunked(head: &[u8], fields: &[HeaderSpan]) -> Option<bool>
    requires { All (IsHeaderWithin (length head.now)) fields.now }
    ensures { result ≡ chunked_after false (map (header_bytes head.now) fields.now) }
{
    let mut chunked = false;
    for field in fields {
        match next_coding(chunked, field.name.of(head), field.value.of(head)) {
            Some(next) => chunked = next,
            None => return None,
        }
    }
    Some(chunked)
}

/// What the fields of a head say of its body; nothing where one is wrong, or two lengths differ.
pub(crate) fn framing_of(head: &[u8], fields: &[HeaderSpan]) -> Option<Framing>
    requires { All (IsHeaderWithin (length head.now)) fields.now }
    ensures { result ≡ framing_in (map (header_bytes head.now) fields.now) }
{
    let Some(chunked) = is_chunked(head, fields) else {
        return None;
    };
    let Some(size) = length_of(head, fields) else {
        return None;
    };
    Some(Framing { chunked, size })
}
