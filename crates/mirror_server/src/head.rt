// What a whole head says.

ghost use Rattle.std.specs.Prelude.{◌≡◌, ◌≤◌, length, map, codes, All, MatchOption};
ghost use Rattle.std.specs.Str.{str_eq_ignore_ascii_case};
ghost use Rattle.httparse.specs.Spans.{header_bytes, IsHeaderWithin};
ghost use Rattle.mirror_server.specs.RequestGrammar.{Says, IsBadHead, has_coding};

use http_lines::length_of;
use httparse::Status;
use httparse::spans::{EMPTY_HEADER_SPAN, HeaderSpan, parse_request};

/// The most header fields of a head.
const FIELDS: usize = 128;

/// What a whole head says of the body of its request.
#[derive(Clone, Copy)]
pub(crate) struct Said {
    /// How many bytes it has.
    pub(crate) size: u64,
    /// Whether it has a coding.
    pub(crate) coded: bool,
}

/// Whether a field of this name gives the body a coding (RFC 9112, section 6.1).
fn is_coding(name: &[u8]) -> bool
    ensures { result ≡ str_eq_ignore_ascii_case name.now (codes "transfer-encoding") }
{
    name.eq_ignore_ascii_case(b"transfer-encoding")
}

/// Whether one of the fields gives the body a coding.
fn has_coding(head: &[u8], fields: &[HeaderSpan]) -> bool
    requires { All (IsHeaderWithin (length head.now)) fields.now }
    ensures { result ≡ has_coding (map (header_bytes head.now) fields.now) }
{
    for field in fields {
        if is_coding(field.name.of(head)) {
            return true;
        }
    }
    false
}

/// What a whole head says of the body; nothing where it is not the head of a request, or its lengths are wrong.
pub(crate) fn read_head(text: &[u8]) -> Option<Said>
    ensures { MatchOption result (IsBadHead text.now) (λ said. Says text.now said.size said.coded) }
{
    let mut headers = [EMPTY_HEADER_SPAN; FIELDS];
    let Ok(Status::Complete(found)) = parse_request(text, &mut headers) else {
        return None;
    };
    if found.len != text.len() {
        return None;
    }
    let Some(known) = length_of(text, &headers[..found.headers]) else {
        return None;
    };
    Some(Said {
        size: known.unwrap_or(0),
        coded: has_coding(text, &headers[..found.headers]),
    })
}
