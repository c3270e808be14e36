// What a whole head says.

ghost use Rattle.std.specs.Prelude.{◌≡◌, ◌≤◌, ◌<◌, length, IfOk, IfSome, IfNone, MatchOption, IsTrue, ◌↔◌};
ghost use Rattle.http_text.specs.ResponseHeads.{Says, IsBadHead, IsSection, after_first_line, without_last};
ghost use Rattle.http_lines.specs.declared.scan.Line.TheVariants.{Fresh};

use crate::fields::{Framing, framing_of};
use http_lines::{Line, after_byte};
use httparse::Status;
use httparse::spans::{EMPTY_HEADER_SPAN, parse_headers, parse_response};
use jm_base::{M, Reply, Text};
use std::alloc::Global;

/// The most header fields of a head or a trailer part.
const FIELDS: usize = 128;

/// The least code of a response.
const LEAST_CODE: u16 = 100;

/// The bytes after the first line that is not empty.
fn after_status_line(head: &[u8]) -> &[u8]
    ensures { result.now ≡ after_first_line Fresh head.now }
{
    let mut line = Line::Fresh;
    for (index, byte) in head.iter().enumerate() {
        if *byte != b'\n' {
            line = after_byte(line, *byte);
        } else if line == Line::Filled {
            return &head[index + 1..];
        } else {
            line = Line::Fresh;
        }
    }
    &[]
}

/// The bytes without the empty line at the end.
fn without_last_line(lines: &[u8]) -> &[u8]
    ensures { result.now ≡ without_last lines.now }
{
    if lines.len() >= 2 && lines[lines.len() - 2] == b'\r' {
        return &lines[..lines.len() - 2];
    }
    &lines[..lines.len().saturating_sub(1)]
}

/// The reply that a whole head begins, and how its body is framed; nothing where it is not a head, or its code or framing is wrong.
pub(crate) fn read_head(alloc: Global, text: &[u8]) -> M<Option<(Reply, Framing)>>
    ensures { IfOk result (λ o. MatchOption o (IsBadHead text.now) (λ said. Says text.now said.0 said.1)) }
{
    let mut headers = [EMPTY_HEADER_SPAN; FIELDS];
    let Ok(Status::Complete(found)) = parse_response(text, &mut headers) else {
        return Ok(None);
    };
    if found.len != text.len() || found.code < LEAST_CODE {
        return Ok(None);
    }
    let Some(framing) = framing_of(text, &headers[..found.headers]) else {
        return Ok(None);
    };
    let reply = Reply {
        code: found.code,
        message: Text::new(alloc, found.reason.of(text))?,
        headers: Text::new(alloc, without_last_line(after_status_line(text)))?,
        body: Text::of(Vec::new(alloc)),
    };
    Ok(Some((reply, framing)))
}

/// Whether the bytes are a header section to their last byte.
pub(crate) fn is_section(text: &[u8]) -> bool
    ensures { IsTrue result ↔ IsSection text.now }
{
    let mut headers = [EMPTY_HEADER_SPAN; FIELDS];
    match parse_headers(text, &mut headers) {
        Ok(Status::Complete((len, _))) => len == text.len(),
        _ => false,
    }
}
