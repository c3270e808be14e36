// One request and its answer, over a stream.

ghost use Rattle.std.specs.Prelude.{◌≡◌, ◌≢◌, ◌≤◌, length, IfOk, IfErr, OnOk, IsErrOf};
ghost use Rattle.std.specs.Io.KnownBytes.{IsAtEnd, Keeps};
ghost use Rattle.jm_base.specs.FaultCounts.{Rose};
ghost use Rattle.http_sampler.specs.Streams.{Standing};
ghost use Rattle.mirror_server.specs.RequestGrammar.{Open, Refused, request_limit};
ghost use Rattle.mirror_server.specs.Mirroring.{answer_text, Comes, ReceivesOn, Requests, Mirrors, Fails, TakesPiece, StopsPiece, Stops};

use crate::error::MirrorError;
use crate::look::{Progress, Seen, look};
use http_lines::{HEAD, add, add_decimal};
use http_sampler::{Stream, send_all};
use jm_base::{Failed, M, NoMemory};
use std::alloc::Global;

/// How many bytes one call of a stream is asked for.
const BUFFER: usize = 8_192;

/// How many bytes the head of an answer has at most.
const ANSWER_HEAD: usize = 64;

/// Receives a piece, and adds it to what was received.
fn receive_piece<S: Stream>(stream: &mut S, got: &mut Vec<u8>) -> Result<(), MirrorError>
    ensures piece { OnOk result (TakesPiece
        (record { sent = S.sent stream.old; given = S.given stream.old; left = S.left stream.old; faults = S.faults stream.old })
        (record { sent = S.sent stream.new; given = S.given stream.new; left = S.left stream.new; faults = S.faults stream.new })
        got.old.items got.new.items) }
    ensures ok { OnOk result (S.faults stream.new ≡ S.faults stream.old) }
    ensures stops { IfErr result (StopsPiece
        (record { sent = S.sent stream.old; given = S.given stream.old; left = S.left stream.old; faults = S.faults stream.old })
        (record { sent = S.sent stream.new; given = S.given stream.new; left = S.left stream.new; faults = S.faults stream.new })) }
    ensures sent { Keeps (S.sent stream.old) (S.sent stream.new) }
{
    let mut buffer = [0; BUFFER];
    let Ok(count) = stream.receive(&mut buffer) else {
        return Err(MirrorError::StreamFault);
    };
    if count == 0 {
        return Err(MirrorError::EndEarly);
    }
    match add(got, &buffer[..count]) {
        Ok(()) => Ok(()),
        Err(NoMemory) => Err(MirrorError::NoMemory),
    }
}

/// Receives a request, and no piece after the one with its last byte.
fn receive_request<S: Stream>(alloc: Global, stream: &mut S) -> Result<Vec<u8>, MirrorError>
    ensures request { IfOk result (λ v. Requests
        (record { sent = S.sent stream.old; given = S.given stream.old; left = S.left stream.old; faults = S.faults stream.old })
        (record { sent = S.sent stream.new; given = S.given stream.new; left = S.left stream.new; faults = S.faults stream.new })
        v.items) }
    ensures short { IfOk result (λ v. length v.items ≤ request_limit) }
    ensures ok { OnOk result (S.faults stream.new ≡ S.faults stream.old) }
    ensures stops { IfErr result (Stops
        (record { sent = S.sent stream.old; given = S.given stream.old; left = S.left stream.old; faults = S.faults stream.old })
        (record { sent = S.sent stream.new; given = S.given stream.new; left = S.left stream.new; faults = S.faults stream.new })) }
    ensures sent { Keeps (S.sent stream.old) (S.sent stream.new) }
{
    let mut got = Vec::new(alloc);
    let mut progress = Progress::Head(HEAD);
    'pieces: loop {
        let before = got.len();
        match receive_piece(stream, &mut got) {
            Ok(()) => {}
            Err(error) => return Err(error),
        }
        match look(progress, &got, before) {
            Seen::Open(next) => progress = next,
            Seen::Whole(total) => {
                got.truncate(total);
                return Ok(got);
            }
            Seen::Refused(error) => return Err(error),
        }
    }
}

/// The answer to a request.
fn answer_of(alloc: Global, request: &[u8]) -> M<Vec<u8>>
    ensures { IfOk result (λ v. v.items ≡ answer_text request.now) }
{
    let mut out = Vec::with_capacity(alloc, request.len().saturating_add(ANSWER_HEAD))?;
    add(&mut out, b"HTTP/1.1 200 OK\r\nContent-Length: ")?;
    add_decimal(&mut out, request.len())?;
    add(&mut out, b"\r\nConnection: close\r\n\r\n")?;
    add(&mut out, request)?;
    Ok(out)
}

/// Receives one request, answers it with its own bytes, and gives its length.
///
/// The request is a head and as many bytes as its Content-Length says, none without it (RFC 9112, sections 3 and 6.2). The head ends with
/// the first empty line after a line that is not empty; it has at most 65,536 bytes and 128 fields, and the request at most 1,048,576 bytes.
/// The answer has the lines `HTTP/1.1 200 OK`, `Content-Length` and `Connection: close`, an empty line, and the bytes of the request; it is
/// sent once the request is whole. No piece is received after the one that settles what the bytes come to; bytes of that piece after the
/// request are let go.
///
/// The errors are those of `MirrorError`. On an error nothing was sent, but after a `StreamFault`, when a prefix of the answer may be out.
pub fn serve_one<S: Stream>(alloc: Global, stream: &mut S) -> Result<u32, MirrorError>
    // The bytes received come to a request of that length, and its answer went out whole.
    ensures mirrors { IfOk result (Mirrors
        (record { sent = S.sent stream.old; given = S.given stream.old; left = S.left stream.old; faults = S.faults stream.old })
        (record { sent = S.sent stream.new; given = S.given stream.new; left = S.left stream.new; faults = S.faults stream.new })) }

    // The bytes received come to that refusal.
    ensures bad_head { IsErrOf result MirrorError.BadHead → Comes
        (record { sent = S.sent stream.old; given = S.given stream.old; left = S.left stream.old; faults = S.faults stream.old })
        (record { sent = S.sent stream.new; given = S.given stream.new; left = S.left stream.new; faults = S.faults stream.new })
        (Refused MirrorError.BadHead) }
    ensures too_long { IsErrOf result MirrorError.TooLong → Comes
        (record { sent = S.sent stream.old; given = S.given stream.old; left = S.left stream.old; faults = S.faults stream.old })
        (record { sent = S.sent stream.new; given = S.given stream.new; left = S.left stream.new; faults = S.faults stream.new })
        (Refused MirrorError.TooLong) }

    // They come to neither, and none is left.
    ensures end_early { IsErrOf result MirrorError.EndEarly → Comes
        (record { sent = S.sent stream.old; given = S.given stream.old; left = S.left stream.old; faults = S.faults stream.old })
        (record { sent = S.sent stream.new; given = S.given stream.new; left = S.left stream.new; faults = S.faults stream.new })
        Open × IsAtEnd (S.left stream.new) }

    // A call failed: before the request was whole, or with a part of the answer to it not sent.
    ensures cause { IsErrOf result MirrorError.StreamFault → Rose (S.faults stream.old) (S.faults stream.new) }
    ensures fails { IsErrOf result MirrorError.StreamFault → Fails
        (record { sent = S.sent stream.old; given = S.given stream.old; left = S.left stream.old; faults = S.faults stream.old })
        (record { sent = S.sent stream.new; given = S.given stream.new; left = S.left stream.new; faults = S.faults stream.new }) }

    // Out of memory no piece was received after one that settled what the bytes come to.
    ensures memory { IsErrOf result MirrorError.NoMemory → ReceivesOn
        (record { sent = S.sent stream.old; given = S.given stream.old; left = S.left stream.old; faults = S.faults stream.old })
        (record { sent = S.sent stream.new; given = S.given stream.new; left = S.left stream.new; faults = S.faults stream.new }) }

    // With any other answer no call failed, and with any other error nothing was sent.
    ensures unfailed { OnOk result (S.faults stream.new ≡ S.faults stream.old) }
    ensures kept { IfErr result (λ error. error ≢ MirrorError.StreamFault → S.faults stream.new ≡ S.faults stream.old) }
    ensures unsent { IfErr result (λ error. error ≢ MirrorError.StreamFault → Keeps (S.sent stream.old) (S.sent stream.new)) }
{
    let request = match receive_request(alloc, stream) {
        Ok(request) => request,
        Err(error) => return Err(error),
    };
    let Ok(answer) = answer_of(alloc, &request) else {
        return Err(MirrorError::NoMemory);
    };
    match send_all(stream, &answer) {
        Ok(()) => Ok(request.len() as u32),
        Err(Failed) => Err(MirrorError::StreamFault),
    }
}
