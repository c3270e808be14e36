// One request and its response, over a stream.

ghost use Rattle.std.specs.Prelude.{◌≡◌, ℕ, List, [], IfOk, OnErr, Ok};
ghost use Rattle.std.specs.Io.KnownBytes.{Keeps};
ghost use Rattle.jm_base.specs.declared.types.Wire.{Wire};
ghost use Rattle.http_text.specs.ResponseReading.{Read, IsDone, IsOver};
ghost use Rattle.http_sampler.specs.Streams.{Standing};
ghost use Rattle.http_sampler.specs.Exchanges.{Receives, Takes, IsOutcome, IsGivenUp, EndsAs};

use crate::sending::send_all;
use crate::stream::Stream;
use http_text::{Fed, ResponseReader, Target, WireError};
use jm_base::{Failed, M, NoMemory, Outcome};
use std::alloc::Global;

/// How many bytes one call of a stream is asked for.
const BUFFER: usize = 8_192;

/// How the receiving of a response ended.
#[derive(Clone, Copy)]
pub(crate) enum Received {
    /// The response is whole or refused.
    Settled,
    /// The input has ended before.
    Ended,
    /// A call of the stream failed before.
    Failed,
}

// Receives until the response is whole or refused, and no longer.
fn receive_all<S: Stream>(stream: &mut S, reader: &mut ResponseReader) -> M<Received>
    requires { Read reader.old [] }
    ensures received { IfOk result (λ r. Receives
        (record { sent = S.sent stream.old; given = S.given stream.old; left = S.left stream.old; faults = S.faults stream.old })
        (record { sent = S.sent stream.new; given = S.given stream.new; left = S.left stream.new; faults = S.faults stream.new })
        reader.old.head_only reader.new r) }
    ensures memory { OnErr result (Takes
        (record { sent = S.sent stream.old; given = S.given stream.old; left = S.left stream.old; faults = S.faults stream.old })
        (record { sent = S.sent stream.new; given = S.given stream.new; left = S.left stream.new; faults = S.faults stream.new })) }
{
    let mut buffer = [0; BUFFER];
    for _ in 0..u64::MAX {
        let Ok(count) = stream.receive(&mut buffer) else {
            return Ok(Received::Failed);
        };
        if count == 0 {
            return Ok(Received::Ended);
        }
        match reader.feed(&buffer[..count]) {
            Ok(Fed::More) => {}
            Ok(Fed::Done { .. }) => return Ok(Received::Settled),
            Err(WireError::Wire(_)) => return Ok(Received::Settled),
            Err(WireError::NoMemory) => return Err(NoMemory),
        }
    }
    Err(NoMemory)
}

// The outcome where nothing more is received.
fn outcome_of(reader: ResponseReader) -> M<Outcome>
    ensures done { IsDone reader → IfOk result (λ o. o ≡ Outcome.Reply reader.reply) }
    ensures refused { (wire : Wire) → IsOver reader (WireError.Wire wire) → IfOk result (λ o. o ≡ Outcome.Broken wire) }
    ensures ended { (got : List ℕ) → Read reader got → IfOk result (λ o. EndsAs reader.head_only got o) }
{
    match reader.finish() {
        Ok(reply) => Ok(Outcome::Reply(reply)),
        Err(WireError::Wire(wire)) => Ok(Outcome::Broken(wire)),
        Err(WireError::NoMemory) => Err(NoMemory),
    }
}

// Sends a request's bytes and receives its response.
pub(crate) fn exchange_bytes<S: Stream>(
    alloc: Global,
    stream: &mut S,
    request: &[u8],
    head_only: bool,
) -> M<Outcome>
    ensures outcome { IfOk result (λ o. IsOutcome
        (record { sent = S.sent stream.old; given = S.given stream.old; left = S.left stream.old; faults = S.faults stream.old })
        (record { sent = S.sent stream.new; given = S.given stream.new; left = S.left stream.new; faults = S.faults stream.new })
        request.now head_only o) }
    ensures memory { OnErr result (IsGivenUp
        (record { sent = S.sent stream.old; given = S.given stream.old; left = S.left stream.old; faults = S.faults stream.old })
        (record { sent = S.sent stream.new; given = S.given stream.new; left = S.left stream.new; faults = S.faults stream.new })
        request.now) }
{
    let mut reader = ResponseReader::new(alloc, head_only)?;
    match send_all(stream, request) {
        Ok(()) => {}
        Err(Failed) => return Ok(Outcome::Fault),
    }
    match receive_all(stream, &mut reader)? {
        Received::Failed => Ok(Outcome::Fault),
        Received::Settled => outcome_of(reader),
        Received::Ended => outcome_of(reader),
    }
}

/// Sends a target's request and receives its response (RFC 9112), of which with `head_only` there is no body.
///
/// A `Reply` or `Broken` is what the bytes received come to, and all of the request went out; receiving ends with the byte that settles
/// it, or at the end of the stream. `EndEarly`, and a body up to the end of input, come only at the end of the stream. `Fault` comes
/// where a call of the stream failed before the response was settled, and `Null` never. The stream isn't closed.
pub fn exchange<S: Stream>(
    alloc: Global,
    stream: &mut S,
    target: &Target,
    head_only: bool,
) -> M<Outcome>
    ensures outcome { IfOk result (λ o. IsOutcome
        (record { sent = S.sent stream.old; given = S.given stream.old; left = S.left stream.old; faults = S.faults stream.old })
        (record { sent = S.sent stream.new; given = S.given stream.new; left = S.left stream.new; faults = S.faults stream.new })
        target.now.bytes head_only o) }

    // Out of memory counts no fault.
    ensures memory { OnErr result (IsGivenUp
        (record { sent = S.sent stream.old; given = S.given stream.old; left = S.left stream.old; faults = S.faults stream.old })
        (record { sent = S.sent stream.new; given = S.given stream.new; left = S.left stream.new; faults = S.faults stream.new })
        target.now.bytes) }
{
    exchange_bytes(alloc, stream, target.bytes.bytes(), head_only)
}
