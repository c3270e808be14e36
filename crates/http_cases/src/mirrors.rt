// Requests that are mirrored.

use crate::calls;
use crate::shown::request_shown;
use crate::streams::TextStream;
use mirror_server::MirrorError;
use std::alloc::{AllocError, Global};

/// The number of a call that no stream gets to.
const NEVER: u64 = u64::MAX;

/// The name of a mirror's error.
fn mirror_error_name(error: MirrorError) -> &'static str {
    match error {
        MirrorError::BadHead => "BadHead",
        MirrorError::TooLong => "TooLong",
        MirrorError::EndEarly => "EndEarly",
        MirrorError::StreamFault => "StreamFault",
        MirrorError::NoMemory => "NoMemory",
    }
}

/// What is answered, and what was sent.
fn served_shown(
    alloc: Global,
    served: Result<u32, MirrorError>,
    sent: &[u8],
) -> Result<String, AllocError> {
    let sent = request_shown(sent);
    match served {
        Ok(length) => format!(in alloc; "{length}\t{sent}"),
        Err(error) => format!(in alloc; "{}\t{sent}", mirror_error_name(error)),
    }
}

/// What came of a request, and how many bytes were received of it.
#[derive(Drop)]
struct Served {
    answer: String,
    given: usize,
}

/// What comes of a text in pieces of a size.
fn in_pieces_of(alloc: Global, text: &[u8], size: usize) -> Result<Served, AllocError> {
    let mut stream = TextStream::new(alloc, text, size, NEVER);
    let served = calls::serve(alloc, &mut stream);
    Ok(Served {
        answer: served_shown(alloc, served, &stream.sent)?,
        given: stream.given,
    })
}

/// What comes of a text in pieces of a size, and how many bytes were received.
pub fn mirrored_in(
    alloc: Global,
    text: &[u8],
    size: usize,
    out: &mut String,
) -> anyhow::Result<()> {
    let served = in_pieces_of(alloc, text, size)?;
    write!(out, "{}\tafter {}", served.answer, served.given)?;
    Ok(())
}

/// How many bytes pieces of a size have up to the one that has this byte.
fn rounded_up(place: usize, size: usize, length: usize) -> usize {
    let pieces = place.saturating_add(size).saturating_sub(1) / size.max(1);
    pieces.saturating_mul(size).min(length)
}

/// What comes of a text that is received byte by byte, and in pieces of each other size; and whether all ways agree.
pub fn mirrored(alloc: Global, text: &[u8], out: &mut String) -> anyhow::Result<()> {
    let bytewise = in_pieces_of(alloc, text, 1)?;
    for size in 2..text.len().saturating_add(2) {
        let way = in_pieces_of(alloc, text, size)?;
        if way.answer.as_str() != bytewise.answer.as_str()
            || way.given != rounded_up(bytewise.given, size, text.len())
        {
            write!(
                out,
                "in pieces of {size} it is {} after {}, and byte by byte ",
                way.answer, way.given
            )?;
            break;
        }
    }
    write!(out, "{}\tafter {}", bytewise.answer, bytewise.given)?;
    Ok(())
}

/// What comes of a text where each call of the stream fails in turn: how often nothing was sent, and how often a part of the answer.
pub fn mirrored_with_faults(
    alloc: Global,
    text: &[u8],
    size: usize,
    out: &mut String,
) -> anyhow::Result<()> {
    let whole = in_pieces_of(alloc, text, size)?;
    let (mut unsent, mut partly) = (0u32, 0u32);
    for call in 0..10_000u64 {
        let mut stream = TextStream::new(alloc, text, size, call);
        let served = calls::serve(alloc, &mut stream);
        if stream.faults == 0 {
            let answer = served_shown(alloc, served, &stream.sent)?;
            let same = answer.as_str() == whole.answer.as_str();
            write!(
                out,
                "{unsent} with nothing sent, {partly} with a part\t{same}"
            )?;
            return Ok(());
        }
        if served != Err(MirrorError::StreamFault) {
            write!(out, "call {call} fails and it is no StreamFault")?;
            return Ok(());
        }
        if stream.sent.is_empty() {
            unsent = unsent.saturating_add(1);
        } else {
            partly = partly.saturating_add(1);
        }
    }
    anyhow::bail!("there are too many calls")
}
