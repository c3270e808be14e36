// Replies and requests as the output shows them.

use http_text::{Fed, TargetError, WireError};
use jm_base::{Reply, Wire};
use std::alloc::AllocError;
use std::fmt;

/// The longest part of a reply that is shown whole.
const MOST_OF_A_PART: usize = 60;

/// The longest request that is shown whole.
const MOST_OF_A_REQUEST: usize = 1_000;

/// Bytes with escapes for those that do not print; many by their number and the first of them.
#[derive(Clone, Copy)]
pub struct Shown<'b> {
    bytes: &'b [u8],
    most: usize,
}

impl fmt::Display for Shown<'_> {
    fn fmt<W: fmt::Write>(&self, f: &mut fmt::Formatter<W>) -> fmt::Result {
        let bytes = self.bytes;
        if bytes.len() > self.most {
            let first = bytes.get(..8).unwrap_or(bytes);
            return write!(f, "{} bytes: {}..", bytes.len(), first.escape_ascii());
        }
        write!(f, "{}", bytes.escape_ascii())
    }
}

/// The bytes of a request.
pub fn request_shown(bytes: &[u8]) -> Shown<'_> {
    Shown {
        bytes,
        most: MOST_OF_A_REQUEST,
    }
}

fn part_shown(bytes: &[u8]) -> Shown<'_> {
    Shown {
        bytes,
        most: MOST_OF_A_PART,
    }
}

/// Writes the parts of a reply.
pub fn write_reply(reply: &Reply, out: &mut String) -> Result<(), AllocError> {
    write!(
        out,
        "{}\t{}\t{}\t{}",
        reply.code,
        part_shown(reply.message.bytes()),
        part_shown(reply.headers.bytes()),
        part_shown(reply.body.bytes())
    )
}

/// The name of a reader's error.
pub fn error_name(error: WireError) -> &'static str {
    match error {
        WireError::Wire(Wire::BadHead) => "BadHead",
        WireError::Wire(Wire::BadChunk) => "BadChunk",
        WireError::Wire(Wire::TooLong) => "TooLong",
        WireError::Wire(Wire::EndEarly) => "EndEarly",
        WireError::NoMemory => "NoMemory",
    }
}

/// The name of a request's error.
pub fn target_error_name(error: TargetError) -> &'static str {
    match error {
        TargetError::BadTarget => "BadTarget",
        TargetError::NoMemory => "NoMemory",
    }
}

/// Writes what a piece is.
pub fn write_fed(fed: Result<Fed, WireError>, out: &mut String) -> Result<(), AllocError> {
    match fed {
        Ok(Fed::More) => out.push_str("more\t"),
        Ok(Fed::Done { used }) => write!(out, "done {used}\t"),
        Err(error) => write!(out, "{}\t", error_name(error)),
    }
}

/// Writes how a reader finishes.
pub fn write_finish(finish: Result<Reply, WireError>, out: &mut String) -> Result<(), AllocError> {
    match finish {
        Ok(reply) => write_reply(&reply, out),
        Err(error) => out.push_str(error_name(error)),
    }
}
