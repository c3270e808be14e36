// Requests and their responses over a stream.

use crate::calls;
use crate::shown::{error_name, request_shown, write_reply};
use crate::streams::TextStream;
use case_words::{at, bytes_of, text_of};
use http_text::{Target, WireError};
use jm_base::{M, NoMemory, Outcome};
use std::alloc::{AllocError, Global};

/// The number of a call that no stream gets to.
const NEVER: u64 = u64::MAX;

/// Writes what a request came to.
fn write_outcome(outcome: M<Outcome>, out: &mut String) -> Result<(), AllocError> {
    match outcome {
        Ok(Outcome::Reply(reply)) => write_reply(&reply, out),
        Ok(Outcome::Broken(wire)) => out.push_str(error_name(WireError::Wire(wire))),
        Ok(Outcome::Fault) => out.push_str("Fault"),
        Ok(Outcome::Null) => out.push_str("Null"),
        Err(NoMemory) => out.push_str("NoMemory"),
    }
}

/// `exchange FLAGS SIZE CALL REQUEST RESPONSE`
pub fn exchanged(alloc: Global, fields: &[&str], out: &mut String) -> anyhow::Result<()> {
    let size = at(fields, 2).parse::<usize>()?;
    let failing = at(fields, 3).parse::<u64>().unwrap_or(NEVER);
    let request = Target {
        host: text_of(alloc, "h")?,
        port: 80,
        bytes: text_of(alloc, at(fields, 4))?,
    };
    let response = bytes_of(alloc, at(fields, 5))?;
    let mut stream = TextStream::new(alloc, &response, size, failing);
    let head_only = at(fields, 1).contains('h');
    let outcome = calls::exchanged(alloc, &mut stream, &request, head_only);
    write_outcome(outcome, out)?;
    write!(
        out,
        "\t{}\tafter {}",
        request_shown(&stream.sent),
        stream.given
    )?;
    Ok(())
}
