//! Runs the cases of HTTP requests and responses, alone and over a stream. Each line of the input is a call; its fields are parted by one
//! tab. A byte of a field may be written as `\n`, `\xNN` and so on, a backslash as `\\`, and a field `@N:TEXT` is the text N times,
//! `@N:TEXT@M:TEXT` such texts one after another.
//!
//! - `response FLAGS TEXT`: a response, with the flag `h` one to HEAD, else `-`. It is read whole, byte by byte, and cut in two at every
//!   place. Printed are the reply and how many bytes belong to it, or the refusal and how many bytes there are up to the one that settles
//!   it; and in how many ways it was read, all of which gave the same. After a refusal and after a whole response one more piece is fed.
//! - `prefixes FLAGS TEXT`: each proper prefix of a response, from none of its bytes to all but one, which are all to end early.
//! - `sized FLAGS SIZE TEXT`: a response in pieces of a size. A refusal is printed with how many bytes had come with its piece.
//! - `pieces FLAGS TEXT ..`: a response in these pieces: what each is, and how the reader finishes.
//! - `request METHOD HOST PORT PATH BODY FIELD ..`: a request, a field being `p:NAME=VALUE` for a parameter or `h:NAME=VALUE` for a header
//!   field. Printed are the host, the port and the bytes.
//! - `mirror TEXT`: a request that is mirrored, received byte by byte and in pieces of each other size. Printed are its length or the refusal,
//!   what was sent, and how many bytes had come; with pieces of another size that is to be the piece with the same byte.
//! - `mirror-sized SIZE TEXT`: the same in pieces of a size.
//! - `mirror-faults SIZE TEXT`: the same in pieces of a size, where each call fails in turn, which is to be a StreamFault: how often nothing was sent
//!   and how often a part of the answer; and whether with no failed call it is what it was.
//! - `exchange FLAGS SIZE CALL TEXT TEXT`: a request that is sent, with the flag `h` one of HEAD, else `-`, and the response that its peer gives,
//!   both in pieces of a size. The call of this number fails, the first being 0; no call where CALL is `-`. Printed are the reply, the
//!   refusal or `Fault`, what was sent, and how many bytes had come.
//! - `repeat N`: each call after it is made N times.
//!
//! Any other line is for a reader alone. A part of a reply of more than 60 bytes and a request of more than 1,000 are shown by their
//! length and their first 8 bytes.
#![tactic(auto)]

mod calls;
mod cases;
mod exchanges;
mod mirrors;
mod requests;
mod shown;
mod streams;
mod ways;

use cases::Cases;
use std::alloc::Global;

/// Prints what a line gave, if anything.
fn answer(rt: &impl Print, alloc: Global, cases: &mut Cases, line: &str) -> anyhow::Result<()> {
    let mut given = String::new(alloc);
    cases.run(alloc, line, &mut given)?;
    if !given.is_empty() {
        println!(rt; "{given}")?;
    }
    Ok(())
}

/// Goes through the lines of the input.
fn answer_all(rt: &(impl Input + Print), alloc: Global, cases: &mut Cases) -> anyhow::Result<()> {
    for line in rt.lines(alloc) {
        answer(rt, alloc, cases, line?.as_str())?;
    }
    Ok(())
}

fn main(rt: HostRuntime) -> anyhow::Result<()> {
    let mut cases = Cases::new();
    answer_all(&rt, rt.alloc(), &mut cases)
}
