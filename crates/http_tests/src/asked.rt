//! A request to a port of this machine.

use crate::peers::REQUEST;
use http_sampler::{Dialer, SocketDialer, exchange};
use http_text::Target;
use jm_base::{M, Outcome, Reply, Text, Wire};
use std::alloc::Global;
use std::net::Net;
use std::time::Duration;

const HOST: &[u8] = b"127.0.0.1";

fn is_hello(reply: &Reply) -> bool {
    reply.code == 200 && reply.body.bytes() == b"hello".as_slice()
}

// The body of a reply of code 200, or why there is none.
fn shown(outcome: &Outcome) -> &'static str {
    match outcome {
        Outcome::Reply(reply) if is_hello(reply) => "hello",
        Outcome::Reply(_) => "another reply",
        Outcome::Fault => "fault",
        Outcome::Broken(Wire::EndEarly) => "end early",
        Outcome::Broken(Wire::TooLong) => "too long",
        Outcome::Broken(_) => "another refusal",
        Outcome::Null => "no sample",
    }
}

/// What the request comes to that is asked over a stream of its own, which waits that many milliseconds for a peer.
pub fn asked<R: Net + Drop>(rt: R, alloc: Global, port: u16, limit: u64) -> M<&'static str> {
    let target = Target {
        host: Text::new(alloc, HOST)?,
        port,
        bytes: Text::new(alloc, REQUEST)?,
    };
    let mut dialer = SocketDialer::new(rt, Duration::from_millis(limit));
    let Ok(mut stream) = dialer.dial(HOST, port) else {
        return Ok("no stream");
    };
    let outcome = exchange(alloc, &mut stream, &target, false);
    dialer.hang_up(stream);
    Ok(shown(&outcome?))
}
