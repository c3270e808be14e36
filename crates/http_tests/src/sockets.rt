//! What a request comes to at each kind of peer.

use crate::asked::asked;
use crate::peers::{Peer, Then, serve};
use std::net::TcpListener;
use std::process::Abort;
use std::test::Fail;
use std::thread;

/// A whole response.
const RESPONSE: &[u8] = b"HTTP/1.1 200 OK\r\nContent-Length: 5\r\n\r\nhello";

/// The head of a response whose body goes to the end of input.
const OPEN_HEAD: &[u8] = b"HTTP/1.1 200 OK\r\n\r\n";

/// How long a connection, a send or a receive waits for a peer that answers, in milliseconds.
const LONG: u64 = 20_000;

/// And for one that does not.
const SHORT: u64 = 400;

/// The size of pieces in which each text is one piece.
const WHOLE: usize = 4096;

#[test]
fn each_peer_has_its_outcome(rt: HostRuntime) -> Result<(), Fail> {
    let cases = [
        (b"".as_slice(), WHOLE, Then::Closes, LONG, "end early"),
        (
            b"HTTP/1.1 2".as_slice(),
            WHOLE,
            Then::Closes,
            LONG,
            "end early",
        ),
        (OPEN_HEAD, WHOLE, Then::SendsOn, LONG, "too long"),
        (RESPONSE, 1, Then::Closes, LONG, "hello"),
        (RESPONSE, WHOLE, Then::Waits, LONG, "hello"),
        (b"".as_slice(), WHOLE, Then::Waits, SHORT, "fault"),
    ];
    for (text, size, then, limit, want) in cases {
        let peer = Peer { text, size, then };
        let listener = TcpListener::bind(&rt, "127.0.0.1:0")?;
        let port = listener.local_addr()?.port();
        let (served, outcome) = thread::join(
            &rt,
            move || serve(&listener, peer),
            || asked(&rt, rt.alloc(), port, limit),
        );
        assert_eq!(rt; outcome?, want);
        served?;
    }
    Ok(())
}

#[test]
fn a_port_that_refuses_gives_no_stream(rt: HostRuntime) -> Result<(), Fail> {
    let listener = TcpListener::bind(&rt, "127.0.0.1:0")?;
    let port = listener.local_addr()?.port();
    drop(listener);
    assert_eq!(rt; asked(&rt, rt.alloc(), port, LONG)?, "no stream");
    Ok(())
}
