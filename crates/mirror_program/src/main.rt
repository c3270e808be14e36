//! A peer on 127.0.0.1 that answers each request with its own bytes (`mirror_server`), one connection after another.
//! Its words: the port, and after how many connections it ends; without the second word it does not end.
#![tactic(auto)]

use http_sampler::SocketStream;
use mirror_server::serve_one;
use std::env;
use std::net::{OpenListener, TcpListener};
use std::time::Duration;

/// How long a send or a receive waits for the peer, in seconds.
const PATIENCE: u64 = 10;

fn main(rt: HostRuntime) -> anyhow::Result<()> {
    let mut numbers = Vec::new(rt.alloc());
    for word in env::args(&rt)?.skip(1) {
        numbers.push(word.parse::<u64>()?)?;
    }
    let Ok(port) = u16::try_from(numbers.first().copied().unwrap_or(0)) else {
        anyhow::bail!("a port is a number up to 65535");
    };
    let listener = TcpListener::bind(&rt, ("127.0.0.1", port))?;
    for _ in 0..numbers.get(1).copied().unwrap_or(u64::MAX) {
        let (socket, _) = listener.accept()?;
        // A request that is refused and a peer that goes away end their own connection alone.
        if let Ok(mut stream) = SocketStream::new(socket, Duration::from_secs(PATIENCE)) {
            let _ = serve_one(rt.alloc(), &mut stream);
        }
    }
    Ok(())
}
