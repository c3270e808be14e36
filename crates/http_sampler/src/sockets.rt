// Streams over the system's sockets, and the system's clock.

ghost use Rattle.std.specs.Prelude.{◌≡◌, ◌↔◌, ◌<◌, IfOk, IsTrue, None};

use crate::stream::{Clock, Dialer, Stream};
use edge_io::{Counted, Sink, Source};
use jm_base::Failed;
use std::io::{Read, Write};
use std::marker::Model;
use std::net::{Net, OpenStream, TcpStream, ToSocketAddrs};
use std::time::{Clock as SystemClock, Duration};

/// A stream over a connection, which is closed where the stream is let go. A send or a receive that waits longer than its limit has
/// failed. It tells nothing; contracts see its count of faults.
#[derive(Drop)]
pub struct SocketStream<T> {
    socket: Counted<T>,
    faults: u64,
}

impl<T> Model for SocketStream<T> {
    ghost use Rattle.std.specs.Prelude.{ℕ};

    ghost Value = { ℕ };

    ghost view = { λ s. s.faults };
}

impl<T: OpenStream + Drop> SocketStream<T> {
    /// A stream over this connection, each of whose sends and receives waits for the peer that long at most (`SO_SNDTIMEO`,
    /// `SO_RCVTIMEO`). Small pieces are sent at once (`TCP_NODELAY`). Where the system refuses one of the three, or the limit is zero,
    /// the connection is closed.
    pub fn new(socket: T, limit: Duration) -> Result<SocketStream<T>, Failed>
        ensures { IfOk result (λ s. s ≡ 0) }
    {
        if socket.set_read_timeout(Some(limit)).is_err()
            || socket.set_write_timeout(Some(limit)).is_err()
            || socket.set_nodelay(true).is_err()
        {
            return Err(Failed);
        }
        Ok(SocketStream {
            socket: Counted::new(socket),
            faults: 0,
        })
    }
}

impl<T> SocketStream<T> {
    /// Whether a call has failed.
    pub fn has_failed(&self) -> bool
        ensures { IsTrue result ↔ (0 < self.now) }
    {
        self.faults > 0
    }
}

impl<T: Read + Write> Stream for SocketStream<T> {
    ghost sent = { λ _. None };

    ghost given = { λ _. None };

    ghost left = { λ _. None };

    ghost faults = { λ s. s };

    fn send(&mut self, piece: &[u8]) -> Result<usize, Failed> {
        match self.socket.write(piece) {
            Ok(count) => Ok(count),
            Err(Failed) => {
                self.faults = self.faults.saturating_add(1);
                Err(Failed)
            }
        }
    }

    fn receive(&mut self, into: &mut [u8]) -> Result<usize, Failed> {
        match self.socket.read(into) {
            Ok(count) => Ok(count),
            Err(Failed) => {
                self.faults = self.faults.saturating_add(1);
                Err(Failed)
            }
        }
    }
}

/// Dials by the system's sockets. A connection, a send or a receive that waits longer than its limit has failed. It tells nothing;
/// contracts see its count of faults.
#[derive(Drop)]
pub struct SocketDialer<R> {
    net: R,
    limit: Duration,
    faults: u64,
}

impl<R> Model for SocketDialer<R> {
    ghost use Rattle.std.specs.Prelude.{ℕ};

    ghost Value = { ℕ };

    ghost view = { λ d. d.faults };
}

impl<R: Net + Drop> SocketDialer<R> {
    /// A dialer that has had no fault, whose connections, sends and receives each wait for a peer that long at most. Where a name has
    /// several addresses each of them is tried, the next one after that time.
    pub fn new(net: R, limit: Duration) -> SocketDialer<R>
        ensures { result ≡ 0 }
    {
        SocketDialer {
            net,
            limit,
            faults: 0,
        }
    }

    // A stream to the first address of a host that answers.
    fn connect(&self, host: &[u8], port: u16) -> Result<SocketStream<R::Stream>, Failed>
        ensures { IfOk result (λ s. s ≡ 0) }
    {
        let Ok(host) = str::from_utf8(host) else {
            return Err(Failed);
        };
        let Ok(addresses) = (bare_host(host), port).to_socket_addrs(&self.net) else {
            return Err(Failed);
        };
        for address in addresses {
            if let Ok(socket) = TcpStream::connect_timeout(&self.net, &address, self.limit) {
                return SocketStream::new(socket, self.limit);
            }
        }
        Err(Failed)
    }
}

// A host without the brackets that an address of version 6 has in a URL.
fn bare_host(host: &str) -> &str {
    match host.strip_prefix('[') {
        Some(rest) => rest.strip_suffix(']').unwrap_or(rest),
        None => host,
    }
}

impl<R: Net + Drop> Dialer for SocketDialer<R> {
    type S = SocketStream<R::Stream>;

    ghost dialed = { λ _. None };

    ghost spent = { λ _. None };

    ghost faults = { λ d. d };

    fn dial(&mut self, host: &[u8], port: u16) -> Result<SocketStream<R::Stream>, Failed> {
        match self.connect(host, port) {
            Ok(stream) => Ok(stream),
            Err(Failed) => {
                self.faults = self.faults.saturating_add(1);
                Err(Failed)
            }
        }
    }

    fn hang_up(&mut self, stream: SocketStream<R::Stream>) {
        if stream.has_failed() {
            self.faults = self.faults.saturating_add(1);
        }
    }
}

/// The system's clock, in milliseconds from the first of January 1970. It tells nothing.
#[derive(Drop)]
pub struct RealClock<R> {
    clock: R,
}

impl<R: Drop> RealClock<R> {
    /// The clock of `rt`, which it keeps.
    pub fn new(rt: R) -> RealClock<R> {
        RealClock { clock: rt }
    }
}

impl<R: SystemClock + Drop> Clock for RealClock<R> {
    ghost heard = { λ _. None };

    /// The time of the system's clock, 0 where it can't be read.
    fn now(&mut self) -> u64 {
        match self.clock.since_1970() {
            Ok(time) => time
                .as_secs()
                .saturating_mul(1_000)
                .saturating_add(u64::from(time.subsec_millis())),
            Err(_) => 0,
        }
    }

    fn pause(&mut self, ms: u32) {
        self.clock.sleep(Duration::from_millis(u64::from(ms)));
    }
}
