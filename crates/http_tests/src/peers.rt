//! Peers over real sockets.

use std::io;
use std::io::{Read, Write};
use std::net::{TcpListener, TcpStream};

/// The request that a peer waits for before it does anything.
pub const REQUEST: &[u8] = b"GET / HTTP/1.1\r\nHost: h\r\nConnection: close\r\n\r\n";

/// How many bytes it has.
const LENGTH: usize = 46;

/// How many blocks a peer sends at most that sends without end.
const BLOCKS: u32 = 1_000_000;

/// What a peer does once it has sent its text.
#[derive(Clone, Copy)]
pub enum Then {
    /// It closes the connection.
    Closes,
    /// It waits until the other side closes.
    Waits,
    /// It sends more until the other side closes.
    SendsOn,
}

/// A peer of one connection, which sends a text in pieces of a size.
#[derive(Clone, Copy)]
pub struct Peer {
    pub text: &'static [u8],
    pub size: usize,
    pub then: Then,
}

/// Serves one connection.
pub fn serve(listener: &TcpListener, peer: Peer) -> io::Result<()> {
    let (mut stream, _) = listener.accept()?;
    stream.set_nodelay(true)?;
    let mut request = [0u8; LENGTH];
    stream.read_exact(&mut request)?;
    if request.as_slice() != REQUEST {
        return Err(io::Error::from(io::ErrorKind::InvalidData));
    }
    for piece in peer.text.chunks(peer.size.max(1)) {
        stream.write_all(piece)?;
    }
    match peer.then {
        Then::Closes => Ok(()),
        Then::Waits => wait_for_the_end(&mut stream),
        Then::SendsOn => {
            send_on(&mut stream);
            Ok(())
        }
    }
}

fn send_on(stream: &mut TcpStream) {
    for _ in 0..BLOCKS {
        if stream.write_all(&[b'x'; 4096]).is_err() {
            return;
        }
    }
}

fn wait_for_the_end(stream: &mut TcpStream) -> io::Result<()> {
    let mut byte = [0u8; 1];
    stream.read(&mut byte)?;
    Ok(())
}
