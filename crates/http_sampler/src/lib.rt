//! The outside of a thread that asks HTTP samplers over streams, and streams over the system's sockets.
#![tactic(auto)]

mod asking;
mod opening;
mod outside;
mod sending;
mod socket_world;
mod sockets;
mod stream;

pub use asking::exchange;
pub use outside::HttpOutside;
pub use sending::send_all;
pub use socket_world::SocketWorld;
pub use sockets::{RealClock, SocketDialer, SocketStream};
pub use stream::{Clock, Dialer, Stream};
