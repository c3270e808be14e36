//! Tests of asking over real sockets: peers that refuse, close, send too little, too much or byte by byte, or never answer.
#![tactic(auto)]

#[cfg(test)]
mod asked;
#[cfg(test)]
mod peers;
#[cfg(test)]
mod sockets;
