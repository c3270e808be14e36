//! Tests of the whole program against services over sockets.
#![tactic(auto)]

#[cfg(test)]
mod failing;
#[cfg(test)]
mod mirrored;
#[cfg(test)]
mod runs;
