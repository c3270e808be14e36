//! A peer that mirrors requests: it answers one request on a stream with the bytes of that request.
#![tactic(auto)]

mod error;
mod head;
mod laws;
mod look;
mod serve;

pub use error::MirrorError;
pub use laws::one_answer;
pub use serve::serve_one;
