//! HTTP/1.1 as bytes: the request of an HTTP sampler's settings, and a response read in whatever pieces it comes.
#![tactic(auto)]

mod answers;
mod error;
mod fields;
mod head;
mod laws;
mod reader;
mod request;
mod sizes;
mod state;

pub use answers::Fed;
pub use error::{TargetError, WireError};
pub use laws::{one_answer, one_target};
pub use reader::ResponseReader;
pub use request::{HttpSettings, NamedText, Target, request_bytes};
