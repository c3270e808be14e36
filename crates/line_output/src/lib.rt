//! Text on its way to a sink: it is handed over in pieces, so that little of it is held at once.
#![tactic(auto)]

mod pending;

pub use pending::Pending;
