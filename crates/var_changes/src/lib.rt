//! Changes of a thread's variables: several that are removed or set one after another, up to the first that would pass a
//! limit, and what stands then.
#![tactic(auto)]

mod put;

pub use put::{Variable, put_all, put_copy};
