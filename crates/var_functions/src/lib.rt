//! Properties and functions of a thread, and the expansion of templates.
#![tactic(auto)]

mod error;
mod expansion;
mod function;
mod number;
mod props;
mod state;
mod texts;
mod value;

pub use error::PropsError;
pub use expansion::expand;
pub use props::Props;
pub use state::{FnState, UserState};
pub use thread_vars::{VarError, Vars};
