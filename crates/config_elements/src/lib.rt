//! Configuration elements: the delay of timers; Counters and data sets, which advance at the start of a round; and the settings
//! of an HTTP sampler (the manual's "Timers", "Counter", "CSV Data Set Config" and "HTTP Request").
#![tactic(auto)]

mod delays;
mod rounds;
mod rows;
mod state;

pub use delays::{capped, delay};
pub use http_settings::settings;
pub use rounds::begin_round;
pub use state::ConfigState;
