//! The settings of an HTTP sampler: what it has itself, and what HTTP Request Defaults and HTTP Header Managers give it (the
//! manual's "HTTP Request", "HTTP Request Defaults" and "HTTP Header Manager"). And what it asks for with these settings.
#![tactic(auto)]

mod defaults;
mod headers;
mod request;
mod target;
mod texts;

pub use request::settings;
pub use target::request_of;
