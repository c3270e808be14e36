//! Where threads get their answers: outsides that answer from the plan itself, the worlds that open an outside for each
//! thread of a run, and the tickers that say when an interval ends.
#![tactic(auto)]

mod closed;
mod copies;
mod kept;
mod mem_ticker;
mod real_ticker;
mod replies;
mod script;
mod script_world;
mod ticker;
mod world;

pub use mem_ticker::MemTicker;
pub use real_ticker::RealTicker;
pub use script::ScriptOutside;
pub use script_world::ScriptWorld;
pub use ticker::Ticker;
pub use world::World;
