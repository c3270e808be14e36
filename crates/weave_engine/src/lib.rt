//! Runs the threads of a plan on one thread, each in turn as a schedule says: which thread records which of its atomic steps
//! when, and when the reporter closes which interval. So an interleaving can be written down, and comes again each time.
#![tactic(auto)]

mod books;
mod reporter;
mod rounds;
mod rows;
mod seat;
mod turns;
mod weaving;

pub use books::WeaveBooks;
pub use schedule_text::{Schedule, ScheduleError, Token, parse_schedule};
pub use weaving::{a_schedule_names_one_run, weave};
