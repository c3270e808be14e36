//! Locks over atomic words, whose critical sections are numbered without a gap, over any number of threads.
#![tactic(auto)]

mod laws;
mod places;
mod rule;
mod sections;

pub use laws::one_seat_a_lock;
pub use places::{SectionBook, SectionSeat, Sections};
pub use rule::{Limits, MOST_LOCKS, MOST_SEATS, MOST_SECTIONS, SeatView};
pub use sections::Try;
