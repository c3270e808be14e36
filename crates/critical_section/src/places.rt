//! The locks, the seats and the book, each with what is always true of it.
ghost use Rattle.std.specs.Prelude.{◌≡◌, ◌≢◌, ◌≤◌, []};
ghost use Rattle.std.specs.Slots.{slots_items, slots_len, IsFull};
ghost use Rattle.critical_section.specs.Book.{IsNumbered};

use crate::rule::{Limits, SeatView, SectionRule};
use atomic_table::{Closed, Seat, Table};
use std::alloc::Global;
use std::sync::atomic::AtomicU64;

/// Locks, each an atomic word: 2 p where p sections are over and none is open, 2 p + 1 where section p is open.
#[derive(Drop)]
pub struct Sections {
    pub(crate) table: Table<(), SeatView, Limits, SectionRule, Global>,
    // How many threads sleep at each lock. No contract speaks of it.
    pub(crate) sleepers: Vec<AtomicU64>,
    ghost words: { table.shared.table_id.words ≡ table.shared.key.locks },
    ghost vacant: { table.shared.table_id.slots ≡ 0 },
    ghost some: { 1 ≤ table.shared.key.locks },
}

/// The right of one thread to enter sections. It has no bytes. `Sections::new` makes the first seat, which makes
/// the others and takes them in again.
#[derive(Drop)]
pub struct SectionSeat {
    pub(crate) seat: Seat<(), SeatView>,
    ghost bare: { seat.me.1 ≡ [] },
    ghost live: { seat.me.0.seats ≢ 0 },
}

/// The words as they stood at the end, beside the list of every seat.
pub struct SectionBook {
    pub(crate) closed: Closed<(), Global>,
    pub(crate) lists: Seat<(), SeatView>,
    ghost full: { IsFull closed.words },
    ghost bare: { slots_len closed.slots ≡ 0 },
    ghost numbered: { IsNumbered (slots_len closed.words) (slots_items closed.words) lists.me.0.remembered },
}

impl Drop for SectionBook {
    fn drop(self) {
        let Self { closed, lists: _ } = self;
        closed.free();
    }
}
