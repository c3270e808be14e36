//! What the locks' words and the seats' views show, and the kinds of step that change them.
use atomic_table::{Join, Play, Split, TableRule};
use std::collections::LinkedList;

/// The most locks that there may be.
pub const MOST_LOCKS: u16 = 256;

/// The most seats that may be made.
pub const MOST_SEATS: u16 = 65;

/// The most sections that one seat enters.
pub const MOST_SECTIONS: u64 = 4_194_304;

/// How many locks there are, and how many seats may be made.
#[derive(Drop)]
pub struct Limits {
    pub locks: u16,
    pub seats: u16,
}

/// What a seat knows. It exists in proofs alone: no value of it is made. A section is its lock and its place.
pub struct SeatView {
    /// 1, or 0 for a view that only remembers lists.
    pub counted: u64,
    /// The seats that it stands for, its own and the joined ones; 0 where it was joined itself.
    pub seats: u64,
    /// Of the first seat, how many seats were made; of another, 0.
    pub made: u64,
    /// The section that the seat has open.
    pub inside: Option<(u16, u64)>,
    /// The sections that the seat has closed, in order.
    pub own: LinkedList<(u16, u64)>,
    /// The lists of the seats that were joined into it.
    pub joined: LinkedList<LinkedList<(u16, u64)>>,
    /// What each step of its last try found: the lock and its word.
    pub found: LinkedList<(u16, u64)>,
    /// The lists that a view without a seat remembers; of a seat, nothing.
    pub remembered: LinkedList<LinkedList<(u16, u64)>>,
}

/// The rule of the table: `SectionInvariant`, of its words and its views.
pub struct SectionRule;

impl TableRule<(), SeatView, Limits> for SectionRule {
    ghost use Rattle.critical_section.specs.Book.{holds_of, opening_view};

    ghost holds = { holds_of };

    ghost first = { λ _. opening_view };
}

/// The load that begins a try.
pub struct Loads;

impl Play<(), SeatView> for Loads {
    ghost use Rattle.critical_section.specs.Book.{loads};

    ghost then = { loads };
}

/// The exchange of an even word for the next one.
pub struct Exchanges;

impl Play<(), SeatView> for Exchanges {
    ghost use Rattle.critical_section.specs.Book.{exchanges};

    ghost then = { exchanges };
}

/// The addition that closes a section.
pub struct Leaves;

impl Play<(), SeatView> for Leaves {
    ghost use Rattle.critical_section.specs.Book.{leaves};

    ghost then = { leaves };
}

/// A seat more.
pub struct Further;

impl Split<SeatView> for Further {
    ghost use Rattle.critical_section.specs.Book.{one_more, further_view};

    ghost left = { one_more };

    ghost right = { λ _. further_view };
}

/// A seat whose lists the first seat takes.
pub struct Taken;

impl Join<SeatView> for Taken {
    ghost use Rattle.critical_section.specs.Book.{taking, spent};

    ghost both = { taking };

    ghost spent = { spent };
}

/// A view that remembers all lists when the table is closed.
pub struct Telling;

impl Split<SeatView> for Telling {
    ghost use Rattle.critical_section.specs.Book.{itself, telling};

    ghost left = { itself };

    ghost right = { telling };
}
