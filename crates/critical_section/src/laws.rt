//! What the rule of the locks' words says of every state.
ghost use Rattle.critical_section.specs.Book.{OneSeatALock};

/// No two seats have one lock open. The rule holds between any two atomic steps, so this holds in every state that can be reached.
pub fn one_seat_a_lock()
    ensures { OneSeatALock }
{}
