// A critical section that is open.

use logic_controllers::SimpleCursor;

/// An open critical section: its children, which run in order as those of a Simple Controller, and the number of its lock.
#[derive(Clone, Copy)]
pub struct OpenSection {
    /// Where it stands among its children.
    pub(crate) children: SimpleCursor,
    /// The number of its lock.
    pub lock: u16,
}
