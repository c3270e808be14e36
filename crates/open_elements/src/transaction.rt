// A transaction that is open.

use jm_meaning::Tally;
use logic_controllers::SimpleCursor;

/// An open transaction: its children, which run in order as those of a Simple Controller, and what it has counted of the
/// samples in it.
#[derive(Clone, Copy)]
pub struct OpenTransaction {
    /// Where it stands among its children.
    pub(crate) children: SimpleCursor,
    /// What it has counted.
    pub tally: Tally,
}
