// The outsides that a world has closed.

use crate::kept::Told;

/// The outsides that were closed so far, the last one first. Each place was allocated when its outside was opened, so closing
/// takes no memory.
#[derive(Drop)]
pub(crate) enum Closed {
    /// None was closed.
    Empty,
    /// This one was closed after others. `told` is what it was told, where it told.
    More {
        number: u16,
        told: Option<Told>,
        before: Box<Closed>,
    },
}
