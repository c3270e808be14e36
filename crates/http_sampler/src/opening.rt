// Which world opened an outside, and the outsides that a world has closed.

/// The numbers of the outsides that were closed so far, the last one first. Each place was allocated when its outside was opened, so
/// closing takes no memory.
#[derive(Drop)]
pub(crate) enum Closed {
    /// None was closed.
    Empty,
    /// This one was closed after others.
    More { number: u16, before: Box<Closed> },
}

/// Which world opened an outside for which number, and the place that the outside takes there when it is closed.
#[derive(Drop)]
pub(crate) struct Opening {
    pub(crate) identity: u64,
    pub(crate) number: u16,
    pub(crate) place: Box<Closed>,
}
