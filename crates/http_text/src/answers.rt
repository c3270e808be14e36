// What a reader answers to a piece.

/// What a piece of a response was.
#[derive(Clone, Copy, Debug, PartialEq, Eq)]
pub enum Fed {
    /// All of it was used, and the response is not whole yet.
    More,
    /// The response is whole, and this many bytes of the piece belong to it.
    Done { used: u64 },
}
