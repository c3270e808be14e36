// Why a request is not mirrored.

use thiserror::Error;

/// Why a request is not mirrored. Where two hold the one at the earlier byte comes, and at one byte `TooLong`.
#[derive(Clone, Copy, Debug, PartialEq, Eq, Error)]
pub enum MirrorError {
    /// A whole head is not one of a request (RFC 9112, section 3) or has more than 128 fields, a Content-Length is not digits of a value
    /// below 2^63, two of them differ in value, or there is a Transfer-Encoding. It comes with the last byte of the head.
    #[error("the head is not one of a request that can be mirrored")]
    BadHead,
    /// The head has 65,536 bytes and does not end there, or, with the last byte of the head, the head and its Content-Length together are
    /// more than 1,048,576 bytes.
    #[error("the request is too long")]
    TooLong,
    /// The input ends before the request is whole.
    #[error("the input ends before the request is whole")]
    EndEarly,
    /// A call of the stream failed.
    #[error("a call of the stream failed")]
    StreamFault,
    /// Out of memory.
    #[error("out of memory")]
    NoMemory,
}
