// Why settings have no target, and why a response gives no reply.

use jm_base::Wire;
use thiserror::Error;

/// Why settings have no target.
#[derive(Clone, Copy, Debug, PartialEq, Eq, Error)]
pub enum TargetError {
    /// The host is empty, the port is not a port's number, the text of the URL has no reading, the name or the value of a header
    /// field can't be sent, or the request would have more than 1,048,576 bytes.
    #[error("the settings name no target")]
    BadTarget,
    /// Out of memory.
    #[error("out of memory")]
    NoMemory,
}

/// Why a response gives no reply.
#[derive(Clone, Copy, Debug, PartialEq, Eq, Error)]
pub enum WireError {
    /// The bytes are refused, for this reason.
    #[error("the bytes are not a response")]
    Wire(Wire),
    /// Out of memory.
    #[error("out of memory")]
    NoMemory,
}
