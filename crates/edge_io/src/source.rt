// What bytes are read from.

ghost use Rattle.std.specs.Prelude.{◌≡◌, ◌+◌, ◌<◌, ◌≤◌, ℕ, List, Option, length, take, IfOk, OnOk, OnErr, IsErrOf, vec_len};
ghost use Rattle.std.specs.Io.KnownBytes.{Consumes, IsAtEnd, Keeps};
ghost use Rattle.edge_io.specs.Edges.{TookAll, TookAtMost, TookCount};
ghost use Rattle.jm_base.specs.FaultCounts.{Rose};

use jm_base::Failed;
use std::alloc::Global;
use std::error::Error;
use std::fmt;

/// What bytes are read from.
///
/// Contracts see the bytes that are `left`, where the source tells them, and how many `faults` it has had. The count
/// of faults never falls, and stands still at the end of 64 bits.
pub trait Source {
    // The bytes that are left, or `None` where the source does not tell.
    ghost left: { Self → Option (List ℕ) };

    // How many calls have failed.
    ghost faults: { Self → ℕ };

    /// Reads some of the bytes that are left into the start of the buffer, and answers how many. None into a buffer
    /// that has room is the end of the input.
    fn read(&mut self, into: &mut [u8]) -> Result<usize, Failed>
        ensures bound { IfOk result (λ n. n ≤ length into.new) }
        ensures bytes { IfOk result (λ n. Consumes (left self.old) (left self.new) (take n into.new)) }
        ensures end { IfOk result (λ n. n ≡ 0 → 0 < length into.new → IsAtEnd (left self.new)) }
        ensures ok { OnOk result (faults self.new ≡ faults self.old) }

        ensures err { OnErr result (Keeps (left self.old) (left self.new)) }
        ensures cause { OnErr result (Rose (faults self.old) (faults self.new)) };
}

/// Why a source was not read to its end.
#[derive(Clone, Copy, Debug, PartialEq, Eq)]
pub enum ReadError {
    /// A call of the source failed.
    ReadFault,
    /// The source gave one byte more than the limit.
    TooLong,
    /// Out of memory.
    NoMemory,
}

impl fmt::Display for ReadError {
    ghost use Rattle.std.specs.Prelude.{Some};
    ghost use Rattle.edge_io.specs.ReadAll.{read_error_text};

    ghost output = { λ e. Some (read_error_text e) };

    fn fmt<W: fmt::Write>(&self, f: &mut fmt::Formatter<W>) -> fmt::Result {
        match self {
            ReadError::ReadFault => write!(f, "a read failed"),
            ReadError::TooLong => write!(f, "the input is too long"),
            ReadError::NoMemory => write!(f, "out of memory"),
        }
    }
}

impl Error for ReadError {}

// How many bytes one call of a source is asked for.
const BUFFER: usize = 4096;

/// Reads a source to its end.
///
/// After an error the source stands where the calls of it left it: the bytes that it gave are gone.
pub fn read_all<S: Source>(alloc: Global, source: &mut S, limit: u32) -> Result<Vec<u8>, ReadError>
    requires { limit ≤ 4194304 }
    ensures bytes { IfOk result (λ bytes. TookAll (S.left source.old) (S.left source.new) bytes.items) }
    ensures within { IfOk result (λ bytes. vec_len bytes ≤ limit) }
    ensures ok { OnOk result (S.faults source.new ≡ S.faults source.old) }

    ensures fault { IsErrOf result ReadError.ReadFault → Rose (S.faults source.old) (S.faults source.new) }
    ensures fault_took { IsErrOf result ReadError.ReadFault → TookAtMost (S.left source.old) (S.left source.new) limit }

    // Only here the source gave one byte more than the limit.
    ensures long { IsErrOf result ReadError.TooLong → TookCount (S.left source.old) (S.left source.new) (limit + 1) }
    ensures long_calm { IsErrOf result ReadError.TooLong → S.faults source.new ≡ S.faults source.old }

    ensures memory_took { IsErrOf result ReadError.NoMemory → TookAtMost (S.left source.old) (S.left source.new) limit }
    ensures memory_calm { IsErrOf result ReadError.NoMemory → S.faults source.new ≡ S.faults source.old }
{
    let limit = limit as usize;
    let mut bytes: Vec<u8> = Vec::new(alloc);
    let mut buffer = [0u8; BUFFER];
    'pieces: loop {
        let want = BUFFER.min(limit + 1 - bytes.len());
        let count = match source.read(&mut buffer[..want]) {
            Ok(count) => count,
            Err(_) => return Err(ReadError::ReadFault),
        };
        if count == 0 {
            return Ok(bytes);
        }
        if bytes.len() + count > limit {
            return Err(ReadError::TooLong);
        }
        if bytes.extend_from_slice(&buffer[..count]).is_err() {
            return Err(ReadError::NoMemory);
        }
    }
}
