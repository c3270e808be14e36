// Sources and sinks over readers and writers of the standard library.

ghost use Rattle.std.specs.Prelude.{◌≡◌, ◌≢◌, ◌<◌, ◌≤◌, ℕ, length, take, IfOk, IfErr, OnOk, OnErr};
ghost use Rattle.std.specs.Io.KnownBytes.{Appends, Consumes, IsAtEnd, Keeps};
ghost use Rattle.edge_io.specs.Adapter.{Counting, counting};
ghost use Rattle.edge_io.specs.Memory.{one_more};
ghost use Rattle.jm_base.specs.FaultCounts.{Rose};

use crate::numbered::next_count;
use crate::sink::Sink;
use crate::source::Source;
use jm_base::Failed;
use std::io::{ErrorKind, Read, Write};
use std::marker::Model;

/// A reader or a writer of the standard library, and how many of its calls have failed. Over a reader it is a source,
/// which tells the bytes that are left where the reader does; over a writer it is a sink, which tells the bytes that were
/// written where the writer tells what it holds. A file, a socket, the standard input and the standard output tell
/// nothing. Hand in a writer that keeps nothing back, since nobody flushes it.
#[derive(Drop)]
pub struct Counted<T> {
    inner: T,
    faults: u64,
}

/// A source over a reader.
pub type FromRead<R> = Counted<R>;

/// A sink over a writer.
pub type IntoWrite<W> = Counted<W>;

impl<T> Model for Counted<T> {
    ghost use Rattle.edge_io.specs.Adapter.{Counting};

    ghost Value = { Counting T };

    ghost view = { λ s. record { inner = s.inner; faults = s.faults } };
}

impl<T> Counted<T> {
    /// A source that reads from here or a sink that writes there, which has had no fault.
    pub fn new(inner: T) -> Counted<T>
        ensures { result ≡ counting inner }
    {
        Counted { inner, faults: 0 }
    }
}

impl<R: Read> Source for Counted<R> {
    ghost left = { λ s. R.remaining s.inner };

    ghost faults = { λ s. s.faults };

    fn read(&mut self, into: &mut [u8]) -> Result<usize, Failed>
        ensures bound { IfOk result (λ n. n ≤ length into.new) }
        ensures bytes { IfOk result (λ n. Consumes (R.remaining self.old.inner) (R.remaining self.new.inner) (take n into.new)) }
        ensures end { IfOk result (λ n. n ≡ 0 → 0 < length into.new → IsAtEnd (R.remaining self.new.inner)) }
        ensures ok { OnOk result (self.new.faults ≡ self.old.faults) }
        ensures err { OnErr result (Keeps (R.remaining self.old.inner) (R.remaining self.new.inner)) }
        ensures cause { OnErr result (Rose self.old.faults self.new.faults) }

        // Exactly one fault for a failed call.
        ensures counted { OnErr result (self.new.faults ≡ one_more self.old.faults) }
    {
        match read_retrying(&mut self.inner, into) {
            Ok(count) => Ok(count),
            Err(Failed) => {
                self.faults = next_count(self.faults);
                Err(Failed)
            }
        }
    }
}

// One read, tried again where a signal interrupts it.
fn read_retrying<R: Read>(reader: &mut R, into: &mut [u8]) -> Result<usize, Failed>
    ensures bound { IfOk result (λ n. n ≤ length into.new) }
    ensures bytes { IfOk result (λ n. Consumes (R.remaining reader.old) (R.remaining reader.new) (take n into.new)) }
    ensures end { IfOk result (λ n. n ≡ 0 → 0 < length into.new → IsAtEnd (R.remaining reader.new)) }
    ensures err { OnErr result (Keeps (R.remaining reader.old) (R.remaining reader.new)) }
{
    for _ in 0..u64::MAX {
        match reader.read(into) {
            Ok(count) => return Ok(count),
            Err(error) => {
                if error.kind() != ErrorKind::Interrupted {
                    return Err(Failed);
                }
            }
        }
    }
    Err(Failed)
}

impl<W: Write> Sink for Counted<W> {
    ghost written = { λ s. W.contents s.inner };

    ghost faults = { λ s. s.faults };

    fn write(&mut self, piece: &[u8]) -> Result<usize, Failed>
        ensures bound { IfOk result (λ n. n ≤ length piece.now) }
        ensures some { IfOk result (λ n. 0 < length piece.now → 0 < n) }
        ensures bytes { IfOk result (λ n. Appends (W.contents self.old.inner) (W.contents self.new.inner) (take n piece.now)) }
        ensures ok { OnOk result (self.new.faults ≡ self.old.faults) }
        ensures err { OnErr result (Keeps (W.contents self.old.inner) (W.contents self.new.inner)) }
        ensures cause { OnErr result (Rose self.old.faults self.new.faults) }

        // Exactly one fault for a failed call.
        ensures counted { OnErr result (self.new.faults ≡ one_more self.old.faults) }
    {
        match write_retrying(&mut self.inner, piece) {
            Ok(count) => Ok(count),
            Err(Failed) => {
                self.faults = next_count(self.faults);
                Err(Failed)
            }
        }
    }
}

// One write, tried again where a signal interrupts it. A writer that takes nothing of a piece has failed.
fn write_retrying<W: Write>(writer: &mut W, piece: &[u8]) -> Result<usize, Failed>
    ensures bound { IfOk result (λ n. n ≤ length piece.now) }
    ensures some { IfOk result (λ n. 0 < length piece.now → 0 < n) }
    ensures bytes { IfOk result (λ n. Appends (W.contents writer.old) (W.contents writer.new) (take n piece.now)) }
    ensures err { OnErr result (Keeps (W.contents writer.old) (W.contents writer.new)) }
{
    for _ in 0..u64::MAX {
        match writer.write(piece) {
            Ok(0) if !piece.is_empty() => return Err(Failed),
            Ok(count) => return Ok(count),
            Err(error) => {
                if error.kind() != ErrorKind::Interrupted {
                    return Err(Failed);
                }
            }
        }
    }
    Err(Failed)
}
