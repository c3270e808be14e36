// Lines that are formed, and what is held back at the end.

ghost use Rattle.std.specs.Prelude.{◌≢◌};
ghost use Rattle.trace_output.specs.Printing.{way, HasPut, HasPrinted};

use crate::error::PrintError;
use edge_io::Sink;
use line_output::Pending;

/// Puts lines that are formed. It takes no memory.
pub(crate) fn put_lines<K: Sink>(
    pending: &mut Pending,
    sink: &mut K,
    lines: &[u8],
) -> Result<(), PrintError>
    ensures put { HasPut lines.now
        (way (K.written sink.old) (K.faults sink.old) pending.old)
        (way (K.written sink.new) (K.faults sink.new) pending.new) result }
    ensures never { result ≢ Err PrintError.NoMemory }
{
    match pending.put(sink, lines) {
        Ok(()) => Ok(()),
        Err(_) => Err(PrintError::WriteFault),
    }
}

/// Sends what is held back. It takes no memory.
pub(crate) fn finish<K: Sink>(pending: &mut Pending, sink: &mut K) -> Result<(), PrintError>
    ensures printed { HasPrinted pending.old (K.written sink.old) (K.written sink.new) (K.faults sink.old) (K.faults sink.new) result }
    ensures never { result ≢ Err PrintError.NoMemory }
{
    match pending.hand_over(sink) {
        Ok(()) => Ok(()),
        Err(_) => Err(PrintError::WriteFault),
    }
}
