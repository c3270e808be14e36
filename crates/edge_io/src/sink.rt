// What bytes are written to.

ghost use Rattle.std.specs.Prelude.{◌≡◌, ◌<◌, ◌≤◌, ℕ, List, Option, length, take, IfOk, OnOk, OnErr};
ghost use Rattle.std.specs.Io.KnownBytes.{Appends, Keeps};
ghost use Rattle.edge_io.specs.Edges.{AppendsProperPrefix};
ghost use Rattle.jm_base.specs.FaultCounts.{Rose};

use jm_base::Failed;

/// What bytes are written to.
///
/// Contracts see the bytes that were `written`, where the sink tells them, and how many `faults` it has had. The count
/// of faults never falls, and stands still at the end of 64 bits.
pub trait Sink {
    // The bytes that were written, or `None` where the sink does not tell.
    ghost written: { Self → Option (List ℕ) };

    // How many calls have failed.
    ghost faults: { Self → ℕ };

    /// Writes a prefix of the piece, and answers how long it is: at least one byte of a piece that has one.
    fn write(&mut self, piece: &[u8]) -> Result<usize, Failed>
        ensures bound { IfOk result (λ n. n ≤ length piece.now) }
        ensures some { IfOk result (λ n. 0 < length piece.now → 0 < n) }
        ensures bytes { IfOk result (λ n. Appends (written self.old) (written self.new) (take n piece.now)) }
        ensures ok { OnOk result (faults self.new ≡ faults self.old) }

        ensures err { OnErr result (Keeps (written self.old) (written self.new)) }
        ensures cause { OnErr result (Rose (faults self.old) (faults self.new)) };
}

/// Writes the whole piece, or a prefix of it and fails. It takes no memory.
pub fn write_all<K: Sink>(sink: &mut K, piece: &[u8]) -> Result<(), Failed>
    ensures whole { OnOk result (Appends (K.written sink.old) (K.written sink.new) piece.now) }
    ensures ok { OnOk result (K.faults sink.new ≡ K.faults sink.old) }

    ensures prefix { OnErr result (AppendsProperPrefix (K.written sink.old) (K.written sink.new) piece.now) }
    ensures cause { OnErr result (Rose (K.faults sink.old) (K.faults sink.new)) }
{
    let mut at = 0;
    while at < piece.len() {
        at += sink.write(&piece[at..])?;
    }
    Ok(())
}
