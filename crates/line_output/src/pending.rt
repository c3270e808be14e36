// Text that is held back until there is enough for a piece.

ghost use Rattle.std.specs.Prelude.{◌≡◌, ◌≤◌, ◌++◌, [], length, IfOk, OnOk, OnErr};
ghost use Rattle.std.specs.Io.KnownBytes.{Appends};
ghost use Rattle.jm_base.specs.FaultCounts.{Rose};
ghost use Rattle.edge_io.specs.Edges.{AppendsProperPrefix};
ghost use Rattle.line_output.specs.OutputPieces.{Moves};

use edge_io::{Sink, write_all};
use jm_base::{Failed, M};
use std::alloc::Global;
use std::marker::Model;

// The most bytes that are held back.
const MOST: usize = 32_768;

/// Text that is held back, at most 32,768 bytes, on its way to a sink. It is used with one sink.
///
/// Contracts see the bytes that are held back.
#[derive(Drop)]
pub struct Pending {
    text: Vec<u8>,
}

impl Model for Pending {
    ghost use Rattle.std.specs.Prelude.{ℕ, List, ◌≤◌, vec_len, vec_capacity};

    ghost Value = { List ℕ };

    ghost view = { λ p. p.text.items };

    ghost invariant = { λ p. (vec_len p.text ≤ 32768) × (32768 ≤ vec_capacity p.text) };
}

impl Pending {
    /// Nothing is held back. This takes all the memory that there is need of; the other calls take none.
    pub fn new(alloc: Global) -> M<Pending>
        ensures { IfOk result (λ pending. pending ≡ []) }
    {
        Ok(Pending {
            text: Vec::with_capacity(alloc, MOST)?,
        })
    }

    /// Takes one more text. Where there is no room for it, what is held back goes to the sink first, and a text of more
    /// than 32,768 bytes goes there itself. Where the sink fails a prefix of all of this has gone out, and the rest is
    /// given up.
    pub fn put<K: Sink>(&mut self, sink: &mut K, text: &[u8]) -> Result<(), Failed>
        ensures moved { OnOk result (Moves (K.written sink.old) (K.written sink.new) self.old self.new text.now) }
        ensures ok { OnOk result (K.faults sink.new ≡ K.faults sink.old) }

        ensures prefix { OnErr result (AppendsProperPrefix (K.written sink.old) (K.written sink.new) (self.old ++ text.now)) }
        ensures cause { OnErr result (Rose (K.faults sink.old) (K.faults sink.new)) }
        ensures gone { OnErr result (self.new ≡ []) }

        ensures few { length self.new ≤ 32768 }
    {
        if text.len() > MOST - self.text.len() {
            return self.put_after(sink, text);
        }
        self.text.extend_from_slice(text).unwrap();
        Ok(())
    }

    // Sends what is held back, and then takes the text.
    fn put_after<K: Sink>(&mut self, sink: &mut K, text: &[u8]) -> Result<(), Failed>
        ensures moved { OnOk result (Moves (K.written sink.old) (K.written sink.new) self.old self.new text.now) }
        ensures ok { OnOk result (K.faults sink.new ≡ K.faults sink.old) }

        ensures prefix { OnErr result (AppendsProperPrefix (K.written sink.old) (K.written sink.new) (self.old ++ text.now)) }
        ensures cause { OnErr result (Rose (K.faults sink.old) (K.faults sink.new)) }
        ensures gone { OnErr result (self.new ≡ []) }

        ensures few { length self.new ≤ 32768 }
    {
        self.hand_over(sink)?;
        if text.len() > MOST {
            return write_all(sink, text);
        }
        self.text.extend_from_slice(text).unwrap();
        Ok(())
    }

    /// Sends what is held back to the sink. Where the sink fails a prefix of it has gone out, and the rest is given up.
    pub fn hand_over<K: Sink>(&mut self, sink: &mut K) -> Result<(), Failed>
        ensures whole { OnOk result (Appends (K.written sink.old) (K.written sink.new) self.old) }
        ensures ok { OnOk result (K.faults sink.new ≡ K.faults sink.old) }

        ensures prefix { OnErr result (AppendsProperPrefix (K.written sink.old) (K.written sink.new) self.old) }
        ensures cause { OnErr result (Rose (K.faults sink.old) (K.faults sink.new)) }

        ensures gone { self.new ≡ [] }
    {
        let sent = write_all(sink, &self.text);
        self.text.clear();
        sent
    }
}
