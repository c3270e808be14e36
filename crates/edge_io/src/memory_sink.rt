// A sink over a room in memory.

ghost use Rattle.std.specs.Prelude.{◌≡◌, ◌<◌, ◌≤◌, ◌↔◌, ℕ, List, Option, Some, length, take, IfOk, OnOk, OnErr, IsErr};
ghost use Rattle.std.specs.Io.KnownBytes.{Appends, Keeps};
ghost use Rattle.edge_io.specs.Memory.{SinkState, new_sink, RefusesPiece, taken_count, after_write, after_failed_write};
ghost use Rattle.jm_base.specs.FaultCounts.{Rose};

use crate::numbered::{MOST, is_listed, next_count};
use crate::sink::Sink;
use jm_base::{Failed, M};
use std::alloc::Global;
use std::marker::Model;

/// A sink over a room in memory, which takes at most 64 bytes in a call and fails the calls that it was told to. It
/// tells the bytes that were written. It takes its whole room at `new`, and no memory afterwards.
#[derive(Drop)]
pub struct MemSink {
    bytes: Vec<u8>,
    room: usize,
    failing: Vec<u32>,
    calls: u64,
    faults: u64,
}

impl Model for MemSink {
    ghost use Rattle.std.specs.Prelude.{◌≤◌, vec_len, vec_capacity};
    ghost use Rattle.edge_io.specs.Memory.{SinkState};

    ghost Value = { SinkState };

    ghost view = { λ s. record { written = s.bytes.items; room = s.room; failing = s.failing.items; calls = s.calls; faults = s.faults } };

    ghost invariant = { λ s. (vec_len s.bytes ≤ s.room) × (s.room ≤ vec_capacity s.bytes) };
}

impl MemSink {
    /// A sink with room for that many bytes, of which the calls with the numbers in `failing` fail. The first call has
    /// number 0.
    pub fn new(alloc: Global, room: u32, failing: Vec<u32>) -> M<MemSink>
        ensures { IfOk result (λ sink. sink ≡ new_sink room failing.items) }
    {
        let room = room as usize;
        Ok(MemSink {
            bytes: Vec::with_capacity(alloc, room)?,
            room,
            failing,
            calls: 0,
            faults: 0,
        })
    }

    /// The bytes that were written.
    pub fn bytes(&self) -> &[u8]
        ensures { result.now ≡ self.now.written }
    {
        &self.bytes
    }
}

impl Sink for MemSink {
    ghost written = { λ s. Some s.written };

    ghost faults = { λ s. s.faults };

    fn write(&mut self, piece: &[u8]) -> Result<usize, Failed>
        ensures bound { IfOk result (λ n. n ≤ length piece.now) }
        ensures some { IfOk result (λ n. 0 < length piece.now → 0 < n) }
        ensures bytes { IfOk result (λ n. Appends (Some self.old.written) (Some self.new.written) (take n piece.now)) }
        ensures ok { OnOk result (self.new.faults ≡ self.old.faults) }
        ensures err { OnErr result (Keeps (Some self.old.written) (Some self.new.written)) }
        ensures cause { OnErr result (Rose self.old.faults self.new.faults) }

        // The same, exactly.
        ensures fails { IsErr result ↔ RefusesPiece self.old piece.now }
        ensures count { IfOk result (λ n. n ≡ taken_count self.old (length piece.now)) }
        ensures wrote { IfOk result (λ n. self.new ≡ after_write self.old (take n piece.now)) }
        ensures failed { OnErr result (self.new ≡ after_failed_write self.old) }
    {
        let call = self.calls;
        self.calls = next_count(call);
        let free = self.room - self.bytes.len();
        if is_listed(&self.failing, call) || (free == 0 && !piece.is_empty()) {
            self.faults = next_count(self.faults);
            return Err(Failed);
        }
        let count = MOST.min(piece.len()).min(free);
        self.bytes.extend_from_slice(&piece[..count]).unwrap();
        Ok(count)
    }
}
