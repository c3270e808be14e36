// A source over bytes in memory.

ghost use Rattle.std.specs.Prelude.{◌≡◌, ◌++◌, ◌<◌, ◌≤◌, ◌↔◌, ℕ, List, Option, Some, length, take, drop, IfOk, OnOk, OnErr, IsErr};
ghost use Rattle.std.specs.Io.KnownBytes.{Consumes, IsAtEnd, Keeps};
ghost use Rattle.edge_io.specs.Memory.{SourceState, new_source, FailsNext, given_count, after_read, after_failed_read};
ghost use Rattle.jm_base.specs.FaultCounts.{Rose};

use crate::numbered::{MOST, is_listed, next_count};
use crate::source::Source;
use jm_base::Failed;
use std::marker::Model;

/// A source over bytes in memory, which gives at most 64 bytes in a call and fails the calls that it was told to.
/// It tells the bytes that are left.
#[derive(Drop)]
pub struct MemSource {
    bytes: Vec<u8>,
    at: usize,
    failing: Vec<u32>,
    calls: u64,
    faults: u64,
}

impl Model for MemSource {
    ghost use Rattle.std.specs.Prelude.{◌≤◌, drop, vec_len};
    ghost use Rattle.edge_io.specs.Memory.{SourceState};

    ghost Value = { SourceState };

    ghost view = { λ s. record { left = drop s.at s.bytes.items; failing = s.failing.items; calls = s.calls; faults = s.faults } };

    ghost invariant = { λ s. s.at ≤ vec_len s.bytes };
}

impl MemSource {
    /// A source of these bytes, of which the calls with the numbers in `failing` fail. The first call has number 0.
    pub fn new(bytes: Vec<u8>, failing: Vec<u32>) -> MemSource
        ensures { result ≡ new_source bytes.items failing.items }
    {
        MemSource {
            bytes,
            at: 0,
            failing,
            calls: 0,
            faults: 0,
        }
    }
}

impl Source for MemSource {
    ghost left = { λ s. Some s.left };

    ghost faults = { λ s. s.faults };

    fn read(&mut self, into: &mut [u8]) -> Result<usize, Failed>
        ensures bound { IfOk result (λ n. n ≤ length into.new) }
        ensures bytes { IfOk result (λ n. Consumes (Some self.old.left) (Some self.new.left) (take n into.new)) }
        ensures end { IfOk result (λ n. n ≡ 0 → 0 < length into.new → IsAtEnd (Some self.new.left)) }
        ensures ok { OnOk result (self.new.faults ≡ self.old.faults) }
        ensures err { OnErr result (Keeps (Some self.old.left) (Some self.new.left)) }
        ensures cause { OnErr result (Rose self.old.faults self.new.faults) }

        // The same, exactly.
        ensures fails { IsErr result ↔ FailsNext self.old }
        ensures count { IfOk result (λ n. n ≡ given_count self.old (length into.old)) }
        ensures gives { IfOk result (λ n. into.new ≡ take n self.old.left ++ drop n into.old) }
        ensures read { IfOk result (λ n. self.new ≡ after_read self.old n) }
        ensures failed { OnErr result (self.new ≡ after_failed_read self.old) }
        ensures unread { OnErr result (into.new ≡ into.old) }
    {
        let call = self.calls;
        self.calls = next_count(call);
        if is_listed(&self.failing, call) {
            self.faults = next_count(self.faults);
            return Err(Failed);
        }
        let count = MOST.min(into.len()).min(self.bytes.len() - self.at);
        into[..count].copy_from_slice(&self.bytes[self.at..self.at + count]);
        self.at += count;
        Ok(count)
    }
}
