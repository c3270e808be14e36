// A stream in memory.

ghost use Rattle.std.specs.Prelude.{None};

use http_sampler::Stream;
use jm_base::Failed;
use std::alloc::Global;

/// A stream over a text, which gives and takes at most a number of bytes in a call, and fails one of its calls.
#[derive(Drop)]
pub struct TextStream<'t> {
    text: &'t [u8],
    /// How many bytes it has given.
    pub given: usize,
    /// What it was sent.
    pub sent: Vec<u8>,
    most: usize,
    failing: u64,
    calls: u64,
    /// How many of its calls have failed.
    pub faults: u64,
}

impl<'t> TextStream<'t> {
    /// A stream that gives and takes at most this many bytes in a call, whose call of the number `failing` fails. The first call has number 0.
    pub fn new(alloc: Global, text: &'t [u8], most: usize, failing: u64) -> TextStream<'t> {
        TextStream {
            text,
            given: 0,
            sent: Vec::new(alloc),
            most: most.max(1),
            failing,
            calls: 0,
            faults: 0,
        }
    }
}

impl<'t> Stream for TextStream<'t> {
    ghost sent = { λ _. None };

    ghost given = { λ _. None };

    ghost left = { λ _. None };

    ghost faults = { λ s. s.faults };

    fn send(&mut self, piece: &[u8]) -> Result<usize, Failed> {
        let call = self.calls;
        self.calls = call.saturating_add(1);
        if call == self.failing {
            self.faults = self.faults.saturating_add(1);
            return Err(Failed);
        }
        let count = piece.len().min(self.most.max(1));
        match self.sent.extend_from_slice(&piece[..count]) {
            Ok(()) => Ok(count),
            Err(_) => {
                self.faults = self.faults.saturating_add(1);
                Err(Failed)
            }
        }
    }

    fn receive(&mut self, into: &mut [u8]) -> Result<usize, Failed> {
        let call = self.calls;
        self.calls = call.saturating_add(1);
        if call == self.failing {
            self.faults = self.faults.saturating_add(1);
            return Err(Failed);
        }
        let rest = self.text.get(self.given..).unwrap_or(&[]);
        let count = into.len().min(self.most).min(rest.len());
        into[..count].copy_from_slice(&rest[..count]);
        self.given = self.given.saturating_add(count);
        Ok(count)
    }
}
