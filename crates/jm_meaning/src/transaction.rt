// What a transaction counts of the samples in it, and the sample that it gives.

ghost use Rattle.std.specs.Prelude.{◌≡◌, [], IfOk};
ghost use Rattle.jm_meaning.specs.Transactions.{tally_of, with_sample, message_of, sample_by};

use crate::signal::Signal;
use itoa::Buffer;
use jm_base::{End, M, Sample, Text};
use std::alloc::Global;

/// What a transaction counts of the samples of its samplers. Each count and each sum is at most 2^32 - 1.
#[derive(Clone, Copy, PartialEq, Eq, Debug)]
pub struct Tally {
    /// The stamp of the first, in milliseconds.
    pub stamp: u64,
    /// How many there are.
    pub samples: u32,
    /// How many of them failed.
    pub failed: u32,
    /// The sum of their elapsed times, in milliseconds.
    pub elapsed: u32,
    /// The sum of their bytes.
    pub bytes: u32,
}

/// Whether a transaction with samples that ends so gives its own: it gives none where a limit ends the thread.
pub fn gives_sample(signal: Signal) -> bool
    ensures { result ≡ Rattle.jm_meaning.specs.Transactions.gives_sample signal }
{
    match signal {
        Signal::Normal | Signal::NextLoop => true,
        Signal::Stop(End::StopThread) | Signal::Stop(End::StopTest) => true,
        Signal::Stop(_) => false,
    }
}

impl Tally {
    /// Before the first sample.
    pub fn none() -> Tally
        ensures { result ≡ tally_of [] }
    {
        Tally {
            stamp: 0,
            samples: 0,
            failed: 0,
            elapsed: 0,
            bytes: 0,
        }
    }

    /// With one more sample of a sampler.
    pub fn with(self, sample: &Sample) -> Tally
        ensures { result ≡ with_sample self sample.now }
    {
        let failed = if sample.ok { 0 } else { 1 };
        Tally {
            stamp: if self.samples == 0 {
                sample.stamp
            } else {
                self.stamp
            },
            samples: self.samples.saturating_add(1),
            failed: self.failed.saturating_add(failed),
            elapsed: self.elapsed.saturating_add(sample.elapsed),
            bytes: self.bytes.saturating_add(sample.bytes),
        }
    }

    /// The sample that a transaction of this label gives (the manual's "Transaction Controller").
    pub fn sample(&self, alloc: Global, label: u16) -> M<Sample>
        ensures { IfOk result (λ s. s ≡ sample_by label self.now) }
    {
        let ok = self.failed == 0;
        Ok(Sample {
            stamp: self.stamp,
            elapsed: self.elapsed,
            label,
            code: if ok { 200 } else { 0 },
            message: self.message(alloc)?,
            ok,
            failure: Text::new(alloc, &[])?,
            bytes: self.bytes,
            listeners: 0,
        })
    }

    // Says how many samples there are, and how many failed.
    fn message(&self, alloc: Global) -> M<Text>
        ensures { IfOk result (λ text. text ≡ message_of self.now) }
    {
        let mut samples = Buffer::new();
        let mut failed = Buffer::new();
        let mut text = Vec::new(alloc);
        text.extend_from_slice(b"Number of samples in transaction : ")?;
        text.extend_from_slice(samples.format(self.samples).as_bytes())?;
        text.extend_from_slice(b", number of failing samples : ")?;
        text.extend_from_slice(failed.format(self.failed).as_bytes())?;
        Text::new(alloc, &text)
    }
}
