// What a Transaction Controller counts in a thread, and the sample that it gives.

ghost use Rattle.std.specs.Prelude.{◌≡◌, ◌==◌, ◌&&◌, nat_lt, [], List, IfOk, if◌then◌else◌};
ghost use Rattle.jm_base.specs.Run.{Event};
ghost use Rattle.jm_base.specs.Outside.{Account};
ghost use Rattle.jm_meaning.specs.Transactions;
ghost use Rattle.jm_meaning.specs.Transactions.{counted, summed, tally_of};
ghost use Rattle.plain_run.specs.Plays.{Plays};

use crate::progress::Progress;
use jm_base::{End, M};
use jm_meaning::{Item, Signal, Tally, gives_sample};

/// What is counted over two parts of a run, the second after the first.
pub fn joined(first: Tally, second: Tally) -> Tally
    ensures { (events : List Event) → second ≡ counted (tally_of []) events → result ≡ counted first events }
{
    Tally {
        stamp: first_stamp(first, second),
        samples: first.samples.saturating_add(second.samples),
        failed: first.failed.saturating_add(second.failed),
        elapsed: first.elapsed.saturating_add(second.elapsed),
        bytes: first.bytes.saturating_add(second.bytes),
    }
}

// The stamp of the first sample that was counted in either.
fn first_stamp(first: Tally, second: Tally) -> u64
    ensures { result ≡ (if first.samples == 0 && nat_lt 0 second.samples then second.stamp else first.stamp) }
{
    if first.samples == 0 && second.samples > 0 {
        second.stamp
    } else {
        first.stamp
    }
}

// Whether a transaction that has counted this gives its sample after this signal.
fn is_given(signal: Signal, tally: Tally) -> bool
    ensures { result ≡ (Transactions.gives_sample signal && nat_lt 0 tally.samples) }
{
    gives_sample(signal) && tally.samples > 0
}

/// Gives the sample of a transaction of this label that has counted this and has ended so, where it gives one and a
/// unit is left. It is no sampler's, and is not counted.
pub fn give_sum(progress: &mut Progress, label: u16, tally: Tally, signal: Signal) -> M<Signal>
    ensures { IfOk result (λ ended. (a : Account) → Plays a progress.old
        (λ s. summed label tally (record { state = s; signal = signal })) ended progress.new a) }
{
    if !is_given(signal, tally) {
        return Ok(signal);
    }
    if progress.units == 0 {
        return Ok(Signal::Stop(End::SampleLimit));
    }
    progress.units -= 1;
    let sample = tally.sample(progress.alloc, label)?;
    progress.items.push(Item::Sampled(sample))?;
    Ok(signal)
}
