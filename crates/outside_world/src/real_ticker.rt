// A ticker over the clock of the machine.

ghost use Rattle.std.specs.Prelude.{None};

use crate::ticker::Ticker;
use std::thread;
use std::time::{Clock, Duration};

/// The longest sleep of one call, in milliseconds. So whoever asks again and again notices within this time that there is
/// nothing more to wait for.
const NAP: u64 = 1;

/// Ends an interval each time that its period has passed on the machine's clock, a clock that never goes back. A call at which
/// no interval ends sleeps for a millisecond at most and answers false, so asking again and again costs little. It doesn't tell.
#[derive(Drop)]
pub struct RealTicker<R: Clock> {
    clock: R,
    period: Duration,
    due: Option<Duration>,
}

impl<R: Clock> RealTicker<R> {
    /// A ticker over the clock of `rt`, which it keeps. It ends no interval before `every` was called.
    pub fn new(rt: R) -> RealTicker<R> {
        RealTicker {
            clock: rt,
            period: Duration::ZERO,
            due: None,
        }
    }

    fn nap(&self, longest: Duration) {
        thread::sleep(&self.clock, Duration::from_millis(NAP).min(longest));
    }
}

impl<R: Clock> Ticker for RealTicker<R> {
    ghost ticks = { λ _. None };

    /// From now on an interval lasts `ms` milliseconds, at 0 one millisecond. The first one begins now. Where the clock can't be
    /// read no interval ends before the next call.
    fn every(&mut self, ms: u32) {
        self.period = Duration::from_millis(u64::from(ms.max(1)));
        self.due = match self.clock.monotonic() {
            Ok(now) => now.checked_add(self.period),
            Err(_) => None,
        };
    }

    /// Whether the interval's end has come. The next interval ends a period after it. Where that has passed too, it ends a
    /// period from now: what was missed isn't made up for. Where the clock can't be read the answer is false.
    fn tick(&mut self) -> bool {
        let Some(due) = self.due else {
            self.nap(Duration::MAX);
            return false;
        };
        let Ok(now) = self.clock.monotonic() else {
            self.nap(Duration::MAX);
            return false;
        };
        if now < due {
            self.nap(due - now);
            return false;
        }
        let start = if now - due < self.period { due } else { now };
        self.due = start.checked_add(self.period);
        true
    }
}
