//! A world whose outsides are slow to reply, so that a run goes on until it is stopped.

use crate::fakes::{Tally, comes_to};
use element_tree::Plan;
use jm_base::{M, Outcome, Outside, Request};
use outside_world::{ScriptOutside, ScriptWorld, World};
use std::sync::atomic::Ordering;
use std::thread;

// How many turns a slow outside holds each reply, in each of which it yields the thread.
const SLOW_TURNS: u32 = 1000;

/// What a slow outside does with its replies.
#[derive(Clone, Copy, PartialEq, Eq)]
pub enum Pace {
    /// The first comes at once. Each later one is held until the hook was given a report with an error, and from then on a
    /// thousand turns.
    AfterAnError,
    /// Each is held a thousand turns.
    Slow,
    /// Each comes at once.
    Quick,
}

/// A script outside that is slow to reply.
#[derive(Drop)]
pub struct SlowOutside<'a> {
    inner: ScriptOutside,
    pace: Pace,
    is_first: bool,
    tally: &'a Tally,
}

impl<'a> SlowOutside<'a> {
    // Holds a reply, which is the first or not.
    fn hold(&self, is_first: bool) {
        match self.pace {
            Pace::Quick => {}
            Pace::Slow => wait(),
            Pace::AfterAnError => {
                if !is_first {
                    self.await_error();
                    wait();
                }
            }
        }
    }

    // Waits until the hook was given a report with an error.
    fn await_error(&self) {
        if !comes_to(&self.tally.errors, 1) {
            self.tally.missed.fetch_add(1, Ordering::SeqCst);
        }
    }
}

// Yields the thread a thousand times.
fn wait() {
    for _turn in 0..SLOW_TURNS {
        thread::yield_now();
    }
}

impl<'a> Outside for SlowOutside<'a> {
    ghost account = { λ o. o.inner };

    fn now(&mut self) -> M<u64> {
        self.inner.now()
    }

    fn pause(&mut self, ms: u32) -> M<()> {
        self.inner.pause(ms)
    }

    fn ask(&mut self, sampler: u16, request: &Request) -> M<Outcome> {
        self.hold(self.is_first);
        self.is_first = false;
        self.inner.ask(sampler, request)
    }
}

/// A world of slow script outsides: that of thread 0 has the replies of a plan of its own and a pace of its own.
#[derive(Drop)]
pub struct SlowWorld<'a> {
    pub inner: ScriptWorld,
    pub first_plan: &'a Plan,
    pub first_pace: Pace,
    pub pace: Pace,
    pub tally: &'a Tally,
}

impl<'a> World for SlowWorld<'a> {
    ghost use Rattle.std.specs.Prelude.{true};
    ghost use Rattle.outside_world.specs.Worlds.{numbers_of, told_under};

    type Out = SlowOutside<'a>;

    ghost identity = { λ w. w.inner.identity };

    ghost tells = { λ _. true };

    ghost opened = { λ w. w.inner.opened };

    ghost closed = { λ w. numbers_of w.inner.closed };

    ghost told = { λ w number. told_under w.inner.closed number };

    fn open(&mut self, number: u16, plan: &Plan) -> M<SlowOutside<'a>> {
        let plan = if number == 0 { self.first_plan } else { plan };
        let pace = if number == 0 {
            self.first_pace
        } else {
            self.pace
        };
        let inner = self.inner.open(number, plan)?;
        Ok(SlowOutside {
            inner,
            pace,
            is_first: true,
            tally: self.tally,
        })
    }

    fn close(&mut self, number: u16, out: SlowOutside<'a>) {
        let SlowOutside { inner, .. } = out;
        self.tally.closed.fetch_add(1, Ordering::SeqCst);
        self.inner.close(number, inner);
    }
}
