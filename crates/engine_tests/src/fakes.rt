//! A world whose outsides hold a reply until something else has happened, and a ticker that may be true for ever.
ghost use Rattle.std.specs.Prelude.{None};

use element_tree::Plan;
use interval_tables::Report;
use jm_base::{M, Outcome, Outside, Request};
use outside_world::{MemTicker, ScriptOutside, ScriptWorld, Ticker, World};
use std::alloc::Global;
use std::sync::atomic::{AtomicU64, Ordering};
use std::thread;

/// The most turns that an outside waits, in each of which it yields the thread.
const TURNS: u32 = 1_000_000;

// How often a thread yields between a request and its reply.
const MEETING_TURNS: u32 = 20;

/// What is counted while a run goes on.
#[derive(Drop)]
pub struct Tally {
    /// The requests that were asked.
    pub asked: AtomicU64,
    /// The waits that met the limit of turns.
    pub missed: AtomicU64,
    /// The outsides that were taken back.
    pub closed: AtomicU64,
    /// The answers of the ticker.
    pub ticks: AtomicU64,
    /// The reports that the hook was given.
    pub judged: AtomicU64,
    /// The samples in those reports.
    pub seen: AtomicU64,
    /// The errors in them.
    pub errors: AtomicU64,
    /// The requests that have no reply yet.
    pub inside: AtomicU64,
    /// The requests that came while another had no reply yet.
    pub crowded: AtomicU64,
}

/// What was counted when a run has ended.
#[derive(Clone, Copy, PartialEq, Eq, Debug)]
pub struct Counts {
    pub missed: u64,
    pub closed: u64,
    pub ticks: u64,
    pub judged: u64,
}

impl Tally {
    /// Nothing was counted yet.
    pub fn new() -> Tally {
        Tally {
            asked: AtomicU64::new(0),
            missed: AtomicU64::new(0),
            closed: AtomicU64::new(0),
            ticks: AtomicU64::new(0),
            judged: AtomicU64::new(0),
            seen: AtomicU64::new(0),
            errors: AtomicU64::new(0),
            inside: AtomicU64::new(0),
            crowded: AtomicU64::new(0),
        }
    }

    /// What was counted by now.
    pub fn counts(&self) -> Counts {
        Counts {
            missed: self.missed.load(Ordering::SeqCst),
            closed: self.closed.load(Ordering::SeqCst),
            ticks: self.ticks.load(Ordering::SeqCst),
            judged: self.judged.load(Ordering::SeqCst),
        }
    }

    // A request has come. Other threads get their turns before its reply.
    fn come_in(&self) {
        if self.inside.fetch_add(1, Ordering::SeqCst) > 0 {
            self.crowded.fetch_add(1, Ordering::SeqCst);
        }
        for _turn in 0..MEETING_TURNS {
            thread::yield_now();
        }
    }

    // It has its reply.
    fn go_out(&self) {
        self.inside.fetch_sub(1, Ordering::SeqCst);
    }

    /// The hook was given a report.
    pub fn judge(&self, report: &Report) {
        let mut samples = 0u64;
        let mut errors = 0u64;
        for row in report.rows.as_slice() {
            samples = samples.wrapping_add(row.count);
            errors = errors.wrapping_add(row.errors);
        }
        self.judged.fetch_add(1, Ordering::SeqCst);
        self.seen.fetch_add(samples, Ordering::SeqCst);
        self.errors.fetch_add(errors, Ordering::SeqCst);
    }
}

/// What a reply waits for: at the sampler of this number each outside waits until the awaited word is at least so great.
#[derive(Clone, Copy)]
pub struct Hold<'a> {
    pub sampler: u16,
    pub awaited: &'a AtomicU64,
    pub least: u64,
    pub tally: &'a Tally,
}

impl<'a> Hold<'a> {
    // Counts a request, and waits where its reply is held.
    fn keep(&self, sampler: u16) {
        self.tally.asked.fetch_add(1, Ordering::SeqCst);
        if sampler == self.sampler && !self.has_come() {
            self.tally.missed.fetch_add(1, Ordering::SeqCst);
        }
    }

    // Waits until the awaited word is great enough. It answers whether that came within the turns.
    fn has_come(&self) -> bool {
        comes_to(self.awaited, self.least)
    }
}

/// Waits until a word is at least so great. It answers whether that came within the turns.
pub fn comes_to(word: &AtomicU64, least: u64) -> bool {
    for _turn in 0..TURNS {
        if word.load(Ordering::SeqCst) >= least {
            return true;
        }
        thread::yield_now();
    }
    false
}

/// A script outside that holds replies.
#[derive(Drop)]
pub struct HeldOutside<'a> {
    inner: ScriptOutside,
    hold: Hold<'a>,
}

impl<'a> Outside for HeldOutside<'a> {
    ghost account = { λ o. o.inner };

    fn now(&mut self) -> M<u64> {
        self.inner.now()
    }

    fn pause(&mut self, ms: u32) -> M<()> {
        self.inner.pause(ms)
    }

    fn ask(&mut self, sampler: u16, request: &Request) -> M<Outcome> {
        self.hold.tally.come_in();
        self.hold.keep(sampler);
        let outcome = self.inner.ask(sampler, request);
        self.hold.tally.go_out();
        outcome
    }
}

/// A world of script outsides that hold replies.
#[derive(Drop)]
pub struct HoldingWorld<'a> {
    pub inner: ScriptWorld,
    pub hold: Hold<'a>,
}

impl<'a> World for HoldingWorld<'a> {
    ghost use Rattle.std.specs.Prelude.{true};
    ghost use Rattle.outside_world.specs.Worlds.{numbers_of, told_under};

    type Out = HeldOutside<'a>;

    ghost identity = { λ w. w.inner.identity };

    ghost tells = { λ _. true };

    ghost opened = { λ w. w.inner.opened };

    ghost closed = { λ w. numbers_of w.inner.closed };

    ghost told = { λ w number. told_under w.inner.closed number };

    fn open(&mut self, number: u16, plan: &Plan) -> M<HeldOutside<'a>> {
        let inner = self.inner.open(number, plan)?;
        Ok(HeldOutside {
            inner,
            hold: self.hold,
        })
    }

    fn close(&mut self, number: u16, out: HeldOutside<'a>) {
        let HeldOutside { inner, .. } = out;
        self.hold.tally.closed.fetch_add(1, Ordering::SeqCst);
        self.inner.close(number, inner);
    }
}

/// A ticker that counts its answers. It is true for ever, or gives those of a list.
#[derive(Drop)]
pub struct CountedTicker<'a> {
    is_always: bool,
    list: MemTicker,
    tally: &'a Tally,
}

impl<'a> CountedTicker<'a> {
    /// A ticker that is true for ever.
    pub fn for_ever(alloc: Global, tally: &'a Tally) -> CountedTicker<'a> {
        CountedTicker {
            is_always: true,
            list: MemTicker::new(Vec::new(alloc)),
            tally,
        }
    }

    /// A ticker that is true that many times, and then false.
    pub fn at_first(alloc: Global, trues: usize, tally: &'a Tally) -> M<CountedTicker<'a>> {
        Ok(CountedTicker {
            is_always: false,
            list: MemTicker::new(vec![in alloc; true; trues]?),
            tally,
        })
    }
}

impl<'a> Ticker for CountedTicker<'a> {
    ghost ticks = { λ _. None };

    fn every(&mut self, _ms: u32) {}

    fn tick(&mut self) -> bool {
        self.tally.ticks.fetch_add(1, Ordering::SeqCst);
        self.is_always || self.list.tick()
    }
}
