// The trace of a thread, with room for what must still be said.

ghost use Rattle.std.specs.Prelude.{◌≡◌, ◌∷◌, [], ◌++◌, ◌+◌, ◌-◌, ◌<◌, ◌≤◌, OnOk, IfOk};
ghost use Rattle.thread_machine.specs.Stepped.{trace_paused};

use crate::step::Step;
use jm_base::{End, M, Sample};
use std::alloc::Global;
use std::marker::Model;
use std::mem;

/// One item of a thread's trace.
#[derive(Drop)]
pub enum TraceItem {
    /// A pause of this many milliseconds.
    Paused(u32),
    /// A sample, and the interval in which it was counted.
    Sampled { sample: Sample, interval: u64 },
    /// The sampler of this number gave no sample.
    Null { sampler: u16 },
    /// The section of this lock was entered, as the one of this place.
    Entered { lock: u16, place: u64 },
    /// The section of this lock was left.
    Left { lock: u16 },
    /// The thread ended so. It is the last item.
    Ended(End),
}

// Room for at most this many samples is taken before a thread runs.
const MOST_RESERVED: u32 = 65_536;

// Each step takes room for this many items.
const STEP_ROOM: usize = 5;

/// Items in order, and room for more.
#[derive(Drop)]
pub struct Trace {
    items: Vec<TraceItem>,
}

impl Model for Trace {
    ghost use Rattle.std.specs.Prelude.{ℕ, ◌-◌, vec_len, vec_capacity};
    ghost use Rattle.thread_machine.specs.Recorded.{Recorded};

    ghost Value = { Recorded };

    ghost view = { λ t. record { items = t.items.items; room = vec_capacity t.items - vec_len t.items } };
}

impl Trace {
    /// An empty trace with room for a section that is left and for the thread's end. Where there is memory it also has room
    /// for as many samples as are asked for, up to 65,536, and for what the step after them takes room for: a trace that grows
    /// while other threads run is moved, which stops them all.
    pub fn new(alloc: Global, samples: u32) -> M<Trace>
        ensures { IfOk result (λ t. (t.items ≡ []) × (2 ≤ t.room)) }
    {
        let mut items = Vec::new(alloc);
        let wished = samples.min(MOST_RESERVED) as usize + STEP_ROOM;
        if items.reserve(wished).is_err() {
            items.reserve(2)?;
        }
        Ok(Trace { items })
    }

    /// Takes room for five items: a pause before the first variables, one of a sampler's timers, what comes after them, a
    /// section that is left, and the thread's end.
    pub fn make_room(&mut self) -> M<()>
        ensures ok { OnOk result (5 ≤ self.new.room) }
        ensures kept { self.old.room ≤ self.new.room }
        ensures same { self.new.items ≡ self.old.items }
    {
        self.items.reserve(STEP_ROOM)?;
        Ok(())
    }

    /// Appends an item in the room that was taken for it, so that no memory is asked for.
    pub fn put(&mut self, item: TraceItem)
        requires { 0 < self.old.room }
        ensures items { self.new.items ≡ self.old.items ++ item ∷ [] }
        ensures room { self.old.room ≤ self.new.room + 1 }
    {
        let pushed = self.items.push(item);
        if pushed.is_err() {
            unreachable!();
        }
    }

    /// Appends a pause of that many milliseconds, if it is any.
    pub fn put_pause(&mut self, ms: u32)
        requires { 0 < self.old.room }
        ensures items { self.new.items ≡ trace_paused self.old.items ms }
        ensures room { self.old.room ≤ self.new.room + 1 }
    {
        if ms > 0 {
            self.put(TraceItem::Paused(ms));
        }
    }

    /// Says that the open section, which is of this lock, is left.
    pub fn leave(&mut self, lock: u16) -> Step
        requires { 0 < self.old.room }
        ensures step { result ≡ Step.Leave lock }
        ensures items { self.new.items ≡ self.old.items ++ TraceItem.Left lock ∷ [] }
        ensures room { self.old.room ≤ self.new.room + 1 }
    {
        self.put(TraceItem::Left { lock });
        Step::Leave(lock)
    }

    /// Says how the thread ends.
    pub fn finish(&mut self, end: End) -> Step
        requires { 0 < self.old.room }
        ensures step { result ≡ Step.Ended end }
        ensures items { self.new.items ≡ self.old.items ++ TraceItem.Ended end ∷ [] }
        ensures room { self.old.room ≤ self.new.room + 1 }
    {
        self.put(TraceItem::Ended(end));
        Step::Ended(end)
    }

    /// The items, from the first.
    pub fn items(&self) -> &[TraceItem]
        ensures { result.now ≡ self.now.items }
    {
        &self.items
    }

    /// Takes the items out, and leaves none.
    pub fn take(&mut self, alloc: Global) -> Vec<TraceItem>
        ensures { result.items ≡ self.old.items }
    {
        mem::replace(&mut self.items, Vec::new(alloc))
    }
}
