// A thread of a schedule's run: its worker, its outside, and what it is to do before its next event.

ghost use Rattle.std.specs.Prelude.{◌≡◌, ◌+◌, ◌<◌, true, false, Bool, Some, None, OnOk, IfOk, List, ℕ, drop};
ghost use Rattle.phaser_core.specs.declared.view.Event.{Event as CoreEvent};
ghost use Rattle.thread_machine.specs.declared.trace.TraceItem.TheVariants.{Entered as EnteredItem};
ghost use Rattle.weave_engine.specs.Steps.{Nought, Thread, record_steps, stopped, shows, owes, opens};
ghost use Rattle.weave_engine.specs.Seats.{SeatIs, MakesStep, RecordedAs, IsNext, owed_after, IsNoMemory, IsKeptBy, IsSameThread, StepSections, turns_left, StepsOut, RecordsOn, KeepsOn};

use jm_base::{End, Entry, M, NoMemory};
use outside_world::ScriptOutside;
use thread_machine::{Step, Worker};

/// What a thread is to do before its next event.
#[derive(Clone, Copy)]
pub enum Owed {
    /// There is nothing of the kind.
    Nothing,
    /// That many steps of its last sample's record are done. The record's load found this interval.
    Record {
        entry: Entry,
        done: u8,
        interval: u64,
    },
    /// It is to enter the section of this lock.
    Enter(u16),
    /// It is to raise stop.
    Stop,
}

/// A thread with its own outside.
#[derive(Drop)]
pub struct Seat<'p> {
    /// The number of the thread, and of the writer that records for it.
    pub number: u16,
    /// The thread.
    pub worker: Worker<'p>,
    /// What answers its requests.
    pub outside: ScriptOutside,
    /// What it is to do before its next event.
    pub owed: Owed,
    /// The lock of the thread's open section.
    pub section: Option<u16>,
    /// Whether the thread has ended.
    pub ended: bool,
}

impl<'p> Seat<'p> {
    /// The thread makes its next step. Gives the lock of the section that it left, if any.
    pub fn step(&mut self) -> M<Option<u16>>
        requires is { (t : Thread) × SeatIs self.old t }
        requires owed { self.old.owed ≡ Owed.Nothing }
        requires going { self.old.ended ≡ false }
        ensures made { IfOk result (λ left. (t : Thread) → SeatIs self.old t → MakesStep t left self.new) }
        ensures sections { IfOk result (StepSections self.old self.new) }
        ensures lighter { OnOk result (turns_left self.new < turns_left self.old) }
        ensures out { OnOk result (StepsOut self.old self.new) }
        ensures keeps { OnOk result (KeepsOn self.old self.new) }
        ensures thread { OnOk result (IsSameThread self.old self.new) }
    {
        match self.worker.step(&mut self.outside) {
            Step::Sampled(entry) => {
                self.owed = Owed::Record {
                    entry,
                    done: 0,
                    interval: 0,
                };
                Ok(None)
            }
            Step::Null => Ok(None),
            Step::Enter(lock) => {
                self.owed = Owed::Enter(lock);
                Ok(None)
            }
            Step::Leave(lock) => {
                self.section = None;
                Ok(Some(lock))
            }
            Step::Ended(end) => self.end(end),
        }
    }

    // The thread has ended so.
    fn end(&mut self, end: End) -> M<Option<u16>>
        ensures kept { IsKeptBy self.old self.new }
        ensures owed { OnOk result ((self.new.owed ≡ owed_after end) × (self.new.ended ≡ true)) }
        ensures none { IfOk result (λ left. left ≡ None) }
        ensures memory { IsNoMemory end → OnOk result ⊥ }
    {
        if let End::NoMemory = end {
            return Err(NoMemory);
        }
        self.owed = owed_after(end);
        self.ended = true;
        Ok(None)
    }

    /// One more step of the record is done. Continues the last one the trace shows the sample, with its interval.
    pub fn recorded(&mut self, last: bool, entry: Entry, done: u8, interval: u64)
        requires is { (t : Thread) × SeatIs self.old t }
        requires owed { (old : ℕ) × (self.old.owed ≡ Owed.Record entry done old) }
        ensures recorded { (t : Thread) (event : CoreEvent) → SeatIs self.old t
            → IsNext (drop done (record_steps self.old.worker.thread entry)) event (drop (done + 1) (record_steps self.old.worker.thread entry)) last
            → RecordedAs t.owed t (drop (done + 1) (record_steps self.old.worker.thread entry)) interval self.new }
        ensures on { RecordsOn last entry (done + 1) interval self.old self.new }
        ensures keeps { KeepsOn self.old self.new }
        ensures lighter { turns_left self.new < turns_left self.old }
        ensures thread { IsSameThread self.old self.new }
        ensures section { self.new.worker.section ≡ self.old.worker.section }
    {
        if last {
            self.worker.noted(interval);
            self.owed = Owed::Nothing;
        } else {
            self.owed = Owed::Record {
                entry,
                done: done + 1,
                interval,
            };
        }
    }

    /// The thread has entered the section of this lock, as the one of this place.
    pub fn entered(&mut self, lock: u16, place: u64)
        requires is { (t : Thread) × SeatIs self.old t }
        requires owed { self.old.owed ≡ Owed.Enter lock }
        ensures entered { (t : Thread) → SeatIs self.old t → SeatIs self.new (opens (Some lock) (owes Nought (shows (EnteredItem lock place) t))) }
        ensures section { self.new.worker.section ≡ Some lock }
        ensures lighter { turns_left self.new < turns_left self.old }
        ensures out { StepsOut self.old self.new }
        ensures keeps { KeepsOn self.old self.new }
        ensures thread { IsSameThread self.old self.new }
    {
        self.worker.entered(place);
        self.owed = Owed::Nothing;
        self.section = Some(lock);
    }

    /// The thread has seen stop. Gives the lock of the section that it left, if any.
    pub fn stop(&mut self) -> Option<u16>
        requires is { (t : Thread) × SeatIs self.old t }
        requires owed { self.old.owed ≡ Owed.Nothing }
        requires going { self.old.ended ≡ false }
        ensures stopped { (t : Thread) → SeatIs self.old t → SeatIs self.new (stopped t) }
        ensures left { (t : Thread) → SeatIs self.old t → result ≡ t.open_lock }
        ensures sections { StepSections self.old self.new result }
        ensures out { StepsOut self.old self.new }
        ensures keeps { KeepsOn self.old self.new }
        ensures lighter { turns_left self.new < turns_left self.old }
        ensures thread { IsSameThread self.old self.new }
    {
        let open = self.section;
        self.worker.stop();
        self.owed = Owed::Nothing;
        self.section = None;
        self.ended = true;
        open
    }
}

// What a thread that ended so still has to do.
fn owed_after(end: End) -> Owed
    ensures { result ≡ owed_after end }
{
    match end {
        End::StopTest => Owed::Stop,
        _ => Owed::Nothing,
    }
}
