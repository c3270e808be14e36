// The loop of one worker.

ghost use Rattle.std.specs.Prelude.{◌≡◌, ◌<◌, ◌≤◌, ◌+◌, ◌∷◌, ◌++◌, [], length, false, true, None, IfSome};
ghost use Rattle.element_tree.specs.Names.{labels_of};
ghost use Rattle.jm_base.specs.Outside.{Account};
ghost use Rattle.jm_meaning.specs.Beginning.{Options};
ghost use Rattle.thread_machine.specs.Standing.{Stands};
ghost use Rattle.phaser_core.specs.Views.{at_stage};
ghost use Rattle.phaser_core.specs.declared.view.Stage.TheVariants.{Out};
ghost use Rattle.critical_section.specs.Book.{closed};
ghost use Rattle.critical_section.specs.SectionSeats.{view_of, IsSeatOf, locks_of};
ghost use Rattle.recorder_core.specs.RecorderSeats.{writes, numbers_of, IsWriter};
ghost use Rattle.phaser_core.specs.Keeps.{KeepsTo};
ghost use Rattle.thread_machine.specs.Paired.{pairs};
ghost use Rattle.run_engine.specs.Followed.{EndsWith};
ghost use Rattle.run_engine.specs.Marks.{SameWriter, is_stopped};
ghost use Rattle.run_engine.specs.JobsRan.{SameOutside, RunsToEnd};
ghost use Rattle.run_engine.specs.SectionsRun.{entered_in, Rises, KeepsSections, HeldAs};

use critical_section::{SectionSeat, Sections};
use jm_base::{End, Entry, Outside};
use recorder_core::{Recorder, Steps, WriterSeat};
use std::sync::Wait;
use std::sync::ledger::{Blank, Ledger};
use thread_machine::{Step, Worker};

/// Runs a worker to its end, and gives that end. Before each step it looks whether stop is raised, and then stops the worker.
/// Each sample is recorded, and the interval in which it counts is noted in the trace. Each section is entered, where it waits
/// until no other thread has one of its lock open, and left, where the worker is stopped and out of memory too.
///
/// The writer saw stop exactly where the end is `End::Stopped`.
pub fn run_samples<R: Wait, O: Outside, L: Ledger>(
    rt: &R,
    recorder: &Recorder,
    sections: &Sections,
    worker: &mut Worker<'_>,
    out: &mut O,
    seat: &mut WriterSeat,
    section: &mut SectionSeat,
    blank: Blank,
) -> End
    requires named { (blank.name ≡ L.name) × (blank.parts ≡ L.parts) × (0 < blank.parts) }
    requires seat { IsWriter recorder.now seat.old }
    requires owed { worker.old.owed ≡ None }
    requires entering { worker.old.entering ≡ None }
    requires closed { worker.old.section ≡ None }
    requires entered { KeepsSections sections.now section.old worker.old }
    requires rises { Rises worker.old.trace }
    requires few { length (entered_in worker.old.trace) + worker.old.units ≤ 4194304 }
    requires going { worker.old.ended ≡ false }
    requires unseen { (writes seat.old).saw ≡ false }
    requires none { (writes seat.old).list ≡ [] }
    requires listed { (writes seat.old).list ≡ pairs worker.old.trace }
    requires labels { length (labels_of worker.old.plan.elements) ≤ (numbers_of recorder.now).labels }
    requires budget { worker.old.units ≤ (numbers_of recorder.now).budget }
    ensures seat { IsWriter recorder.now seat.new }
    ensures listed { (writes seat.new).list ≡ pairs worker.new.trace }
    ensures entered { KeepsSections sections.now section.new worker.new }
    ensures rises { Rises worker.new.trace }
    ensures same { SameWriter (writes seat.old) (writes seat.new) }
    ensures saw { (writes seat.new).saw ≡ is_stopped result }
    ensures keeps { KeepsTo (numbers_of recorder.now).labels (numbers_of recorder.now).budget (writes seat.new).list }
    ensures plan { (worker.new.plan ≡ worker.old.plan) × (worker.new.thread ≡ worker.old.thread) }
    ensures outside { SameOutside (O.account out.old) (O.account out.new) }
    ensures ended { EndsWith worker.new.trace result }
    ensures over { worker.new.ended ≡ true }
    ensures runs { (start : Account) (options : Options) → Stands start (O.account out.old) options worker.old
        → RunsToEnd start (O.account out.new) worker.old.plan worker.old.thread options worker.new.trace }
{
    let mut steps = Steps::<L>::new(blank);
    let mut held = None;
    'steps: loop {
        if recorder.stop_seen(seat) {
            worker.stop();
            leave_open(sections, section, held);
            return End::Stopped;
        }
        match worker.step(out) {
            Step::Ended(end) => {
                leave_open(sections, section, held);
                return end;
            }
            Step::Sampled(entry) => {
                let interval = record_entry(recorder, seat, entry, &mut steps);
                worker.noted(interval);
            }
            Step::Null => {}
            Step::Enter(lock) => {
                let place = sections.enter(rt, section, lock);
                worker.entered(place);
                held = Some(lock);
            }
            Step::Leave(lock) => {
                sections.leave(section, lock);
                held = None;
            }
        }
    }
}

// Leaves the section that is still open, as where the worker was stopped or a step found no memory.
fn leave_open(sections: &Sections, seat: &mut SectionSeat, held: Option<u16>)
    requires seat { IsSeatOf sections.now seat.old }
    requires held { HeldAs held (view_of seat.old) }
    requires lock { IfSome held (λ lock. lock < locks_of sections.now) }
    ensures seat { IsSeatOf sections.now seat.new }
    ensures closed { view_of seat.new ≡ closed (view_of seat.old) }
{
    if let Some(lock) = held {
        sections.leave(seat, lock);
    }
}

// Records an entry, whose numbers have 32 bits.
fn record_entry<L: Ledger>(
    recorder: &Recorder,
    seat: &mut WriterSeat,
    entry: Entry,
    steps: &mut Steps<L>,
) -> u64
    requires seat { IsWriter recorder.now seat.old }
    requires room { length (writes seat.old).list < (numbers_of recorder.now).budget }
    requires label { entry.label < (numbers_of recorder.now).labels }
    ensures seat { IsWriter recorder.now seat.new }
    ensures list { writes seat.new ≡ at_stage (writes seat.old) Out ((writes seat.old).list ++ (result, entry) ∷ []) }
    ensures elapsed { entry.elapsed < 4294967296 }
    ensures bytes { entry.bytes < 4294967296 }
{
    recorder.record(seat, entry, steps)
}
