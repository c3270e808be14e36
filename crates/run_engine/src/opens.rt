// The workers of a run, each with its outside and its writer.

ghost use Rattle.std.specs.Prelude.{◌≡◌, ◌<◌, ◌≤◌, ◌+◌, ◌++◌, ◌∷◌, ℕ, [], Contains, length, vec_len, vec_capacity, IfOk, OnOk, OnErr, slice_index_or};
ghost use Rattle.std.specs.List.{range_with_len};
ghost use Rattle.element_tree.specs.Tree.{threads_of};
ghost use Rattle.element_tree.specs.Names.{labels_of, locks_of};
ghost use Rattle.critical_section.specs.SectionSeats.{view_of, IsSeatOf, seats_of, locks_of as locks_in};
ghost use Rattle.recorder_core.specs.RecorderSeats.{numbers_of};
ghost use Rattle.run_engine.specs.Asked.{options_of};
ghost use Rattle.run_engine.specs.JobsRan.{AllAmong};
ghost use Rattle.run_engine.specs.Made.{IsNew, IsFresh, AllFresh, AllOpened, AreUntold};
ghost use Rattle.run_engine.specs.SectionsRun.{IsFirstSeat};
ghost use Rattle.run_engine.specs.Served.{AreServed};

use crate::ask::RunAsk;
use crate::job::Job;
use critical_section::{SectionSeat, Sections};
use jm_base::{M, NoMemory, Outside};
use outside_world::World;
use recorder_core::{Recorder, WriterSeat};
use std::alloc::Global;
use thread_machine::Worker;

// A worker with its outside. Out of memory no outside is opened.
fn open_job<'p, 's, W: World>(
    alloc: Global,
    recorder: &Recorder,
    world: &mut W,
    number: u16,
    ask: &RunAsk<'p>,
    seat: WriterSeat,
    sections: &'s Sections,
    first: &mut SectionSeat,
    count: u16,
) -> M<Job<'p, 's, W::Out>>
    requires seat { IsNew recorder.now count number seat }
    requires number { number < length (threads_of ask.now.plan.now) }
    requires few { length (threads_of ask.now.plan.now) ≤ 64 }
    requires closed { ¬ Contains (W.opened world.old) number }
    requires budget { ask.now.budget ≤ (numbers_of recorder.now).budget }
    requires labels { length (labels_of ask.now.plan.now.elements) ≤ (numbers_of recorder.now).labels }
    requires units { ask.now.budget ≤ 4194304 }
    requires locks { length (locks_of ask.now.plan.now.elements) ≤ locks_in sections.now }
    requires first { IsFirstSeat sections.now number first.old }
    requires room { number + 1 < seats_of sections.now }
    ensures first { OnOk result (IsFirstSeat sections.now (number + 1) first.new) }
    ensures unsplit { OnErr result (first.new ≡ first.old) }
    ensures among { IfOk result (λ j. j.sections.now ≡ sections.now) }
    ensures fresh { IfOk result (IsFresh W.Out.account recorder.now ask.now.plan.now (options_of ask.now) (W.identity world.old) (W.tells world.old) count number) }
    ensures opened { OnOk result (W.opened world.new ≡ W.opened world.old ++ number ∷ []) }
    ensures refused { OnErr result (W.opened world.new ≡ W.opened world.old) }
    ensures same { (W.identity world.new ≡ W.identity world.old) × (W.tells world.new ≡ W.tells world.old) × (W.closed world.new ≡ W.closed world.old) }
{
    let worker = Worker::new(alloc, ask.plan, number, ask.seed, ask.props, ask.budget)?;
    let out = world.open(number, ask.plan)?;
    Ok(Job {
        number,
        worker,
        out,
        seat,
        sections,
        section: sections.split_seat(first),
    })
}

// Makes the workers in the order of their numbers, into `jobs`, which has room for them. Out of memory `jobs` has those that
// were made by then.
fn make_jobs<'p, 's, W: World>(
    alloc: Global,
    recorder: &Recorder,
    world: &mut W,
    ask: &RunAsk<'p>,
    seats: Vec<WriterSeat>,
    sections: &'s Sections,
    first: &mut SectionSeat,
    count: u16,
    jobs: &mut Vec<Job<'p, 's, W::Out>>,
) -> M<()>
    requires count { (count ≡ length (threads_of ask.now.plan.now)) × (count ≤ 64) × (length seats.items ≡ count) }
    requires seats { (i : ℕ) (d : _) → i < count → IsNew recorder.now count i (slice_index_or seats.items i d) }
    requires budget { ask.now.budget ≤ (numbers_of recorder.now).budget }
    requires labels { length (labels_of ask.now.plan.now.elements) ≤ (numbers_of recorder.now).labels }
    requires units { ask.now.budget ≤ 4194304 }
    requires locks { length (locks_of ask.now.plan.now.elements) ≤ locks_in sections.now }
    requires first { IsFirstSeat sections.now 0 first.old }
    requires more { count < seats_of sections.now }
    requires opened { W.opened world.old ≡ [] }
    requires room { (jobs.old.items ≡ []) × (count ≤ vec_capacity jobs.old) }
    ensures all { OnOk result (length jobs.new.items ≡ count) }
    ensures first { OnOk result (IsFirstSeat sections.now count first.new) }
    ensures split { IsFirstSeat sections.now (length jobs.new.items) first.new }
    ensures among { AllAmong sections.now jobs.new.items }
    ensures few { length jobs.new.items ≤ count }
    ensures each { AllFresh W.Out.account recorder.now ask.now.plan.now (options_of ask.now) (W.identity world.old) (W.tells world.old) count jobs.new.items }
    ensures opened { W.opened world.new ≡ range_with_len 0 (length jobs.new.items) }
    ensures same { (W.identity world.new ≡ W.identity world.old) × (W.tells world.new ≡ W.tells world.old) × (W.closed world.new ≡ W.closed world.old) }
{
    let mut number = 0u16;
    for seat in seats {
        let job = open_job(
            alloc, recorder, world, number, ask, seat, sections, first, count,
        )?;
        let pushed = jobs.push(job);
        if pushed.is_err() {
            unreachable!();
        }
        number += 1;
    }
    Ok(())
}

// Takes back the outsides of workers that are not to run. None of them is asked anything.
fn close_all<'p, 's, W: World>(world: &mut W, jobs: Vec<Job<'p, 's, W::Out>>)
    requires opened { AllOpened W.Out.account (W.identity world.old) jobs.items }
    ensures closed { W.closed world.new ≡ W.closed world.old ++ range_with_len 0 (length jobs.entry.items) }
    ensures told { (i : ℕ) (d : _) → i < length jobs.entry.items → W.told world.new i ≡ (W.Out.account (slice_index_or jobs.entry.items i d).out).told }
    ensures same { W.opened world.new ≡ W.opened world.old }
    ensures kept { (W.identity world.new ≡ W.identity world.old) × (W.tells world.new ≡ W.tells world.old) }
{
    for job in jobs {
        let Job { number, out, .. } = job;
        world.close(number, out);
    }
}

/// The workers of a run, in the order of their numbers. Out of memory each outside that was opened is closed, and was asked
/// nothing.
pub fn open_all<'p, 's, W: World>(
    alloc: Global,
    recorder: &Recorder,
    world: &mut W,
    ask: &RunAsk<'p>,
    seats: Vec<WriterSeat>,
    sections: &'s Sections,
    first: &mut SectionSeat,
    count: u16,
) -> M<Vec<Job<'p, 's, W::Out>>>
    requires count { (count ≡ length (threads_of ask.now.plan.now)) × (count ≤ 64) × (length seats.items ≡ count) }
    requires seats { (i : ℕ) (d : _) → i < count → IsNew recorder.now count i (slice_index_or seats.items i d) }
    requires budget { ask.now.budget ≤ (numbers_of recorder.now).budget }
    requires labels { length (labels_of ask.now.plan.now.elements) ≤ (numbers_of recorder.now).labels }
    requires units { ask.now.budget ≤ 4194304 }
    requires locks { length (locks_of ask.now.plan.now.elements) ≤ locks_in sections.now }
    requires first { IsFirstSeat sections.now 0 first.old }
    requires more { count < seats_of sections.now }
    requires opened { W.opened world.old ≡ [] }
    ensures first { OnOk result (IsFirstSeat sections.now count first.new) }
    ensures among { IfOk result (λ v. AllAmong sections.now v.items) }
    ensures len { IfOk result (λ v. length v.items ≡ count) }
    ensures each { IfOk result (λ v. AllFresh W.Out.account recorder.now ask.now.plan.now (options_of ask.now) (W.identity world.old) (W.tells world.old) count v.items) }
    ensures opened { OnOk result (W.opened world.new ≡ range_with_len 0 count) }
    ensures same { OnOk result ((W.identity world.new ≡ W.identity world.old) × (W.tells world.new ≡ W.tells world.old) × (W.closed world.new ≡ W.closed world.old)) }
    ensures refused { OnErr result ((n : ℕ) × (n ≤ count) × AreServed n (W.opened world.new) (W.closed world.old) (W.closed world.new)) }
    ensures untold { OnErr result (AreUntold (W.tells world.old) (W.opened world.new) (W.told world.new)) }
    ensures kept { OnErr result ((W.identity world.new ≡ W.identity world.old) × (W.tells world.new ≡ W.tells world.old)) }

    // A seat was made of the first one for each outside that was opened, and none was taken back.
    ensures split { OnErr result (IsFirstSeat sections.now (length (W.opened world.new)) first.new) }
{
    let mut jobs = Vec::with_capacity(alloc, usize::from(count))?;
    match make_jobs(
        alloc, recorder, world, ask, seats, sections, first, count, &mut jobs,
    ) {
        Ok(()) => Ok(jobs),
        Err(NoMemory) => {
            close_all(world, jobs);
            Err(NoMemory)
        }
    }
}
