// One thread of a plan from its start to its end, where no one counts its samples.

ghost use Rattle.std.specs.Prelude.{◌≡◌, ◌<◌, ◌≤◌, ◌+◌, ◌^◌, [], All, length, replicate, slice_index, slice_set, IfOk, OnErr, false, true, None};
ghost use Rattle.element_tree.specs.Tree.{threads_of};
ghost use Rattle.element_tree.specs.Names.{labels_of, locks_of};
ghost use Rattle.jm_base.specs.Outside.{Account};
ghost use Rattle.jm_meaning.specs.Beginning.{Options};
ghost use Rattle.thread_machine.specs.Bare.{IsCountedIn, IsLabelled};
ghost use Rattle.thread_machine.specs.SampleCounts.{samples_in};
ghost use Rattle.thread_machine.specs.SectionOrder.{sections_in, PlacedAfter, LeavesAll};
ghost use Rattle.thread_machine.specs.Standing.{Stands};
ghost use Rattle.thread_machine.specs.Follows.{HasRun};

use crate::step::Step;
use crate::trace::TraceItem;
use crate::worker::Worker;
use element_tree::Plan;
use jm_base::{End, M, Outside};
use std::alloc::Global;
use var_functions::Props;

/// The whole trace of a thread, and how the thread ended.
#[derive(Drop)]
pub struct FinishedThread {
    /// All that became of it, in order. The last item is its end.
    pub trace: Vec<TraceItem>,
    /// How it ended.
    pub end: End,
}

/// Runs a thread of the plan over an outside that has told nothing, from its start to its end. Every sample is counted in
/// interval 0, and the sections of each lock are numbered from 0. `seed` is that of the run's random words, and `budget` is
/// how many units the thread's samplers, transactions and sections may use. It refuses only before the thread's first step.
pub fn run_alone<O: Outside>(
    alloc: Global,
    plan: &Plan,
    thread: u16,
    seed: u64,
    props: &Props,
    budget: u32,
    outside: &mut O,
) -> M<FinishedThread>
    requires { thread < length (threads_of plan.now) }
    ensures has_run { IfOk result (λ solo. HasRun (O.account outside.old) (O.account outside.new)
        plan.now thread (record { seed = seed; props = props.now; budget = budget }) solo.trace.items solo.end) }
    ensures labels { IfOk result (λ solo. All (IsLabelled (length (labels_of plan.now.elements))) solo.trace.items) }
    ensures intervals { IfOk result (λ solo. All (IsCountedIn 0) solo.trace.items) }
    ensures count { IfOk result (λ solo. samples_in solo.trace.items + sections_in solo.trace.items ≤ budget) }
    ensures places { IfOk result (λ solo. PlacedAfter [] solo.trace.items) }
    ensures sections { IfOk result (λ solo. LeavesAll solo.trace.items) }

    // Out of memory before the first step, the outside was asked nothing.
    ensures unasked { OnErr result (O.account outside.new ≡ O.account outside.old) }
{
    let mut places = Vec::from_elem(alloc, 0u64, usize::from(plan.locks()))?;
    let mut worker = Worker::new(alloc, plan, thread, seed, props, budget)?;
    let end = run_to_end(&mut worker, places.as_mut_slice(), outside);
    Ok(FinishedThread {
        trace: worker.into_trace(),
        end,
    })
}

// Steps until the thread has ended. The place that comes next for a lock is how many of its sections there were.
fn run_to_end<O: Outside>(worker: &mut Worker<'_>, places: &mut [u64], outside: &mut O) -> End
    requires owed { worker.old.owed ≡ None }
    requires entering { worker.old.entering ≡ None }
    requires places { places.old ≡ replicate (length (locks_of worker.old.plan.elements)) 0 }
    requires no_items { worker.old.trace ≡ [] }
    requires few { worker.old.units < 2 ^ 32 }
    requires going { worker.old.ended ≡ false }
    ensures has_run { (start : Account) (options : Options) → Stands start (O.account outside.old) options worker.old
        → HasRun start (O.account outside.new) worker.old.plan worker.old.thread options worker.new.trace result }
    ensures plan { worker.new.plan ≡ worker.old.plan }
    ensures over { worker.new.ended ≡ true }
    ensures intervals { All (IsCountedIn 0) worker.old.trace → All (IsCountedIn 0) worker.new.trace }
    ensures count { samples_in worker.new.trace + sections_in worker.new.trace ≤ worker.old.units }
    ensures places { PlacedAfter [] worker.new.trace }
{
    'steps: loop {
        match worker.step(outside) {
            Step::Ended(end) => return end,
            Step::Sampled(_) => worker.noted(0),
            Step::Null => {}
            Step::Enter(lock) => worker.entered(next_place(places, lock)),
            Step::Leave(_) => {}
        }
    }
}

// The place of the next section of the lock, which is counted.
fn next_place(places: &mut [u64], lock: u16) -> u64
    requires lock { lock < length places.old }
    requires few { slice_index places.old lock < 2 ^ 32 }
    ensures place { result ≡ slice_index places.old lock }
    ensures counted { places.new ≡ slice_set places.old lock (slice_index places.old lock + 1) }
{
    let place = places[usize::from(lock)];
    places[usize::from(lock)] = place + 1;
    place
}
