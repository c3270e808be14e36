// The run of a schedule.

ghost use Rattle.std.specs.Prelude.{◌≡◌, true, ◌-◌, ◌*◌, ◌<◌, ◌≤◌, All, None, length, IfOk, OnOk};
ghost use Rattle.element_tree.specs.Tree.{threads_of};
ghost use Rattle.phaser_core.specs.declared.view.Numbers.{Numbers};
ghost use Rattle.jm_meaning.specs.Beginning.{Options};
ghost use Rattle.thread_machine.specs.Bare.{IsLabelled};
ghost use Rattle.thread_machine.specs.SectionOrder.{LeavesAll};
ghost use Rattle.thread_machine.specs.Paired.{pairs_of};
ghost use Rattle.phaser_core.specs.Keeps.{AllKeep};
ghost use Rattle.weave_engine.specs.Followed.{AllFollow};
ghost use Rattle.weave_engine.specs.Seats.{SeatIs, AreSeats, CoreIs, IsFresh, AllFresh, Runs, IsJoined, all_seats_settled, SeatStands, AllStand, AllOf, AllClosed, traces_in, first_outside, Starts, IsFinished};
ghost use Rattle.weave_engine.specs.Turns.{Weave, is_idle, joined_to};
ghost use Rattle.phaser_core.specs.CoreShape.{IsDone};
ghost use Rattle.weave_engine.specs.Woven.{thread_at_start, threads_to, numbers_of, split_to, Woven, NamesOneRun};
ghost use Rattle.phaser_core.specs.Shares.{Partition};
ghost use Rattle.element_tree.specs.Names.{labels_of};

use crate::books::WeaveBooks;
use crate::reporter::close_open;
use crate::rounds::run_out;
use crate::rows::all_tokens;
use crate::seat::{Owed, Seat};
use crate::turns::apply;
use element_tree::Plan;
use interval_tables::Report;
use jm_base::{Items, M};
use outside_world::ScriptOutside;
use phaser_core::{Core, Event};
use schedule_text::Schedule;
use std::alloc::Global;
use thread_machine::{TraceItem, Worker};
use var_functions::Props;

// A thread before its first turn, with an outside that answers from the plan and keeps no list.
fn first_seat<'p>(
    alloc: Global,
    plan: &'p Plan,
    thread: u16,
    seed: u64,
    props: &Props,
    budget: u32,
) -> M<Seat<'p>>
    requires { thread < length (threads_of plan.now) }
    ensures seat { IfOk result (λ x. SeatIs x (thread_at_start plan.now (record { seed = seed; props = props.now; budget = budget }) thread)) }
    ensures thread { IfOk result (λ x. x.worker.thread ≡ thread) }
    ensures fresh { IfOk result (IsFresh plan.now budget) }
    ensures stands { IfOk result (SeatStands plan.now (first_outside plan.now) (record { seed = seed; props = props.now; budget = budget })) }
{
    Ok(Seat {
        number: thread,
        worker: Worker::new(alloc, plan, thread, seed, props, budget)?,
        outside: ScriptOutside::new(alloc, plan, false)?,
        owed: Owed::Nothing,
        section: None,
        ended: false,
    })
}

// All threads of the plan before their first turns.
fn first_seats<'p>(
    alloc: Global,
    plan: &'p Plan,
    seed: u64,
    props: &Props,
    budget: u32,
) -> M<Vec<Seat<'p>>>
    ensures seats { IfOk result (λ v. AreSeats 0 v.items (threads_to plan.now (record { seed = seed; props = props.now; budget = budget }) (length (threads_of plan.now)))) }
    ensures count { IfOk result (λ v. length v.items ≡ length (threads_of plan.now)) }
    ensures fresh { IfOk result (λ v. AllFresh plan.now budget v.items) }
    ensures stand { IfOk result (λ v. AllStand plan.now (first_outside plan.now) (record { seed = seed; props = props.now; budget = budget }) v.items) }
{
    let mut seats = Vec::with_capacity(alloc, usize::from(plan.threads()))?;
    'threads: for thread in 0..plan.threads() {
        seats.push(first_seat(alloc, plan, thread, seed, props, budget)?)?;
    }
    Ok(seats)
}

// The core with a writer for each thread of the plan.
fn first_core(alloc: Global, plan: &Plan, budget: u32) -> M<Core>
    requires { length (threads_of plan.now) * budget ≤ 4194304 }
    ensures threads { (1 ≤ length (threads_of plan.now)) × (length (threads_of plan.now) ≤ 64) }
    ensures core { (options : Options) → options.budget ≡ budget → IfOk result (λ c. CoreIs c (numbers_of plan.now options) (split_to (numbers_of plan.now options) (length (threads_of plan.now) - 1))) }
{
    let mut core = Core::new(alloc, plan.labels(), plan.threads(), budget)?;
    'writers: for _writer in 1..plan.threads() {
        apply(alloc, &mut core, Event::Split)?;
    }
    Ok(core)
}

// The writers are joined, in their order.
fn join_all(alloc: Global, seats: &Vec<Seat<'_>>, core: &mut Core) -> M<()>
    requires few { length seats.now.items ≤ 64 }
    requires runs { (n : Numbers) × (s : Weave) × Runs n seats.now.items core.old s }
    requires quiet { all_seats_settled seats.now.items ≡ true }
    requires idle { is_idle core.old.reporter.closing ≡ true }
    ensures joined { OnOk result ((n : Numbers) (s : Weave) → Runs n seats.now.items core.old s
        → IsJoined n seats.now.items core.new (joined_to n (length seats.now.items) s.core)) }
    ensures done { OnOk result (IsDone core.new) }
{
    let count = seats.len();
    'writers: for writer in 0..count {
        apply(alloc, core, Event::Join(writer as u16))?;
    }
    Ok(())
}

// All threads of a plan before their first turns, the core that they record in, and a word for each lock.
#[derive(Drop)]
struct Beginning<'p> {
    seats: Vec<Seat<'p>>,
    core: Core,
    locks: Vec<u64>,
}

fn begin<'p>(
    alloc: Global,
    plan: &'p Plan,
    props: &Props,
    seed: u64,
    budget: u32,
) -> M<Beginning<'p>>
    requires { length (threads_of plan.now) * budget ≤ 4194304 }
    ensures { IfOk result (λ b. Starts plan.now (record { seed = seed; props = props.now; budget = budget }) b.seats.items b.core b.locks.items) }
{
    let seats = first_seats(alloc, plan, seed, props, budget)?;
    let core = first_core(alloc, plan, budget)?;
    let locks = Vec::from_elem(alloc, 0u64, usize::from(plan.locks()))?;
    Ok(Beginning { seats, core, locks })
}

// The threads of a run that is over, and its reports.
#[derive(Drop)]
struct Finished<'p> {
    seats: Vec<Seat<'p>>,
    reports: Vec<Report>,
}

// Runs the threads of a plan in the order that a schedule says.
fn run_all<'p>(
    alloc: Global,
    plan: &'p Plan,
    props: &Props,
    seed: u64,
    budget: u32,
    schedule: &Schedule,
) -> M<Finished<'p>>
    requires { length (threads_of plan.now) * budget ≤ 4194304 }
    ensures { IfOk result (λ f. IsFinished plan.now (record { seed = seed; props = props.now; budget = budget }) schedule.now f.seats.items f.reports.items) }
{
    let beginning = begin(alloc, plan, props, seed, budget)?;
    let Beginning {
        mut seats,
        mut core,
        mut locks,
    } = beginning;
    all_tokens(alloc, &mut seats, &mut core, &mut locks, schedule.tokens())?;
    run_out(alloc, &mut seats, &mut core, &mut locks)?;
    close_open(alloc, &seats, &mut core)?;
    join_all(alloc, &seats, &mut core)?;
    let reports = core.finish(alloc)?;
    Ok(Finished { seats, reports })
}

// The traces of threads of the plan, in their order.
fn traces_of(alloc: Global, plan: &Plan, seats: Vec<Seat<'_>>) -> M<Items<Items<TraceItem>>>
    requires plans { AllOf plan.now seats.items }
    requires closed { AllClosed seats.items }
    ensures traces { IfOk result (λ t. t ≡ traces_in seats.entry.items) }
    ensures labelled { IfOk result (All (All (IsLabelled (length (labels_of plan.now.elements))))) }
    ensures sections { IfOk result (All LeavesAll) }
{
    let mut traces = Vec::with_capacity(alloc, seats.len())?;
    'seats: for seat in seats {
        traces.push(trace_of(plan, seat))?;
    }
    Ok(Items::of(traces))
}

// The trace of a thread of the plan.
fn trace_of(plan: &Plan, seat: Seat<'_>) -> Items<TraceItem>
    requires plan { seat.worker.plan ≡ plan.now }
    requires closed { seat.worker.section ≡ None }
    ensures trace { result ≡ seat.entry.worker.trace }
    ensures labelled { All (IsLabelled (length (labels_of plan.now.elements))) result }
    ensures sections { LeavesAll result }
{
    let Seat { worker, .. } = seat;
    Items::of(worker.into_trace())
}

/// Runs the threads of a plan in the order that a schedule says, each over the plan's own replies. After the tokens the threads
/// have one turn each in thread order, again and again, until all have ended and owe nothing; then an open closing is finished,
/// and the last report is that of the interval that is active then. `seed` is that of the run's random words, and `budget` is
/// how many units the samplers, transactions and sections of each thread may use at most: all threads together at most 4,194,304.
///
/// docs/use/WEAVE.md says what a turn is. Out of memory there are no books, and no thread ends with `End::NoMemory`.
pub fn weave(
    alloc: Global,
    plan: &Plan,
    props: &Props,
    seed: u64,
    budget: u32,
    schedule: &Schedule,
) -> M<WeaveBooks>
    requires samples { length (threads_of plan.now) * budget ≤ 4194304 }
    // The traces with intervals and places, and the reports, are those of the woven run.
    ensures woven { IfOk result (λ b. Woven plan.now (record { seed = seed; props = props.now; budget = budget }) schedule.now b.traces b.reports) }
    // Each trace is all events of its thread over the plan's replies, or a prefix of them and the stop.
    ensures follows { IfOk result (λ b. AllFollow plan.now (record { seed = seed; props = props.now; budget = budget }) b.traces) }
    // Each sample of each trace counts in exactly one report, that of its interval.
    ensures partition { IfOk result (λ b. Partition (length (labels_of plan.now.elements)) (pairs_of b.traces) b.reports) }
    // There is a trace for each thread, with no more samples than the budget, and the labels are those of the plan.
    ensures threads { IfOk result (λ b. length b.traces ≡ length (threads_of plan.now)) }
    ensures keep { IfOk result (λ b. AllKeep (length (labels_of plan.now.elements)) budget (pairs_of b.traces)) }
    ensures labelled { IfOk result (λ b. All (All (IsLabelled (length (labels_of plan.now.elements)))) b.traces) }
    // Each trace enters a section where none is open, leaves the one that is, and ends with none open.
    ensures sections { IfOk result (λ b. All LeavesAll b.traces) }
{
    let finished = run_all(alloc, plan, props, seed, budget, schedule)?;
    let Finished { seats, reports } = finished;
    let traces = traces_of(alloc, plan, seats)?;
    Ok(WeaveBooks {
        traces,
        reports: Items::of(reports),
    })
}

/// The law of schedules: a plan, its options and a schedule name one run, its traces and its reports.
pub fn a_schedule_names_one_run()
    ensures { NamesOneRun }
{}
