// Cases of whole threads, of a thread a step at a time, and of the moves of a thread.

ghost use Rattle.std.specs.Prelude.{◌≡◌, ◌<◌, IfOk, length, false, None};
ghost use Rattle.element_tree.specs.Tree.{Tree, threads_of};
ghost use Rattle.control_machine.specs.Left.{StandsIn};

use crate::outsides::Scarce;
use crate::scenes::{plan_of, props_of};
use crate::settings::{Settings, number_in};
use crate::show::write_trace;
use anyhow::bail;
use control_machine::{Leave, Machine, Move};
use element_tree::Plan;
use jm_base::{M, Sample, Text};
use outside_world::ScriptOutside;
use std::alloc::{AllocError, Global};
use thread_machine::{FinishedThread, Step, Worker, run_alone};
use var_functions::{FnState, Props, UserState, VarError, Vars};

// The numbers of a case: `thread`, `seed`, `budget`, the calls for which the outside finds memory, and the steps after which
// a worker is stopped.
#[derive(Clone, Copy)]
struct Numbers {
    thread: u16,
    seed: u64,
    budget: u32,
    calls: u32,
    steps: u32,
}

fn numbers_of(plan: &Plan, rest: &str) -> anyhow::Result<Numbers>
    ensures { IfOk result (λ n. n.thread < length (threads_of plan.now)) }
{
    let thread = number_in(rest, "thread", 0)?;
    let seed = number_in(rest, "seed", 0)?;
    let budget = number_in(rest, "budget", 65_536)?;
    let calls = number_in(rest, "calls", u32::MAX)?;
    let steps = number_in(rest, "steps", u32::MAX)?;
    if thread >= u32::from(plan.threads()) {
        bail!("no such thread");
    }
    Ok(Numbers {
        thread: thread as u16,
        seed: u64::from(seed),
        budget,
        calls,
        steps,
    })
}

// Runs a thread of the plan. What the call promises is left out here, so that no proof above carries it along.
fn ran(
    alloc: Global,
    plan: &Plan,
    props: &Props,
    numbers: Numbers,
) -> anyhow::Result<FinishedThread>
    requires { numbers.thread < length (threads_of plan.now) }
{
    let mut outside = Scarce {
        inner: ScriptOutside::new(alloc, plan, false)?,
        calls: numbers.calls,
    };
    let solo = run_alone(
        alloc,
        plan,
        numbers.thread,
        numbers.seed,
        props,
        numbers.budget,
        &mut outside,
    )?;
    Ok(solo)
}

// Writes the lines of a trace, and of its end.
fn write_solo(solo: &FinishedThread, out: &mut String) -> Result<(), AllocError> {
    write_trace(&solo.trace, out)?;
    write!(out, "= {:?}\n", solo.end)
}

// What a case `solo` prints: the whole trace, and how the thread ended.
fn solo(
    alloc: Global,
    plan: &Plan,
    props: &Props,
    rest: &str,
    out: &mut String,
) -> anyhow::Result<()> {
    let numbers = numbers_of(plan, rest)?;
    let solo = ran(alloc, plan, props, numbers)?;
    write_solo(&solo, out)?;
    Ok(())
}

// Steps until the thread has ended, or stops it after that many steps. It counts each sample in the interval of its elapsed
// time, and each section at place 40.
fn steps(
    worker: &mut Worker<'_>,
    most: u32,
    outside: &mut ScriptOutside,
    out: &mut String,
) -> Result<(), AllocError>
    requires owed { worker.old.owed ≡ None }
    requires entering { worker.old.entering ≡ None }
    requires going { worker.old.ended ≡ false }
{
    let mut left = most;
    'steps: loop {
        if left == 0 {
            worker.stop();
            return out.push_str("stopped\n");
        }
        left -= 1;
        match worker.step(outside) {
            Step::Sampled(entry) => {
                worker.noted(u64::from(entry.elapsed));
                write!(out, "step: {entry:?}\n")?;
            }
            Step::Null => out.push_str("step: null\n")?,
            Step::Enter(lock) => {
                worker.entered(40);
                write!(out, "step: enter {lock}\n")?;
            }
            Step::Leave(lock) => write!(out, "step: leave {lock}\n")?,
            Step::Ended(end) => return write!(out, "step: ended {end:?}\n"),
        }
    }
}

// A worker of the thread, from its start to its end: its steps, its trace as it is read, and how many items the trace has
// when it is taken.
fn worked(
    alloc: Global,
    plan: &Plan,
    props: &Props,
    numbers: Numbers,
    outside: &mut ScriptOutside,
    out: &mut String,
) -> anyhow::Result<usize>
    requires { numbers.thread < length (threads_of plan.now) }
{
    let mut worker = Worker::new(
        alloc,
        plan,
        numbers.thread,
        numbers.seed,
        props,
        numbers.budget,
    )?;
    steps(&mut worker, numbers.steps, outside, out)?;
    write_trace(worker.trace(), out)?;
    Ok(worker.into_trace().len())
}

// How many calls an outside tells of.
fn told(alloc: Global, outside: &ScriptOutside) -> M<usize> {
    Ok(match outside.told(alloc)? {
        Some(told) => told.len(),
        None => 0,
    })
}

// What a case `worker` prints: each step, the trace as it is read, how many items it has when it is taken, and how many
// calls the outside was told of.
fn worker(
    alloc: Global,
    plan: &Plan,
    props: &Props,
    rest: &str,
    out: &mut String,
) -> anyhow::Result<()> {
    let numbers = numbers_of(plan, rest)?;
    let mut outside = ScriptOutside::new(alloc, plan, true)?;
    let items = worked(alloc, plan, props, numbers, &mut outside, out)?;
    let told = told(alloc, &outside)?;
    write!(out, "= {items} items, {told} calls told\n")?;
    Ok(())
}

fn good_sample(alloc: Global) -> M<Sample> {
    Ok(Sample {
        stamp: 3,
        elapsed: 5,
        label: 1,
        code: 200,
        message: Text::new(alloc, b"")?,
        ok: true,
        failure: Text::new(alloc, b"")?,
        bytes: 7,
        listeners: 0,
    })
}

fn leave_of(word: &str) -> anyhow::Result<Leave> {
    match word {
        "NextLoop" => Ok(Leave::NextLoop),
        "StopThread" => Ok(Leave::StopThread),
        "StopTest" => Ok(Leave::StopTest),
        _ => bail!("no way out"),
    }
}

// The machine of a plan's first thread.
fn machine_of(alloc: Global, plan: &Plan) -> M<Machine>
    requires { 0 < length (threads_of plan.now) }
    ensures { IfOk result (StandsIn plan.now) }
{
    Machine::new(alloc, plan, 0)
}

// One move. Of what the call promises only what the next one asks for is said here.
fn one_move(
    alloc: Global,
    plan: &Plan,
    machine: &mut Machine,
    state: &mut UserState,
    outside: &mut ScriptOutside,
) -> Result<Move, VarError>
    requires { StandsIn plan.now machine.old }
    ensures { IfOk result (λ m. StandsIn plan.now machine.new) }
{
    machine.next(alloc, plan, state, outside)
}

fn two_moves(
    alloc: Global,
    plan: &Plan,
    machine: &mut Machine,
    state: &mut UserState,
    outside: &mut ScriptOutside,
) -> Result<(Move, Move), VarError>
    requires { StandsIn plan.now machine.old }
    ensures { IfOk result (λ m. StandsIn plan.now machine.new) }
{
    let first = one_move(alloc, plan, machine, state, outside)?;
    let second = one_move(alloc, plan, machine, state, outside)?;
    Ok((first, second))
}

// Tells of a sample, and then of a way out.
fn tell(machine: &mut Machine, sample: &Sample, how: Leave)
    ensures { (plan : Tree) → StandsIn plan machine.old → StandsIn plan machine.new }
{
    machine.after(sample);
    machine.leave(how);
}

// The state of a thread without variables.
fn first_state(alloc: Global, props: &Props) -> M<UserState> {
    Ok(UserState {
        vars: Vars::new(alloc),
        fns: FnState::new(alloc, props, 0, 0, 0)?,
    })
}

// The first two moves of a plan's first thread, and two more after a good sample of 5 ms and 7 bytes at 3, and a way out.
fn four_moves(alloc: Global, plan: &Plan, props: &Props, how: Leave) -> anyhow::Result<[Move; 4]>
    requires { 0 < length (threads_of plan.now) }
{
    let sample = good_sample(alloc)?;
    let mut outside = ScriptOutside::new(alloc, plan, false)?;
    let mut state = first_state(alloc, props)?;
    let mut machine = machine_of(alloc, plan)?;
    let (first, second) = two_moves(alloc, plan, &mut machine, &mut state, &mut outside)?;
    tell(&mut machine, &sample, how);
    let (third, fourth) = two_moves(alloc, plan, &mut machine, &mut state, &mut outside)?;
    Ok([first, second, third, fourth])
}

// What a case `moves` prints: a line for each move.
fn moves(
    alloc: Global,
    plan: &Plan,
    props: &Props,
    rest: &str,
    out: &mut String,
) -> anyhow::Result<()> {
    let how = leave_of(rest)?;
    if plan.threads() == 0 {
        bail!("no thread");
    }
    for one in four_moves(alloc, plan, props, how)? {
        write!(out, "= {one:?}\n")?;
    }
    Ok(())
}

/// What a case `solo`, `worker` or `moves` prints, on the plan and the properties of the settings.
pub fn run(
    alloc: Global,
    settings: &Settings,
    word: &str,
    rest: &str,
    out: &mut String,
) -> anyhow::Result<()> {
    let plan = plan_of(alloc, settings.text("plan"))?;
    let props = props_of(alloc, settings.text("properties"))?;
    match word {
        "solo" => solo(alloc, &plan, &props, rest, out),
        "worker" => worker(alloc, &plan, &props, rest, out),
        _ => moves(alloc, &plan, &props, rest, out),
    }
}
