// What a command prints of a plan.

ghost use Rattle.std.specs.Prelude.{◌≡◌, ◌<◌, ◌≤◌, ◌++◌, All, codes, true, length, IfOk};
ghost use Rattle.element_tree.specs.Tree.{threads_of};
ghost use Rattle.element_tree.specs.Names.{labels_of};
ghost use Rattle.element_tree.specs.PlanWritten.{plan_text};
ghost use Rattle.jm_command.specs.Parts.{CanRun, HasThread, TextSays, MadeSays, PlanSays, sinks};
ghost use Rattle.jm_command.specs.Printed.{IsShown, default_solo};
ghost use Rattle.command_words.specs.declared.command.Command.TheVariants.{Solo as SoloCommand};
ghost use Rattle.thread_machine.specs.Bare.{bare, IsCountedIn, IsLabelled};
ghost use Rattle.thread_machine.specs.SampleCounts.{samples_in};

use crate::report::report_ran;
use crate::status::Status;
use crate::weaving::print_weave;
use command_words::{Command, Solo};
use edge_io::{Sink, write_all};
use element_tree::{Plan, write_plan};
use jm_base::{M, NoMemory};
use outside_world::ScriptOutside;
use std::alloc::Global;
use thread_machine::{FinishedThread, run_alone};
use trace_output::{PrintError, print_results};
use var_functions::{Props, PropsError};

/// Prints the texts of a command on a plan, the results first.
pub fn print_plan<O: Sink, E: Sink>(
    alloc: Global,
    command: &Command,
    plan: &Plan,
    results: &mut O,
    reports: &mut E,
) -> Status
    requires { CanRun command.now plan.now }
    ensures { PlanSays command.now plan.now
        (sinks (O.written results.old) (O.faults results.old) (E.written reports.old) (E.faults reports.old))
        (sinks (O.written results.new) (O.faults results.new) (E.written reports.new) (E.faults reports.new)) result }
{
    match command {
        Command::Check => print_check(alloc, plan, results),
        Command::Make(_) => print_made(alloc, plan, reports),
        Command::Solo(solo) => print_solo(alloc, solo, plan, results, reports),
        Command::Weave(ask) => print_weave(alloc, ask, plan, results, reports),
        Command::Run(_) => unreachable!(),
    }
}

// Prints the plan as it is written, and a line feed.
fn print_check<O: Sink>(alloc: Global, plan: &Plan, results: &mut O) -> Status
    ensures { TextSays (plan_text plan.now ++ codes "\n") (O.written results.old) (O.written results.new) (O.faults results.old) (O.faults results.new) result }
{
    let Ok(text) = plan_line(alloc, plan) else {
        return Status::Memory;
    };
    match write_all(results, &text) {
        Ok(()) => Status::Done,
        Err(_) => Status::WriteFault,
    }
}

fn plan_line(alloc: Global, plan: &Plan) -> M<Vec<u8>>
    ensures { IfOk result (λ text. text.items ≡ plan_text plan.now ++ codes "\n") }
{
    let mut text = write_plan(alloc, plan)?;
    text.push(b'\n')?;
    Ok(text)
}

// Runs the first thread of a plan with what stands for options that are not given, and prints its report. There are no
// results.
fn print_made<E: Sink>(alloc: Global, plan: &Plan, reports: &mut E) -> Status
    requires { HasThread default_solo plan.now }
    ensures { MadeSays plan.now (E.written reports.old) (E.written reports.new) (E.faults reports.old) (E.faults reports.new) result }
{
    let Ok(solo) = default_solo(alloc) else {
        return Status::Memory;
    };
    let Ok(ran) = run_thread(alloc, &solo, plan) else {
        return Status::Memory;
    };
    report_ran(alloc, plan, solo.thread, &ran, reports)
}

// What stands for the options of `solo` that are not given.
fn default_solo(alloc: Global) -> M<Solo>
    ensures { IfOk result (λ solo. solo ≡ default_solo) }
{
    match Props::read(alloc, b"") {
        Ok(props) => Ok(Solo {
            seed: 0,
            props,
            samples: 65_536,
            thread: 0,
        }),
        Err(PropsError::BadProps) => unreachable!(),
        Err(PropsError::NoMemory) => Err(NoMemory),
    }
}

// Runs a thread of the plan, and prints its results and its report.
fn print_solo<O: Sink, E: Sink>(
    alloc: Global,
    solo: &Solo,
    plan: &Plan,
    results: &mut O,
    reports: &mut E,
) -> Status
    requires { HasThread solo.now plan.now }
    ensures { PlanSays (SoloCommand solo.now) plan.now
        (sinks (O.written results.old) (O.faults results.old) (E.written reports.old) (E.faults reports.old))
        (sinks (O.written results.new) (O.faults results.new) (E.written reports.new) (E.faults reports.new)) result }
{
    let Ok(ran) = run_thread(alloc, solo, plan) else {
        return Status::Memory;
    };
    match print_results(alloc, results, plan, solo.thread, &ran.trace) {
        Ok(()) => report_ran(alloc, plan, solo.thread, &ran, reports),
        Err(PrintError::WriteFault) => Status::WriteFault,
        Err(PrintError::NoMemory) => Status::Memory,
    }
}

// Runs a thread of the plan over the plan's own replies.
fn run_thread(alloc: Global, solo: &Solo, plan: &Plan) -> M<FinishedThread>
    requires { HasThread solo.now plan.now }
    ensures shown { IfOk result (λ ran. IsShown plan.now solo.now (bare ran.trace.items) ran.end) }
    ensures labels { IfOk result (λ ran. All (IsLabelled (length (labels_of plan.now.elements))) ran.trace.items) }
    ensures intervals { IfOk result (λ ran. All (IsCountedIn 0) ran.trace.items) }
    ensures few { IfOk result (λ ran. samples_in ran.trace.items ≤ 4194304) }
{
    let mut outside = ScriptOutside::new(alloc, plan, false)?;
    run_alone(
        alloc,
        plan,
        solo.thread,
        solo.seed,
        &solo.props,
        solo.samples,
        &mut outside,
    )
}
