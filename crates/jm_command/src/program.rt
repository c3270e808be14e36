// The program as a function of its words, its source, its sinks and its maker of patterns.

ghost use Rattle.std.specs.Prelude.{◌≡◌, map, string_bytes, false, Some};
ghost use Rattle.command_words.specs.declared.command.Command.{Command};
ghost use Rattle.command_words.specs.declared.command.Command.TheVariants.{Make as MakeCommand};
ghost use Rattle.command_words.specs.Commands.{command_of, names_run};
ghost use Rattle.jm_command.specs.Command.{Says, PlainEnds, edges};
ghost use Rattle.plan_maker.specs.Generated.{generated};
ghost use Rattle.jm_command.specs.Parts.{HasSize, IsInRange, IsPlain, PlanSays, sinks};

use crate::line::say;
use crate::plan::read_plan;
use crate::print::print_plan;
use crate::status::Status;
use crate::words::command_of;
use command_words::{Command, Make};
use edge_io::{Sink, Source};
use element_props::Patterns;
use plan_maker::make_plan;
use std::alloc::Global;

/// What is printed of words that are not a command line.
pub(crate) const USAGE: &[u8] = b"usage: jm check|make|run|solo|weave [--option value]\n";

/// Runs the program on its words, without its own name. The plan is read from `plan`, except by `make`, which makes its own;
/// the results go to `results`, and the summary and the end line, the usage line or a refusal line to `reports`. `patterns`
/// makes the plan's patterns. It gives the exit status. `run` is not among its commands.
pub fn plain_command<S: Source, O: Sink, E: Sink, G: Patterns>(
    alloc: Global,
    words: &Vec<String>,
    plan: &mut S,
    results: &mut O,
    reports: &mut E,
    patterns: &mut G,
) -> u8
    requires { names_run (map string_bytes words.now.items) ≡ false }
    ensures { PlainEnds (command_of (map string_bytes words.now.items))
        (edges (S.left plan.old) (S.faults plan.old) (O.written results.old) (O.faults results.old) (E.written reports.old) (E.faults reports.old) (G.account patterns.old))
        (edges (S.left plan.new) (S.faults plan.new) (O.written results.new) (O.faults results.new) (E.written reports.new) (E.faults reports.new) (G.account patterns.new))
        result }
{
    run_words(alloc, words, plan, results, reports, patterns).number()
}

// Runs the program on these words.
pub(crate) fn run_words<S: Source, O: Sink, E: Sink, G: Patterns>(
    alloc: Global,
    words: &Vec<String>,
    plan: &mut S,
    results: &mut O,
    reports: &mut E,
    patterns: &mut G,
) -> Status
    requires { names_run (map string_bytes words.now.items) ≡ false }
    ensures { Says (command_of (map string_bytes words.now.items))
        (edges (S.left plan.old) (S.faults plan.old) (O.written results.old) (O.faults results.old) (E.written reports.old) (E.faults reports.old) (G.account patterns.old))
        (edges (S.left plan.new) (S.faults plan.new) (O.written results.new) (O.faults results.new) (E.written reports.new) (E.faults reports.new) (G.account patterns.new))
        result }
{
    match command_of(alloc, words) {
        Ok(command) => run_command(alloc, command, plan, results, reports, patterns),
        Err(_) => Status::Memory,
    }
}

// Runs the program where its words are this command, or none.
fn run_command<S: Source, O: Sink, E: Sink, G: Patterns>(
    alloc: Global,
    command: Option<Command>,
    plan: &mut S,
    results: &mut O,
    reports: &mut E,
    patterns: &mut G,
) -> Status
    requires { IsInRange command }
    ensures { Says command
        (edges (S.left plan.old) (S.faults plan.old) (O.written results.old) (O.faults results.old) (E.written reports.old) (E.faults reports.old) (G.account patterns.old))
        (edges (S.left plan.new) (S.faults plan.new) (O.written results.new) (O.faults results.new) (E.written reports.new) (E.faults reports.new) (G.account patterns.new))
        result }
{
    match command {
        None => say(reports, USAGE, Status::Usage),
        Some(Command::Make(make)) => run_made(alloc, make, results, reports),
        Some(Command::Run(_)) => unreachable!(),
        Some(command) => run_read(alloc, &command, plan, results, reports, patterns),
    }
}

// Makes a plan and prints its report.
fn run_made<O: Sink, E: Sink>(alloc: Global, make: Make, results: &mut O, reports: &mut E) -> Status
    requires { HasSize make }
    ensures { PlanSays (MakeCommand make) (generated make.size)
        (sinks (O.written results.old) (O.faults results.old) (E.written reports.old) (E.faults reports.old))
        (sinks (O.written results.new) (O.faults results.new) (E.written reports.new) (E.faults reports.new)) result }
{
    let Ok(plan) = make_plan(alloc, make.size) else {
        return Status::Memory;
    };
    print_plan(alloc, &Command::Make(make), &plan, results, reports)
}

// Reads a plan, and prints the texts of the command on it.
fn run_read<S: Source, O: Sink, E: Sink, G: Patterns>(
    alloc: Global,
    command: &Command,
    plan: &mut S,
    results: &mut O,
    reports: &mut E,
    patterns: &mut G,
) -> Status
    requires { IsPlain command.now }
    ensures { Says (Some command.now)
        (edges (S.left plan.old) (S.faults plan.old) (O.written results.old) (O.faults results.old) (E.written reports.old) (E.faults reports.old) (G.account patterns.old))
        (edges (S.left plan.new) (S.faults plan.new) (O.written results.new) (O.faults results.new) (E.written reports.new) (E.faults reports.new) (G.account patterns.new))
        result }
{
    match read_plan(alloc, command, plan, reports, patterns) {
        Ok(plan) => print_plan(alloc, command, &plan, results, reports),
        Err(status) => status,
    }
}
