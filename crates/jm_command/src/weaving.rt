// What `weave` prints of a plan.

ghost use Rattle.std.specs.Prelude.{◌≡◌, ◌≤◌, ℕ, All, length, take, IfOk};
ghost use Rattle.element_tree.specs.Tree.{threads_of};
ghost use Rattle.element_tree.specs.Names.{labels_of};
ghost use Rattle.interval_tables.specs.Rows.{IsInBounds};
ghost use Rattle.phaser_core.specs.Shares.{rows_of_all};
ghost use Rattle.thread_machine.specs.Bare.{IsLabelled};
ghost use Rattle.trace_output.specs.Texts.{CanPrint};
ghost use Rattle.command_words.specs.declared.command.Command.TheVariants.{Weave as WeaveCommand};
ghost use Rattle.jm_command.specs.Parts.{HasSamples, PlanSays, TextSays, sinks};
ghost use Rattle.jm_command.specs.WovenTexts.{weave_report};

use crate::status::Status;
use command_words::Weave;
use edge_io::Sink;
use element_tree::Plan;
use interval_tables::Report;
use jm_base::M;
use std::alloc::Global;
use trace_output::{PrintError, print_all_results, print_history};
use weave_engine::{WeaveBooks, weave};

/// Runs all threads of a plan in the order that a schedule says, and prints what they have done: the results, and then the reports
/// of all intervals, the summary and the end lines.
pub fn print_weave<O: Sink, E: Sink>(
    alloc: Global,
    ask: &Weave,
    plan: &Plan,
    results: &mut O,
    reports: &mut E,
) -> Status
    requires { HasSamples ask.now plan.now }
    ensures { PlanSays (WeaveCommand ask.now) plan.now
        (sinks (O.written results.old) (O.faults results.old) (E.written reports.old) (E.faults reports.old))
        (sinks (O.written results.new) (O.faults results.new) (E.written reports.new) (E.faults reports.new)) result }
{
    let Ok(books) = weave(
        alloc,
        plan,
        &ask.props,
        ask.seed,
        ask.samples,
        &ask.schedule,
    ) else {
        return Status::Memory;
    };
    let Ok(total) = total_of(alloc, plan, books.reports.as_slice()) else {
        return Status::Memory;
    };
    match print_all_results(alloc, results, plan, books.traces.as_slice()) {
        Ok(()) => print_reports(alloc, plan, &books, &total, reports),
        Err(PrintError::WriteFault) => Status::WriteFault,
        Err(PrintError::NoMemory) => Status::Memory,
    }
}

// The reports of all intervals as one.
fn total_of(alloc: Global, plan: &Plan, reports: &[Report]) -> M<Report>
    requires each { All (CanPrint plan.now) reports.now }
    requires fits { (n : ℕ) → n ≤ length reports.now → IsInBounds (rows_of_all (length (labels_of plan.now.elements)) (take n reports.now)) }
    ensures rows { IfOk result (λ r. r.rows ≡ rows_of_all (length (labels_of plan.now.elements)) reports.now) }
    ensures bounds { IfOk result (λ r. IsInBounds r.rows) }
{
    let mut total = Report::vacant(alloc, plan.labels())?;
    'reports: for report in reports {
        total.merge(report);
    }
    Ok(total)
}

// Prints the reports of all intervals, the summary and the end lines.
fn print_reports<E: Sink>(
    alloc: Global,
    plan: &Plan,
    books: &WeaveBooks,
    total: &Report,
    reports: &mut E,
) -> Status
    requires each { All (CanPrint plan.now) books.now.reports }
    requires rows { length total.now.rows ≡ length (labels_of plan.now.elements) }
    requires bounds { IsInBounds total.now.rows }
    requires threads { length books.now.traces ≡ length (threads_of plan.now) }
    ensures { TextSays (weave_report plan.now books.now.reports total.now books.now.traces)
        (E.written reports.old) (E.written reports.new) (E.faults reports.old) (E.faults reports.new) result }
{
    let closed = books.reports.as_slice();
    match print_history(alloc, reports, plan, closed, total, books.traces.as_slice()) {
        Ok(()) => Status::Done,
        Err(PrintError::WriteFault) => Status::WriteFault,
        Err(PrintError::NoMemory) => Status::Memory,
    }
}
