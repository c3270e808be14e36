// The report of a thread that has run: the summary of its samples, and how it ended.

ghost use Rattle.std.specs.Prelude.{◌≡◌, ◌<◌, ◌≤◌, ◌++◌, All, length, IfOk};
ghost use Rattle.element_tree.specs.Tree.{threads_of};
ghost use Rattle.element_tree.specs.Names.{labels_of};
ghost use Rattle.interval_tables.specs.Rows.{IsInBounds, rows_with};
ghost use Rattle.output_lines.specs.Lines.{end_text};
ghost use Rattle.output_lines.specs.Reports.{summary_text};
ghost use Rattle.thread_machine.specs.Bare.{bare, IsLabelled};
ghost use Rattle.thread_machine.specs.SampleCounts.{samples_in};
ghost use Rattle.jm_command.specs.Parts.{ReportSays, WholeSays};
ghost use Rattle.jm_command.specs.Printed.{counted, end_is_whole};

use crate::status::Status;
use edge_io::Sink;
use element_tree::Plan;
use interval_tables::Report;
use jm_base::{End, Entry, M};
use std::alloc::Global;
use thread_machine::{FinishedThread, TraceItem};
use trace_output::{PrintError, print_report};

/// Prints the report of a thread that has run: the summary of its samples, and the line that says how it ended.
pub fn report_ran<E: Sink>(
    alloc: Global,
    plan: &Plan,
    thread: u16,
    ran: &FinishedThread,
    reports: &mut E,
) -> Status
    requires thread { thread < length (threads_of plan.now) }
    requires labels { All (IsLabelled (length (labels_of plan.now.elements))) ran.now.trace.items }
    requires few { samples_in ran.now.trace.items ≤ 4194304 }
    ensures { ReportSays (summary_text plan.now (counted plan.now (bare ran.now.trace.items)) ++ end_text plan.now thread ran.now.end) (end_is_whole ran.now.end)
        (E.written reports.old) (E.written reports.new) (E.faults reports.old) (E.faults reports.new) result }
{
    let Ok(total) = counted(alloc, plan, &ran.trace) else {
        return Status::Memory;
    };
    match print_report(alloc, reports, plan, &total, thread, ran.end) {
        Ok(()) => status_of(is_whole(ran.end)),
        Err(PrintError::WriteFault) => Status::WriteFault,
        Err(PrintError::NoMemory) => Status::Memory,
    }
}

// The status after a report that is printed.
pub(crate) fn status_of(whole: bool) -> Status
    ensures { WholeSays whole result }
{
    if whole { Status::Done } else { Status::Memory }
}

// Whether a thread that ended so was not cut short because memory ran out.
pub(crate) fn is_whole(end: End) -> bool
    ensures { result ≡ end_is_whole end }
{
    match end {
        End::NoMemory => false,
        End::Completed
        | End::StopThread
        | End::StopTest
        | End::Stopped
        | End::SampleLimit
        | End::RoundLimit
        | End::ValueLimit => true,
    }
}

// What is counted of the samples of a trace: a row for each label of the plan.
fn counted(alloc: Global, plan: &Plan, trace: &[TraceItem]) -> M<Report>
    requires labels { All (IsLabelled (length (labels_of plan.now.elements))) trace.now }
    requires few { samples_in trace.now ≤ 4194304 }
    ensures total { IfOk result (λ total. total ≡ counted plan.now (bare trace.now)) }
    ensures bounds { IfOk result (λ total. IsInBounds total.rows) }
{
    let mut total = Report::vacant(alloc, plan.labels())?;
    'items: for item in trace {
        if let TraceItem::Sampled { sample, .. } = item {
            count(&mut total, sample.entry());
        }
    }
    Ok(total)
}

// Counts one more sample, whose time and bytes have 32 bits.
fn count(total: &mut Report, entry: Entry)
    requires label { entry.label < length total.old.rows }
    requires bounds { IsInBounds total.old.rows }
    requires room { entry.elapsed < 4294967296 → entry.bytes < 4294967296 → IsInBounds (rows_with total.old.rows entry) }
    ensures interval { total.new.interval ≡ total.old.interval }
    ensures rows { total.new.rows ≡ rows_with total.old.rows entry }
    ensures elapsed { entry.elapsed < 4294967296 }
    ensures bytes { entry.bytes < 4294967296 }
{
    total.add(entry);
}
