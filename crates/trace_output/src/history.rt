// The reports of all intervals, with the summary and the end lines after them.

ghost use Rattle.std.specs.Prelude.{◌≡◌, ◌++◌, All, length};
ghost use Rattle.element_tree.specs.Tree.{threads_of};
ghost use Rattle.element_tree.specs.Names.{labels_of};
ghost use Rattle.interval_tables.specs.Rows.{IsInBounds};
ghost use Rattle.output_lines.specs.Reports.{report_text, summary_text};
ghost use Rattle.trace_output.specs.Texts.{reports_text, ends_text, CanPrint};
ghost use Rattle.trace_output.specs.Printing.{way, HasPut, HasPrinted};

use crate::error::PrintError;
use crate::line::{finish, put_lines};
use crate::tail::{put_ends, put_summary};
use edge_io::Sink;
use element_tree::Plan;
use interval_tables::Report;
use jm_base::Items;
use line_output::Pending;
use output_lines::report_lines;
use std::alloc::Global;
use thread_machine::TraceItem;

/// Prints the reports of intervals, in their order, the summary of samples that are counted in `total`, and the end lines of all
/// threads, in thread order. A trace without an end has no line. Where memory runs out a prefix of this is out; where the sink
/// fails, too.
pub fn print_history<K: Sink>(
    alloc: Global,
    reports: &mut K,
    plan: &Plan,
    closed: &[Report],
    total: &Report,
    traces: &[Items<TraceItem>],
) -> Result<(), PrintError>
    requires each { All (CanPrint plan.now) closed.now }
    requires rows { length total.now.rows ≡ length (labels_of plan.now.elements) }
    requires bounds { IsInBounds total.now.rows }
    requires threads { length traces.now ≡ length (threads_of plan.now) }
    ensures { HasPrinted (reports_text plan.now closed.now ++ (summary_text plan.now total.now ++ ends_text plan.now traces.now))
        (K.written reports.old) (K.written reports.new) (K.faults reports.old) (K.faults reports.new) result }
{
    let Ok(mut pending) = Pending::new(alloc) else {
        return Err(PrintError::NoMemory);
    };
    put_reports(alloc, &mut pending, reports, plan, closed)?;
    put_tail(alloc, &mut pending, reports, plan, total, traces)?;
    finish(&mut pending, reports)
}

// Puts the lines of reports, in their order.
fn put_reports<K: Sink>(
    alloc: Global,
    pending: &mut Pending,
    sink: &mut K,
    plan: &Plan,
    closed: &[Report],
) -> Result<(), PrintError>
    requires { All (CanPrint plan.now) closed.now }
    ensures { HasPut (reports_text plan.now closed.now)
        (way (K.written sink.old) (K.faults sink.old) pending.old)
        (way (K.written sink.new) (K.faults sink.new) pending.new) result }
{
    for report in closed {
        put_report(alloc, pending, sink, plan, report)?;
    }
    Ok(())
}

// Puts the lines of a report.
fn put_report<K: Sink>(
    alloc: Global,
    pending: &mut Pending,
    sink: &mut K,
    plan: &Plan,
    report: &Report,
) -> Result<(), PrintError>
    requires { CanPrint plan.now report.now }
    ensures { HasPut (report_text plan.now report.now)
        (way (K.written sink.old) (K.faults sink.old) pending.old)
        (way (K.written sink.new) (K.faults sink.new) pending.new) result }
{
    let mut lines = Vec::new(alloc);
    if report_lines(alloc, &mut lines, plan, report).is_err() {
        return Err(PrintError::NoMemory);
    }
    put_lines(pending, sink, &lines)
}

// Puts the summary and the end lines.
fn put_tail<K: Sink>(
    alloc: Global,
    pending: &mut Pending,
    sink: &mut K,
    plan: &Plan,
    total: &Report,
    traces: &[Items<TraceItem>],
) -> Result<(), PrintError>
    requires rows { length total.now.rows ≡ length (labels_of plan.now.elements) }
    requires bounds { IsInBounds total.now.rows }
    requires threads { length traces.now ≡ length (threads_of plan.now) }
    ensures { HasPut (summary_text plan.now total.now ++ ends_text plan.now traces.now)
        (way (K.written sink.old) (K.faults sink.old) pending.old)
        (way (K.written sink.new) (K.faults sink.new) pending.new) result }
{
    put_summary(alloc, pending, sink, plan, total)?;
    put_ends(alloc, pending, sink, plan, traces)?;
    Ok(())
}
