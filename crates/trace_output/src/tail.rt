// The summary, and how a thread ended.

ghost use Rattle.std.specs.Prelude.{◌≡◌, ◌<◌, ◌++◌, length};
ghost use Rattle.element_tree.specs.Tree.{threads_of};
ghost use Rattle.element_tree.specs.Names.{labels_of};
ghost use Rattle.interval_tables.specs.Rows.{IsInBounds};
ghost use Rattle.output_lines.specs.Lines.{end_text};
ghost use Rattle.output_lines.specs.Reports.{summary_text};
ghost use Rattle.trace_output.specs.Texts.{end_in, end_of, end_line_of, ends_text};
ghost use Rattle.trace_output.specs.Printing.{way, HasPut, HasPrinted};

use crate::error::PrintError;
use crate::line::{finish, put_lines};
use edge_io::Sink;
use element_tree::Plan;
use interval_tables::Report;
use jm_base::{End, Items};
use line_output::Pending;
use output_lines::{end_line, summary_lines};
use std::alloc::Global;
use thread_machine::TraceItem;

/// Prints the summary of samples that are counted in `total`, and the line that says how their thread ended. Where memory
/// runs out a prefix of this is out; where the sink fails, too.
pub fn print_report<K: Sink>(
    alloc: Global,
    reports: &mut K,
    plan: &Plan,
    total: &Report,
    thread: u16,
    end: End,
) -> Result<(), PrintError>
    requires rows { length total.now.rows ≡ length (labels_of plan.now.elements) }
    requires bounds { IsInBounds total.now.rows }
    requires thread { thread < length (threads_of plan.now) }
    ensures { HasPrinted (summary_text plan.now total.now ++ end_text plan.now thread end)
        (K.written reports.old) (K.written reports.new) (K.faults reports.old) (K.faults reports.new) result }
{
    let Ok(mut pending) = Pending::new(alloc) else {
        return Err(PrintError::NoMemory);
    };
    put_summary(alloc, &mut pending, reports, plan, total)?;
    put_end(alloc, &mut pending, reports, plan, thread, end)?;
    finish(&mut pending, reports)
}

/// Prints the summary of samples that are counted in `total`, and the end lines of all threads, in thread order, as
/// `print_report` does that of one. A trace without an end has no line.
pub fn print_all_report<K: Sink>(
    alloc: Global,
    reports: &mut K,
    plan: &Plan,
    total: &Report,
    traces: &[Items<TraceItem>],
) -> Result<(), PrintError>
    requires rows { length total.now.rows ≡ length (labels_of plan.now.elements) }
    requires bounds { IsInBounds total.now.rows }
    requires threads { length traces.now ≡ length (threads_of plan.now) }
    ensures { HasPrinted (summary_text plan.now total.now ++ ends_text plan.now traces.now)
        (K.written reports.old) (K.written reports.new) (K.faults reports.old) (K.faults reports.new) result }
{
    let Ok(mut pending) = Pending::new(alloc) else {
        return Err(PrintError::NoMemory);
    };
    put_summary(alloc, &mut pending, reports, plan, total)?;
    put_ends(alloc, &mut pending, reports, plan, traces)?;
    finish(&mut pending, reports)
}

// Puts the summary.
pub(crate) fn put_summary<K: Sink>(
    alloc: Global,
    pending: &mut Pending,
    sink: &mut K,
    plan: &Plan,
    total: &Report,
) -> Result<(), PrintError>
    requires rows { length total.now.rows ≡ length (labels_of plan.now.elements) }
    requires bounds { IsInBounds total.now.rows }
    ensures { HasPut (summary_text plan.now total.now)
        (way (K.written sink.old) (K.faults sink.old) pending.old)
        (way (K.written sink.new) (K.faults sink.new) pending.new) result }
{
    let mut lines = Vec::new(alloc);
    if summary_lines(alloc, &mut lines, plan, total).is_err() {
        return Err(PrintError::NoMemory);
    }
    put_lines(pending, sink, &lines)
}

// Puts the line that says how a thread ended.
fn put_end<K: Sink>(
    alloc: Global,
    pending: &mut Pending,
    sink: &mut K,
    plan: &Plan,
    thread: u16,
    end: End,
) -> Result<(), PrintError>
    requires { thread < length (threads_of plan.now) }
    ensures { HasPut (end_text plan.now thread end)
        (way (K.written sink.old) (K.faults sink.old) pending.old)
        (way (K.written sink.new) (K.faults sink.new) pending.new) result }
{
    let mut line = Vec::new(alloc);
    if end_line(alloc, &mut line, plan, thread, end).is_err() {
        return Err(PrintError::NoMemory);
    }
    put_lines(pending, sink, &line)
}

// Puts the end lines of all threads.
pub(crate) fn put_ends<K: Sink>(
    alloc: Global,
    pending: &mut Pending,
    sink: &mut K,
    plan: &Plan,
    traces: &[Items<TraceItem>],
) -> Result<(), PrintError>
    requires { length traces.now ≡ length (threads_of plan.now) }
    ensures { HasPut (ends_text plan.now traces.now)
        (way (K.written sink.old) (K.faults sink.old) pending.old)
        (way (K.written sink.new) (K.faults sink.new) pending.new) result }
{
    for thread in 0..plan.threads() {
        let trace = traces[usize::from(thread)].as_slice();
        put_end_of(alloc, pending, sink, plan, thread, trace)?;
    }
    Ok(())
}

// Puts the line that says how a thread ended, where its trace says it.
fn put_end_of<K: Sink>(
    alloc: Global,
    pending: &mut Pending,
    sink: &mut K,
    plan: &Plan,
    thread: u16,
    trace: &[TraceItem],
) -> Result<(), PrintError>
    requires { thread < length (threads_of plan.now) }
    ensures { HasPut (end_line_of plan.now thread trace.now)
        (way (K.written sink.old) (K.faults sink.old) pending.old)
        (way (K.written sink.new) (K.faults sink.new) pending.new) result }
{
    match end_of(trace) {
        Some(end) => put_end(alloc, pending, sink, plan, thread, end),
        None => Ok(()),
    }
}

/// How a thread has ended, by the last item of its trace; none where that is another item or there is none.
pub fn end_of(trace: &[TraceItem]) -> Option<End>
    ensures { result ≡ end_of trace.now }
{
    end_in(trace.last()?)
}

// How a thread has ended, by an item of its trace.
fn end_in(item: &TraceItem) -> Option<End>
    ensures { result ≡ end_in item.now }
{
    match item {
        TraceItem::Ended(end) => Some(*end),
        TraceItem::Paused(_)
        | TraceItem::Sampled { .. }
        | TraceItem::Null { .. }
        | TraceItem::Entered { .. }
        | TraceItem::Left { .. } => None,
    }
}
