// Result lines.

ghost use Rattle.std.specs.Prelude.{◌≡◌, ◌<◌, ◌++◌, All, length, IfOk, OnOk, OnErr};
ghost use Rattle.element_tree.specs.Tree.{threads_of};
ghost use Rattle.element_tree.specs.Names.{labels_of};
ghost use Rattle.output_lines.specs.Lines.{header_text};
ghost use Rattle.output_lines.specs.Bulk.{BeginsWith};
ghost use Rattle.thread_machine.specs.Bare.{IsLabelled};
ghost use Rattle.trace_output.specs.Texts.{line_of, trace_text, traces_text, AddsLines};
ghost use Rattle.trace_output.specs.Printing.{way, HasPut, HasPrinted};

use crate::error::PrintError;
use crate::line::{finish, put_lines};
use edge_io::Sink;
use element_tree::Plan;
use jm_base::{Items, M, NoMemory};
use line_output::Pending;
use output_lines::{ResultLines, header_line};
use std::alloc::Global;
use thread_machine::TraceItem;

// A text ends with the line that brings it to this many bytes.
const TEXT_ROOM: usize = 16_000;

// A text has memory for this many bytes from the start, and lines of up to 384 bytes ask for no more. Where no line has more
// than 16 KiB, the text and what is held back on the way to the sink are less than 64 KiB.
const TEXT_MEMORY: usize = 16_384;

/// Prints the header and a line for each sample of a thread's trace, in its order, with the interval in which the sample
/// was counted. Where memory runs out a prefix of this is out; where the sink fails, too.
pub fn print_results<K: Sink>(
    alloc: Global,
    results: &mut K,
    plan: &Plan,
    thread: u16,
    trace: &[TraceItem],
) -> Result<(), PrintError>
    requires thread { thread < length (threads_of plan.now) }
    requires labels { All (IsLabelled (length (labels_of plan.now.elements))) trace.now }
    ensures { HasPrinted (header_text ++ trace_text plan.now thread trace.now)
        (K.written results.old) (K.written results.new) (K.faults results.old) (K.faults results.new) result }
{
    let Ok(mut pending) = Pending::new(alloc) else {
        return Err(PrintError::NoMemory);
    };
    put_header(alloc, &mut pending, results)?;
    put_trace(alloc, &mut pending, results, plan, thread, trace)?;
    finish(&mut pending, results)
}

/// Prints the header and the lines of all threads' traces, in thread order, as `print_results` does those of one.
pub fn print_all_results<K: Sink>(
    alloc: Global,
    results: &mut K,
    plan: &Plan,
    traces: &[Items<TraceItem>],
) -> Result<(), PrintError>
    requires threads { length traces.now ≡ length (threads_of plan.now) }
    requires labels { All (All (IsLabelled (length (labels_of plan.now.elements)))) traces.now }
    ensures { HasPrinted (header_text ++ traces_text plan.now traces.now)
        (K.written results.old) (K.written results.new) (K.faults results.old) (K.faults results.new) result }
{
    let Ok(mut pending) = Pending::new(alloc) else {
        return Err(PrintError::NoMemory);
    };
    put_header(alloc, &mut pending, results)?;
    put_traces(alloc, &mut pending, results, plan, traces)?;
    finish(&mut pending, results)
}

// Puts the header of the result lines.
fn put_header<K: Sink>(alloc: Global, pending: &mut Pending, sink: &mut K) -> Result<(), PrintError>
    ensures { HasPut header_text
        (way (K.written sink.old) (K.faults sink.old) pending.old)
        (way (K.written sink.new) (K.faults sink.new) pending.new) result }
{
    let mut line = Vec::new(alloc);
    if header_line(alloc, &mut line).is_err() {
        return Err(PrintError::NoMemory);
    }
    put_lines(pending, sink, &line)
}

// Puts the lines of all traces.
fn put_traces<K: Sink>(
    alloc: Global,
    pending: &mut Pending,
    sink: &mut K,
    plan: &Plan,
    traces: &[Items<TraceItem>],
) -> Result<(), PrintError>
    requires threads { length traces.now ≡ length (threads_of plan.now) }
    requires labels { All (All (IsLabelled (length (labels_of plan.now.elements)))) traces.now }
    ensures { HasPut (traces_text plan.now traces.now)
        (way (K.written sink.old) (K.faults sink.old) pending.old)
        (way (K.written sink.new) (K.faults sink.new) pending.new) result }
{
    for thread in 0..plan.threads() {
        let trace = traces[usize::from(thread)].as_slice();
        put_trace(alloc, pending, sink, plan, thread, trace)?;
    }
    Ok(())
}

// Puts the line of each sample.
fn put_trace<'a, K: Sink>(
    alloc: Global,
    pending: &mut Pending,
    sink: &mut K,
    plan: &'a Plan,
    thread: u16,
    trace: &'a [TraceItem],
) -> Result<(), PrintError>
    requires thread { thread < length (threads_of plan.now) }
    requires labels { All (IsLabelled (length (labels_of plan.now.elements))) trace.now }
    ensures { HasPut (trace_text plan.now thread trace.now)
        (way (K.written sink.old) (K.faults sink.old) pending.old)
        (way (K.written sink.new) (K.faults sink.new) pending.new) result }
{
    let Ok(mut lines) = ResultLines::new(alloc, plan, thread) else {
        return Err(PrintError::NoMemory);
    };
    let Ok(mut text) = Vec::with_capacity(alloc, TEXT_MEMORY) else {
        return Err(PrintError::NoMemory);
    };
    let mut rest = trace;
    'texts: while !rest.is_empty() {
        text.clear();
        let Ok(count) = result_lines(&mut lines, &mut text, rest, TEXT_ROOM) else {
            return Err(PrintError::NoMemory);
        };
        put_lines(pending, sink, &text)?;
        let (_, after) = rest.split_at(count);
        rest = after;
    }
    Ok(())
}

/// Appends the line of each sample of these items of a trace, one after another, until the text has `most` bytes or more,
/// and answers of how many items. So a long trace is printed in texts of about that size, each with the lines of the items
/// that the one before it left; where `most` is `usize::MAX` the lines of a whole trace are appended. Where memory runs out
/// at one of the lines, that is the error, and nothing is appended.
pub fn result_lines<'a>(
    lines: &mut ResultLines<'a>,
    out: &mut Vec<u8>,
    items: &'a [TraceItem],
    most: usize,
) -> M<usize>
    requires { All (IsLabelled (length (labels_of lines.old.plan.elements))) items.now }
    ensures ok { IfOk result (AddsLines lines.old items.now most out.old.items out.new.items) }
    ensures err { OnErr result (out.new.items ≡ out.old.items) }
    ensures same { lines.new ≡ lines.old }
{
    let length = out.len();
    let Ok(count) = add_lines(lines, out, items, most) else {
        out.truncate(length);
        return Err(NoMemory);
    };
    Ok(count)
}

// The same, but out of memory a part of the lines is there.
fn add_lines<'a>(
    lines: &mut ResultLines<'a>,
    out: &mut Vec<u8>,
    items: &'a [TraceItem],
    most: usize,
) -> M<usize>
    requires { All (IsLabelled (length (labels_of lines.old.plan.elements))) items.now }
    ensures ok { IfOk result (AddsLines lines.old items.now most out.old.items out.new.items) }
    ensures err { OnErr result (BeginsWith out.old.items out.new.items) }
    ensures same { lines.new ≡ lines.old }
{
    'items: for (count, item) in items.iter().enumerate() {
        if out.len() >= most {
            return Ok(count);
        }
        add_line(lines, out, item)?;
    }
    Ok(items.len())
}

// Appends the line of an item, if it is a sample.
fn add_line<'a>(lines: &mut ResultLines<'a>, out: &mut Vec<u8>, item: &'a TraceItem) -> M<()>
    requires { IsLabelled (length (labels_of lines.old.plan.elements)) item.now }
    ensures ok { OnOk result (out.new.items ≡ out.old.items ++ line_of lines.old.plan lines.old.thread item.now) }
    ensures err { OnErr result (out.new.items ≡ out.old.items) }
    ensures same { lines.new ≡ lines.old }
{
    match item {
        TraceItem::Sampled { sample, interval } => lines.add(out, sample, *interval),
        TraceItem::Paused(_)
        | TraceItem::Null { .. }
        | TraceItem::Entered { .. }
        | TraceItem::Left { .. }
        | TraceItem::Ended(_) => Ok(()),
    }
}
