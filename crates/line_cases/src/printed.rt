// The printed lines.

ghost use Rattle.std.specs.Prelude.{◌≡◌, ◌<◌, length, IfOk};
ghost use Rattle.element_tree.specs.Names.{labels_of};
ghost use Rattle.element_tree.specs.Tree.{threads_of};
ghost use Rattle.line_cases.specs.Counted.{IsCount};

use crate::counted::report_in;
use crate::words::{long, parted, plain, small, whole};
use anyhow::bail;
use element_tree::Plan;
use interval_tables::Report;
use jm_base::{End, M, Sample, Text};
use output_lines::{ResultLines, end_line, header_line, report_lines, result_line, summary_lines};
use std::alloc::Global;

fn header(alloc: Global) -> M<Vec<u8>> {
    let mut out = Vec::new(alloc);
    header_line(alloc, &mut out)?;
    Ok(out)
}

/// The header.
pub fn header_case(alloc: Global, out: &mut String) -> M<()> {
    let line = header(alloc)?;
    out.push_str(plain(&line))?;
    Ok(())
}

// The sample of the fields of a result line.
fn sample(alloc: Global, fields: &[&str]) -> anyhow::Result<Sample> {
    let [
        stamp,
        elapsed,
        label,
        code,
        message,
        success,
        failure,
        bytes,
    ] = fields
    else {
        bail!("no sample");
    };
    Ok(Sample {
        stamp: long(stamp),
        elapsed: whole(elapsed),
        label: small(label),
        code: small(code),
        message: Text::new(alloc, message.as_bytes())?,
        ok: *success == "true",
        failure: Text::new(alloc, failure.as_bytes())?,
        bytes: whole(bytes),
        listeners: 0,
    })
}

// What a result line says: a sample of a thread, in an interval.
#[derive(Drop)]
struct Line {
    thread: u16,
    sample: Sample,
    interval: u64,
}

// The thread, the interval, and then, between `|`, the time stamp, the elapsed time, the label's number, the code, the message,
// the success, the failure message and the bytes. The plan has both the thread and the label.
fn line_in(alloc: Global, plan: &Plan, given: &str) -> anyhow::Result<Line>
    ensures thread { IfOk result (λ l. l.thread < length (threads_of plan.now)) }
    ensures label { IfOk result (λ l. l.sample.label < length (labels_of plan.now.elements)) }
{
    let fields: Vec<&str> = given.split('|').collect(alloc)?;
    let [thread, interval, rest @ ..] = fields.as_slice() else {
        bail!("no sample");
    };
    let thread = small(thread);
    let sample = sample(alloc, rest)?;
    if thread >= plan.threads() || sample.label >= plan.labels() {
        bail!("no such thread or label");
    }
    Ok(Line {
        thread,
        sample,
        interval: long(interval),
    })
}

fn put_line(alloc: Global, out: &mut Vec<u8>, plan: &Plan, line: &Line) -> M<()>
    requires thread { line.now.thread < length (threads_of plan.now) }
    requires label { line.now.sample.label < length (labels_of plan.now.elements) }
{
    result_line(alloc, out, plan, line.thread, &line.sample, line.interval)
}

/// The line of a sample.
pub fn result_case(
    alloc: Global,
    plan: &Plan,
    given: &str,
    out: &mut String,
) -> anyhow::Result<()> {
    let line = line_in(alloc, plan, given)?;
    let mut text = Vec::new(alloc);
    put_line(alloc, &mut text, plan, &line)?;
    out.push_str(plain(&text))?;
    Ok(())
}

// Two lines of one thread.
#[derive(Drop)]
struct Pair {
    even: Line,
    odd: Line,
}

// A line, and one of the next or the previous stamp and interval.
fn pair_in(alloc: Global, plan: &Plan, given: &str) -> anyhow::Result<Pair>
    ensures thread { IfOk result (λ p. p.even.thread < length (threads_of plan.now)) }
    ensures even { IfOk result (λ p. p.even.sample.label < length (labels_of plan.now.elements)) }
    ensures odd { IfOk result (λ p. p.odd.sample.label < length (labels_of plan.now.elements)) }
{
    let even = line_in(alloc, plan, given)?;
    let mut odd = line_in(alloc, plan, given)?;
    odd.sample.stamp ^= 1;
    odd.interval ^= 1;
    Ok(Pair { even, odd })
}

// The two lines in turn, 64 in one text, so that each is formed anew.
fn many_lines<'a>(alloc: Global, plan: &'a Plan, pair: &'a Pair) -> M<Vec<u8>>
    requires thread { pair.now.even.thread < length (threads_of plan.now) }
    requires even { pair.now.even.sample.label < length (labels_of plan.now.elements) }
    requires odd { pair.now.odd.sample.label < length (labels_of plan.now.elements) }
{
    let mut lines = ResultLines::new(alloc, plan, pair.even.thread)?;
    let mut text = Vec::new(alloc);
    for _ in 0..32u32 {
        lines.add(&mut text, &pair.even.sample, pair.even.interval)?;
        lines.add(&mut text, &pair.odd.sample, pair.odd.interval)?;
    }
    Ok(text)
}

// How many bytes that many texts of 64 lines have together.
fn write_often(alloc: Global, plan: &Plan, pair: &Pair, texts: u32) -> M<u64>
    requires thread { pair.now.even.thread < length (threads_of plan.now) }
    requires even { pair.now.even.sample.label < length (labels_of plan.now.elements) }
    requires odd { pair.now.odd.sample.label < length (labels_of plan.now.elements) }
{
    let mut bytes = 0u64;
    for _ in 0..texts {
        let text = many_lines(alloc, plan, pair)?;
        bytes = bytes.wrapping_add(text.len() as u64);
    }
    Ok(bytes)
}

/// A line and one of another stamp and interval in turn, that many times together, as far as that is whole texts of 64 lines, so
/// that a script can time them: how many bytes they have together.
pub fn times_case(alloc: Global, plan: &Plan, given: &str, out: &mut String) -> anyhow::Result<()> {
    let (count, rest) = parted(given, ' ');
    let pair = pair_in(alloc, plan, rest)?;
    let bytes = write_often(alloc, plan, &pair, whole(count) / 64)?;
    write!(out, "= {bytes} bytes\n")?;
    Ok(())
}

fn end_of(name: &str) -> anyhow::Result<End> {
    match name {
        "Completed" => Ok(End::Completed),
        "StopThread" => Ok(End::StopThread),
        "StopTest" => Ok(End::StopTest),
        "Stopped" => Ok(End::Stopped),
        "SampleLimit" => Ok(End::SampleLimit),
        "RoundLimit" => Ok(End::RoundLimit),
        "ValueLimit" => Ok(End::ValueLimit),
        "NoMemory" => Ok(End::NoMemory),
        _ => bail!("no end {name}"),
    }
}

fn end(alloc: Global, plan: &Plan, thread: u16, end: End) -> M<Vec<u8>>
    requires { thread < length (threads_of plan.now) }
{
    let mut out = Vec::new(alloc);
    end_line(alloc, &mut out, plan, thread, end)?;
    Ok(out)
}

/// The line that says how a thread ended: the thread, and the end.
pub fn end_case(alloc: Global, plan: &Plan, given: &str, out: &mut String) -> anyhow::Result<()> {
    let (thread, name) = parted(given, ' ');
    let thread = small(thread);
    let how = end_of(name)?;
    if thread >= plan.threads() {
        bail!("no such thread");
    }
    let line = end(alloc, plan, thread, how)?;
    out.push_str(plain(&line))?;
    Ok(())
}

// The lines of a report, and after them those of the same as a summary.
fn lines_of(alloc: Global, plan: &Plan, report: &Report) -> M<Vec<u8>>
    requires { IsCount (length (labels_of plan.now.elements)) report.now.rows 1000 }
{
    let mut lines = Vec::new(alloc);
    let mut summary = Vec::new(alloc);
    report_lines(alloc, &mut lines, plan, report)?;
    summary_lines(alloc, &mut summary, plan, report)?;
    lines.extend_from_slice(&summary)?;
    Ok(lines)
}

/// The report of the samples of an interval, and the summary of them: the interval, and the samples.
pub fn report_case(
    alloc: Global,
    plan: &Plan,
    given: &str,
    out: &mut String,
) -> anyhow::Result<()> {
    let (interval, rest) = parted(given, ' ');
    let mut report = report_in(alloc, plan.labels(), rest)?;
    report.interval = long(interval);
    let lines = lines_of(alloc, plan, &report)?;
    out.push_str(plain(&lines))?;
    Ok(())
}
