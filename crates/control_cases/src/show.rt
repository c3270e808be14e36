// How samples, answers and calls are printed.

use jm_base::{Heard, Outcome, Request, Sample, Text};
use std::alloc::{AllocError, Global};
use std::fmt;
use thread_machine::TraceItem;

/// A text as it is, where it is UTF-8.
pub fn plain(text: &Text) -> &str {
    match std::str::from_utf8(text.bytes()) {
        Ok(text) => text,
        Err(_) => "(not UTF-8)",
    }
}

/// What came of asking.
#[derive(Clone, Copy)]
pub struct Came<'a>(pub &'a Outcome);

impl fmt::Display for Came<'_> {
    fn fmt<W: fmt::Write>(&self, f: &mut fmt::Formatter<W>) -> fmt::Result {
        match self.0 {
            Outcome::Reply(reply) => write!(
                f,
                "reply {} message '{}' headers '{}' body '{}'",
                reply.code,
                plain(&reply.message),
                plain(&reply.headers),
                plain(&reply.body)
            ),
            Outcome::Null => write!(f, "null"),
            Outcome::Fault => write!(f, "fault"),
            Outcome::Broken(wire) => write!(f, "broken {wire:?}"),
        }
    }
}

/// What was asked.
#[derive(Clone, Copy)]
struct Asked<'a>(&'a Request);

impl fmt::Display for Asked<'_> {
    fn fmt<W: fmt::Write>(&self, f: &mut fmt::Formatter<W>) -> fmt::Result {
        match self.0 {
            Request::Script(text) => write!(f, "'{}'", plain(text)),
            Request::Http { host, port, bytes } => {
                write!(f, "'{}' at '{}' port {port}", plain(bytes), plain(host))
            }
        }
    }
}

/// A call of an outside, with what it was given and what it answered.
pub fn write_heard(heard: &Heard, out: &mut String) -> Result<(), AllocError> {
    match heard {
        Heard::Reading(clock) => write!(out, "told now: {clock}\n"),
        Heard::Paused(ms) => write!(out, "told pause {ms}\n"),
        Heard::Asked {
            sampler,
            request,
            outcome,
        } => write!(
            out,
            "told ask {sampler} {}: {}\n",
            Asked(request),
            Came(outcome)
        ),
    }
}

// What came of a sample.
fn write_sample(sample: &Sample, interval: u64, out: &mut String) -> Result<(), AllocError> {
    let verdict = if sample.ok { "ok" } else { "failed" };
    write!(
        out,
        "sample at {} for {} label {} code {} message '{}' {verdict} failure '{}' bytes {} listeners {} interval {interval}\n",
        sample.stamp,
        sample.elapsed,
        sample.label,
        sample.code,
        plain(&sample.message),
        plain(&sample.failure),
        sample.bytes,
        sample.listeners
    )
}

/// One item of a thread's trace.
fn write_item(item: &TraceItem, out: &mut String) -> Result<(), AllocError> {
    match item {
        TraceItem::Paused(ms) => write!(out, "paused {ms}\n"),
        TraceItem::Sampled { sample, interval } => write_sample(sample, *interval, out),
        TraceItem::Null { sampler } => write!(out, "null {sampler}\n"),
        TraceItem::Entered { lock, place } => write!(out, "entered {lock} as {place}\n"),
        TraceItem::Left { lock } => write!(out, "left {lock}\n"),
        TraceItem::Ended(end) => write!(out, "ended {end:?}\n"),
    }
}

/// The items of a trace, a line each.
pub fn write_trace(items: &[TraceItem], out: &mut String) -> Result<(), AllocError> {
    for item in items {
        write_item(item, out)?;
    }
    Ok(())
}

// Equal lines in a row, once and with their number.
fn print_row(rt: &impl Print, line: &str, count: u32) -> std::io::Result<()> {
    match count {
        0 => Ok(()),
        1 => println!(rt; "{line}"),
        _ => println!(rt; "{count} times: {line}"),
    }
}

/// Prints lines. Equal ones in a row are printed once, with their number.
pub fn print_lines(rt: &impl Print, alloc: Global, lines: &str) -> anyhow::Result<()> {
    let mut last = String::new(alloc);
    let mut count = 0u32;
    for line in lines.split_terminator('\n') {
        if line != last.as_str() {
            print_row(rt, last.as_str(), count)?;
            last.clear();
            last.push_str(line)?;
            count = 0;
        }
        count = count.saturating_add(1);
    }
    print_row(rt, last.as_str(), count)?;
    Ok(())
}
