// Schedules of a recorder's core: steps of its writers and its reporter, and what became of each.

use crate::words::{parted, small, whole};
use anyhow::bail;
use interval_tables::Report;
use jm_base::{Entry, M};
use phaser_core::{Applied, Core, Event};
use std::alloc::{AllocError, Global};

// A core with this many labels and at most this many writers, each of which records at most 10 entries.
fn core_of(alloc: Global, labels: u16, writers: u16) -> anyhow::Result<Core> {
    if labels > 256 || writers < 1 || writers > 64 {
        bail!("no such core");
    }
    Ok(Core::new(alloc, labels, writers, 10)?)
}

// A sample of label 0 that succeeded, without bytes.
fn sample(elapsed: u32) -> Entry {
    Entry {
        label: 0,
        ok: true,
        elapsed,
        bytes: 0,
    }
}

// The step of the reporter that a word spells.
fn reporter_step(word: &str) -> Option<Event> {
    match word {
        "swap" => Some(Event::SwapActive),
        "clear" => Some(Event::ClearEnd),
        "flip" => Some(Event::Flip),
        "look" => Some(Event::Look),
        "take" => Some(Event::Take),
        "stop" => Some(Event::ReporterStop),
        "split" => Some(Event::Split),
        _ => None,
    }
}

// The step of a writer that a word spells, or of the reporter.
fn event_of(step: &str) -> Option<Event> {
    let (word, rest) = parted(step, ' ');
    let (writer, elapsed) = parted(rest, ' ');
    let writer = small(writer);
    match word {
        "enter" => Some(Event::Enter(writer)),
        "load" => Some(Event::Load(writer, sample(whole(elapsed)))),
        "add" => Some(Event::Add(writer)),
        "lower" => Some(Event::Lower(writer)),
        "raise" => Some(Event::Raise(writer)),
        "exit" => Some(Event::Exit(writer)),
        "look-stop" => Some(Event::LookStop(writer)),
        "raise-stop" => Some(Event::RaiseStop(writer)),
        "join" => Some(Event::Join(writer)),
        _ => reporter_step(word),
    }
}

fn apply(alloc: Global, core: &mut Core, event: Event) -> M<Applied> {
    core.apply(alloc, event)
}

// Does a step and writes what became of it, or writes what stands in a word: `word NUMBER`.
fn write_step(alloc: Global, core: &mut Core, step: &str, out: &mut String) -> anyhow::Result<()> {
    if let Some(number) = step.strip_prefix("word ") {
        write!(out, " {:?}", core.word(whole(number)))?;
        return Ok(());
    }
    let Some(event) = event_of(step) else {
        bail!("no step {step}");
    };
    let applied = apply(alloc, core, event)?;
    write!(out, " {applied:?}")?;
    Ok(())
}

fn write_reports(reports: &[Report], out: &mut String) -> Result<(), AllocError> {
    for report in reports {
        let interval = report.interval;
        write!(out, "= {interval}: {:?}\n", report.rows.as_slice())?;
    }
    Ok(())
}

// Writes the closed reports, and with them the open one where all is done.
fn write_closed(alloc: Global, core: Core, out: &mut String) -> M<()> {
    if core.is_done() {
        let reports = core.finish(alloc)?;
        write_reports(&reports, out)?;
    } else {
        write_reports(core.closed(), out)?;
    }
    Ok(())
}

/// The labels and the writers of a core, and steps with `, ` between them: `enter WRITER`, `load WRITER ELAPSED` and so on.
pub fn schedule_case(alloc: Global, given: &str, out: &mut String) -> anyhow::Result<()> {
    let (labels, rest) = parted(given, ' ');
    let (writers, steps) = parted(rest, ' ');
    let mut core = core_of(alloc, small(labels), small(writers))?;
    out.push_str("=")?;
    for step in steps.split(", ") {
        write_step(alloc, &mut core, step, out)?;
    }
    out.push_str("\n")?;
    write_closed(alloc, core, out)?;
    Ok(())
}
