// Rows of counters.

ghost use Rattle.std.specs.Prelude.{◌≡◌, ◌<◌, ◌≤◌, length, IfOk};
ghost use Rattle.interval_tables.specs.Rows.{IsInBounds, rows_with};
ghost use Rattle.line_cases.specs.Counted.{IsCount};

use crate::words::{numbers, parted, small};
use anyhow::bail;
use interval_tables::Report;
use jm_base::Entry;
use std::alloc::{AllocError, Global};

// The sample of a word: `ok:LABEL:ELAPSED:BYTES`, or `failed` in the place of `ok`.
fn sample(alloc: Global, word: &str) -> anyhow::Result<Entry> {
    let (kind, rest) = parted(word, ':');
    let given = numbers(alloc, rest, ':')?;
    let [label, elapsed, bytes] = given.as_slice() else {
        bail!("no sample {word}");
    };
    Ok(Entry {
        label: u16::try_from(*label)?,
        ok: kind == "ok",
        elapsed: *elapsed,
        bytes: *bytes,
    })
}

// The samples between spaces, of which an empty text has none.
fn samples(alloc: Global, given: &str) -> anyhow::Result<Vec<Entry>> {
    let mut all = Vec::new(alloc);
    for word in given.split(' ') {
        if !word.is_empty() {
            all.push(sample(alloc, word)?)?;
        }
    }
    Ok(all)
}

// Counts one more sample, whose time and bytes have 32 bits.
fn count(report: &mut Report, entry: Entry)
    requires label { entry.label < length report.old.rows }
    requires bounds { IsInBounds report.old.rows }
    requires room { entry.elapsed < 4294967296 → entry.bytes < 4294967296 → IsInBounds (rows_with report.old.rows entry) }
    ensures rows { report.new.rows ≡ rows_with report.old.rows entry }
    ensures elapsed { entry.elapsed < 4294967296 }
    ensures bytes { entry.bytes < 4294967296 }
{
    report.add(entry);
}

// The report of these samples.
fn report_of(alloc: Global, labels: u16, samples: &[Entry]) -> anyhow::Result<Report>
    requires { length samples.now ≤ 1000 }
    ensures { IfOk result (λ report. IsCount labels report.rows 1000) }
{
    let mut report = Report::vacant(alloc, labels)?;
    'samples: for entry in samples {
        if entry.label >= labels {
            bail!("no label {}", entry.label);
        }
        count(&mut report, *entry);
    }
    Ok(report)
}

/// The report of the samples that a text spells, with a row for each label.
pub fn report_in(alloc: Global, labels: u16, given: &str) -> anyhow::Result<Report>
    ensures { IfOk result (λ report. IsCount labels report.rows 1000) }
{
    let samples = samples(alloc, given)?;
    if samples.len() > 1000 {
        bail!("too many samples");
    }
    report_of(alloc, labels, &samples)
}

// Writes what is counted over all labels, and each row.
fn write_report(report: &Report, out: &mut String) -> Result<(), AllocError>
    requires { IsInBounds report.now.rows }
{
    write!(
        out,
        "= interval {}: {} samples, {} failed\n",
        report.interval,
        report.count(),
        report.errors()
    )?;
    for row in report.rows.as_slice() {
        write!(out, "= {row:?}\n")?;
    }
    Ok(())
}

/// The rows of samples: how many labels there are, and the samples.
pub fn rows_case(alloc: Global, given: &str, out: &mut String) -> anyhow::Result<()> {
    let (labels, rest) = parted(given, ' ');
    let report = report_in(alloc, small(labels), rest)?;
    write_report(&report, out)?;
    Ok(())
}

// Two reports as one. What the call promises is left out here but for the bounds.
fn merge(first: &mut Report, second: &Report, labels: u16)
    requires { IsCount labels first.old.rows 1000 × IsCount labels second.now.rows 1000 }
    ensures { IsInBounds first.new.rows }
{
    first.merge(second);
}

/// Two reports as one: how many labels there are, the samples of the first, `and`, and those of the second.
pub fn merge_case(alloc: Global, given: &str, out: &mut String) -> anyhow::Result<()> {
    let (labels, rest) = parted(given, ' ');
    let (first, second) = rest.split_once("and").unwrap_or((rest, ""));
    let labels = small(labels);
    let mut report = report_in(alloc, labels, first)?;
    let other = report_in(alloc, labels, second)?;
    merge(&mut report, &other, labels);
    write_report(&report, out)?;
    Ok(())
}
