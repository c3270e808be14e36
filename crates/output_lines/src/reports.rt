// The lines of an interval's report, and of the summary at the end.

ghost use Rattle.std.specs.Prelude.{◌≡◌, ◌++◌, ◌∷◌, [], codes, length, map, OnOk, OnErr};
ghost use Rattle.element_tree.specs.Names.{labels_of};
ghost use Rattle.interval_tables.specs.declared.row.Row.{Row};
ghost use Rattle.interval_tables.specs.Rows.{IsInBounds};
ghost use Rattle.interval_tables.specs.Totals.{total};
ghost use Rattle.output_lines.specs.Reports.{row_line, label_lines, interval_line, all_line, report_text, summary_text};

use crate::rows::push_row;
use element_tree::Plan;
use interval_tables::{Report, Row};
use itoa::Buffer;
use jm_base::M;
use std::alloc::Global;

#[tactic(auto, unfolding(crate::specs::Reports::report_text))]
/// Appends the report of an interval: what was counted over all labels, and then each label that has samples.
/// Times are in milliseconds. Out of memory appends nothing.
pub fn report_lines(alloc: Global, out: &mut Vec<u8>, plan: &Plan, report: &Report) -> M<()>
    requires rows { length report.now.rows ≡ length (labels_of plan.now.elements) }
    requires bounds { IsInBounds report.now.rows }
    ensures ok { OnOk result (out.new.items ≡ out.old.items ++ report_text plan.now report.now) }
    ensures err { OnErr result (out.new.items ≡ out.old.items) }
{
    let mut interval = Buffer::new();
    let mut text = Vec::new(alloc);
    interval_line(alloc, &mut text, report)?;
    row_lines(
        alloc,
        &mut text,
        interval.format(report.interval).as_bytes(),
        plan,
        report.rows.as_slice(),
    )?;
    out.extend_from_slice(&text)?;
    Ok(())
}

#[tactic(auto, unfolding(crate::specs::Reports::summary_text))]
/// Appends the summary of a run whose reports were merged into this one: each label that has samples,
/// and then all of them together. Times are in milliseconds. Out of memory appends nothing.
pub fn summary_lines(alloc: Global, out: &mut Vec<u8>, plan: &Plan, total: &Report) -> M<()>
    requires rows { length total.now.rows ≡ length (labels_of plan.now.elements) }
    requires bounds { IsInBounds total.now.rows }
    ensures ok { OnOk result (out.new.items ≡ out.old.items ++ summary_text plan.now total.now) }
    ensures err { OnErr result (out.new.items ≡ out.old.items) }
{
    let mut text = Vec::new(alloc);
    label_lines(alloc, &mut text, &[b"total"], plan, total.rows.as_slice())?;
    all_line(alloc, &mut text, total)?;
    out.extend_from_slice(&text)?;
    Ok(())
}

// The line of an interval.
fn interval_line(alloc: Global, out: &mut Vec<u8>, report: &Report) -> M<()>
    requires { IsInBounds report.now.rows }
    ensures ok { OnOk result (out.new.items ≡ out.old.items ++ interval_line report.now) }
    ensures err { OnErr result (out.new.items ≡ out.old.items) }
{
    let mut interval = Buffer::new();
    let mut count = Buffer::new();
    let mut errors = Buffer::new();
    push_row(
        alloc,
        out,
        &[
            b"interval",
            interval.format(report.interval).as_bytes(),
            count.format(report.count()).as_bytes(),
            errors.format(report.errors()).as_bytes(),
        ],
    )
}

// The lines of the labels in an interval.
fn row_lines<'a>(
    alloc: Global,
    out: &mut Vec<u8>,
    interval: &'a [u8],
    plan: &'a Plan,
    rows: &[Row],
) -> M<()>
    requires { length rows.now ≡ length (labels_of plan.now.elements) }
    ensures { OnOk result (out.new.items ≡ out.old.items ++ label_lines (codes "row" ∷ interval.now ∷ []) plan.now rows.now) }
{
    label_lines(alloc, out, &[b"row", interval], plan, rows)
}

// The line over all labels.
fn all_line(alloc: Global, out: &mut Vec<u8>, report: &Report) -> M<()>
    requires { IsInBounds report.now.rows }
    ensures ok { OnOk result (out.new.items ≡ out.old.items ++ all_line report.now.rows) }
    ensures err { OnErr result (out.new.items ≡ out.old.items) }
{
    let mut count = Buffer::new();
    let mut errors = Buffer::new();
    let mut elapsed = Buffer::new();
    let mut bytes = Buffer::new();
    let rows = report.rows.as_slice();
    push_row(
        alloc,
        out,
        &[
            b"all",
            count.format(report.count()).as_bytes(),
            errors.format(report.errors()).as_bytes(),
            elapsed.format(elapsed_in(rows)).as_bytes(),
            bytes.format(bytes_in(rows)).as_bytes(),
        ],
    )
}

// A line for each label that has samples, in the order of the labels. Each begins with these fields.
fn label_lines<'a>(
    alloc: Global,
    out: &mut Vec<u8>,
    prefix: &[&'a [u8]],
    plan: &'a Plan,
    rows: &[Row],
) -> M<()>
    requires { length rows.now ≡ length (labels_of plan.now.elements) }
    ensures { OnOk result (out.new.items ≡ out.old.items ++ label_lines (map (λ f. f.now) prefix.now) plan.now rows.now) }
{
    for label in 0..plan.labels() {
        let row = &rows[usize::from(label)];
        if row.count > 0 {
            let name = plan.label_text(label);
            row_line(alloc, out, prefix, name.bytes(), row)?;
        }
    }
    Ok(())
}

// The line of a label, which begins with these fields.
fn row_line<'a>(
    alloc: Global,
    out: &mut Vec<u8>,
    prefix: &[&'a [u8]],
    label: &'a [u8],
    row: &Row,
) -> M<()>
    ensures { OnOk result (out.new.items ≡ out.old.items ++ row_line (map (λ f. f.now) prefix.now) (label.now, row.now)) }
{
    let mut count = Buffer::new();
    let mut errors = Buffer::new();
    let mut elapsed = Buffer::new();
    let mut bytes = Buffer::new();
    let mut least = Buffer::new();
    let mut greatest = Buffer::new();
    let mut fields = Vec::new(alloc);
    fields.extend_from_slice(prefix)?;
    fields.extend_from_slice(&[
        label,
        count.format(row.count).as_bytes(),
        errors.format(row.errors).as_bytes(),
        elapsed.format(row.total).as_bytes(),
        bytes.format(row.bytes).as_bytes(),
        least.format(row.least).as_bytes(),
        greatest.format(row.greatest).as_bytes(),
    ])?;
    push_row(alloc, out, &fields)
}

// The elapsed times over all rows.
fn elapsed_in(rows: &[Row]) -> u64
    requires { IsInBounds rows.now }
    ensures { result ≡ total (λ (r : Row). r.total) rows.now }
{
    let mut elapsed = 0;
    for row in rows {
        elapsed += row.total;
    }
    elapsed
}

// The bytes over all rows.
fn bytes_in(rows: &[Row]) -> u64
    requires { IsInBounds rows.now }
    ensures { result ≡ total (λ (r : Row). r.bytes) rows.now }
{
    let mut bytes = 0;
    for row in rows {
        bytes += row.bytes;
    }
    bytes
}
