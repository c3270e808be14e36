// What result lines of a thread have between their elapsed time and their bytes.

ghost use Rattle.std.specs.Prelude.{map, ◌∷◌, [], ◌≡◌, ◌<◌, ◌-◌, ◌++◌, length, take, is_some, option_map, true, IfOk, IfSome, OnOk};
ghost use Rattle.element_tree.specs.Tree.{threads_of};
ghost use Rattle.element_tree.specs.Names.{labels_of};
ghost use Rattle.output_lines.specs.Lines.{csv_line};
ghost use Rattle.output_lines.specs.Bulk.{middle_fields, SaysTheSame, AppendsMiddle};

use crate::rows::Rows;
use crate::texts::Middle;
use element_tree::Plan;
use itoa::Buffer;
use jm_base::{M, Sample, Text};
use std::alloc::Global;
use std::marker::Model;

// Rows are kept up to this many bytes, and the one that goes past them.
const ROWS_ROOM: usize = 4096;

/// The fields from the label to the failure message of a thread's lines, one after another. They are written anew only for a
/// sample that says something else there than the one before it.
///
/// Contracts see the plan and the thread's number.
#[derive(Drop)]
pub(crate) struct MiddleRows<'a> {
    alloc: Global,
    plan: &'a Plan,
    thread: u16,
    name: Text,
    // Rows of these fields.
    rows: Rows,
    // The last of them, without its line feed.
    middle: Vec<u8>,
    // The sample of which it tells.
    told: Option<&'a Sample>,
}

impl<'a> Model for MiddleRows<'a> {
    ghost use Rattle.std.specs.Prelude.{◌≡◌, is_some, true, IfSome};
    ghost use Rattle.element_tree.specs.Tree.{thread_name_of};
    ghost use Rattle.output_lines.specs.Bulk.{LinesOf, IsMiddle};
    ghost use Rattle.std.specs.Coded.{codes};
    ghost use Rattle.template_text.specs.Code.{pieces_code};

    ghost Value = { LinesOf };

    ghost coded = { Prim.hlevel (codes, pieces_code) };

    ghost view = { λ r. record { plan = r.plan.now; thread = r.thread } };

    ghost invariant = { λ r. (r.name ≡ thread_name_of r.plan.now r.thread) × (is_some r.rows ≡ true)
        × IfSome r.told (λ s. IsMiddle r.plan.now r.thread s.now r.middle.items) };
}

impl<'a> MiddleRows<'a> {
    /// For the lines of the thread of this number.
    pub(crate) fn new(alloc: Global, plan: &'a Plan, thread: u16) -> M<MiddleRows<'a>>
        requires { thread < length (threads_of plan.now) }
        ensures { IfOk result (λ lines. lines ≡ record { plan = plan.now; thread = thread }) }
    {
        Ok(MiddleRows {
            alloc,
            plan,
            thread,
            name: plan.thread_name(alloc, thread)?,
            rows: Rows::new(alloc),
            middle: Vec::new(alloc),
            told: None,
        })
    }

    /// Appends the fields of a sample, without the end of their row. Out of memory nothing is appended.
    pub(crate) fn append(&mut self, out: &mut Vec<u8>, sample: &'a Sample) -> M<()>
        requires { sample.now.label < length (labels_of self.old.plan.elements) }
        ensures ok { OnOk result (AppendsMiddle self.old.plan self.old.thread sample.now out.old.items out.new.items) }
        ensures same { self.new ≡ self.old }
    {
        if !tells_of(self.told, sample) {
            self.told = None;
            let label = self.plan.label_text(sample.label);
            write_middle(
                self.alloc,
                &mut self.rows,
                &mut self.middle,
                label.bytes(),
                self.name.bytes(),
                sample,
            )?;
            self.told = Some(sample);
        }
        out.extend_from_slice(&self.middle)?;
        Ok(())
    }
}

/// Whether the row of one sample is that of another.
pub(crate) fn says_the_same(a: &Sample, b: &Sample) -> bool
    ensures { result ≡ true → SaysTheSame a.now b.now }
{
    a.label == b.label
        && a.code == b.code
        && a.ok == b.ok
        && a.message.bytes() == b.message.bytes()
        && a.failure.bytes() == b.failure.bytes()
}

fn tells_of(told: Option<&Sample>, sample: &Sample) -> bool
    ensures same { result ≡ true → IfSome told.entry (λ s. SaysTheSame s.now sample.now) }
    ensures some { result ≡ true → is_some told.entry ≡ true }
{
    match told {
        Some(told) => says_the_same(told, sample),
        None => false,
    }
}

// Writes the fields of a sample from the label to the failure message, without the end of their row.
fn write_middle<'a>(
    alloc: Global,
    rows: &mut Rows,
    middle: &mut Vec<u8>,
    label: &'a [u8],
    name: &'a [u8],
    sample: &'a Sample,
) -> M<()>
    requires { is_some rows.old ≡ true }
    ensures row { OnOk result (middle.new.items ++ 10 ∷ [] ≡ csv_line (middle_fields label.now name.now sample.now)) }
    ensures kept { is_some rows.new ≡ true }
{
    let mut code = Buffer::new();
    let texts = Middle::of(label, name, code.format(sample.code).as_bytes(), sample);
    keep_few(alloc, rows);
    let start = rows.text().len();
    push_or_renew(alloc, rows, &texts.fields())?;
    write_row(&rows.text()[start..], middle)?;
    Ok(())
}

// Gives rows up that have become many.
fn keep_few(alloc: Global, rows: &mut Rows)
    requires { is_some rows.old ≡ true }
    ensures { is_some rows.new ≡ true }
{
    if rows.text().len() > ROWS_ROOM {
        *rows = Rows::new(alloc);
    }
}

// Adds a row. Out of memory there are no rows.
fn push_or_renew(alloc: Global, rows: &mut Rows, fields: &[&[u8]]) -> M<()>
    requires { is_some rows.old ≡ true }
    ensures ok { OnOk result (rows.new ≡ option_map (λ text. text ++ csv_line (map (λ f. f.now) fields.now)) rows.old) }
    ensures kept { is_some rows.new ≡ true }
{
    let pushed = rows.push(fields);
    if pushed.is_err() {
        *rows = Rows::new(alloc);
    }
    pushed
}

// Writes a row without its end.
fn write_row(row: &[u8], text: &mut Vec<u8>) -> M<()>
    requires { 0 < length row.now }
    ensures { OnOk result (text.new.items ≡ take (length row.now - 1) row.now) }
{
    text.clear();
    text.extend_from_slice(&row[..row.len() - 1])?;
    Ok(())
}
