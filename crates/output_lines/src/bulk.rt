// Result lines of a thread that are formed one after another.

ghost use Rattle.std.specs.Prelude.{◌∷◌, [], ◌≡◌, ◌<◌, ◌^◌, ◌++◌, length, is_some, true, IfOk, IfSome, OnOk, OnErr};
ghost use Rattle.std.specs.Fmt.{decimal};
ghost use Rattle.csv.specs.Writing.{comma};
ghost use Rattle.element_tree.specs.Tree.{threads_of};
ghost use Rattle.element_tree.specs.Names.{labels_of};
ghost use Rattle.output_lines.specs.Lines.{result_text};
ghost use Rattle.output_lines.specs.Bulk.{EndsTheSame, IsTail, BeginsWith};

use crate::middle_rows::{MiddleRows, says_the_same};
use crate::stamp::{StampField, push_field};
use element_tree::Plan;
use itoa::Buffer;
use jm_base::{M, NoMemory, Sample};
use std::alloc::Global;
use std::marker::Model;

/// What forms a thread's result lines one after another, in less time than `result_line` takes for each: what a line says after its
/// stamp is formed anew only for a sample that says something else there than the one before it, and a stamp twice at most.
///
/// Contracts see the plan and the thread's number.
#[derive(Drop)]
pub struct ResultLines<'a> {
    stamp: StampField,
    middles: MiddleRows<'a>,
    // The last line after its stamp and the comma.
    tail: Vec<u8>,
    // The sample of which it tells, and the interval.
    last: Option<(&'a Sample, u64)>,
}

impl<'a> Model for ResultLines<'a> {
    ghost use Rattle.std.specs.Prelude.{IfSome};
    ghost use Rattle.output_lines.specs.Bulk.{LinesOf, IsTail};
    ghost use Rattle.std.specs.Coded.{codes};
    ghost use Rattle.template_text.specs.Code.{pieces_code};

    ghost Value = { LinesOf };

    ghost coded = { Prim.hlevel (codes, pieces_code) };

    ghost view = { λ r. r.middles };

    ghost invariant = { λ r. IfSome r.last (λ l. IsTail r.middles.plan r.middles.thread l.0.now l.1 r.tail.items) };
}

impl<'a> ResultLines<'a> {
    /// For the lines of the thread of this number.
    pub fn new(alloc: Global, plan: &'a Plan, thread: u16) -> M<ResultLines<'a>>
        requires { thread < length (threads_of plan.now) }
        ensures { IfOk result (λ lines. lines ≡ record { plan = plan.now; thread = thread }) }
    {
        Ok(ResultLines {
            stamp: StampField::new(alloc),
            middles: MiddleRows::new(alloc, plan, thread)?,
            tail: Vec::new(alloc),
            last: None,
        })
    }

    /// Appends the line of a sample, which was counted in this interval. Out of memory appends nothing.
    pub fn add(&mut self, out: &mut Vec<u8>, sample: &'a Sample, interval: u64) -> M<()>
        requires { sample.now.label < length (labels_of self.old.plan.elements) }
        ensures ok { OnOk result (out.new.items ≡ out.old.items ++ result_text self.old.plan self.old.thread sample.now interval) }
        ensures err { OnErr result (out.new.items ≡ out.old.items) }
        ensures same { self.new ≡ self.old }
    {
        if !ends_the_same(self.last, sample, interval) {
            self.last = None;
            write_tail(&mut self.tail, &mut self.middles, sample, interval)?;
            self.last = Some((sample, interval));
        }
        append_line(out, &mut self.stamp, sample.stamp, &self.tail)?;
        Ok(())
    }
}

// Whether the line of a sample ends as the last one, after its stamp.
fn ends_the_same(last: Option<(&Sample, u64)>, sample: &Sample, interval: u64) -> bool
    ensures same { result ≡ true → IfSome last.entry (λ l. EndsTheSame l.0.now sample.now l.1 interval) }
    ensures some { result ≡ true → is_some last.entry ≡ true }
{
    match last {
        Some((told, number)) => {
            number == interval
                && told.elapsed == sample.elapsed
                && told.bytes == sample.bytes
                && says_the_same(told, sample)
        }
        None => false,
    }
}

// Writes the line of a sample after its stamp and the comma.
fn write_tail<'a>(
    tail: &mut Vec<u8>,
    middles: &mut MiddleRows<'a>,
    sample: &'a Sample,
    interval: u64,
) -> M<()>
    requires { sample.now.label < length (labels_of middles.old.plan.elements) }
    ensures ok { OnOk result (IsTail middles.old.plan middles.old.thread sample.now interval tail.new.items) }
    ensures same { middles.new ≡ middles.old }
{
    let mut digits = Buffer::new();
    tail.clear();
    push_field(tail, digits.format(sample.elapsed).as_bytes())?;
    middles.append(tail, sample)?;
    tail.push(b',')?;
    push_field(tail, digits.format(sample.bytes).as_bytes())?;
    tail.extend_from_slice(digits.format(interval).as_bytes())?;
    tail.push(b'\n')?;
    Ok(())
}

// Appends a line, of which the tail is what stands after its stamp and the comma. Out of memory appends nothing.
fn append_line(out: &mut Vec<u8>, field: &mut StampField, stamp: u64, tail: &[u8]) -> M<()>
    ensures ok { OnOk result (out.new.items ≡ out.old.items ++ ((decimal stamp ++ comma ∷ []) ++ tail.now)) }
    ensures err { OnErr result (out.new.items ≡ out.old.items) }
    ensures number { stamp < 2 ^ 64 }
{
    let length = out.len();
    if push_line(out, field, stamp, tail).is_err() {
        out.truncate(length);
        return Err(NoMemory);
    }
    Ok(())
}

// The same, but out of memory a part of the line is there.
fn push_line(out: &mut Vec<u8>, field: &mut StampField, stamp: u64, tail: &[u8]) -> M<()>
    ensures ok { OnOk result (out.new.items ≡ out.old.items ++ ((decimal stamp ++ comma ∷ []) ++ tail.now)) }
    ensures err { OnErr result (BeginsWith out.old.items out.new.items) }
    ensures number { stamp < 2 ^ 64 }
{
    field.append(out, stamp)?;
    out.extend_from_slice(tail)?;
    Ok(())
}
