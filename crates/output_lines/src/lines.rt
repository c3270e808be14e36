// The header, result lines and end lines.

ghost use Rattle.std.specs.Prelude.{map, ◌∷◌, [], ◌≡◌, ◌<◌, ◌++◌, length, Some, None, is_some, option_map, true, IfOk, OnOk, OnErr};
ghost use Rattle.element_tree.specs.Tree.{threads_of, thread_name_of};
ghost use Rattle.element_tree.specs.Names.{labels_of};
ghost use Rattle.output_lines.specs.Lines.{csv_line, sample_fields, header_text, result_text, end_text, end_name};

use crate::rows::push_row;
use crate::texts::{Middle, SampleTexts};
use element_tree::Plan;
use itoa::Buffer;
use jm_base::{End, M, Sample};
use std::alloc::Global;

#[tactic(auto, unfolding(crate::specs::Lines::header_text))]
/// Appends the header of the result lines. Out of memory appends nothing.
pub fn header_line(alloc: Global, out: &mut Vec<u8>) -> M<()>
    ensures ok { OnOk result (out.new.items ≡ out.old.items ++ header_text) }
    ensures err { OnErr result (out.new.items ≡ out.old.items) }
{
    push_row(
        alloc,
        out,
        &[
            b"timeStamp",
            b"elapsed",
            b"label",
            b"responseCode",
            b"responseMessage",
            b"threadName",
            b"success",
            b"failureMessage",
            b"bytes",
            b"interval",
        ],
    )
}

#[tactic(auto, unfolding(crate::specs::Lines::result_text))]
/// Appends the line of a thread's sample, which was counted in this interval. Out of memory appends nothing.
pub fn result_line(
    alloc: Global,
    out: &mut Vec<u8>,
    plan: &Plan,
    thread: u16,
    sample: &Sample,
    interval: u64,
) -> M<()>
    requires thread { thread < length (threads_of plan.now) }
    requires label { sample.now.label < length (labels_of plan.now.elements) }
    ensures ok { OnOk result (out.new.items ≡ out.old.items ++ result_text plan.now thread sample.now interval) }
    ensures err { OnErr result (out.new.items ≡ out.old.items) }
{
    let name = plan.thread_name(alloc, thread)?;
    let label = plan.label_text(sample.label);
    sample_row(alloc, out, label.bytes(), name.bytes(), sample, interval)
}

// The row of a sample under this label, of a thread of this name.
fn sample_row<'a>(
    alloc: Global,
    out: &mut Vec<u8>,
    label: &'a [u8],
    name: &'a [u8],
    sample: &'a Sample,
    interval: u64,
) -> M<()>
    ensures ok { OnOk result (out.new.items ≡ out.old.items ++ csv_line (sample_fields label.now name.now sample.now interval)) }
    ensures err { OnErr result (out.new.items ≡ out.old.items) }
{
    let mut stamp = Buffer::new();
    let mut elapsed = Buffer::new();
    let mut code = Buffer::new();
    let mut bytes = Buffer::new();
    let mut number = Buffer::new();
    let texts = SampleTexts {
        stamp: stamp.format(sample.stamp).as_bytes(),
        elapsed: elapsed.format(sample.elapsed).as_bytes(),
        middle: Middle::of(label, name, code.format(sample.code).as_bytes(), sample),
        bytes: bytes.format(sample.bytes).as_bytes(),
        interval: number.format(interval).as_bytes(),
    };
    push_row(alloc, out, &texts.fields())
}

#[tactic(auto, unfolding(crate::specs::Lines::end_text))]
/// Appends the line that says how a thread ended. Out of memory appends nothing.
pub fn end_line(alloc: Global, out: &mut Vec<u8>, plan: &Plan, thread: u16, end: End) -> M<()>
    requires { thread < length (threads_of plan.now) }
    ensures ok { OnOk result (out.new.items ≡ out.old.items ++ end_text plan.now thread end) }
    ensures err { OnErr result (out.new.items ≡ out.old.items) }
{
    let name = plan.thread_name(alloc, thread)?;
    push_row(alloc, out, &[b"end", name.bytes(), end_name(end)])
}

fn end_name(end: End) -> &'static [u8]
    ensures { result.now ≡ end_name end }
{
    match end {
        End::Completed => b"Completed",
        End::StopThread => b"StopThread",
        End::StopTest => b"StopTest",
        End::Stopped => b"Stopped",
        End::SampleLimit => b"SampleLimit",
        End::RoundLimit => b"RoundLimit",
        End::ValueLimit => b"ValueLimit",
        End::NoMemory => b"NoMemory",
    }
}
