// The writers of a run, all of them before the first worker starts.

ghost use Rattle.std.specs.Prelude.{◌≡◌, ◌<◌, ◌≤◌, ℕ, length, IfOk, slice_index_or};
ghost use Rattle.phaser_core.specs.Views.{writer_zero};
ghost use Rattle.phaser_core.specs.declared.view.View.TheVariants.{Writer};
ghost use Rattle.recorder_core.specs.RecorderSeats.{writes, numbers_of, IsWriter};
ghost use Rattle.run_engine.specs.Made.{IsNew};

use jm_base::M;
use recorder_core::{Recorder, WriterSeat};
use std::alloc::Global;

/// A seat for each of `count` writers: the first one, and those that are split off it.
pub fn split_all(
    alloc: Global,
    recorder: &Recorder,
    first: WriterSeat,
    count: u16,
) -> M<Vec<WriterSeat>>
    requires seat { IsWriter recorder.now first }
    requires first { Writer (writes first) ≡ writer_zero }
    requires count { (0 < count) × (count ≤ (numbers_of recorder.now).writers) }
    ensures len { IfOk result (λ v. length v.items ≡ count) }
    ensures each { IfOk result (λ v. (i : ℕ) (d : _) → i < count → IsNew recorder.now count i (slice_index_or v.items i d)) }
{
    let mut first = first;
    let mut rest = Vec::new(alloc);
    for done in 1..count {
        let _made = done;
        let next = recorder.split_writer(&mut first);
        rest.push(next)?;
    }
    let mut all = Vec::new(alloc);
    all.push(first)?;
    all.append(&mut rest)?;
    Ok(all)
}
