// Steps on the parts of a core.

ghost use Rattle.std.specs.Prelude.{◌≡◌, ◌&&◌, ◌%◌, ◌<◌, ◌≤◌, length, IsSome, slice_index};
ghost use Rattle.phaser_core.specs.Cells.{end_at, initial, word_count};
ghost use Rattle.phaser_core.specs.Views.{pending};
ghost use Rattle.phaser_core.specs.Plain.{writer_step, writer_at, step_answer, words_after, writers_after, closing_step, closing_after, closing_if, is_out, gone_if, split_of, AllFitWriters};

use crate::applied::Applied;
use crate::layout::{ACTIVE, START, STOP, end_word, initial};
use crate::step::{Change, Step};
use crate::view::{Event, Numbers, ReporterStage};
use crate::writer::WriterState;

// the step of a writer's event
pub(crate) fn step_writer(
    numbers: &Numbers,
    words: &mut [u64],
    writers: &mut [WriterState],
    writer: u16,
    event: &Event,
) -> Applied
    requires wide { length words.old ≡ word_count numbers.now.labels }
    requires fit { AllFitWriters numbers.now writers.old }
    ensures answer { result ≡ step_answer (writer_step numbers.now event.now (writer_at writers.old writer)) words.old }
    ensures words { words.new ≡ words_after (writer_step numbers.now event.now (writer_at writers.old writer)) words.old }
    ensures writers { writers.new ≡ writers_after (writer_step numbers.now event.now (writer_at writers.old writer)) event.now writer words.old writers.old }
{
    let index = usize::from(writer);
    if index >= writers.len() {
        return Applied::NotEnabled;
    }
    let state = writers[index];
    let Some(step) = state.step(numbers, event) else {
        return Applied::NotEnabled;
    };
    let word = step.word as usize;
    let found = words[word];
    words[word] = step.change.of(found);
    writers[index] = state.after(numbers, event, found);
    Applied::Old(found)
}

// the reporter's steps but for Look and Take
fn closing_step(interval: u64, event: &Event, closing: &ReporterStage) -> Option<Step>
    requires { interval ≤ 16777216 }
    ensures { result ≡ closing_step interval event.now closing.now }
{
    let next_odd = (interval + 1) % 2 == 1;
    match (event, closing) {
        (Event::SwapActive, ReporterStage::Idle) if interval < 16_777_216 => Some(Step {
            word: ACTIVE,
            change: Change::Swap(interval + 1),
        }),
        (Event::ReporterStop, ReporterStage::Idle) => Some(Step {
            word: STOP,
            change: Change::Swap(1),
        }),
        (Event::ClearEnd, ReporterStage::Swapped) => Some(Step {
            word: end_word(next_odd),
            change: Change::Swap(initial(next_odd)),
        }),
        (Event::Flip, ReporterStage::Cleared) => Some(Step {
            word: START,
            change: Change::Swap(initial(next_odd)),
        }),
        _ => None,
    }
}

// how far the reporter is after such a step
fn closing_after(event: &Event, found: u64, closing: &ReporterStage) -> ReporterStage
    ensures { result ≡ closing_after event.now found closing.now }
{
    match event {
        Event::SwapActive => ReporterStage::Swapped,
        Event::ClearEnd => ReporterStage::Cleared,
        Event::Flip => ReporterStage::Waiting { want: found },
        _ => *closing,
    }
}

// the step of such an event
pub(crate) fn step_reporter(
    words: &mut [u64],
    interval: u64,
    closing: &mut ReporterStage,
    event: &Event,
) -> Applied
    requires wide { 5 ≤ length words.old }
    requires room { interval ≤ 16777216 }
    ensures answer { result ≡ step_answer (closing_step interval event.now closing.old) words.old }
    ensures words { words.new ≡ words_after (closing_step interval event.now closing.old) words.old }
    ensures closing { closing.new ≡ closing_if (closing_step interval event.now closing.old) event.now words.old closing.old }
{
    let Some(step) = closing_step(interval, event, closing) else {
        return Applied::NotEnabled;
    };
    let word = step.word as usize;
    let found = words[word];
    words[word] = step.change.of(found);
    *closing = closing_after(event, found, closing);
    Applied::Old(found)
}

// whether a writer was joined: where the reporter is idle and the writer out
pub(crate) fn join_writer(idle: bool, writers: &mut [WriterState], writer: u16) -> bool
    ensures joined { result ≡ (idle && is_out (writer_at writers.old writer)) }
    ensures writers { writers.new ≡ gone_if (idle && is_out (writer_at writers.old writer)) writer writers.old }
{
    let index = usize::from(writer);
    if index >= writers.len() || !idle || !writers[index].is_out() {
        return false;
    }
    writers[index] = WriterState::Gone;
    true
}

// writer 0 after it made a further writer, and that writer
pub(crate) fn split_first(
    numbers: &Numbers,
    writers: &[WriterState],
) -> Option<(WriterState, WriterState)>
    ensures made { result ≡ split_of numbers.now (writer_at writers.now 0) }
    ensures some { IsSome result → 0 < length writers.now }
{
    let first = writers.first()?;
    first.split(numbers)
}
