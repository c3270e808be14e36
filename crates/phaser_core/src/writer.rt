// What the core keeps of a writer, and the steps of its events.

ghost use Rattle.std.specs.Prelude.{◌≡◌, ◌+◌, ◌%◌, ◌≤◌, not, IsSome};
ghost use Rattle.jm_base.specs.SumTotals.{one_if};
ghost use Rattle.phaser_core.specs.Cells.{column, end_at, place, sums};
ghost use Rattle.phaser_core.specs.Plain.{cell_change, cell_step, on_step, in_step, out_step, writer_step, stage_after, writer_after, split_of, is_out, FitsStage, FitsWriter, CanGoOn};

use crate::layout::{ACTIVE, HALF, START, STOP, column_of, end_word, place};
use crate::step::{Change, Step};
use crate::view::{Event, Numbers, Stage};
use jm_base::Entry;

/// What the core keeps of a writer: how many entries it recorded, and not which.
#[derive(Clone, Copy, Debug)]
pub enum WriterState {
    Live {
        number: u16,
        stage: Stage,
        /// How many entries it recorded.
        entries: u32,
        /// Of writer 0, how many writers were made; of another, 0.
        made: u16,
    },
    /// It was joined.
    Gone,
}

// what the step on a column's cell does
fn cell_change(column: u8, entry: &Entry) -> Change
    ensures { result ≡ cell_change column entry.now }
{
    match column {
        0 => Change::Add(1),
        1 => Change::Add(u64::from(!entry.ok)),
        2 => Change::Add(u64::from(entry.elapsed)),
        3 => Change::Add(u64::from(entry.bytes)),
        4 => Change::Least(u64::from(entry.elapsed)),
        _ => Change::Greatest(u64::from(entry.elapsed)),
    }
}

// how many steps on sums an entry has
fn sum_steps(entry: &Entry) -> u8
    ensures { result ≡ 3 + one_if (not entry.now.ok) }
{
    3 + u8::from(!entry.ok)
}

// the steps of a writer between two entries
fn out_step(budget: u32, entries: u32, event: &Event) -> Option<Step>
    ensures { result ≡ out_step budget entries event.now }
{
    match *event {
        Event::Enter(_) if entries < budget => Some(Step {
            word: START,
            change: Change::Add(1),
        }),
        Event::LookStop(_) => Some(Step {
            word: STOP,
            change: Change::Load,
        }),
        Event::RaiseStop(_) => Some(Step {
            word: STOP,
            change: Change::Swap(1),
        }),
        _ => None,
    }
}

// the step of a writer that has entered
fn in_step(labels: u16, event: &Event) -> Option<Step>
    ensures { result ≡ in_step labels event.now }
{
    match *event {
        Event::Load(_, entry) if entry.label < labels => Some(Step {
            word: ACTIVE,
            change: Change::Load,
        }),
        _ => None,
    }
}

// the next step on a cell, where the event is that of its column
fn cell_step(
    labels: u16,
    number: u16,
    interval: u64,
    entry: &Entry,
    done: u8,
    enabled: bool,
) -> Option<Step>
    requires { done ≤ 6 }
    ensures { result ≡ cell_step labels number interval entry.now done enabled }
{
    if !enabled {
        return None;
    }
    let column = column_of(entry, done);
    Some(Step {
        word: place(labels, interval, number, entry.label, column),
        change: cell_change(column, entry),
    })
}

// the steps of a writer that counts an entry
fn on_step(
    labels: u16,
    number: u16,
    odd: bool,
    interval: u64,
    entry: &Entry,
    done: u8,
    event: &Event,
) -> Option<Step>
    requires { done ≤ sums entry.now }
    ensures { result ≡ on_step labels number odd interval entry.now done event.now }
{
    let sums = sum_steps(entry);
    match *event {
        Event::Add(_) => cell_step(labels, number, interval, entry, done, done < sums),
        Event::Lower(_) => cell_step(labels, number, interval, entry, done, done == sums),
        Event::Raise(_) => cell_step(labels, number, interval, entry, done, done == sums + 1),
        Event::Exit(_) if done == sums + 2 => Some(Step {
            word: end_word(odd),
            change: Change::Add(1),
        }),
        _ => None,
    }
}

impl WriterState {
    /// The step of a writer's event, where the writer's stage enables it.
    pub(crate) fn step(&self, numbers: &Numbers, event: &Event) -> Option<Step>
        requires { FitsWriter numbers.now self.now }
        ensures { result ≡ writer_step numbers.now event.now self.now }
    {
        match self {
            WriterState::Live {
                number,
                stage,
                entries,
                ..
            } => match stage {
                Stage::Out => out_step(numbers.budget, *entries, event),
                Stage::In { .. } => in_step(numbers.labels, event),
                Stage::On {
                    odd,
                    interval,
                    entry,
                    done,
                } => on_step(
                    numbers.labels,
                    *number,
                    *odd,
                    *interval,
                    entry,
                    *done,
                    event,
                ),
            },
            WriterState::Gone => None,
        }
    }

    /// The writer after a step of its event that found this number.
    pub(crate) fn after(&self, numbers: &Numbers, event: &Event, found: u64) -> WriterState
        requires fits { FitsWriter numbers.now self.now }
        requires enabled { IsSome (writer_step numbers.now event.now self.now) }
        ensures { result ≡ writer_after event.now found self.now }
    {
        match *self {
            WriterState::Live {
                number,
                stage,
                entries,
                made,
            } => WriterState::Live {
                number,
                stage: stage_after(event, found, stage),
                entries: match event {
                    Event::Exit(_) => entries + 1,
                    _ => entries,
                },
                made,
            },
            WriterState::Gone => WriterState::Gone,
        }
    }

    /// Whether the writer is between two entries.
    pub(crate) fn is_out(&self) -> bool
        ensures { result ≡ is_out self.now }
    {
        match self {
            WriterState::Live { stage, .. } => match stage {
                Stage::Out => true,
                _ => false,
            },
            WriterState::Gone => false,
        }
    }

    /// Writer 0 after it made a further writer, and that writer, where writer 0 is out and not all are made.
    pub(crate) fn split(&self, numbers: &Numbers) -> Option<(WriterState, WriterState)>
        ensures { result ≡ split_of numbers.now self.now }
    {
        match *self {
            WriterState::Live {
                number,
                stage: Stage::Out,
                entries,
                made,
            } if made < numbers.writers => Some((
                WriterState::Live {
                    number,
                    stage: Stage::Out,
                    entries,
                    made: made + 1,
                },
                WriterState::Live {
                    number: made,
                    stage: Stage::Out,
                    entries: 0,
                    made: 0,
                },
            )),
            _ => None,
        }
    }
}

// the stage after a step that found this number
fn stage_after(event: &Event, found: u64, stage: Stage) -> Stage
    requires { CanGoOn stage }
    ensures { result ≡ stage_after event.now found stage }
{
    match stage {
        Stage::Out => match event {
            Event::Enter(_) => Stage::In { odd: found >= HALF },
            _ => Stage::Out,
        },
        Stage::In { odd } => match event {
            Event::Load(_, entry) => Stage::On {
                odd,
                interval: found,
                entry: *entry,
                done: 0,
            },
            _ => Stage::In { odd },
        },
        Stage::On {
            odd,
            interval,
            entry,
            done,
        } => match event {
            Event::Exit(_) => Stage::Out,
            _ => Stage::On {
                odd,
                interval,
                entry,
                done: done + 1,
            },
        },
    }
}
