//! The words and the seats, each with what is always true of it.
ghost use Rattle.std.specs.Prelude.{◌≡◌, ◌+◌, ◌≤◌, []};
ghost use Rattle.std.specs.Slots.{slots_len, IsFull};
ghost use Rattle.phaser_core.specs.Views.{pending, IsSized};
ghost use Rattle.phaser_core.specs.declared.view.View.TheVariants.{Reporter, Writer};
ghost use Rattle.phaser_words.specs.Spacing.{slot_count};
ghost use Rattle.phaser_words.specs.RecorderKinds.{writing_of, reading_of};

use crate::rule::RecorderRule;
use atomic_table::{Closed, Seat, Table};
use phaser_core::{Numbers, ReporterStage, Stage, View};
use std::alloc::Global;

/// The words of a recorder, which its writers and its reporter share.
#[derive(Drop)]
pub struct Words {
    pub(crate) table: Table<(), View, Numbers, RecorderRule, Global>,
    pub(crate) labels: u16,
    ghost labelled: { table.shared.key.labels ≡ labels },
    ghost wide: { table.shared.table_id.words ≡ slot_count table.shared.key.labels },
    ghost vacant: { table.shared.table_id.slots ≡ 0 },
    ghost sized: { IsSized table.shared.key },
}

/// A writer's right to step on the words, with its number and how far it is with an entry.
#[derive(Drop)]
pub struct WriterWordSeat {
    pub(crate) seat: Seat<(), View>,
    pub(crate) number: u16,
    pub(crate) stage: Stage,
    pub(crate) made: u16,
    ghost bare: { seat.me.1 ≡ [] },
    ghost writes: { seat.me.0 ≡ Writer (writing_of seat.me.0) },
    ghost maker: { (writing_of seat.me.0).made ≡ made },
    ghost numbered: { (writing_of seat.me.0).number ≡ number },
    ghost staged: { (writing_of seat.me.0).stage ≡ stage },
}

/// The reporter's right to step on the words, with the interval and how far it is with closing it.
#[derive(Drop)]
pub struct ReporterWordSeat {
    pub(crate) seat: Seat<(), View>,
    pub(crate) interval: u64,
    pub(crate) closing: ReporterStage,
    ghost bare: { seat.me.1 ≡ [] },
    ghost reads: { seat.me.0 ≡ Reporter (reading_of seat.me.0) },
    ghost low: { interval + pending closing ≤ 16777216 },
    ghost counted: { (reading_of seat.me.0).interval ≡ interval },
    ghost staged: { (reading_of seat.me.0).closing ≡ closing },
}

/// The words as they stood at the end.
pub struct LastWords {
    pub(crate) closed: Closed<(), Global>,
    pub(crate) labels: u16,
    ghost full: { IsFull closed.words },
    ghost wide: { slots_len closed.words ≡ slot_count labels },
    ghost vacant: { slots_len closed.slots ≡ 0 },
}

impl Drop for LastWords {
    fn drop(self) {
        let Self { closed, labels: _ } = self;
        closed.free();
    }
}
