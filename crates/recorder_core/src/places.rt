//! The recorder and its seats, each with what is always true of it.
ghost use Rattle.std.specs.Prelude.{◌≡◌, ◌<◌, ◌≤◌, length, true};
ghost use Rattle.phaser_core.specs.declared.view.ReporterStage.TheVariants.{Idle};
ghost use Rattle.phaser_core.specs.declared.view.Stage.TheVariants.{Out};
ghost use Rattle.phaser_core.specs.Views.{made_known};
ghost use Rattle.phaser_words.specs.WordSeats.{writing, reading};
ghost use Rattle.recorder_core.specs.Stands.{stands, HasClosed};

use phaser_words::{ReporterWordSeat, Words, WriterWordSeat};

/// A recorder, which its writers and its reporter share.
#[derive(Drop)]
pub struct Recorder {
    pub(crate) words: Words,
}

/// The right of one thread to record entries. The seat's view has the list of its entries, each with its interval.
#[derive(Drop)]
pub struct WriterSeat {
    pub(crate) words: WriterWordSeat,
    ghost out: { (writing words).stage ≡ Out },
}

/// The right of one thread to close intervals, between two closings.
#[derive(Drop)]
pub struct ReporterSeat {
    pub(crate) words: ReporterWordSeat,
    pub(crate) joined: u16,
    pub(crate) made: u16,
    ghost idle: { (reading words).closing ≡ Idle },
    ghost joined_are: { length (reading words).joined ≡ joined },
    ghost made_are: { made_known (reading words).joined ≡ made },
    ghost order: { 0 < made → joined ≤ made },
}

/// An interval that is being closed.
#[derive(Drop)]
pub struct Closing {
    pub(crate) words: ReporterWordSeat,
    pub(crate) settled: bool,
    pub(crate) joined: u16,
    pub(crate) made: u16,
    ghost stands: { stands settled (reading words) ≡ true },
    ghost has_closed: { HasClosed settled (reading words) },
    ghost joined_are: { length (reading words).joined ≡ joined },
    ghost made_are: { made_known (reading words).joined ≡ made },
    ghost order: { 0 < made → joined ≤ made },
}

/// What is left at the end: how many intervals there were, the last one among them, and how many writers. To contracts it
/// shows every writer's list and marks, and every report, the last one among them. `Recorder::finish` alone makes it.
#[derive(Drop)]
pub struct Books {
    pub intervals: u64,
    pub writers: u16,
    pub(crate) words: Words,
    pub(crate) seat: ReporterWordSeat,
}
