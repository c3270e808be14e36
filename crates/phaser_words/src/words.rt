//! The words of a new recorder, its seats, and the words at the end.
ghost use Rattle.std.specs.Prelude.{◌≡◌, ◌<◌, ◌++◌, ◌∷◌, IfOk};
ghost use Rattle.phaser_core.specs.Views.{IsSized, ready_reading, writer_zero, AllJoined, further};
ghost use Rattle.phaser_core.specs.CoreMoves.{splitting, taking_in};
ghost use Rattle.phaser_core.specs.declared.view.View.TheVariants.{Writer};
ghost use Rattle.phaser_words.specs.WordSeats.{writing, reading, numbers, IsWriterOf, IsReporterOf, last_words, Ends};

use crate::places::{LastWords, ReporterWordSeat, Words, WriterWordSeat};
use crate::rule::{Makes, TakesIn};
use crate::spacing::spread;
use atomic_table::Table;
use jm_base::M;
use phaser_core::layout::first_words;
use phaser_core::{Numbers, ReporterStage, Stage};
use std::alloc::Global;

impl Words {
    /// The words of a recorder of `labels` labels, for `writers` writers that record `budget` entries each, with the
    /// seats of its reporter and of writer 0.
    pub fn new(
        alloc: Global,
        labels: u16,
        writers: u16,
        budget: u32,
    ) -> M<(Words, ReporterWordSeat, WriterWordSeat)>
        requires { IsSized (record { labels = labels; writers = writers; budget = budget }) }
        ensures seats { IfOk result (λ r. IsReporterOf r.0 r.1 × IsWriterOf r.0 r.2) }
        ensures numbers { IfOk result (λ r. numbers r.0 ≡ record { labels = labels; writers = writers; budget = budget }) }
        ensures reporter { IfOk result (λ r. reading r.1 ≡ ready_reading labels) }
        ensures writer { IfOk result (λ r. Writer (writing r.2) ≡ writer_zero) }
    {
        let numbers = Numbers {
            labels,
            writers,
            budget,
        };
        let words = first_words(alloc, labels)?;
        let slots = spread(alloc, labels, words.as_slice())?;
        let (table, mut seat) = Table::of_words(alloc, slots.as_slice(), &numbers)?;
        let first = table.shared.split_seat::<Makes>(&mut seat);
        Ok((
            Words { table, labels },
            ReporterWordSeat {
                seat,
                interval: 0,
                closing: ReporterStage::Idle,
            },
            WriterWordSeat {
                seat: first,
                number: 0,
                stage: Stage::Out,
                made: 1,
            },
        ))
    }

    /// How many labels there are.
    pub fn labels(&self) -> u16
        ensures { result ≡ (numbers self.now).labels }
    {
        self.labels
    }

    /// Makes one more writer. Its number is the number of writers made before.
    pub fn split(&self, first: &mut WriterWordSeat) -> WriterWordSeat
        requires seat { IsWriterOf self.now first.old }
        requires first { 0 < (writing first.old).made }
        requires room { (writing first.old).made < (numbers self.now).writers }
        requires out { (writing first.old).stage ≡ Stage.Out }
        ensures seats { IsWriterOf self.now first.new × IsWriterOf self.now result }
        ensures first { Writer (writing first.new) ≡ splitting (Writer (writing first.old)) }
        ensures made { Writer (writing result) ≡ further (writing first.old).made }
    {
        let seat = self.table.shared.split_seat::<Makes>(&mut first.seat);
        let number = first.made;
        first.made += 1;
        WriterWordSeat {
            seat,
            number,
            stage: Stage::Out,
            made: 0,
        }
    }

    /// The reporter takes in a writer that is out, with its list and its marks.
    pub fn join(&self, into: &mut ReporterWordSeat, gone: WriterWordSeat)
        requires seats { IsReporterOf self.now into.old × IsWriterOf self.now gone }
        requires idle { (reading into.old).closing ≡ ReporterStage.Idle }
        requires out { (writing gone).stage ≡ Stage.Out }
        ensures seat { IsReporterOf self.now into.new }
        ensures taken { reading into.new ≡ taking_in (reading into.old) (writing gone) }
    {
        let WriterWordSeat {
            seat,
            number: _,
            stage: _,
            made: _,
        } = gone;
        self.table.shared.join_seat::<TakesIn>(&mut into.seat, seat);
    }

    /// The words as they stand once every writer was joined.
    pub fn close(self, seat: ReporterWordSeat) -> LastWords
        requires seat { IsReporterOf self seat }
        requires joined { AllJoined (reading seat) }
        requires idle { (reading seat).closing ≡ ReporterStage.Idle }
        ensures { Ends (numbers self) (last_words result) (reading seat) }
    {
        let ReporterWordSeat {
            seat,
            interval: _,
            closing: _,
        } = seat;
        let Words { table, labels } = self;
        let closed = table.close_with(seat);
        LastWords { closed, labels }
    }
}
