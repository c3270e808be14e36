//! The steps of the reporter.
ghost use Rattle.std.specs.Prelude.{◌≡◌, ◌+◌, ◌*◌, ◌<◌, ◌≤◌, ◌∷◌, ◌++◌, [], length, slice_index};
ghost use Rattle.phaser_core.specs.Cells.{is_odd, initial as phase_start, table_cells, cell_at};
ghost use Rattle.phaser_core.specs.Views.{at_closing, joined_at, AllJoined};
ghost use Rattle.phaser_core.specs.Shares.{SumsOfStripes};
ghost use Rattle.phaser_core.specs.CoreMoves.{gathered, reporter_raised};
ghost use Rattle.phaser_core.specs.declared.view.View.TheVariants.{Reporter};
ghost use Rattle.phaser_core.specs.Invariant.{raised_in, saw_in};
ghost use Rattle.phaser_words.specs.Spacing.{slot};
ghost use Rattle.phaser_words.specs.RecorderKinds.{IsWaiting, HasCell, taken_in, Recalled};
ghost use Rattle.phaser_words.specs.WordSeats.{reading, numbers, IsReporterOf, IsLook};

use crate::places::{ReporterWordSeat, Words};
use crate::rule::{Clears, Flips, Handing, Looks, Reads, Recalls, ReporterRaises, Swaps, Takes};
use crate::spacing::{ACTIVE, START, STOP, end_slot, slot_of};
use phaser_core::layout::{cell_count, cell_word, initial, vacant};
use phaser_core::{Applied, ReporterStage};
use std::marker::Brand;

impl ReporterWordSeat {
    /// The interval that is being closed, or that is open where none is.
    pub fn interval(&self) -> u64
        ensures { result ≡ (reading self.now).interval }
    {
        self.interval
    }
}

impl Words {
    /// Raises the stop word as the reporter. The answer is 0 or 1, and 1 where the reporter raised it before, or a writer
    /// that it took in raised it or saw it as 1.
    pub fn reporter_stop(&self, seat: &mut ReporterWordSeat) -> u64
        requires seat { IsReporterOf self.now seat.old }
        requires idle { (reading seat.old).closing ≡ ReporterStage.Idle }
        ensures seat { IsReporterOf self.now seat.new }
        ensures raised { reading seat.new ≡ reporter_raised (reading seat.old) }
        ensures found { (result ≤ 1) × (0 < raised_in (Reporter (reading seat.old)) → result ≡ 1) × (0 < saw_in (Reporter (reading seat.old)) → result ≡ 1) }
    {
        self.table
            .shared
            .swap::<ReporterRaises>(&mut seat.seat, STOP, 1)
    }

    /// Begins to close the interval: samples enter the next one from now on. The answer is the interval that closes, which
    /// was the active one.
    pub fn swap_active(&self, seat: &mut ReporterWordSeat) -> u64
        requires seat { IsReporterOf self.now seat.old }
        requires idle { (reading seat.old).closing ≡ ReporterStage.Idle }
        requires few { (reading seat.old).interval < 16777216 }
        ensures seat { IsReporterOf self.now seat.new }
        ensures swapped { reading seat.new ≡ at_closing (reading seat.old) ReporterStage.Swapped }
        ensures found { result ≡ (reading seat.old).interval }
    {
        let next = seat.interval + 1;
        let found = self
            .table
            .shared
            .swap::<Swaps>(&mut seat.seat, ACTIVE, next);
        seat.closing = ReporterStage::Swapped;
        found
    }

    /// Makes the end word of the next phase what that phase begins with. The answer is at least that, and more by at most
    /// the entries of all writers.
    pub fn clear_end(&self, seat: &mut ReporterWordSeat) -> u64
        requires seat { IsReporterOf self.now seat.old }
        requires swapped { (reading seat.old).closing ≡ ReporterStage.Swapped }
        ensures seat { IsReporterOf self.now seat.new }
        ensures cleared { reading seat.new ≡ at_closing (reading seat.old) ReporterStage.Cleared }
        ensures found { (phase_start (is_odd ((reading seat.old).interval + 1)) ≤ result) × (result ≤ phase_start (is_odd ((reading seat.old).interval + 1)) + 4194304) }
    {
        let odd = seat.interval % 2 == 0;
        let found = self
            .table
            .shared
            .swap::<Clears>(&mut seat.seat, end_slot(odd), initial(odd));
        seat.closing = ReporterStage::Cleared;
        found
    }

    /// Turns the phase. The answer is what the end word of the old phase is to show before the interval settles.
    pub fn flip(&self, seat: &mut ReporterWordSeat) -> u64
        requires seat { IsReporterOf self.now seat.old }
        requires cleared { (reading seat.old).closing ≡ ReporterStage.Cleared }
        ensures seat { IsReporterOf self.now seat.new }
        ensures waiting { reading seat.new ≡ at_closing (reading seat.old) (ReporterStage.Waiting result) }
    {
        let odd = seat.interval % 2 == 0;
        let found = self
            .table
            .shared
            .swap::<Flips>(&mut seat.seat, START, initial(odd));
        seat.closing = ReporterStage::Waiting { want: found };
        found
    }

    /// Looks once at the end word of the phase that ended: `Settled` where it shows what the reporter waits for, or `NotYet`
    /// with what this look found, which is less, and what the word is to show. What was found stays in the seat's view
    /// until the next look. Where it settled and there are no labels, the interval is closed with a report without rows.
    pub fn look(&self, seat: &mut ReporterWordSeat) -> Applied
        requires seat { IsReporterOf self.now seat.old }
        requires waiting { IsWaiting (reading seat.old).closing }
        ensures seat { IsReporterOf self.now seat.new }
        ensures told { IsLook (reading seat.old) result (reading seat.new) }
    {
        let ReporterStage::Waiting { want } = seat.closing else {
            unreachable!()
        };
        let odd = seat.interval % 2 == 1;
        let seen = self
            .table
            .shared
            .load::<Looks>(&mut seat.seat, end_slot(odd));
        if seen != want {
            return Applied::NotYet { seen, want };
        }
        if self.labels == 0 {
            seat.closing = ReporterStage::Idle;
            seat.interval += 1;
        } else {
            seat.closing = ReporterStage::Harvest { taken: 0 };
        }
        Applied::Settled
    }

    /// Takes the next cell of the interval that is closing, in word order. The answer comes after the cells taken before, and
    /// all of them together sum some entries, stripe by stripe. With the last cell the interval is closed.
    pub fn take(&self, seat: &mut ReporterWordSeat) -> u64
        requires seat { IsReporterOf self.now seat.old }
        requires left { HasCell (numbers self.now).labels (reading seat.old).closing }
        ensures seat { IsReporterOf self.now seat.new }
        ensures taken { reading seat.new ≡ gathered (reading seat.old) ((reading seat.old).cells ++ result ∷ []) (taken_in (reading seat.old).closing + 1) }
        ensures sums { SumsOfStripes (reading seat.old).labels (length ((reading seat.old).cells ++ result ∷ [])) (λ j. slice_index ((reading seat.old).cells ++ result ∷ []) j) }
    {
        let ReporterStage::Harvest { taken } = seat.closing else {
            unreachable!()
        };
        let slot = self.cell_of(seat.interval, taken);
        let found = self
            .table
            .shared
            .swap::<Takes>(&mut seat.seat, slot, vacant(taken));
        if taken + 1 == cell_count(self.labels) {
            seat.closing = ReporterStage::Idle;
            seat.interval += 1;
        } else {
            seat.closing = ReporterStage::Harvest { taken: taken + 1 };
        }
        found
    }

    // the slot of a cell, in word order, of the table in which an interval counts
    fn cell_of(&self, interval: u64, cell: u32) -> usize
        requires { cell < table_cells (numbers self.now).labels }
        ensures { result ≡ slot (cell_at (numbers self.now).labels interval cell) }
    {
        slot_of(cell_word(self.labels, interval, cell))
    }

    // The same as `recall`, for numbers that the proof names.
    fn recall_with<J: Handing>(&self, seat: &mut ReporterWordSeat)
        requires seat { IsReporterOf self.now seat.old }
        requires handed { J.numbers ≡ numbers self.now }
        ensures seat { IsReporterOf self.now seat.new }
        ensures same { reading seat.new ≡ reading seat.old }
        ensures knows { Recalled (numbers self.now) (reading seat.old) }
    {
        self.table.shared.load::<Recalls<J>>(&mut seat.seat, ACTIVE);
    }

    /// A load of the active word that changes nothing. By it the reporter learns what the rule says of its own view:
    /// what its closed reports sum, and how many writers there are at most.
    pub fn recall(&self, seat: &mut ReporterWordSeat)
        requires seat { IsReporterOf self.now seat.old }
        ensures seat { IsReporterOf self.now seat.new }
        ensures same { reading seat.new ≡ reading seat.old }
        ensures knows { Recalled (numbers self.now) (reading seat.old) }
    {
        self.recall_with::<Brand>(seat);
    }

    // The same as `read`, for a cell that the proof names.
    fn read_with<J: Handing>(&self, seat: &mut ReporterWordSeat, cell: u32) -> u64
        requires seat { IsReporterOf self.now seat.old }
        requires idle { (reading seat.old).closing ≡ ReporterStage.Idle }
        requires joined { AllJoined (reading seat.old) }
        requires cell { cell < table_cells (numbers self.now).labels }
        requires handed { J.cell ≡ cell }
        ensures seat { IsReporterOf self.now seat.new }
        ensures same { reading seat.new ≡ reading seat.old }
        ensures worth { result ≡ joined_at (reading seat.old).labels (reading seat.old).interval cell (reading seat.old).joined }
    {
        let slot = self.cell_of(seat.interval, cell);
        self.table.shared.load::<Reads<J>>(&mut seat.seat, slot)
    }

    /// Loads a cell of the open interval, once every writer was joined: it holds what their lists contribute to it.
    pub fn read(&self, seat: &mut ReporterWordSeat, cell: u32) -> u64
        requires seat { IsReporterOf self.now seat.old }
        requires idle { (reading seat.old).closing ≡ ReporterStage.Idle }
        requires joined { AllJoined (reading seat.old) }
        requires cell { cell < table_cells (numbers self.now).labels }
        ensures seat { IsReporterOf self.now seat.new }
        ensures same { reading seat.new ≡ reading seat.old }
        ensures worth { result ≡ joined_at (reading seat.old).labels (reading seat.old).interval cell (reading seat.old).joined }
    {
        self.read_with::<Brand>(seat, cell)
    }
}
