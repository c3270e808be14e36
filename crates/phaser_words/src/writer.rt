//! The steps of a writer.
ghost use Rattle.std.specs.Prelude.{◌≡◌, ◌+◌, ◌*◌, ◌%◌, ◌<◌, ◌≤◌, ◌==◌, ◌∷◌, ◌++◌, [], length, true};
ghost use Rattle.phaser_core.specs.Cells.{phase, sums, column, part, place as cell_place};
ghost use Rattle.phaser_core.specs.Views.{at_stage};
ghost use Rattle.phaser_core.specs.Shares.{AllUpTo};
ghost use Rattle.phaser_core.specs.CoreMoves.{marked, or};
ghost use Rattle.phaser_words.specs.Spacing.{slot};
ghost use Rattle.phaser_words.specs.RecorderKinds.{IsIn, HasSum, HasLeast, HasGreatest, HasAll, one_further, parity_in, interval_in, entry_in};
ghost use Rattle.phaser_words.specs.WordSeats.{writing, numbers, IsWriterOf};

use crate::cells::part_of;
use crate::places::{Words, WriterWordSeat};
use crate::rule::{Adds, Enters, Exits, Handing, Loads, Raises, Watches};
use crate::spacing::{ACTIVE, START, STOP, cell_slot, end_slot};
use crate::steps::Steps;
use jm_base::Entry;
use phaser_core::Stage;
use phaser_core::layout::{HALF, column_of};
use std::marker::Brand;
use std::sync::ledger::Ledger;

impl WriterWordSeat {
    /// The writer's number, from 0 on.
    pub fn number(&self) -> u16
        ensures { result ≡ (writing self.now).number }
    {
        self.number
    }

    /// How many writers were made, of writer 0; of another, 0.
    pub fn made(&self) -> u16
        ensures { result ≡ (writing self.now).made }
    {
        self.made
    }
}

impl Words {
    /// Adds 1 to the start word. The parity of the answer is the seat's token from now on.
    pub fn enter<L: Ledger>(&self, seat: &mut WriterWordSeat, steps: &mut Steps<L>) -> u64
        requires seat { IsWriterOf self.now seat.old }
        requires out { (writing seat.old).stage ≡ Stage.Out }
        requires room { length (writing seat.old).list < (numbers self.now).budget }
        ensures seat { IsWriterOf self.now seat.new }
        ensures inside { writing seat.new ≡ at_stage (writing seat.old) (Stage.In (phase result)) (writing seat.old).list }
        ensures cost { steps.new ≡ steps.old + 1 }
    {
        let found = self
            .table
            .shared
            .fetch_add::<Enters>(&mut seat.seat, START, 1);
        seat.stage = Stage::In { odd: found >= HALF };
        steps.tick();
        found
    }

    // The same as `load`, for an entry that the proof names.
    fn load_with<J: Handing, L: Ledger>(
        &self,
        seat: &mut WriterWordSeat,
        odd: bool,
        entry: Entry,
        steps: &mut Steps<L>,
    ) -> u64
        requires seat { IsWriterOf self.now seat.old }
        requires inside { (writing seat.old).stage ≡ Stage.In odd }
        requires label { entry.label < (numbers self.now).labels }
        requires handed { J.entry ≡ entry }
        ensures seat { IsWriterOf self.now seat.new }
        ensures on { writing seat.new ≡ at_stage (writing seat.old) (Stage.On odd result entry 0) (writing seat.old).list }
        ensures late { AllUpTo result (writing seat.old).list }
        ensures cost { steps.new ≡ steps.old + 1 }
    {
        let _elapsed = entry.elapsed;
        let _bytes = entry.bytes;
        let found = self.table.shared.load::<Loads<J>>(&mut seat.seat, ACTIVE);
        seat.stage = Stage::On {
            odd,
            interval: found,
            entry,
            done: 0,
        };
        steps.tick();
        found
    }

    /// Loads the active word: the entry counts in the interval of the answer, which is at least each one of the writer's list.
    pub fn load<L: Ledger>(
        &self,
        seat: &mut WriterWordSeat,
        entry: Entry,
        steps: &mut Steps<L>,
    ) -> u64
        requires seat { IsWriterOf self.now seat.old }
        requires inside { IsIn (writing seat.old).stage }
        requires label { entry.label < (numbers self.now).labels }
        ensures seat { IsWriterOf self.now seat.new }
        ensures on { writing seat.new ≡ at_stage (writing seat.old) (Stage.On (parity_in (writing seat.old).stage) result entry 0) (writing seat.old).list }
        ensures late { AllUpTo result (writing seat.old).list }
        ensures cost { steps.new ≡ steps.old + 1 }
    {
        let Stage::In { odd } = seat.stage else {
            unreachable!()
        };
        self.load_with::<Brand, L>(seat, odd, entry, steps)
    }

    /// Adds the entry's next part to its cell: 1 to the count, 1 to the errors (only of an entry that failed), the
    /// elapsed time to the total, the bytes to the bytes. No clause says what the answer is.
    pub fn add<L: Ledger>(&self, seat: &mut WriterWordSeat, steps: &mut Steps<L>) -> u64
        requires seat { IsWriterOf self.now seat.old }
        requires more { HasSum (numbers self.now).labels (writing seat.old).stage }
        ensures seat { IsWriterOf self.now seat.new }
        ensures further { writing seat.new ≡ at_stage (writing seat.old) (one_further (writing seat.old).stage) (writing seat.old).list }
        ensures cost { steps.new ≡ steps.old + 1 }
    {
        let Stage::On {
            odd,
            interval,
            entry,
            done,
        } = seat.stage
        else {
            unreachable!()
        };
        let (slot, amount) = self.next_part(seat, interval, &entry, done);
        let found = self
            .table
            .shared
            .fetch_add::<Adds>(&mut seat.seat, slot, amount);
        seat.stage = Stage::On {
            odd,
            interval,
            entry,
            done: done + 1,
        };
        steps.tick();
        found
    }

    /// Lowers the least elapsed time of the label to the entry's. No clause says what the answer is.
    pub fn lower<L: Ledger>(&self, seat: &mut WriterWordSeat, steps: &mut Steps<L>) -> u64
        requires seat { IsWriterOf self.now seat.old }
        requires more { HasLeast (numbers self.now).labels (writing seat.old).stage }
        ensures seat { IsWriterOf self.now seat.new }
        ensures further { writing seat.new ≡ at_stage (writing seat.old) (one_further (writing seat.old).stage) (writing seat.old).list }
        ensures cost { steps.new ≡ steps.old + 1 }
    {
        let Stage::On {
            odd,
            interval,
            entry,
            done,
        } = seat.stage
        else {
            unreachable!()
        };
        let (slot, amount) = self.next_part(seat, interval, &entry, done);
        let found = self
            .table
            .shared
            .fetch_min::<Adds>(&mut seat.seat, slot, amount);
        seat.stage = Stage::On {
            odd,
            interval,
            entry,
            done: done + 1,
        };
        steps.tick();
        found
    }

    /// Raises the greatest elapsed time of the label to the entry's. No clause says what the answer is.
    pub fn raise<L: Ledger>(&self, seat: &mut WriterWordSeat, steps: &mut Steps<L>) -> u64
        requires seat { IsWriterOf self.now seat.old }
        requires more { HasGreatest (numbers self.now).labels (writing seat.old).stage }
        ensures seat { IsWriterOf self.now seat.new }
        ensures further { writing seat.new ≡ at_stage (writing seat.old) (one_further (writing seat.old).stage) (writing seat.old).list }
        ensures cost { steps.new ≡ steps.old + 1 }
    {
        let Stage::On {
            odd,
            interval,
            entry,
            done,
        } = seat.stage
        else {
            unreachable!()
        };
        let (slot, amount) = self.next_part(seat, interval, &entry, done);
        let found = self
            .table
            .shared
            .fetch_max::<Adds>(&mut seat.seat, slot, amount);
        seat.stage = Stage::On {
            odd,
            interval,
            entry,
            done: done + 1,
        };
        steps.tick();
        found
    }

    // The slot of the cell that an entry's next part goes into, and that part.
    fn next_part(
        &self,
        seat: &WriterWordSeat,
        interval: u64,
        entry: &Entry,
        done: u8,
    ) -> (usize, u64)
        requires left { done < sums entry.now }
        requires label { entry.now.label < (numbers self.now).labels }
        ensures slot { result.0 ≡ slot (cell_place (numbers self.now).labels (interval % 2) (writing seat.now).number entry.now.label (column entry.now done)) }
        ensures amount { result.1 ≡ part (column entry.now done) entry.now }
    {
        let column = column_of(entry, done);
        let slot = cell_slot(self.labels, interval, seat.number, entry.label, column);
        (slot, part_of(entry, column))
    }

    /// Adds 1 to the end word of the seat's parity: the entry is in. No clause says what the answer is.
    pub fn exit<L: Ledger>(&self, seat: &mut WriterWordSeat, steps: &mut Steps<L>) -> u64
        requires seat { IsWriterOf self.now seat.old }
        requires all { HasAll (writing seat.old).stage }
        ensures seat { IsWriterOf self.now seat.new }
        ensures out { writing seat.new ≡ at_stage (writing seat.old) Stage.Out ((writing seat.old).list ++ (interval_in (writing seat.old).stage, entry_in (writing seat.old).stage) ∷ []) }
        ensures cost { steps.new ≡ steps.old + 1 }
    {
        let Stage::On { odd, .. } = seat.stage else {
            unreachable!()
        };
        let found = self
            .table
            .shared
            .fetch_add::<Exits>(&mut seat.seat, end_slot(odd), 1);
        seat.stage = Stage::Out;
        steps.tick();
        found
    }

    /// Loads the stop word. The answer is 0 or 1, and 1 for a seat that raised it or saw it as 1 before.
    pub fn look_stop(&self, seat: &mut WriterWordSeat) -> u64
        requires seat { IsWriterOf self.now seat.old }
        requires out { (writing seat.old).stage ≡ Stage.Out }
        ensures seat { IsWriterOf self.now seat.new }
        ensures saw { writing seat.new ≡ marked (writing seat.old) (writing seat.old).raised (or (writing seat.old).saw (result == 1)) }
        ensures known { (result ≤ 1) × ((writing seat.old).raised ≡ true → result ≡ 1) × ((writing seat.old).saw ≡ true → result ≡ 1) }
    {
        self.table.shared.load::<Watches>(&mut seat.seat, STOP)
    }

    /// Raises the stop word. The answer is 0 or 1, and 1 for a seat that raised it or saw it as 1 before.
    pub fn raise_stop(&self, seat: &mut WriterWordSeat) -> u64
        requires seat { IsWriterOf self.now seat.old }
        requires out { (writing seat.old).stage ≡ Stage.Out }
        ensures seat { IsWriterOf self.now seat.new }
        ensures raised { writing seat.new ≡ marked (writing seat.old) true (writing seat.old).saw }
        ensures found { (result ≤ 1) × ((writing seat.old).raised ≡ true → result ≡ 1) × ((writing seat.old).saw ≡ true → result ≡ 1) }
    {
        self.table.shared.swap::<Raises>(&mut seat.seat, STOP, 1)
    }
}
