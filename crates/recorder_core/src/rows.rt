//! The report of an interval, from the cells of its table: the stripes are folded into its rows one after the other.
ghost use Rattle.std.specs.Prelude.{◌≡◌, ℕ, List, ◌+◌, ◌*◌, ◌<◌, ◌++◌, [], length, slice_index};
ghost use Rattle.phaser_core.specs.Cells.{cell_of, merged_to, table_cells};
ghost use Rattle.phaser_core.specs.Shares.{SumsOfStripes};
ghost use Rattle.phaser_core.specs.Views.{AllJoined};
ghost use Rattle.phaser_core.specs.CoreMoves.{gathered};
ghost use Rattle.phaser_core.specs.declared.view.ReporterStage.TheVariants as closing;
ghost use Rattle.phaser_words.specs.WordSeats.{reading, numbers, IsReporterOf};
ghost use Rattle.recorder_core.specs.Stands.{closed_as};
ghost use Rattle.recorder_core.specs.Folds.{HasTaken, open_cell};

use interval_tables::Report;
use phaser_core::layout::{STRIPES, first_cell};
use phaser_words::{ReporterWordSeat, Words};

// Takes the six cells of a label in a stripe.
fn take_cells(words: &Words, seat: &mut ReporterWordSeat, stripe: u16, label: u16) -> [u64; 6]
    requires seat { IsReporterOf words.now seat.old }
    requires stripe { stripe < 4 }
    requires label { label < (numbers words.now).labels }
    requires begun { (reading seat.old).closing ≡ closing.Harvest (6 * (stripe * (numbers words.now).labels + label)) }
    ensures seat { IsReporterOf words.now seat.new }
    ensures six { length result ≡ 6 }
    ensures taken { reading seat.new ≡ gathered (reading seat.old) ((reading seat.old).cells ++ result) (6 * (stripe * (numbers words.now).labels + label) + 6) }
    ensures sums { SumsOfStripes (reading seat.old).labels (length ((reading seat.old).cells ++ result)) (λ j. slice_index ((reading seat.old).cells ++ result) j) }
{
    let mut cells = [0u64; 6];
    for column in 0..6usize {
        cells[column] = words.take(seat);
    }
    cells
}

// Takes the cells of a stripe, and folds them into the report.
fn take_stripe(words: &Words, seat: &mut ReporterWordSeat, stripe: u16, into: &mut Report)
    requires seat { IsReporterOf words.now seat.old }
    requires stripe { stripe < 4 }
    requires rows { (0 < length into.old.rows) × (length into.old.rows ≡ (numbers words.now).labels) }
    requires begun { (reading seat.old).closing ≡ closing.Harvest (6 * (stripe * (numbers words.now).labels)) }
    requires count { length (reading seat.old).cells ≡ 6 * (stripe * (numbers words.now).labels) }
    requires folded { into.old.rows ≡ merged_to (numbers words.now).labels (λ j. slice_index (reading seat.old).cells j) stripe }
    ensures seat { IsReporterOf words.now seat.new }
    ensures interval { into.new.interval ≡ into.old.interval }
    ensures rows { length into.new.rows ≡ length into.old.rows }
    ensures taken { HasTaken (numbers words.now).labels (stripe + 1) (reading seat.old) (reading seat.new) into.new.rows }
{
    for label in 0..words.labels() {
        let cells = take_cells(words, seat, stripe, label);
        into.fold(label, &cells);
    }
}

// Takes all cells into the report: the interval is closed with it.
pub(crate) fn take_report(words: &Words, seat: &mut ReporterWordSeat, into: &mut Report)
    requires seat { IsReporterOf words.now seat.old }
    requires rows { (0 < length into.old.rows) × (length into.old.rows ≡ (numbers words.now).labels) }
    requires interval { into.old.interval ≡ (reading seat.old).interval }
    requires begun { ((reading seat.old).closing ≡ closing.Harvest 0) × ((reading seat.old).cells ≡ []) }
    ensures seat { IsReporterOf words.now seat.new }
    ensures interval { into.new.interval ≡ into.old.interval }
    ensures rows { length into.new.rows ≡ length into.old.rows }
    ensures closed { reading seat.new ≡ closed_as (reading seat.old) into.new }
{
    into.clear();
    for stripe in 0..STRIPES {
        take_stripe(words, seat, stripe, into);
    }
}

// Reads the six cells of a label in a stripe of the open interval, once every writer was joined.
fn read_cells(words: &Words, seat: &mut ReporterWordSeat, stripe: u16, label: u16) -> [u64; 6]
    requires seat { IsReporterOf words.now seat.old }
    requires stripe { stripe < 4 }
    requires label { label < (numbers words.now).labels }
    requires idle { (reading seat.old).closing ≡ closing.Idle }
    requires joined { AllJoined (reading seat.old) }
    ensures seat { IsReporterOf words.now seat.new }
    ensures same { reading seat.new ≡ reading seat.old }
    ensures six { length result ≡ 6 }
    ensures cells { (c : ℕ) → c < 6 → slice_index result c ≡ open_cell (numbers words.now).labels (reading seat.old) (cell_of (numbers words.now).labels stripe label c) }
{
    let first = first_cell(words.labels(), stripe, label);
    let mut cells = [0u64; 6];
    for column in 0..6usize {
        cells[column] = words.read(seat, first + column as u32);
    }
    cells
}

// Reads the cells of a stripe of the open interval, and folds them into the report.
fn read_stripe(words: &Words, seat: &mut ReporterWordSeat, stripe: u16, into: &mut Report)
    requires seat { IsReporterOf words.now seat.old }
    requires stripe { stripe < 4 }
    requires rows { length into.old.rows ≡ (numbers words.now).labels }
    requires idle { (reading seat.old).closing ≡ closing.Idle }
    requires joined { AllJoined (reading seat.old) }
    requires sums { SumsOfStripes (numbers words.now).labels (table_cells (numbers words.now).labels) (open_cell (numbers words.now).labels (reading seat.old)) }
    requires folded { into.old.rows ≡ merged_to (numbers words.now).labels (open_cell (numbers words.now).labels (reading seat.old)) stripe }
    ensures seat { IsReporterOf words.now seat.new }
    ensures same { reading seat.new ≡ reading seat.old }
    ensures rows { length into.new.rows ≡ length into.old.rows }
    ensures folded { into.new.rows ≡ merged_to (numbers words.now).labels (open_cell (numbers words.now).labels (reading seat.old)) (stripe + 1) }
{
    for label in 0..words.labels() {
        let cells = read_cells(words, seat, stripe, label);
        into.fold(label, &cells);
    }
}

// Reads all cells of the open interval into the report, once every writer was joined.
pub(crate) fn read_report(words: &Words, seat: &mut ReporterWordSeat, into: &mut Report)
    requires seat { IsReporterOf words.now seat.old }
    requires rows { length into.old.rows ≡ (numbers words.now).labels }
    requires idle { (reading seat.old).closing ≡ closing.Idle }
    requires joined { AllJoined (reading seat.old) }
    requires sums { SumsOfStripes (numbers words.now).labels (table_cells (numbers words.now).labels) (open_cell (numbers words.now).labels (reading seat.old)) }
    ensures seat { IsReporterOf words.now seat.new }
    ensures same { reading seat.new ≡ reading seat.old }
    ensures folded { into.new.rows ≡ merged_to (numbers words.now).labels (open_cell (numbers words.now).labels (reading seat.old)) 4 }
{
    into.clear();
    for stripe in 0..STRIPES {
        read_stripe(words, seat, stripe, into);
    }
}
