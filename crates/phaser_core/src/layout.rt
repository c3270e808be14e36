//! The numbers of a recorder's words, and what they begin with. The pure core's words stand in this order; the shared words have
//! these numbers, and slots of their own.
//!
//! Words 0 to 4 are: the active interval, start, the end words of the even and of the odd phase, stop. After them stand two
//! tables of cells; interval i counts in table i mod 2. A table has four stripes, and a stripe six cells for each label:
//! count, errors, total, bytes, least, greatest. Writer w counts in stripe w mod 4.

ghost use Rattle.std.specs.Prelude.{◌≡◌, ◌+◌, ◌*◌, ◌%◌, ◌<◌, ◌≤◌, ◌++◌, length, IfOk, OnOk};
ghost use Rattle.phaser_core.specs.Cells.{end_at, initial, place, rows_in, table_cells, cell_at, cell_of, vacant, column};
ghost use Rattle.phaser_core.specs.CoreMoves.{first_cells, first_words};

use jm_base::{Entry, M};
use std::alloc::Global;

/// The word of the interval that samples enter.
pub const ACTIVE: u32 = 0;

/// The word that counts the writers that entered a phase, and shows its parity.
pub const START: u32 = 1;

/// The word that is 1 once somebody asked the run to stop.
pub const STOP: u32 = 4;

/// What the start word and the end word of the odd phase begin with: a start word at or above it shows the odd phase.
pub const HALF: u64 = 0x8000_0000_0000_0000;

/// How many stripes a table has.
pub const STRIPES: u16 = 4;

/// The end word of a phase.
pub fn end_word(odd: bool) -> u32
    ensures { result ≡ end_at odd }
{
    if odd { 3 } else { 2 }
}

/// What the start word and the end word of a phase begin with.
pub fn initial(odd: bool) -> u64
    ensures { result ≡ initial odd }
{
    if odd { HALF } else { 0 }
}

/// What a cell begins with; `cell` is its number in word order.
pub fn vacant(cell: u32) -> u64
    ensures { result ≡ vacant (cell % 6) }
{
    if cell % 6 == 4 { u64::MAX } else { 0 }
}

/// How many cells a table has.
pub fn cell_count(labels: u16) -> u32
    ensures { result ≡ table_cells labels }
{
    6 * (4 * u32::from(labels))
}

/// The word of a cell, in word order, of the table in which an interval counts.
pub fn cell_word(labels: u16, interval: u64, cell: u32) -> u32
    requires labels { labels ≤ 256 }
    requires cell { cell ≤ table_cells labels }
    ensures { result ≡ cell_at labels interval cell }
{
    let table = (interval % 2) as u32;
    5 + (table * cell_count(labels) + cell)
}

/// The word of a writer's cell of a label, in the table in which an interval counts.
pub fn place(labels: u16, interval: u64, writer: u16, label: u16, column: u8) -> u32
    ensures { result ≡ place labels (interval % 2) writer label column }
{
    let table = (interval % 2) as u32;
    let stripe = u32::from(writer % STRIPES);
    5 + ((table * 4 + stripe) * u32::from(labels) + u32::from(label)) * 6 + u32::from(column)
}

/// The first cell, in word order, of a label in a stripe. Its six cells are those of the table.
pub fn first_cell(labels: u16, stripe: u16, label: u16) -> u32
    requires stripe { stripe < 4 }
    requires label { label < labels }
    ensures cell { result ≡ cell_of labels stripe label 0 }
    ensures inside { result + 6 ≤ table_cells labels }
{
    6 * (u32::from(stripe) * u32::from(labels) + u32::from(label))
}

/// The column of an entry's next step: one that succeeded has no step on the errors.
pub fn column_of(entry: &Entry, done: u8) -> u8
    requires { done ≤ 6 }
    ensures { result ≡ column entry.now done }
{
    if entry.ok && done > 0 { done + 1 } else { done }
}

/// The words of a new recorder: those of both phases, the stop word, and two tables of vacant cells.
pub fn first_words(alloc: Global, labels: u16) -> M<Vec<u64>>
    requires { labels ≤ 256 }
    ensures { IfOk result (λ words. words.items ≡ first_words labels) }
{
    let rows = 4 * labels;
    let mut words = Vec::with_capacity(alloc, 5 + 12 * usize::from(rows))?;
    words.extend_from_slice(&[0, 0, 0, HALF, 0])?;
    push_table(&mut words, rows)?;
    push_table(&mut words, rows)?;
    Ok(words)
}

// a table of vacant cells
fn push_table(words: &mut Vec<u64>, rows: u16) -> M<()>
    ensures { OnOk result (words.new.items ≡ words.old.items ++ first_cells rows) }
{
    for _row in 0..rows {
        words.extend_from_slice(&[0, 0, 0, 0, u64::MAX, 0])?;
    }
    Ok(())
}
