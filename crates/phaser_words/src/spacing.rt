//! Where the words stand in the table. The words that each writer adds to stand apart from those that it only reads, and each
//! row of cells stands on its own, so writers of different stripes have no line of memory in common but that of the start and
//! the end words.
ghost use Rattle.std.specs.Prelude.{◌≡◌, ◌<◌, ◌≤◌, ◌%◌, length, IfOk};
ghost use Rattle.phaser_core.specs.Cells.{end_at, place, word_count};
ghost use Rattle.phaser_words.specs.Spacing.{slot, slot_count, words_in};

use jm_base::M;
use phaser_core::layout::STRIPES;
use std::alloc::Global;

/// The slot of the active word.
pub(crate) const ACTIVE: usize = 0;

/// The slot of the start word.
pub(crate) const START: usize = 16;

/// The slot of the stop word.
pub(crate) const STOP: usize = 32;

/// The slot of the end word of a phase.
pub(crate) fn end_slot(odd: bool) -> usize
    ensures { result ≡ slot (end_at odd) }
{
    if odd { 18 } else { 17 }
}

/// The slot of a writer's cell of a label, in the table in which an interval counts.
pub(crate) fn cell_slot(labels: u16, interval: u64, writer: u16, label: u16, column: u8) -> usize
    requires { column < 6 }
    ensures { result ≡ slot (place labels (interval % 2) writer label column) }
{
    let table = (interval % 2) as usize;
    let stripe = usize::from(writer % STRIPES);
    let row = (table * 4 + stripe) * usize::from(labels) + usize::from(label);
    48 + (16 * row + usize::from(column))
}

/// The slot of a word.
pub(crate) fn slot_of(word: u32) -> usize
    ensures { result ≡ slot word }
{
    match word {
        0 => ACTIVE,
        1 => START,
        2 => end_slot(false),
        3 => end_slot(true),
        4 => STOP,
        _ => {
            let cell = word as usize - 5;
            48 + (16 * (cell / 6) + cell % 6)
        }
    }
}

/// Slots in which these words stand.
pub(crate) fn spread(alloc: Global, labels: u16, words: &[u64]) -> M<Vec<u64>>
    requires labels { labels ≤ 256 }
    requires words { length words.now ≡ word_count labels }
    ensures count { IfOk result (λ slots. length slots.items ≡ slot_count labels) }
    ensures words { IfOk result (λ slots. words_in labels slots.items ≡ words.now) }
{
    let rows = 8 * usize::from(labels);
    let mut slots = vec![in alloc; 0; 48 + 16 * rows]?;
    for word in 0..words.len() {
        slots[slot_of(word as u32)] = words[word];
    }
    Ok(slots)
}
