//! What an entry adds to its cells.
ghost use Rattle.std.specs.Prelude.{◌≡◌};
ghost use Rattle.phaser_core.specs.Cells.{part};

use jm_base::Entry;

/// What an entry adds, or compares, in a column.
pub(crate) fn part_of(entry: &Entry, column: u8) -> u64
    ensures { result ≡ part column entry.now }
{
    match column {
        0 => 1,
        1 => u64::from(!entry.ok),
        3 => u64::from(entry.bytes),
        _ => u64::from(entry.elapsed),
    }
}
