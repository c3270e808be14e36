//! The words at the end.
ghost use Rattle.std.specs.Prelude.{◌≡◌, ◌<◌, length, slice_index};
ghost use Rattle.phaser_words.specs.WordSeats.{last_words};

use crate::places::LastWords;
use crate::spacing::slot_of;

impl LastWords {
    /// A word as it stands at the end: 0 the active interval, 1 start, 2 and 3 the end words, 4 stop, and then the cells.
    pub fn word(&self, index: u32) -> u64
        requires { index < length (last_words self.now) }
        ensures { result ≡ slice_index (last_words self.now) index }
    {
        self.closed.word(slot_of(index))
    }
}
