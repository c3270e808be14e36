//! The rule of the words, and the kinds of step on them.
use atomic_table::{Join, Play, Split, TableRule};
use phaser_core::{Numbers, View};
use std::marker::{Brand, PhantomData};

/// The rule of the table: the recorder invariant, of its words and its views.
pub struct RecorderRule;

impl TableRule<(), View, Numbers> for RecorderRule {
    ghost use Rattle.phaser_words.specs.RecorderKinds.{holds_of, first_view};

    ghost holds = { holds_of };

    ghost first = { first_view };
}

/// What a call hands to its step, for the proof alone. Each call picks it.
pub trait Handing {
    ghost use Rattle.jm_base.specs.declared.types.Entry.{Entry};
    ghost use Rattle.phaser_core.specs.declared.view.Numbers.{Numbers};
    ghost use Rattle.std.specs.Prelude.{ℕ};

    ghost entry: { Entry };

    ghost numbers: { Numbers };

    ghost cell: { ℕ };
}

impl Handing for Brand {
    ghost use Rattle.phaser_words.specs.RecorderKinds.{no_entry, no_numbers};

    ghost entry = { no_entry };

    ghost numbers = { no_numbers };

    ghost cell = { 0 };
}

/// A writer adds 1 to the start word.
pub struct Enters;

impl Play<(), View> for Enters {
    ghost use Rattle.phaser_words.specs.RecorderKinds.{enters};

    ghost then = { enters };
}

/// A writer loads the active word.
pub struct Loads<J: Handing> {
    of: PhantomData<J>,
}

impl<J: Handing> Play<(), View> for Loads<J> {
    ghost use Rattle.phaser_words.specs.RecorderKinds.{loads};

    ghost then = { loads J.entry };
}

/// A writer folds the next part of its entry into a cell.
pub struct Adds;

impl Play<(), View> for Adds {
    ghost use Rattle.phaser_words.specs.RecorderKinds.{adds};

    ghost then = { adds };
}

/// A writer adds 1 to the end word of its parity.
pub struct Exits;

impl Play<(), View> for Exits {
    ghost use Rattle.phaser_words.specs.RecorderKinds.{exits};

    ghost then = { exits };
}

/// A writer loads the stop word.
pub struct Watches;

impl Play<(), View> for Watches {
    ghost use Rattle.phaser_words.specs.RecorderKinds.{watches};

    ghost then = { watches };
}

/// A writer raises the stop word.
pub struct Raises;

impl Play<(), View> for Raises {
    ghost use Rattle.phaser_words.specs.RecorderKinds.{raises};

    ghost then = { raises };
}

/// The reporter raises the stop word.
pub struct ReporterRaises;

impl Play<(), View> for ReporterRaises {
    ghost use Rattle.phaser_words.specs.RecorderKinds.{reporter_raises};

    ghost then = { reporter_raises };
}

/// The reporter makes the next interval active.
pub struct Swaps;

impl Play<(), View> for Swaps {
    ghost use Rattle.phaser_words.specs.RecorderKinds.{swaps};

    ghost then = { swaps };
}

/// The reporter clears the end word of the next phase.
pub struct Clears;

impl Play<(), View> for Clears {
    ghost use Rattle.phaser_words.specs.RecorderKinds.{clears};

    ghost then = { clears };
}

/// The reporter turns the phase.
pub struct Flips;

impl Play<(), View> for Flips {
    ghost use Rattle.phaser_words.specs.RecorderKinds.{flips};

    ghost then = { flips };
}

/// The reporter loads the end word of the phase that ended.
pub struct Looks;

impl Play<(), View> for Looks {
    ghost use Rattle.phaser_words.specs.RecorderKinds.{looks};

    ghost then = { looks };
}

/// The reporter takes a cell.
pub struct Takes;

impl Play<(), View> for Takes {
    ghost use Rattle.phaser_words.specs.RecorderKinds.{takes};

    ghost then = { takes };
}

/// The reporter loads a word and learns what the rule says of its own view.
pub struct Recalls<J: Handing> {
    of: PhantomData<J>,
}

impl<J: Handing> Play<(), View> for Recalls<J> {
    ghost use Rattle.phaser_words.specs.RecorderKinds.{recalls};

    ghost then = { recalls J.numbers };
}

/// The reporter loads a cell of the open interval, once every writer was joined.
pub struct Reads<J: Handing> {
    of: PhantomData<J>,
}

impl<J: Handing> Play<(), View> for Reads<J> {
    ghost use Rattle.phaser_words.specs.RecorderKinds.{reads};

    ghost then = { reads J.cell };
}

/// A further writer.
pub struct Makes;

impl Split<View> for Makes {
    ghost use Rattle.phaser_core.specs.CoreMoves.{splitting, split_off};

    ghost left = { splitting };

    ghost right = { split_off };
}

/// A writer that the reporter takes in.
pub struct TakesIn;

impl Join<View> for TakesIn {
    ghost use Rattle.phaser_core.specs.CoreMoves.{joining, no_one};

    ghost both = { joining };

    ghost spent = { no_one };
}
