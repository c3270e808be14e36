// What each actor of a recorder knows, and the events that move it.

use interval_tables::Report;
use jm_base::Entry;
use std::collections::LinkedList;

/// What a recorder was made with. No event changes it.
#[derive(Clone, Copy, Debug)]
pub struct Numbers {
    /// How many labels there are, at most 256.
    pub labels: u16,
    /// How many writers may be made, 1 to 64.
    pub writers: u16,
    /// How many entries each writer may record.
    pub budget: u32,
}

/// How far a writer is with an entry. A parity is true for odd.
#[derive(Clone, Copy, Debug)]
pub enum Stage {
    /// Between two entries.
    Out,
    /// It has entered: the parity that the start word showed is its token.
    In {
        odd: bool,
    },
    /// It counts an entry in an interval, and that many of the entry's steps are done.
    On {
        odd: bool,
        interval: u64,
        entry: Entry,
        done: u8,
    },
}

/// What a writer knows.
pub struct WriterView {
    pub number: u16,
    /// Each entry recorded, with its interval, in order.
    pub list: LinkedList<(u64, Entry)>,
    pub stage: Stage,
    /// Of writer 0, how many writers were made; of another, 0.
    pub made: u16,
    /// Whether it raised stop.
    pub raised: bool,
    /// Whether it saw stop as 1.
    pub saw: bool,
}

/// What a writer leaves when it is joined.
pub struct Joined {
    pub number: u16,
    pub list: LinkedList<(u64, Entry)>,
    pub made: u16,
    pub raised: bool,
    pub saw: bool,
}

/// How far the reporter is with closing an interval.
#[derive(Clone, Copy, Debug)]
pub enum ReporterStage {
    /// No interval is being closed.
    Idle,
    /// Samples enter the next interval.
    Swapped,
    /// The end word of the next phase has its initial value.
    Cleared,
    /// Writers enter the next phase. Those of the old phase have left once their end word shows `want`.
    Waiting { want: u64 },
    /// That many cells of the old table are taken.
    Harvest { taken: u32 },
}

/// What the reporter knows.
pub struct ReporterView {
    /// The labels of its recorder.
    pub labels: u16,
    /// How many reports are closed: the interval that is being closed, or that is active in `Idle`.
    pub interval: u64,
    pub closing: ReporterStage,
    /// The joined writers, in the order in which they were joined.
    pub joined: LinkedList<Joined>,
    /// Whether writer 0 was made.
    pub ready: bool,
    /// The cells taken of the interval that is being closed.
    pub cells: LinkedList<u64>,
    /// The closed reports.
    pub closed: LinkedList<Report>,
    /// What its last look at the interval that is being closed found; 0 before the first one.
    pub seen: u64,
    /// Whether it raised stop.
    pub raised: bool,
}

/// What an actor knows. Port 0 is the reporter's, port w + 1 writer w's.
pub enum View {
    Reporter(ReporterView),
    Writer(WriterView),
    /// A writer that was joined.
    Gone,
}

/// One step of one actor on one word.
#[derive(Clone, Copy, Debug)]
pub enum Event {
    /// A writer adds 1 to the start word, whose parity becomes its token.
    Enter(u16),
    /// A writer loads the active word: the entry counts in that interval.
    Load(u16, Entry),
    /// A writer adds to a cell that sums: the count, the errors of a failed entry, the total, the bytes.
    Add(u16),
    /// A writer lowers the least elapsed time.
    Lower(u16),
    /// A writer raises the greatest elapsed time.
    Raise(u16),
    /// A writer adds 1 to the end word of its token.
    Exit(u16),
    /// A writer loads the stop word.
    LookStop(u16),
    /// A writer raises the stop word.
    RaiseStop(u16),
    /// The reporter makes the next interval active.
    SwapActive,
    /// The reporter sets the end word of the next phase to its initial value.
    ClearEnd,
    /// The reporter turns the start word to the next phase, and waits for as many as entered the old one.
    Flip,
    /// The reporter loads the end word of the old phase.
    Look,
    /// The reporter takes the next cell of the old table.
    Take,
    /// The reporter raises the stop word.
    ReporterStop,
    /// Writer 0 makes a further writer.
    Split,
    /// The reporter takes in a writer.
    Join(u16),
}
