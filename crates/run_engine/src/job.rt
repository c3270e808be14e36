// A worker with all that goes into its thread.

ghost use Rattle.std.specs.Prelude.{◌≡◌};
ghost use Rattle.recorder_core.specs.RecorderSeats.{writes};
ghost use Rattle.thread_machine.specs.Paired.{pairs};
ghost use Rattle.run_engine.specs.SectionsRun.{KeepsSections};

use critical_section::{SectionSeat, Sections};
use recorder_core::WriterSeat;
use thread_machine::Worker;

/// A worker, its outside, its writer and its seat at the locks. The writer's number is the thread's, the writer has recorded
/// just the samples of the worker's trace, and the seat has just its sections.
///
/// The writer stands before the worker, so that in a list the line of memory that each record changes is not that of the next
/// job's worker.
#[derive(Drop)]
pub struct Job<'p, 's, O> {
    /// The number of the thread.
    pub number: u16,
    /// Where its samples are recorded.
    pub seat: WriterSeat,
    /// Its seat at the locks.
    pub section: SectionSeat,
    /// The locks of the run.
    pub sections: &'s Sections,
    /// What runs it.
    pub worker: Worker<'p>,
    /// What answers its requests.
    pub out: O,
    ghost numbered: { (writes seat).number ≡ number },
    ghost thread: { worker.thread ≡ number },
    ghost listed: { (writes seat).list ≡ pairs worker.trace },
    ghost entered: { KeepsSections sections.now section worker },
}
