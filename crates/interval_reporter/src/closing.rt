//! Closing an interval while others record.

ghost use Rattle.std.specs.Prelude.{◌≡◌, ◌<◌, length};
ghost use Rattle.interval_tables.specs.Rows.{IsInBounds};
ghost use Rattle.phaser_core.specs.Shares.{SumsOfLists};
ghost use Rattle.recorder_core.specs.RecorderSeats.{reports, numbers_of, IsReporter};
ghost use Rattle.recorder_core.specs.Stands.{closed_as};

use interval_tables::Report;
use recorder_core::{Poll, Recorder, ReporterSeat};
use std::sync::Wait;
use std::thread;

/// Closes the interval that is open, whose number is below 16,777,216, and gives its report in `into`, which has a row for
/// each label. It waits for the writers that entered before the interval was closed, gives up the processor between two
/// looks, and takes no memory.
#[tactic(auto, using(crate::proofs::Closes::same_twice, crate::proofs::Closes::same_closed))]
pub fn close_interval<R: Wait>(
    rt: &R,
    recorder: &Recorder,
    seat: ReporterSeat,
    into: &mut Report,
) -> ReporterSeat
    requires seat { IsReporter recorder.now seat }
    requires few { (reports seat).interval < 16777216 }
    requires rows { length into.old.rows ≡ (numbers_of recorder.now).labels }
    ensures seat { IsReporter recorder.now result }
    ensures closed { reports result ≡ closed_as (reports seat) into.new }
    ensures interval { into.new.interval ≡ (reports seat).interval }
    ensures rows { length into.new.rows ≡ (numbers_of recorder.now).labels }
    ensures sums { SumsOfLists (numbers_of recorder.now) (reports result) }
    ensures bounds { IsInBounds into.new.rows }
{
    let mut closing = recorder.begin(seat);
    for _ in rt.forever() {
        if closing.is_settled() {
            break;
        }
        if let Poll::NotYet { .. } = recorder.poll(&mut closing) {
            thread::yield_now();
        }
    }
    recorder.harvest(closing, into)
}
