// All workers, each in a thread of its own where one can be started.

ghost use Rattle.std.specs.Prelude.{All, ◌≡◌, ◌<◌, ℕ, false, length, slice_index_or};
ghost use Rattle.recorder_core.specs.RecorderSeats.{writes, IsWriter};
ghost use Rattle.run_engine.specs.Marks.{is_stop_test};
ghost use Rattle.run_engine.specs.JobsRan.{CanRun, JobRan};

use crate::job::Job;
use crate::samples::run_samples;
use jm_base::{End, Outside};
use recorder_core::{Recorder, WriterSeat};
use reporter_loop::Ended;
use std::marker::Brand;
use std::sync::Wait;
use std::sync::ledger::Blank;
use std::thread;
use std::thread::Threads;

/// The most threads that a run has.
const MOST_THREADS: usize = 64;

// Raises stop where a thread ended the test.
fn mark_end(recorder: &Recorder, seat: &mut WriterSeat, end: End)
    requires seat { IsWriter recorder.now seat.old }
    requires unraised { (writes seat.old).raised ≡ false }
    ensures seat { IsWriter recorder.now seat.new }
    ensures raised { (writes seat.new).raised ≡ is_stop_test end }
    ensures saw { (writes seat.new).saw ≡ (writes seat.old).saw }
    ensures list { (writes seat.new).list ≡ (writes seat.old).list }
    ensures number { (writes seat.new).number ≡ (writes seat.old).number }
    ensures made { (writes seat.new).made ≡ (writes seat.old).made }
{
    match end {
        End::StopTest => recorder.raise_stop(seat),
        End::Completed
        | End::StopThread
        | End::Stopped
        | End::SampleLimit
        | End::RoundLimit
        | End::ValueLimit
        | End::NoMemory => {}
    }
}

impl<'p, 's, O: Outside> Job<'p, 's, O> {
    /// Runs the worker to its end, raises stop where it ended the test, and counts it among those that have ended.
    pub fn run<R: Wait>(&mut self, rt: &R, recorder: &Recorder, ended: &Ended)
        requires { CanRun recorder.now self.old }
        ensures { JobRan O.account recorder.now self.old self.new }
    {
        let end = run_samples::<R, O, Brand>(
            rt,
            recorder,
            self.sections,
            &mut self.worker,
            &mut self.out,
            &mut self.seat,
            &mut self.section,
            Blank::new(1),
        );
        mark_end(recorder, &mut self.seat, end);
        ended.one_more();
    }
}

/// Runs all workers to their ends at the same time. One whose thread can't be started runs on the thread that would have
/// started it.
pub fn run_team<'p, 's, R: Threads + Wait + Sync, O: Outside + Send>(
    rt: &R,
    recorder: &Recorder,
    ended: &Ended,
    jobs: &mut [Job<'p, 's, O>],
)
    requires { All (CanRun recorder.now) jobs.old }
    ensures { (i : ℕ) (d : _) → i < length jobs.old → JobRan O.account recorder.now (slice_index_or jobs.old i d) (slice_index_or jobs.new i d) }
{
    thread::for_each_mut(
        rt,
        jobs,
        MOST_THREADS,
        &|_, job| job.run(rt, recorder, ended),
    );
}
