//! What no clause says: that the calls succeed with ample memory, and that running threads' samples are all counted.
ghost use Rattle.std.specs.Prelude.{◌≡◌, ◌+◌, ◌<◌, ◌≤◌, [], length};
ghost use Rattle.recorder_core.specs.RecorderSeats.{writes, reports, numbers_of, IsWriter, IsReporter};

use interval_reporter::close_interval;
use interval_tables::{Report, Row};
use jm_base::Entry;
use recorder_core::{Poll, Recorder, ReporterSeat, Steps, WriterSeat};
use std::marker::Brand;
use std::process::Abort;
use std::sync::Wait;
use std::sync::ledger::{Blank, Ledger};
use std::test::Fail;
use std::thread::{Threads, join};

// Records one entry of label 0.
fn record_one<L: Ledger>(
    recorder: &Recorder,
    seat: &mut WriterSeat,
    ok: bool,
    elapsed: u32,
    blank: Blank,
) -> u64
    requires blank { (blank.name ≡ L.name) × (blank.parts ≡ L.parts) × (0 < blank.parts) }
    requires seat { IsWriter recorder.now seat.old }
    requires room { length (writes seat.old).list < (numbers_of recorder.now).budget }
    requires label { 0 < (numbers_of recorder.now).labels }
    ensures seat { IsWriter recorder.now seat.new }
    ensures list { length (writes seat.new).list ≡ length (writes seat.old).list + 1 }
{
    let mut steps = Steps::<L>::new(blank);
    let entry = Entry {
        label: 0,
        ok,
        elapsed,
        bytes: 1,
    };
    recorder.record(seat, entry, &mut steps)
}

// Records one entry of label 0, and counts no steps.
pub(crate) fn record(recorder: &Recorder, seat: &mut WriterSeat, ok: bool, elapsed: u32) -> u64
    requires seat { IsWriter recorder.now seat.old }
    requires room { length (writes seat.old).list < (numbers_of recorder.now).budget }
    requires label { 0 < (numbers_of recorder.now).labels }
    ensures seat { IsWriter recorder.now seat.new }
    ensures list { length (writes seat.new).list ≡ length (writes seat.old).list + 1 }
{
    record_one::<Brand>(recorder, seat, ok, elapsed, Blank::new(1))
}

#[test]
fn a_sample_after_a_harvest_counts_in_the_next_interval(rt: HostRuntime) -> Result<(), Fail> {
    let (recorder, reporter, mut writer) = Recorder::new(rt.alloc(), 1, 1, 10)?;
    let mut report = Report::vacant(rt.alloc(), 1)?;
    assert_eq!(rt; record(&recorder, &mut writer, true, 5), 0);
    let mut closing = recorder.begin(reporter);
    assert!(rt; matches!(recorder.poll(&mut closing), Poll::Settled));
    let mut reporter = recorder.harvest(closing, &mut report);
    assert_eq!(rt; report.interval, 0);
    assert_eq!(rt;
        report.rows.as_slice().first().copied(),
        Some(Row {
            count: 1,
            errors: 0,
            total: 5,
            bytes: 1,
            least: 5,
            greatest: 5
        })
    );
    assert_eq!(rt; record(&recorder, &mut writer, false, 7), 1);
    assert_eq!(rt; reporter.open_writers(), 1);
    recorder.join_writer(&mut reporter, writer);
    assert_eq!(rt; reporter.open_writers(), 0);
    let books = recorder.finish(reporter, &mut report);
    assert_eq!(rt; report.interval, 1);
    assert_eq!(rt;
        report.rows.as_slice().first().copied(),
        Some(Row {
            count: 1,
            errors: 1,
            total: 7,
            bytes: 1,
            least: 7,
            greatest: 7
        })
    );
    assert_eq!(rt; books.intervals, 2);
    assert_eq!(rt; books.writers, 1);
    Ok(())
}

// Records entries of 1 to 7 milliseconds, of which every third failed.
fn record_all(recorder: &Recorder, mut seat: WriterSeat) -> WriterSeat
    requires seat { IsWriter recorder.now seat }
    requires list { (writes seat).list ≡ [] }
    requires budget { 1000 ≤ (numbers_of recorder.now).budget }
    requires label { 0 < (numbers_of recorder.now).labels }
    ensures { IsWriter recorder.now result }
{
    for n in 0..1000u32 {
        record(recorder, &mut seat, n % 3 != 0, n % 7 + 1);
    }
    seat
}

// Two threads record.
fn record_both<R: Threads>(
    rt: &R,
    recorder: &Recorder,
    first: WriterSeat,
    second: WriterSeat,
) -> (WriterSeat, WriterSeat)
    requires seats { IsWriter recorder.now first × IsWriter recorder.now second }
    requires lists { ((writes first).list ≡ []) × ((writes second).list ≡ []) }
    requires budget { 1000 ≤ (numbers_of recorder.now).budget }
    requires label { 0 < (numbers_of recorder.now).labels }
    ensures { IsWriter recorder.now result.0 × IsWriter recorder.now result.1 }
{
    join(
        rt,
        || record_all(recorder, first),
        || record_all(recorder, second),
    )
}

// Closes intervals, and counts their samples.
fn close_often<R: Wait>(
    rt: &R,
    recorder: &Recorder,
    mut seat: ReporterSeat,
    mut report: Report,
) -> (ReporterSeat, Report, u64)
    requires seat { IsReporter recorder.now seat }
    requires first { (reports seat).interval ≡ 0 }
    requires rows { length report.rows ≡ (numbers_of recorder.now).labels }
    ensures seat { IsReporter recorder.now result.0 }
    ensures rows { length result.1.rows ≡ (numbers_of recorder.now).labels }
{
    let mut count = 0u64;
    for interval in 0..200u32 {
        let _interval = interval;
        seat = close_interval(rt, recorder, seat, &mut report);
        for row in report.rows.as_slice() {
            count = count.wrapping_add(row.count);
        }
    }
    (seat, report, count)
}

#[test]
fn each_sample_of_two_threads_counts_once_while_intervals_close(
    rt: HostRuntime,
) -> Result<(), Fail> {
    let (recorder, reporter, mut first) = Recorder::new(rt.alloc(), 1, 2, 1000)?;
    let second = recorder.split_writer(&mut first);
    let report = Report::vacant(rt.alloc(), 1)?;
    let ((mut reporter, mut report, count), (first, second)) = join(
        &rt,
        || close_often(&rt, &recorder, reporter, report),
        || record_both(&rt, &recorder, first, second),
    );
    recorder.join_writer(&mut reporter, second);
    recorder.join_writer(&mut reporter, first);
    assert_eq!(rt; reporter.open_writers(), 0);
    let books = recorder.finish(reporter, &mut report);
    let mut count = count;
    for row in report.rows.as_slice() {
        count = count.wrapping_add(row.count);
    }
    assert_eq!(rt; count, 2000);
    assert_eq!(rt; books.intervals, 201);
    Ok(())
}
