//! Records samples in threads while a reporter closes intervals, and prints what all reports together count.
//! Its words: how many samples each thread records, the milliseconds between two intervals, and for each run how many
//! threads record.
#![tactic(auto)]

ghost use Rattle.std.specs.Prelude.{◌≡◌, ◌+◌, ◌<◌, ◌≤◌, ◌*◌, [], All, length, IfOk};
ghost use Rattle.recorder_core.specs.RecorderSeats.{IsReporter, IsWriter, numbers_of, reports, writes};

use interval_reporter::close_interval;
use interval_tables::{Report, Row};
use jm_base::{Entry, NoMemory};
use recorder_core::{Recorder, ReporterSeat, Steps, WriterSeat};
use std::alloc::Global;
use std::marker::Brand;
use std::rt::Clock;
use std::sync::Wait;
use std::sync::atomic::{AtomicU64, Ordering};
use std::sync::ledger::{Blank, Ledger};
use std::thread::{Threads, join};
use std::time::Duration;
use std::{env, thread};

/// The most samples of all threads together.
const MOST: u32 = 4_194_304;

/// What all reports together count.
#[derive(Clone, Copy)]
struct Totals {
    count: u64,
    errors: u64,
    total: u64,
    bytes: u64,
    least: u64,
    greatest: u64,
}

impl Totals {
    fn add(&mut self, rows: &[Row]) {
        for row in rows {
            if row.count > 0 {
                self.count = self.count.wrapping_add(row.count);
                self.errors = self.errors.wrapping_add(row.errors);
                self.total = self.total.wrapping_add(row.total);
                self.bytes = self.bytes.wrapping_add(row.bytes);
                self.least = self.least.min(row.least);
                self.greatest = self.greatest.max(row.greatest);
            }
        }
    }
}

/// Records `count` samples of 1 to 7 milliseconds, of which every third failed.
fn record_all<L: Ledger>(recorder: &Recorder, seat: &mut WriterSeat, count: u32, blank: Blank)
    requires blank { (blank.name ≡ L.name) × (blank.parts ≡ L.parts) × (0 < blank.parts) }
    requires seat { IsWriter recorder.now seat.old }
    requires list { (writes seat.old).list ≡ [] }
    requires budget { count ≤ (numbers_of recorder.now).budget }
    requires label { 0 < (numbers_of recorder.now).labels }
{
    let mut steps = Steps::<L>::new(blank);
    for n in 0..count {
        let entry = Entry {
            label: 0,
            ok: n % 3 != 0,
            elapsed: n % 7 + 1,
            bytes: 1,
        };
        recorder.record(seat, entry, &mut steps);
    }
}

/// The same by a counter of its own.
fn record(recorder: &Recorder, seat: &mut WriterSeat, count: u32)
    requires seat { IsWriter recorder.now seat.old }
    requires list { (writes seat.old).list ≡ [] }
    requires budget { count ≤ (numbers_of recorder.now).budget }
    requires label { 0 < (numbers_of recorder.now).labels }
{
    record_all::<Brand>(recorder, seat, count, Blank::new(1));
}

/// A writer's seat, with room after it, so that two threads write to no common cache line.
#[derive(Drop)]
struct Lane {
    seat: WriterSeat,
    _apart: [u64; 16],
}

/// All writers record, each in a thread of its own. Then it says that they have ended.
fn record_in_threads<R: Threads + Sync>(
    rt: &R,
    recorder: &Recorder,
    mut lanes: Vec<Lane>,
    count: u32,
    ended: &AtomicU64,
)
    requires lanes { All (λ l. IsWriter recorder.now l.seat × ((writes l.seat).list ≡ [])) lanes.items }
    requires budget { count ≤ (numbers_of recorder.now).budget }
    requires label { 0 < (numbers_of recorder.now).labels }
{
    thread::for_each_mut(
        rt,
        lanes.as_mut_slice(),
        64,
        &|_, lane| { record(recorder, &mut lane.seat, count) },
    );
    ended.store(1, Ordering::SeqCst);
}

/// Closes intervals until all have ended, and once more.
fn report_until<R: Wait + Clock>(
    rt: &R,
    recorder: &Recorder,
    mut seat: ReporterSeat,
    mut report: Report,
    ended: &AtomicU64,
    pause: u64,
) -> Totals
    requires seat { IsReporter recorder.now seat }
    requires first { (reports seat).interval ≡ 0 }
    requires rows { length report.rows ≡ (numbers_of recorder.now).labels }
{
    let mut totals = Totals {
        count: 0,
        errors: 0,
        total: 0,
        bytes: 0,
        least: u64::MAX,
        greatest: 0,
    };
    for interval in 0..16_000_000u32 {
        let _interval = interval;
        let over = ended.load(Ordering::SeqCst) == 1;
        seat = close_interval(rt, recorder, seat, &mut report);
        totals.add(report.rows.as_slice());
        if over {
            break;
        }
        if pause > 0 {
            thread::sleep(rt, Duration::from_millis(pause));
        }
    }
    totals
}

/// The lanes of all writers.
fn split_all(
    alloc: Global,
    recorder: &Recorder,
    mut first: WriterSeat,
    writers: u16,
) -> Result<Vec<Lane>, NoMemory>
    requires seat { IsWriter recorder.now first }
    requires list { (writes first).list ≡ [] }
    requires made { (writes first).made ≡ 1 }
    requires writers { writers ≤ (numbers_of recorder.now).writers }
    ensures { IfOk result (λ v. All (λ l. IsWriter recorder.now l.seat × ((writes l.seat).list ≡ [])) v.items) }
{
    let mut lanes = Vec::new(alloc);
    for made in 1..writers {
        let _made = made;
        let seat = recorder.split_writer(&mut first);
        lanes.push(Lane {
            seat,
            _apart: [0; 16],
        })?;
    }
    lanes.push(Lane {
        seat: first,
        _apart: [0; 16],
    })?;
    Ok(lanes)
}

/// One run: the threads record, and the caller's other thread reports.
fn run<R: Threads + Wait + Clock + Sync>(
    rt: &R,
    alloc: Global,
    writers: u16,
    count: u32,
    pause: u64,
) -> Result<Totals, NoMemory>
    requires writers { (1 ≤ writers) × (writers ≤ 64) }
    requires count { writers * count ≤ MOST }
{
    let (recorder, reporter, first) = Recorder::new(alloc, 1, writers, count)?;
    let lanes = split_all(alloc, &recorder, first, writers)?;
    let report = Report::vacant(alloc, 1)?;
    let ended = AtomicU64::new(0);
    let shared = &recorder;
    let flag = &ended;
    let (totals, ()) = join(
        rt,
        || report_until(rt, shared, reporter, report, flag, pause),
        || -> ()
            requires { All (λ l. IsWriter shared.now l.seat × ((writes l.seat).list ≡ [])) lanes.items × (count ≤ (numbers_of shared.now).budget) × (0 < (numbers_of shared.now).labels) }
        { record_in_threads(rt, shared, lanes, count, flag) },
    );
    Ok(totals)
}

fn main(rt: HostRuntime) -> anyhow::Result<()> {
    let mut numbers = Vec::new(rt.alloc());
    for word in env::args(&rt)?.skip(1) {
        numbers.push(word.parse::<u32>()?)?;
    }
    let count = numbers.first().copied().unwrap_or(1000);
    let pause = numbers.get(1).copied().unwrap_or(0);
    for writers in numbers.iter().skip(2) {
        let writers = (*writers).clamp(1, 64) as u16;
        let count = count.min(MOST / u32::from(writers));
        let t = run(&rt, rt.alloc(), writers, count, u64::from(pause))?;
        let Totals {
            count,
            errors,
            total,
            bytes,
            least,
            greatest,
        } = t;
        println!(rt;
            "{writers} writers: {count} samples, {errors} errors, {total} ms, {bytes} bytes, {least} to {greatest} ms"
        )?;
    }
    Ok(())
}
