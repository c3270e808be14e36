// Random orders of the steps of five writers, of whom two share a stripe, and the reporter.

ghost use Rattle.std.specs.Prelude.{◌≤◌};

use interval_tables::{NO_SAMPLES, Row};
use jm_base::{Entry, M};
use phaser_core::{Applied, Core, Event};
use rand_chacha::ChaCha8Rng;
use rand_core::SeedableRng;
use rand_core::utils::NextWord;
use std::alloc::Global;
use std::process::Abort;
use std::test::Fail;

const SCHEDULES: u32 = 2000;

const EVENTS: u32 = 120;

// The samples beside a core: those recorded, each with its interval, and what each writer has loaded.
#[derive(Drop)]
struct Samples {
    recorded: Vec<(u64, Entry)>,
    loaded: [Option<(u64, Entry)>; 5],
}

// the first of these events that does a step, and the number that it found
fn advance(core: &mut Core, alloc: Global, events: &[Event]) -> M<Option<(Event, u64)>> {
    for event in events {
        let applied = core.apply(alloc, *event)?;
        if let Applied::Old(found) = applied {
            return Ok(Some((*event, found)));
        }
    }
    Ok(None)
}

// a step of a writer
fn write(core: &mut Core, alloc: Global, samples: &mut Samples, writers: u32, word: u32) -> M<()>
    requires some { 1 ≤ writers }
    requires most { writers ≤ 5 }
{
    let index = (word % writers) as usize;
    let writer = index as u16;
    let entry = Entry {
        label: 0,
        ok: word % 2 == 0,
        elapsed: word >> 8,
        bytes: word & 0xff,
    };
    let events = [
        Event::Exit(writer),
        Event::Raise(writer),
        Event::Lower(writer),
        Event::Add(writer),
        Event::Load(writer, entry),
        Event::Enter(writer),
    ];
    let step = advance(core, alloc, &events)?;
    match step {
        Some((Event::Load(_, entry), interval)) => {
            samples.loaded[index] = Some((interval, entry));
        }
        Some((Event::Exit(_), _)) => {
            if let Some(sample) = samples.loaded[index] {
                samples.recorded.push(sample)?;
            }
        }
        _ => {}
    }
    Ok(())
}

// a step of the reporter
fn report(core: &mut Core, alloc: Global) -> M<()> {
    let events = [
        Event::Take,
        Event::Look,
        Event::Flip,
        Event::ClearEnd,
        Event::SwapActive,
    ];
    let _step = advance(core, alloc, &events)?;
    Ok(())
}

// the plain sums of the samples of an interval
fn sums(recorded: &[(u64, Entry)], interval: u64) -> Row {
    let mut row = NO_SAMPLES;
    for (counted, entry) in recorded {
        if *counted == interval {
            let elapsed = u64::from(entry.elapsed);
            row.least = if row.count == 0 {
                elapsed
            } else {
                row.least.min(elapsed)
            };
            row.greatest = row.greatest.max(elapsed);
            row.count = row.count.wrapping_add(1);
            row.errors = row.errors.wrapping_add(u64::from(!entry.ok));
            row.total = row.total.wrapping_add(elapsed);
            row.bytes = row.bytes.wrapping_add(u64::from(entry.bytes));
        }
    }
    row
}

// compares each closed report with the plain sums, and tells how many samples they have
fn compare(rt: &impl Abort, core: &Core, samples: &Samples) -> u64 {
    let mut interval = 0u64;
    let mut counted = 0u64;
    for closed in core.closed() {
        let row = sums(&samples.recorded, interval);
        assert_eq!(rt; closed.interval, interval);
        assert_eq!(rt; closed.rows.as_slice(), [row].as_slice());
        interval = interval.wrapping_add(1);
        counted = counted.wrapping_add(row.count);
    }
    counted
}

// one schedule, in which that many of the writers record, and the reporter has its share of the steps; how many samples its closed reports have
fn schedule<R: Abort + AllocGlobal>(rt: &R, words: &mut ChaCha8Rng) -> Result<u64, Fail> {
    let mut core = Core::new(rt.alloc(), 1, 5, 10)?;
    for _writer in 0..4u8 {
        let _made = core.apply(rt.alloc(), Event::Split)?;
    }
    let mut samples = Samples {
        recorded: Vec::new(rt.alloc()),
        loaded: [None; 5],
    };
    let writers = 1 + words.next_word() % 5;
    let share = 1 + words.next_word() % 3;
    for _event in 0..EVENTS {
        if words.next_word() % 4 < share {
            report(&mut core, rt.alloc())?;
        } else {
            write(
                &mut core,
                rt.alloc(),
                &mut samples,
                writers,
                words.next_word(),
            )?;
        }
    }
    Ok(compare(rt, &core, &samples))
}

#[test]
fn closed_reports_are_the_plain_sums_in_random_schedules(rt: HostRuntime) -> Result<(), Fail> {
    let mut words = ChaCha8Rng::from_seed([7; 32]);
    let mut counted = 0u64;
    for _schedule in 0..SCHEDULES {
        counted = counted.wrapping_add(schedule(&rt, &mut words)?);
    }
    assert!(rt; counted > 100);
    Ok(())
}

// a writer that begins before the interval is swapped, and loads after that, finds the next interval
#[test]
fn a_load_after_the_swap_finds_the_next_interval(rt: HostRuntime) -> Result<(), Fail> {
    let mut core = Core::new(rt.alloc(), 1, 1, 10)?;
    let entry = Entry {
        label: 0,
        ok: true,
        elapsed: 5,
        bytes: 0,
    };
    let early = core.apply(rt.alloc(), Event::Load(0, entry))?;
    assert_eq!(rt; early, Applied::NotEnabled);
    let entered = core.apply(rt.alloc(), Event::Enter(0))?;
    assert_eq!(rt; entered, Applied::Old(0));
    let swapped = core.apply(rt.alloc(), Event::SwapActive)?;
    assert_eq!(rt; swapped, Applied::Old(0));
    let loaded = core.apply(rt.alloc(), Event::Load(0, entry))?;
    assert_eq!(rt; loaded, Applied::Old(1));
    Ok(())
}
