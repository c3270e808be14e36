//! That workers run at the same time as each other, and as the reporter, which judges each closed report.

use crate::fakes::{CountedTicker, Counts, Hold, Tally};
use crate::given::{Given, Totals};
use crate::plans::{LOOP, TWO_SAMPLES, TWO_THREADS};
use crate::printed::Printed;
use crate::running::{ROOM, held};
use crate::runs::LOOP_TOTALS;
use edge_io::MemSink;
use std::process::Abort;
use std::test::Fail;

#[test]
fn two_threads_ask_at_once(rt: HostRuntime) -> Result<(), Fail> {
    let tally = Tally::new();
    let hold = Hold {
        sampler: 2,
        awaited: &tally.asked,
        least: 2,
        tally: &tally,
    };
    let mut ticker = CountedTicker::at_first(rt.alloc(), 0, &tally)?;
    let mut sink = MemSink::new(rt.alloc(), ROOM, Vec::new(rt.alloc()))?;
    let given = held(&rt, rt.alloc(), TWO_THREADS, hold, &mut ticker, &mut sink)?;
    let counts = tally.counts();
    assert_eq!(rt;
        counts,
        Counts {
            missed: 0,
            closed: 2,
            ticks: counts.ticks,
            judged: 0
        }
    );
    assert_eq!(rt; given.ok_or("a write failed")?.ended, 2);
    assert_eq!(rt;
        sink.bytes(),
        b"interval,0,2,0\nrow,0,A,2,0,10,0,5,5\n".as_slice()
    );
    Ok(())
}

#[test]
fn a_report_is_judged_while_a_thread_runs(rt: HostRuntime) -> Result<(), Fail> {
    let tally = Tally::new();
    let hold = Hold {
        sampler: 3,
        awaited: &tally.seen,
        least: 1,
        tally: &tally,
    };
    let mut ticker = CountedTicker::for_ever(rt.alloc(), &tally);
    let mut sink = MemSink::new(rt.alloc(), ROOM, Vec::new(rt.alloc()))?;
    let given = held(&rt, rt.alloc(), TWO_SAMPLES, hold, &mut ticker, &mut sink)?;
    assert_eq!(rt; tally.counts().missed, 0);
    let intervals = tally.counts().judged.wrapping_add(1);
    let printed = Printed {
        lines: intervals,
        misnumbered: 0,
        filled: 2,
        samples: 2,
    };
    let total = Totals {
        samples: 2,
        errors: 0,
        elapsed: 7,
        bytes: 0,
    };
    assert_eq!(rt;
        given,
        Some(Given {
            total,
            intervals,
            traces: 1,
            ended: 1,
            printed
        })
    );
    Ok(())
}

#[test]
fn each_report_but_the_last_is_judged_once(rt: HostRuntime) -> Result<(), Fail> {
    let tally = Tally::new();
    let hold = Hold {
        sampler: 4,
        awaited: &tally.judged,
        least: 5,
        tally: &tally,
    };
    let mut ticker = CountedTicker::for_ever(rt.alloc(), &tally);
    let mut sink = MemSink::new(rt.alloc(), ROOM, Vec::new(rt.alloc()))?;
    let given = held(&rt, rt.alloc(), LOOP, hold, &mut ticker, &mut sink)?.ok_or("a write failed")?;
    let before_the_last = given.printed.lines.wrapping_sub(1);
    assert!(rt; before_the_last >= 5);
    assert_eq!(rt;
        tally.counts(),
        Counts {
            missed: 0,
            closed: 1,
            ticks: before_the_last,
            judged: before_the_last
        }
    );
    assert_eq!(rt; given.total, LOOP_TOTALS);
    Ok(())
}
