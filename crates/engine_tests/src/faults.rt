//! What stands after a write that failed.

use crate::fakes::{CountedTicker, Counts, Hold, Tally};
use crate::given::Given;
use crate::plans::TWO_THREADS;
use crate::running::{ROOM, held};
use edge_io::MemSink;
use std::alloc::Global;
use std::process::Abort;
use std::sync::Wait;
use std::test::Fail;
use std::thread::Threads;

// Fails the write of a number: the last report's, or that of a report before where the ticker is true for ever. Each report
// is one write. The threads are held until the ticker was asked for that report's interval, so that none has a sample before.
fn fail_at<R: Threads + Wait + Sync>(
    rt: &R,
    alloc: Global,
    tally: &Tally,
    write: u32,
    is_always: bool,
) -> Result<(Option<Given>, MemSink), Fail> {
    let hold = Hold {
        sampler: 2,
        awaited: &tally.ticks,
        least: u64::from(write) + 1,
        tally,
    };
    let mut ticker = if is_always {
        CountedTicker::for_ever(alloc, tally)
    } else {
        CountedTicker::at_first(alloc, write as usize, tally)?
    };
    let mut sink = MemSink::new(alloc, ROOM, vec![in alloc; write]?)?;
    let given = held(rt, alloc, TWO_THREADS, hold, &mut ticker, &mut sink)?;
    Ok((given, sink))
}

#[test]
fn a_write_that_fails_ends_the_run_and_all_threads(rt: HostRuntime) -> Result<(), Fail> {
    let cases = [
        (0u32, b"".as_slice()),
        (1, b"interval,0,0,0\n".as_slice()),
        (2, b"interval,0,0,0\ninterval,1,0,0\n".as_slice()),
    ];
    for (write, out) in cases {
        for is_always in [true, false] {
            let tally = Tally::new();
            let (given, sink) = fail_at(&rt, rt.alloc(), &tally, write, is_always)?;
            assert_eq!(rt; given, None);
            let counts = tally.counts();
            assert_eq!(rt;
                counts,
                Counts {
                    missed: 0,
                    closed: 2,
                    ticks: counts.ticks,
                    judged: u64::from(write)
                }
            );
            assert_eq!(rt; sink.bytes(), out);
        }
    }
    Ok(())
}
