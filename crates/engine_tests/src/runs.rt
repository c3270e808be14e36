//! What a run prints, and that no sample is lost or counted twice.

use crate::given::{Given, Totals};
use crate::plans::{LOOP, many_samples};
use crate::printed::Printed;
use crate::running::{ROOM, plain};
use edge_io::MemSink;
use std::process::Abort;
use std::test::Fail;

/// What three rounds over two samplers count.
pub const LOOP_TOTALS: Totals = Totals {
    samples: 6,
    errors: 1,
    elapsed: 23,
    bytes: 6,
};

#[test]
fn a_run_without_a_tick_prints_one_report(rt: HostRuntime) -> Result<(), Fail> {
    let mut sink = MemSink::new(rt.alloc(), ROOM, Vec::new(rt.alloc()))?;
    let given = plain(&rt, rt.alloc(), LOOP, 0, &mut sink)?;
    let printed = Printed {
        lines: 1,
        misnumbered: 0,
        filled: 1,
        samples: 6,
    };
    assert_eq!(rt;
        given,
        Given {
            total: LOOP_TOTALS,
            intervals: 1,
            traces: 1,
            ended: 1,
            printed
        }
    );
    assert_eq!(rt;
        sink.bytes(),
        b"interval,0,6,1\nrow,0,A,3,1,17,0,5,7\nrow,0,B,3,0,6,6,2,2\n".as_slice()
    );
    Ok(())
}

#[test]
fn a_run_with_one_tick_prints_two_reports(rt: HostRuntime) -> Result<(), Fail> {
    let mut sink = MemSink::new(rt.alloc(), ROOM, Vec::new(rt.alloc()))?;
    let given = plain(&rt, rt.alloc(), LOOP, 1, &mut sink)?;
    let printed = Printed {
        lines: 2,
        misnumbered: 0,
        filled: given.printed.filled,
        samples: 6,
    };
    assert_eq!(rt;
        given,
        Given {
            total: LOOP_TOTALS,
            intervals: 2,
            traces: 1,
            ended: 1,
            printed
        }
    );
    Ok(())
}

// What that many threads with 100 samples each give, of which the number of intervals and how many of them have a sample
// hang on when they ran.
fn wanted(threads: u16, given: &Given) -> Given {
    let samples = u64::from(threads) * 100;
    let printed = Printed {
        lines: given.intervals,
        misnumbered: 0,
        filled: given.printed.filled,
        samples,
    };
    Given {
        total: Totals {
            samples,
            errors: 0,
            elapsed: samples * 5,
            bytes: 0,
        },
        intervals: given.intervals,
        traces: usize::from(threads),
        ended: u64::from(threads),
        printed,
    }
}

#[test]
fn each_sample_of_1_to_64_threads_counts_once(rt: HostRuntime) -> Result<(), Fail> {
    let cases = [
        (b"1".as_slice(), 1u16),
        (b"2".as_slice(), 2),
        (b"8".as_slice(), 8),
        (b"64".as_slice(), 64),
    ];
    for (digits, threads) in cases {
        let text = many_samples(rt.alloc(), digits)?;
        let mut sink = MemSink::new(rt.alloc(), ROOM, Vec::new(rt.alloc()))?;
        let given = plain(&rt, rt.alloc(), &text, 50, &mut sink)?;
        assert_eq!(rt; given, wanted(threads, &given));
        assert!(rt; given.intervals >= 2 && given.intervals <= 51);
    }
    Ok(())
}
