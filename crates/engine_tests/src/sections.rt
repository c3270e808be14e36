//! That one thread at a time is in a section, and which places the sections have.

use crate::fakes::{CountedTicker, Hold, Tally};
use crate::plans::{CROWDED_SECTION, SECTION};
use crate::running::{ROOM, held_books};
use edge_io::MemSink;
use jm_base::M;
use run_engine::RunBooks;
use std::alloc::Global;
use std::process::Abort;
use std::sync::Wait;
use std::sync::atomic::Ordering;
use std::test::Fail;
use std::thread::Threads;
use thread_machine::TraceItem;

// How often each of the first places stands in the traces, and how many sections have another place.
fn placed(alloc: Global, books: &RunBooks, places: usize) -> M<(Vec<u64>, u64)> {
    let mut counts = vec![in alloc; 0u64; places]?;
    let mut others = 0u64;
    for trace in books.traces.as_slice() {
        others = others.wrapping_add(count_places(trace.as_slice(), counts.as_mut_slice()));
    }
    Ok((counts, others))
}

// Counts the places of a trace, and gives how many of its sections have a place without a count.
fn count_places(trace: &[TraceItem], counts: &mut [u64]) -> u64 {
    let mut others = 0u64;
    for item in trace {
        if let TraceItem::Entered { place, .. } = item {
            match counts.get_mut(*place as usize) {
                Some(count) => *count = count.wrapping_add(1),
                None => others = others.wrapping_add(1),
            }
        }
    }
    others
}

// Whether each count is 1.
fn are_ones(counts: &[u64]) -> bool {
    for count in counts {
        if *count != 1 {
            return false;
        }
    }
    true
}

// How often a trace leaves a section.
fn leaves(trace: &[TraceItem]) -> u64 {
    let mut leaves = 0u64;
    for item in trace {
        if matches!(item, TraceItem::Left { .. }) {
            leaves = leaves.wrapping_add(1);
        }
    }
    leaves
}

// How many traces leave that many sections.
fn traces_leaving(books: &RunBooks, sections: u64) -> u64 {
    let mut traces = 0u64;
    for trace in books.traces.as_slice() {
        traces = traces.wrapping_add(u64::from(leaves(trace.as_slice()) == sections));
    }
    traces
}

// Runs a plan of that many threads, each of which enters one section that many times: no request comes while another has no
// reply, each place is there once, and each thread leaves the section as often as it enters it.
fn run_section<R: Threads + Wait + Sync + Abort>(
    rt: &R,
    alloc: Global,
    text: &[u8],
    threads: u64,
    sections: u64,
) -> Result<(), Fail> {
    let tally = Tally::new();
    let hold = Hold {
        sampler: u16::MAX,
        awaited: &tally.asked,
        least: 0,
        tally: &tally,
    };
    let mut ticker = CountedTicker::at_first(alloc, 0, &tally)?;
    let mut sink = MemSink::new(alloc, ROOM, Vec::new(alloc))?;
    let books = held_books(rt, alloc, text, hold, &mut ticker, &mut sink)?.ok_or("a write failed")?;
    let all = threads.wrapping_mul(sections);
    assert_eq!(rt; tally.asked.load(Ordering::SeqCst), all);
    assert_eq!(rt; tally.crowded.load(Ordering::SeqCst), 0);
    let (counts, others) = placed(alloc, &books, all as usize)?;
    assert_eq!(rt; others, 0);
    assert!(rt; are_ones(counts.as_slice()));
    assert_eq!(rt; traces_leaving(&books, sections), threads);
    Ok(())
}

#[test]
fn one_thread_at_a_time_is_in_a_section(rt: HostRuntime) -> Result<(), Fail> {
    run_section(&rt, rt.alloc(), SECTION, 8, 10)
}

#[test]
fn one_of_64_threads_at_a_time_is_in_a_section(rt: HostRuntime) -> Result<(), Fail> {
    run_section(&rt, rt.alloc(), CROWDED_SECTION, 64, 20)
}
