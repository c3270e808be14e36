//! Runs of the whole program over real sockets, and what they print.
ghost use Rattle.std.specs.Prelude.{◌≡◌, []};

use edge_io::{MemSink, MemSource};
use element_tree::RegexPatterns;
use http_sampler::SocketWorld;
use interval_reporter::{Reporter, stops_past};
use jm_command::start;
use outside_world::RealTicker;
use std::sync::Wait;
use std::test::Fail;
use std::thread::Threads;
use std::time::Duration;

/// Room for each of the two outputs.
const ROOM: u32 = 1_000_000;

/// What a run came to.
#[derive(Drop)]
pub struct Printed {
    pub status: u8,
    pub results: MemSink,
    pub reports: MemSink,
}

/// A run of a plan with these properties, whose connections, sends and receives each wait for a peer that long at most.
pub fn run<R: Threads + Wait + Sync>(
    rt: &R,
    net: HostRuntime,
    plan: &str,
    props: &str,
    limit: Duration,
) -> Result<Printed, Fail> {
    let alloc = net.alloc();
    let mut words = Vec::new(alloc);
    for word in ["run", "--every", "500", "--props", props] {
        words.push(String::from_str(alloc, word)?)?;
    }
    let mut plan = MemSource::new(Vec::from_slice(alloc, plan.as_bytes())?, Vec::new(alloc));
    let mut results = MemSink::new(alloc, ROOM, Vec::new(alloc))?;
    let mut reports = MemSink::new(alloc, ROOM, Vec::new(alloc))?;
    let mut world = SocketWorld::with_limit(net, alloc, limit);
    let status = start(
        rt,
        alloc,
        &words,
        &mut plan,
        &mut results,
        &mut reports,
        &mut world,
        &mut RealTicker::new(net),
        Reporter::new(stops_past),
        &mut RegexPatterns::new(Vec::new(alloc)),
    );
    Ok(Printed {
        status,
        results,
        reports,
    })
}

/// How many lines of a text hold a part.
pub fn lines_with(text: &[u8], part: &str) -> u32 {
    let mut count = 0u32;
    for line in str::from_utf8(text).unwrap_or("").split('\n') {
        if line.contains(part) {
            count = count.wrapping_add(1);
        }
    }
    count
}

/// The samples of all intervals of a text of reports.
pub fn samples(text: &[u8]) -> u32 {
    let mut samples = 0u32;
    for line in str::from_utf8(text).unwrap_or("").split('\n') {
        if let Some(rest) = line.strip_prefix("interval,") {
            let count = rest.split(',').nth(1).unwrap_or("");
            samples = samples.wrapping_add(count.parse::<u32>().unwrap_or(0));
        }
    }
    samples
}
