//! `jm`: runs JMeter test plans that are written as JSON.
#![tactic(auto)]

use edge_io::{FromRead, IntoWrite};
use element_tree::RegexPatterns;
use http_sampler::SocketWorld;
use interval_reporter::{Reporter, stops_past};
use jm_base::{M, NoMemory};
use jm_command::{Status, start};
use outside_world::RealTicker;
use std::alloc::Global;
use std::net::UdpSocket;
use std::os::fd::AsRawFd;
use std::process::ExitCode;
use std::{env, io};

// The words of the command line without the program's own name. Where one of them is not a text, there are none.
fn words_of(rt: &HostRuntime, alloc: Global) -> M<Vec<String>> {
    let mut words = Vec::new(alloc);
    let all = match env::args(rt) {
        Ok(all) => all,
        Err(error) if error.kind() == io::ErrorKind::OutOfMemory => return Err(NoMemory),
        Err(_) => return Ok(words),
    };
    for word in all.skip(1) {
        words.push(word)?;
    }
    Ok(words)
}

// How many files a process has open from its start: standard input, output and error, under the numbers from 0.
const STANDARD_FILES: i32 = 3;

// Takes the numbers of those standard files that are closed, for as long as the answer is kept. The system gives each new socket
// the lowest number that is free, so that a report would go to a server where standard error is closed. A write to a socket
// without a peer fails instead.
fn closed_files(rt: &HostRuntime, alloc: Global) -> M<Vec<UdpSocket>> {
    let mut taken = Vec::new(alloc);
    for _ in 0..STANDARD_FILES {
        match UdpSocket::bind(rt, "127.0.0.1:0") {
            Ok(socket) if socket.as_raw_fd() < STANDARD_FILES => taken.push(socket)?,
            _ => return Ok(taken),
        }
    }
    Ok(taken)
}

fn main(rt: HostRuntime) -> ExitCode {
    let alloc = rt.alloc();
    let (Ok(words), Ok(_closed)) = (words_of(&rt, alloc), closed_files(&rt, alloc)) else {
        return ExitCode::from(Status::Memory.number());
    };
    let mut plan = FromRead::new(rt.stdin());
    let mut results = IntoWrite::new(rt.stdout());
    let mut reports = IntoWrite::new(rt.stderr());
    let mut world = SocketWorld::new(rt, alloc);
    let mut ticker = RealTicker::new(rt);
    let mut patterns = RegexPatterns::new(Vec::new(alloc));
    ExitCode::from(start(
        &rt,
        alloc,
        &words,
        &mut plan,
        &mut results,
        &mut reports,
        &mut world,
        &mut ticker,
        Reporter::new(stops_past),
        &mut patterns,
    ))
}
