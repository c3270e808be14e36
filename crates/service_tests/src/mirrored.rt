//! Ten threads against a mirror over real sockets.

use crate::runs::{lines_with, run, samples};
use http_sampler::SocketStream;
use mirror_server::serve_one;
use std::alloc::Global;
use std::net::TcpListener;
use std::process::Abort;
use std::test::Fail;
use std::thread;
use std::time::Duration;

/// Each of ten threads logs in once, which gives it a token, and asks for three pages three times, one of them with the token.
const PLAN: &str = r#"{"type":"TestPlan","children":[
{"type":"HttpDefaults","props":{"host":"${__P(host)}","port":"${__P(port)}"}},
{"type":"ResponseAssertion","props":{"test":"substring","patterns":["HTTP/1.1"]}},
{"type":"ThreadGroup","name":"TG","props":{"threads":10,"rampMs":1000,"loops":3},"children":[
{"type":"OnceOnly","children":[
{"type":"Http","name":"login","props":{"path":"/login?token=abc123"},"children":[
{"type":"RegexExtractor","props":{"ref":"t","pattern":"token=(\\w+)"}}]}]},
{"type":"Http","name":"a","props":{"path":"/a"}},
{"type":"Http","name":"b","props":{"path":"/b","params":[["token","${t}"]]}},
{"type":"Http","name":"c","props":{"path":"/c"}}]}]}"#;

/// How many requests that makes.
const REQUESTS: u32 = 100;

/// How long a connection, a send or a receive waits for the other side, in seconds.
const PATIENCE: u64 = 30;

// Serves that many connections, and answers of how many the request was mirrored.
fn mirror(alloc: Global, listener: &TcpListener) -> u32 {
    let mut mirrored = 0u32;
    for _ in 0..REQUESTS {
        let Ok((socket, _)) = listener.accept() else {
            return mirrored;
        };
        let Ok(mut stream) = SocketStream::new(socket, Duration::from_secs(PATIENCE)) else {
            return mirrored;
        };
        mirrored = mirrored.wrapping_add(u32::from(serve_one(alloc, &mut stream).is_ok()));
    }
    mirrored
}

#[test]
fn ten_threads_are_mirrored_100_times(rt: HostRuntime) -> Result<(), Fail> {
    let alloc = rt.alloc();
    let listener = TcpListener::bind(&rt, "127.0.0.1:0")?;
    let port = listener.local_addr()?.port();
    let props = format!(in alloc; "host=127.0.0.1&port={port}")?;
    let limit = Duration::from_secs(PATIENCE);
    let (mirrored, printed) = thread::join(
        &rt,
        move || mirror(alloc, &listener),
        || run(&rt, rt, PLAN, props.as_str(), limit),
    );
    let printed = printed?;
    assert_eq!(rt; mirrored, REQUESTS);
    assert_eq!(rt; printed.status, 0);
    let results = printed.results.bytes();
    assert_eq!(rt; lines_with(results, ",TG 1-"), 100);
    assert_eq!(rt; lines_with(results, ",true,"), 100);
    assert_eq!(rt; lines_with(results, ",login,200,OK,"), 10);
    let reports = printed.reports.bytes();
    assert_eq!(rt; samples(reports), 100);
    assert_eq!(rt; lines_with(reports, "all,100,0,"), 1);
    Ok(())
}
