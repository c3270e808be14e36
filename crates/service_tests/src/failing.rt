//! A run over real sockets at peers that go wrong: the message of each sample, and that the run goes on.

use crate::runs::{lines_with, run};
use std::io::{Read, Write};
use std::net::TcpListener;
use std::process::Abort;
use std::test::Fail;
use std::time::Duration;
use std::{io, thread};

/// A thread asks each peer once, and in the end one that answers.
const PLAN: &str = r#"{"type":"TestPlan","children":[
{"type":"HttpDefaults","props":{"host":"127.0.0.1","port":"${__P(port)}"}},
{"type":"ThreadGroup","name":"TG","children":[
{"type":"Http","name":"refuses","props":{"port":"${__P(refusing)}"}},
{"type":"Http","name":"never answers","props":{"port":"${__P(silent)}"}},
{"type":"Http","name":"closes"},
{"type":"Http","name":"half a head"},
{"type":"Http","name":"without end"},
{"type":"Http","name":"byte by byte"},
{"type":"Http","name":"answers"}]}]}"#;

/// What the line of each sampler holds, from its label to the length of its body.
const RESULTS: [&str; 7] = [
    ",refuses,0,fault,TG 1-1,false,,0,",
    ",never answers,0,fault,TG 1-1,false,,0,",
    ",closes,0,end early,TG 1-1,false,,0,",
    ",half a head,0,end early,TG 1-1,false,,0,",
    ",without end,0,too long,TG 1-1,false,,0,",
    ",byte by byte,200,OK,TG 1-1,true,,5,",
    ",answers,200,OK,TG 1-1,true,,5,",
];

/// A whole response.
const RESPONSE: &[u8] = b"HTTP/1.1 200 OK\r\nContent-Length: 5\r\n\r\nhello";

/// How long a connection, a send or a receive waits for the other side, in seconds.
const PATIENCE: u64 = 2;

/// What a peer sends, in pieces of which size, and how often.
#[derive(Clone, Copy)]
struct Peer {
    text: &'static [u8],
    size: usize,
    times: u32,
}

// The peers of the last five samplers.
fn peers() -> [Peer; 5] {
    [
        Peer {
            text: b"",
            size: 1,
            times: 0,
        },
        Peer {
            text: b"HTTP/1.1 2",
            size: 4096,
            times: 1,
        },
        Peer {
            text: b"HTTP/1.1 200 OK\r\n\r\nand so on",
            size: 4096,
            times: 1_000_000,
        },
        Peer {
            text: RESPONSE,
            size: 1,
            times: 1,
        },
        Peer {
            text: RESPONSE,
            size: 4096,
            times: 1,
        },
    ]
}

// Serves one connection: its request, which comes in one piece, and the text that many times, or until the other side closes.
fn serve(listener: &TcpListener, peer: Peer) -> io::Result<()> {
    let (mut stream, _) = listener.accept()?;
    stream.set_nodelay(true)?;
    let mut request = [0u8; 4096];
    stream.read(&mut request)?;
    for _ in 0..peer.times {
        for piece in peer.text.chunks(peer.size.max(1)) {
            if stream.write_all(piece).is_err() {
                return Ok(());
            }
        }
    }
    Ok(())
}

// Serves one connection after another, one by each peer.
fn serve_all(listener: &TcpListener) -> io::Result<()> {
    for peer in peers() {
        serve(listener, peer)?;
    }
    Ok(())
}

#[test]
fn each_peer_has_its_message_and_the_run_goes_on(rt: HostRuntime) -> Result<(), Fail> {
    let alloc = rt.alloc();
    let listener = TcpListener::bind(&rt, "127.0.0.1:0")?;
    let port = listener.local_addr()?.port();
    // Nobody accepts its connections: the system does, and nothing answers.
    let silent = TcpListener::bind(&rt, "127.0.0.1:0")?;
    let silent_port = silent.local_addr()?.port();
    let refusing = TcpListener::bind(&rt, "127.0.0.1:0")?;
    let refusing_port = refusing.local_addr()?.port();
    drop(refusing);
    let props = format!(in alloc; "port={port}&silent={silent_port}&refusing={refusing_port}")?;
    let limit = Duration::from_secs(PATIENCE);
    let (served, printed) = thread::join(
        &rt,
        move || serve_all(&listener),
        || run(&rt, rt, PLAN, props.as_str(), limit),
    );
    let printed = printed?;
    served?;
    assert_eq!(rt; printed.status, 0);
    let results = printed.results.bytes();
    for line in RESULTS {
        assert_eq!(rt; lines_with(results, line), 1);
    }
    assert_eq!(rt; lines_with(results, ",TG 1-1,"), 7);
    let reports = printed.reports.bytes();
    assert_eq!(rt; lines_with(reports, "all,7,5,"), 1);
    assert_eq!(rt; lines_with(reports, "end,TG 1-1,Completed"), 1);
    Ok(())
}
