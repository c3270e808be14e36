// Sources and sinks in memory.

use crate::words::{after, counting, numbers, plain, whole};
use edge_io::{MemSink, MemSource, ReadError, Sink, Source, read_all, write_all};
use jm_base::M;
use std::alloc::{AllocError, Global};

// What one read answers, and the buffer that it was given, which held `~` alone.
fn read_once<S: Source>(alloc: Global, source: &mut S, room: u32, out: &mut String) -> M<()> {
    let mut buffer = Vec::from_elem(alloc, b'~', room as usize)?;
    let answer = source.read(buffer.as_mut_slice());
    write!(out, "= {answer:?} [{}]\n", plain(&buffer))?;
    Ok(())
}

// What a reading to the end gives. What it promises is left out here, so that no proof above carries it along.
fn read_to_end<S: Source>(alloc: Global, source: &mut S, limit: u32) -> Result<Vec<u8>, ReadError> {
    read_all(alloc, source, limit.min(4_194_304))
}

fn write_end(answer: Result<Vec<u8>, ReadError>, out: &mut String) -> Result<(), AllocError> {
    match answer {
        Ok(bytes) => write_held(&bytes, out),
        Err(error) => write!(out, "= {error:?}: {error}\n"),
    }
}

// How many bytes there are, and which.
fn write_held(bytes: &[u8], out: &mut String) -> Result<(), AllocError> {
    write!(out, "= {} bytes [{}]\n", bytes.len(), plain(bytes))
}

// What the call of a word gives.
fn read_step<S: Source>(alloc: Global, source: &mut S, word: &str, out: &mut String) -> M<()> {
    match word.split_once('=') {
        Some(("into", room)) => read_once(alloc, source, whole(room), out),
        Some(("limit", limit)) => { Ok(write_end(read_to_end(alloc, source, whole(limit)), out)?) }
        _ => Ok(()),
    }
}

/// Makes the calls of these words on a source, one after another: `into=ROOM` is one read, and `limit=LIMIT` a reading
/// to the end.
pub fn read_steps<S: Source>(
    alloc: Global,
    source: &mut S,
    given: &str,
    out: &mut String,
) -> M<()> {
    for word in given.split(' ') {
        read_step(alloc, source, word, out)?;
    }
    Ok(())
}

// What one write of that many bytes gives.
fn write_once<K: Sink>(alloc: Global, sink: &mut K, count: u32, out: &mut String) -> M<()> {
    let piece = counting(alloc, count)?;
    write!(out, "= {:?}\n", sink.write(&piece))?;
    Ok(())
}

// What a write of all of that many bytes gives.
fn write_whole<K: Sink>(alloc: Global, sink: &mut K, count: u32, out: &mut String) -> M<()> {
    let piece = counting(alloc, count)?;
    write!(out, "= {:?}\n", write_all(sink, &piece))?;
    Ok(())
}

// What the call of a word gives.
fn write_step<K: Sink>(alloc: Global, sink: &mut K, word: &str, out: &mut String) -> M<()> {
    match word.split_once('=') {
        Some(("one", count)) => write_once(alloc, sink, whole(count), out),
        Some(("all", count)) => write_whole(alloc, sink, whole(count), out),
        _ => Ok(()),
    }
}

/// Makes the calls of these words on a sink, one after another: `one=COUNT` is one write of that many bytes, and
/// `all=COUNT` a write of all of them.
pub fn write_steps<K: Sink>(alloc: Global, sink: &mut K, given: &str, out: &mut String) -> M<()> {
    for word in given.split(' ') {
        write_step(alloc, sink, word, out)?;
    }
    Ok(())
}

/// A source of `bytes=COUNT` bytes, of which the calls `failing=NUMBERS` fail.
pub fn source_case(alloc: Global, given: &str, out: &mut String) -> M<()> {
    let bytes = counting(alloc, whole(after(given, "bytes")))?;
    let failing = numbers(alloc, after(given, "failing"), ',')?;
    let mut source = MemSource::new(bytes, failing);
    read_steps(alloc, &mut source, given, out)
}

/// A sink with room for `room=COUNT` bytes, of which the calls `failing=NUMBERS` fail, and at last what it holds.
pub fn sink_case(alloc: Global, given: &str, out: &mut String) -> M<()> {
    let failing = numbers(alloc, after(given, "failing"), ',')?;
    let mut sink = MemSink::new(alloc, whole(after(given, "room")), failing)?;
    write_steps(alloc, &mut sink, given, out)?;
    write_held(sink.bytes(), out)?;
    Ok(())
}
