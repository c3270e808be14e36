// The ways to cut a response into pieces, and what comes of each.

use crate::calls;
use crate::shown::{error_name, write_finish};
use http_text::{Fed, ResponseReader, WireError};
use jm_base::{M, Reply};
use std::alloc::{AllocError, Global};

/// What came of a response, and after how many bytes.
#[derive(Drop)]
pub struct Came {
    /// The reply or the refusal, and how it came.
    pub answer: String,
    /// How many bytes belong to the response, or had come when it was refused.
    pub place: usize,
    /// Whether it was refused before its end.
    refused: bool,
}

/// A whole response. A further piece has to be used for nothing.
fn done(alloc: Global, mut reader: ResponseReader, place: usize) -> M<Came> {
    let further = calls::feed(&mut reader, b"HTTP/1.1");
    let mut answer = String::new(alloc);
    write_finish(calls::finish(reader), &mut answer)?;
    answer.push_str(if further == Ok(Fed::Done { used: 0 }) {
        "\tdone"
    } else {
        "\tdone, and then something else"
    })?;
    Ok(Came {
        answer,
        place,
        refused: false,
    })
}

/// Whether the last call of a reader gives this error.
fn finishes_with(finish: Result<Reply, WireError>, error: WireError) -> bool {
    match finish {
        Ok(_) => false,
        Err(last) => last == error,
    }
}

/// A refusal. Each later call has to give the same.
fn refused(alloc: Global, mut reader: ResponseReader, error: WireError, place: usize) -> M<Came> {
    let further = calls::feed(&mut reader, b"\r\n\r\n");
    let rest = if further == Err(error) && finishes_with(calls::finish(reader), error) {
        ""
    } else {
        ", and then something else"
    };
    Ok(Came {
        answer: format!(in alloc; "{}{rest}", error_name(error))?,
        place,
        refused: true,
    })
}

/// What comes of a response in these pieces, and then the end of input.
pub fn read_pieces<'p>(alloc: Global, head_only: bool, pieces: &[&'p [u8]]) -> M<Came> {
    let mut reader = calls::reader(alloc, head_only)?;
    let mut place = 0usize;
    for piece in pieces {
        match calls::feed(&mut reader, piece) {
            Ok(Fed::More) => place = place.saturating_add(piece.len()),
            Ok(Fed::Done { used }) => {
                return done(alloc, reader, place.saturating_add(used as usize));
            }
            Err(error) => return refused(alloc, reader, error, place.saturating_add(piece.len())),
        }
    }
    let mut answer = String::new(alloc);
    write_finish(calls::finish(reader), &mut answer)?;
    answer.push_str("\tat the end")?;
    Ok(Came {
        answer,
        place,
        refused: false,
    })
}

/// What comes of a response in pieces of a size.
pub fn sized(alloc: Global, head_only: bool, text: &[u8], size: usize) -> M<Came> {
    let mut pieces = Vec::new(alloc);
    for piece in text.chunks(size.max(1)) {
        pieces.push(piece)?;
    }
    read_pieces(alloc, head_only, &pieces)
}

/// Whether each proper prefix of a response is one that ends early.
pub fn prefixes(
    alloc: Global,
    head_only: bool,
    text: &[u8],
    out: &mut String,
) -> anyhow::Result<()> {
    for cut in 0..text.len() {
        let way = read_pieces(alloc, head_only, &[text.get(..cut).unwrap_or(text)])?;
        if way.answer.as_str() != "EndEarly\tat the end" {
            write!(out, "after {cut} bytes it is {}", way.answer)?;
            return Ok(());
        }
    }
    write!(out, "EndEarly after each of {} prefixes", text.len())?;
    Ok(())
}

/// Reads a response in pieces of a size, and lets go what came of it.
pub fn read_through(alloc: Global, head_only: bool, text: &[u8], size: usize) -> M<()> {
    let mut reader = calls::reader(alloc, head_only)?;
    for piece in text.chunks(size.max(1)) {
        if calls::feed(&mut reader, piece) != Ok(Fed::More) {
            break;
        }
    }
    let _reply = calls::finish(reader);
    Ok(())
}

/// Where a response is refused that is cut in two and refused at this byte: with the piece that has it.
fn refused_at(place: usize, cut: usize, length: usize) -> usize {
    if place <= cut { cut } else { length }
}

/// Whether a way gave what reading byte by byte gave.
fn agrees(way: &Came, bytewise: &Came, cut: usize, length: usize) -> bool {
    if way.answer.as_str() != bytewise.answer.as_str() {
        return false;
    }
    if bytewise.refused {
        return way.place == refused_at(bytewise.place, cut, length);
    }
    way.place == bytewise.place
}

/// Whether a way gave something else than reading byte by byte; then both are written.
fn writes_difference(
    how: &str,
    way: &Came,
    bytewise: &Came,
    cut: usize,
    length: usize,
    out: &mut String,
) -> Result<bool, AllocError> {
    if agrees(way, bytewise, cut, length) {
        return Ok(false);
    }
    write!(
        out,
        "{how} {cut} it is {} {}, and byte by byte {} {}",
        way.answer, way.place, bytewise.answer, bytewise.place
    )?;
    Ok(true)
}

/// What comes of a response that is read byte by byte, whole, and cut in two at every place; and whether all ways agree.
pub fn all_ways(
    alloc: Global,
    head_only: bool,
    text: &[u8],
    out: &mut String,
) -> anyhow::Result<()> {
    let bytewise = sized(alloc, head_only, text, 1)?;
    let mut ways = 1usize;
    for cut in 0..text.len() + 1 {
        let first = text.get(..cut).unwrap_or(text);
        let second = text.get(cut..).unwrap_or(&[]);
        let way = read_pieces(alloc, head_only, &[first, second])?;
        if writes_difference("cut at", &way, &bytewise, cut, text.len(), out)? {
            return Ok(());
        }
        ways = ways.saturating_add(1);
    }
    let whole = read_pieces(alloc, head_only, &[text])?;
    if writes_difference("whole, cut at", &whole, &bytewise, 0, text.len(), out)? {
        return Ok(());
    }
    ways = ways.saturating_add(1);
    write!(out, "{} {}\t{ways} ways", bytewise.answer, bytewise.place)?;
    Ok(())
}
