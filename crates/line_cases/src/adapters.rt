// Sources and sinks over a reader and a writer of the standard library whose answers the case gives.

ghost use Rattle.std.specs.Prelude.{◌≤◌, IfOk};

use crate::edges::{read_steps, write_steps};
use crate::words::whole;
use edge_io::{FromRead, IntoWrite};
use jm_base::M;
use std::alloc::Global;
use std::io::{self, ErrorKind, Read, Write};

// What the next call of a reader or a writer does.
#[derive(Clone, Copy)]
enum Turn {
    Take(usize),
    Interrupted,
    Broken,
}

#[derive(Drop)]
struct Scripted {
    turns: Vec<Turn>,
    at: usize,
}

// The turn that a word spells.
fn turn_of(word: &str) -> Option<Turn> {
    match word.split_once('=') {
        Some(("take", count)) => Some(Turn::Take(whole(count) as usize)),
        None if word == "interrupted" => Some(Turn::Interrupted),
        None if word == "broken" => Some(Turn::Broken),
        _ => None,
    }
}

impl Scripted {
    // Its turns are the words `take=COUNT`, `interrupted` and `broken`. After them it takes nothing.
    fn of(alloc: Global, given: &str) -> M<Scripted> {
        let mut turns = Vec::new(alloc);
        for word in given.split(' ') {
            if let Some(turn) = turn_of(word) {
                turns.push(turn)?;
            }
        }
        Ok(Scripted { turns, at: 0 })
    }

    // How many of this many bytes the next call takes.
    fn turn(&mut self, most: usize) -> io::Result<usize>
        ensures { IfOk result (λ n. n ≤ most) }
    {
        let turn = self.turns.get(self.at).copied().unwrap_or(Turn::Take(0));
        self.at = self.at.saturating_add(1);
        match turn {
            Turn::Take(count) => Ok(count.min(most)),
            Turn::Interrupted => Err(io::Error::from(ErrorKind::Interrupted)),
            Turn::Broken => Err(io::Error::from(ErrorKind::BrokenPipe)),
        }
    }
}

impl Read for Scripted {
    fn read(&mut self, buf: &mut [u8]) -> io::Result<usize> {
        let count = self.turn(buf.len())?;
        buf[..count].fill(b'r');
        Ok(count)
    }
}

impl Write for Scripted {
    fn write(&mut self, buf: &[u8]) -> io::Result<usize> {
        self.turn(buf.len())
    }

    fn flush(&mut self) -> io::Result<()> {
        Ok(())
    }
}

/// A source over a reader of these turns, which gives `r` alone.
pub fn reader_case(alloc: Global, given: &str, out: &mut String) -> M<()> {
    let mut source = FromRead::new(Scripted::of(alloc, given)?);
    read_steps(alloc, &mut source, given, out)
}

/// A sink over a writer of these turns.
pub fn writer_case(alloc: Global, given: &str, out: &mut String) -> M<()> {
    let mut sink = IntoWrite::new(Scripted::of(alloc, given)?);
    write_steps(alloc, &mut sink, given, out)
}
