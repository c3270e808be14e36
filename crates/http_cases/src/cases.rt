// The cases, one line each.

use crate::calls;
use crate::exchanges::exchanged;
use crate::mirrors::{mirrored, mirrored_in, mirrored_with_faults};
use crate::requests::requested;
use crate::shown::{write_fed, write_finish};
use crate::ways::{all_ways, prefixes, read_through, sized};
use case_words::{at, bytes_of, fields_of};
use std::alloc::Global;

/// What the lines so far have set.
#[derive(Clone, Copy)]
pub struct Cases {
    repeat: u32,
}

/// A response in the pieces of a line.
fn in_pieces(
    alloc: Global,
    head_only: bool,
    pieces: &[&str],
    out: &mut String,
) -> anyhow::Result<()> {
    let mut reader = calls::reader(alloc, head_only)?;
    for piece in pieces {
        let piece = bytes_of(alloc, piece)?;
        write_fed(calls::feed(&mut reader, &piece), out)?;
    }
    write_finish(calls::finish(reader), out)?;
    Ok(())
}

/// A request that is mirrored.
fn mirror_case(alloc: Global, fields: &[&str], out: &mut String) -> anyhow::Result<()> {
    if at(fields, 0) == "mirror" {
        let text = bytes_of(alloc, at(fields, 1))?;
        return mirrored(alloc, &text, out);
    }
    let size = at(fields, 1).parse::<usize>()?;
    let text = bytes_of(alloc, at(fields, 2))?;
    if at(fields, 0) == "mirror-faults" {
        return mirrored_with_faults(alloc, &text, size, out);
    }
    mirrored_in(alloc, &text, size, out)
}

/// A whole response, or each proper prefix of one.
fn response_case(alloc: Global, fields: &[&str], out: &mut String) -> anyhow::Result<()> {
    let head_only = at(fields, 1).contains('h');
    let text = bytes_of(alloc, at(fields, 2))?;
    if at(fields, 0) == "prefixes" {
        return prefixes(alloc, head_only, &text, out);
    }
    all_ways(alloc, head_only, &text, out)
}

impl Cases {
    /// Each call is made once.
    pub fn new() -> Cases {
        Cases { repeat: 1 }
    }

    /// A response in pieces of a size.
    fn in_sizes(&self, alloc: Global, fields: &[&str], out: &mut String) -> anyhow::Result<()> {
        let head_only = at(fields, 1).contains('h');
        let size = at(fields, 2).parse::<usize>()?;
        let text = bytes_of(alloc, at(fields, 3))?;
        for _ in 1..self.repeat {
            read_through(alloc, head_only, &text, size)?;
        }
        let came = sized(alloc, head_only, &text, size)?;
        write!(out, "{} {}", came.answer, came.place)?;
        Ok(())
    }

    /// Writes what is printed for the fields of a line, if anything.
    fn run_fields(
        &mut self,
        alloc: Global,
        fields: &[&str],
        out: &mut String,
    ) -> anyhow::Result<()> {
        match at(fields, 0) {
            "repeat" => {
                self.repeat = at(fields, 1).parse::<u32>()?;
                Ok(())
            }
            "response" | "prefixes" => response_case(alloc, fields, out),
            "sized" => self.in_sizes(alloc, fields, out),
            "pieces" => {
                let pieces = fields.get(2..).unwrap_or(&[]);
                in_pieces(alloc, at(fields, 1).contains('h'), pieces, out)
            }
            "request" => requested(alloc, fields, self.repeat, out),
            "exchange" => exchanged(alloc, fields, out),
            "mirror" | "mirror-sized" | "mirror-faults" => mirror_case(alloc, fields, out),
            _ => Ok(()),
        }
    }

    /// Writes what is printed for a line, if anything.
    pub fn run(&mut self, alloc: Global, line: &str, out: &mut String) -> anyhow::Result<()> {
        let fields = fields_of(alloc, line)?;
        self.run_fields(alloc, &fields, out)
    }
}
