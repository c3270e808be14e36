// What a sink holds, as lines.

use sha2::{Digest, Sha256};
use std::alloc::Global;
use std::fmt::Write;

// The most bytes that are printed whole.
const WHOLE: usize = 4096;

/// Prints the lines of a sink, each after the mark: with a space where it ends with a line feed, with a `~` where it does
/// not. Of a long text it prints the number of its bytes and its digest.
pub fn print_sink(rt: &impl Print, alloc: Global, mark: &str, bytes: &[u8]) -> anyhow::Result<()> {
    if bytes.len() > WHOLE {
        let digest = hex::encode(alloc, Sha256::digest(bytes))?;
        println!(rt; "{mark}# {} bytes, sha256 {digest}", bytes.len())?;
        return Ok(());
    }
    let text = readable(alloc, bytes)?;
    for line in text.split_inclusive('\n') {
        match line.strip_suffix("\n") {
            Some(line) => println!(rt; "{mark} {line}")?,
            None => println!(rt; "{mark}~{line}")?,
        }
    }
    Ok(())
}

// The bytes as a text, with `\xNN` for each that belongs to no character.
fn readable(alloc: Global, bytes: &[u8]) -> anyhow::Result<String> {
    let mut text = String::new(alloc);
    for chunk in bytes.utf8_chunks() {
        text.push_str(chunk.valid())?;
        write!(text, "{}", chunk.invalid().escape_ascii())?;
    }
    Ok(text)
}

/// Prints how many lines the results have, how many intervals the reports have and what their counts sum to, and the lines of the
/// reports after them.
pub fn print_tally(
    rt: &impl Print,
    alloc: Global,
    results: &[u8],
    reports: &[u8],
) -> anyhow::Result<()> {
    println!(rt; "> {} lines", readable(alloc, results)?.lines().count())?;
    let text = readable(alloc, reports)?;
    let mut numbers = String::new(alloc);
    let mut samples = 0u64;
    for line in text.lines() {
        if let Some(report) = line.strip_prefix("interval,") {
            let mut fields = report.split(',');
            write!(numbers, " {}", fields.next().unwrap_or(""))?;
            let count = fields.next().unwrap_or("0").parse::<u64>()?;
            samples = samples.saturating_add(count);
        } else if !line.starts_with("row,") {
            println!(rt; "! {line}")?;
        }
    }
    println!(rt; "! intervals{numbers}: {samples} samples")?;
    Ok(())
}
