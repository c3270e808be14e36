// The texts of cases.

use std::alloc::Global;

/// The numbers between commas.
pub fn numbers(alloc: Global, text: &str) -> anyhow::Result<Vec<u32>> {
    let mut all = Vec::new(alloc);
    for number in text.split(',') {
        if !number.is_empty() {
            all.push(number.parse::<u32>()?)?;
        }
    }
    Ok(all)
}

/// The places between commas.
pub fn places(alloc: Global, text: &str) -> anyhow::Result<Vec<u64>> {
    let mut all = Vec::new(alloc);
    for place in text.split(',') {
        if !place.is_empty() {
            all.push(place.parse::<u64>()?)?;
        }
    }
    Ok(all)
}

/// Adds a text as often as a count says.
fn repeat(out: &mut String, text: &str, count: u32) -> anyhow::Result<()> {
    for _ in 0..count {
        out.push_str(text)?;
    }
    Ok(())
}

/// Adds `TEXT*COUNT`.
fn repeated(out: &mut String, part: &str) -> anyhow::Result<()> {
    let (text, count) = part.rsplit_once('*').unwrap_or((part, "1"));
    repeat(out, text, count.parse::<u32>()?)
}

/// A text in which `@TEXT*COUNT@` stands for the text as often as the count says.
pub fn expanded(alloc: Global, text: &str) -> anyhow::Result<String> {
    let mut out = String::new(alloc);
    let mut inside = false;
    for part in text.split('@') {
        if inside {
            repeated(&mut out, part)?;
        } else {
            out.push_str(part)?;
        }
        inside = !inside;
    }
    Ok(out)
}

/// Adds `NNxxx`, the byte NN and a text.
fn push_byte(out: &mut Vec<u8>, part: &str) -> anyhow::Result<()> {
    let (digits, rest) = part.split_at_checked(2).unwrap_or(("00", part));
    out.push(u8::from_str_radix(digits, 16)?)?;
    out.extend_from_slice(rest.as_bytes())?;
    Ok(())
}

/// The bytes of a text in which `\xNN` stands for a byte.
pub fn bytes_of(alloc: Global, text: &str) -> anyhow::Result<Vec<u8>> {
    let mut out = Vec::new(alloc);
    let mut first = true;
    for part in text.split("\\x") {
        if first {
            out.extend_from_slice(part.as_bytes())?;
        } else {
            push_byte(&mut out, part)?;
        }
        first = false;
    }
    Ok(out)
}
