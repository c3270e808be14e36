// Texts that stand for others.

use anyhow::Context;
use std::alloc::Global;

/// A text in which `⟨4|,|a#⟩` stands for `a0,a1,a2,a3`, and `⟨4||a⟩` for `aaaa`.
pub fn unfolded(alloc: Global, text: &str) -> anyhow::Result<String> {
    let mut whole = String::new(alloc);
    for (place, piece) in text.split('⟨').enumerate() {
        if place == 0 {
            whole.push_str(piece)?;
        } else {
            push_folded(alloc, &mut whole, piece)?;
        }
    }
    Ok(whole)
}

// Appends what a fold without its opening stands for, and what comes after it.
fn push_folded(alloc: Global, whole: &mut String, piece: &str) -> anyhow::Result<()> {
    let (folded, after) = piece.split_once("⟩").context("a fold has no end")?;
    let (count, rest) = folded.split_once("|").context("a fold has no separator")?;
    let (separator, text) = rest.split_once("|").context("a fold has no text")?;
    for number in 0..count.parse::<usize>()? {
        if number > 0 {
            whole.push_str(separator)?;
        }
        push_numbered(alloc, whole, text, number)?;
    }
    whole.push_str(after)?;
    Ok(())
}

// Appends a text, with its number in the place of a `#`.
fn push_numbered(
    alloc: Global,
    whole: &mut String,
    text: &str,
    number: usize,
) -> anyhow::Result<()> {
    match text.split_once("#") {
        Some((before, after)) => {
            let own = format!(in alloc; "{before}{number}{after}")?;
            whole.push_str(&own)?;
        }
        None => whole.push_str(text)?,
    }
    Ok(())
}

/// The bytes of a text in which `\xNN` stands for a byte.
pub fn unescaped(alloc: Global, text: &str) -> anyhow::Result<Vec<u8>> {
    let mut bytes = Vec::new(alloc);
    for (place, piece) in text.split("\\x").enumerate() {
        if place == 0 {
            bytes.extend_from_slice(piece.as_bytes())?;
        } else {
            push_escaped(alloc, &mut bytes, piece.as_bytes())?;
        }
    }
    Ok(bytes)
}

// Appends the byte of two hexadecimal digits, and what comes after them.
fn push_escaped(alloc: Global, bytes: &mut Vec<u8>, piece: &[u8]) -> anyhow::Result<()> {
    let (digits, after) = piece.split_at_checked(2).context("a byte has two digits")?;
    bytes.extend_from_slice(&hex::decode(alloc, digits)?)?;
    bytes.extend_from_slice(after)?;
    Ok(())
}

/// The words of a line: what stands after each bar.
pub fn words_of(alloc: Global, line: &str) -> anyhow::Result<Vec<String>> {
    let line = unfolded(alloc, line)?;
    let mut words = Vec::new(alloc);
    for word in line.split('|').skip(1) {
        words.push(String::from_str(alloc, word)?)?;
    }
    Ok(words)
}
