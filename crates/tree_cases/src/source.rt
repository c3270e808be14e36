// The text of a case, as it stands or made of a short description.

ghost use Rattle.std.specs.Prelude.{◌<◌, IfOk};

use crate::sketch;
use std::alloc::Global;

/// What stands before and after the texts of the cases.
#[derive(Drop)]
pub struct Frame {
    before: String,
    after: String,
}

impl Frame {
    /// Nothing.
    pub fn new(alloc: Global) -> Frame {
        Frame {
            before: String::new(alloc),
            after: String::new(alloc),
        }
    }

    /// What stands before and after the first `@` of a text.
    pub fn of(alloc: Global, text: &str) -> anyhow::Result<Frame> {
        let (before, after) = text.split_once("@").unwrap_or((text, ""));
        Ok(Frame {
            before: before.to_string(alloc)?,
            after: after.to_string(alloc)?,
        })
    }
}

/// The text of a case within its frame. In what follows `*bytes` a byte may stand as `\xNN`. `*list COUNT PART` is that many
/// parts with commas between them, each with its number in the place of `#`; `*letters COUNT PART` has that many letters `a`
/// there; `*nested COUNT PART REST` is a part within a part, that many times, and the rest within the last; `*sketch LETTERS`
/// is a plan drawn with letters. Any other text stands as it is.
pub fn text_of(alloc: Global, frame: &Frame, text: &str) -> anyhow::Result<Vec<u8>> {
    let mut out = Vec::from_slice(alloc, frame.before.as_bytes())?;
    match text.strip_prefix("*") {
        Some(description) => {
            let (word, rest) = description.split_once(" ").unwrap_or((description, ""));
            push_made(alloc, &mut out, word, rest)?;
        }
        None => out.extend_from_slice(text.as_bytes())?,
    }
    out.extend_from_slice(frame.after.as_bytes())?;
    Ok(out)
}

/// The numbers of a text, with spaces between them.
pub fn numbers(alloc: Global, text: &str) -> anyhow::Result<Vec<u32>> {
    let mut all = Vec::new(alloc);
    for word in text.split_whitespace() {
        all.push(word.parse::<u32>()?)?;
    }
    Ok(all)
}

// Appends what a description makes.
fn push_made(alloc: Global, out: &mut Vec<u8>, word: &str, rest: &str) -> anyhow::Result<()> {
    match word {
        "bytes" => push_bytes(out, rest),
        "sketch" => sketch::push_plan(out, rest),
        _ => {
            let (count, part) = rest.split_once(" ").unwrap_or((rest, ""));
            push_many(alloc, out, word, count.parse::<u32>()?, part)
        }
    }
}

// Appends what a description makes of many parts.
fn push_many(
    alloc: Global,
    out: &mut Vec<u8>,
    word: &str,
    count: u32,
    part: &str,
) -> anyhow::Result<()> {
    match word {
        "list" => push_list(alloc, out, count, part),
        "letters" => {
            let (before, after) = part.split_once("#").unwrap_or((part, ""));
            out.extend_from_slice(before.as_bytes())?;
            push_often(out, count, "a")?;
            out.extend_from_slice(after.as_bytes())?;
            Ok(())
        }
        "nested" => {
            let (part, rest) = part.split_once(" ").unwrap_or((part, ""));
            let (before, after) = part.split_once("#").unwrap_or((part, ""));
            push_often(out, count, before)?;
            out.extend_from_slice(rest.as_bytes())?;
            push_often(out, count, after)
        }
        _ => anyhow::bail!("no such description: {word}"),
    }
}

// Appends a text that many times.
fn push_often(out: &mut Vec<u8>, count: u32, text: &str) -> anyhow::Result<()> {
    for _ in 0..count {
        out.extend_from_slice(text.as_bytes())?;
    }
    Ok(())
}

// Appends that many parts with commas between them, each with its number in the place of `#`.
fn push_list(alloc: Global, out: &mut Vec<u8>, count: u32, part: &str) -> anyhow::Result<()> {
    for number in 0..count {
        if number > 0 {
            out.push(b',')?;
        }
        push_part(alloc, out, part, number)?;
    }
    Ok(())
}

// Appends a part with its number in the place of `#`.
fn push_part(alloc: Global, out: &mut Vec<u8>, part: &str, number: u32) -> anyhow::Result<()> {
    match part.split_once("#") {
        Some((before, after)) => {
            let text = format!(in alloc; "{before}{number}{after}")?;
            out.extend_from_slice(text.as_bytes())?;
        }
        None => out.extend_from_slice(part.as_bytes())?,
    }
    Ok(())
}

/// Appends a text in which `\xNN` stands for a byte.
pub fn push_bytes(out: &mut Vec<u8>, text: &str) -> anyhow::Result<()> {
    let mut parts = text.split("\\x");
    if let Some(plain) = parts.next() {
        out.extend_from_slice(plain.as_bytes())?;
    }
    for part in parts {
        let [high, low, plain @ ..] = part.as_bytes() else {
            anyhow::bail!("no byte: {part}");
        };
        out.push(digit(*high)? * 16 + digit(*low)?)?;
        out.extend_from_slice(plain)?;
    }
    Ok(())
}

// The value of a hexadecimal digit.
fn digit(letter: u8) -> anyhow::Result<u8>
    ensures { IfOk result (λ d. d < 16) }
{
    match letter {
        b'0'..=b'9' => Ok(letter - b'0'),
        b'a'..=b'f' => Ok(letter - b'a' + 10),
        _ => anyhow::bail!("no digit: {letter}"),
    }
}
