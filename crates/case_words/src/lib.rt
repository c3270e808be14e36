//! The lines of a runner's cases: fields that are parted by one tab, and the bytes that a field is.
#![tactic(auto)]

use bstr::ByteVec;
use jm_base::Text;
use std::alloc::Global;

/// The fields of a line, which one tab parts. The only error is out of memory.
pub fn fields_of<'l>(alloc: Global, line: &'l str) -> anyhow::Result<Vec<&'l str>> {
    let mut fields = Vec::new(alloc);
    for field in line.split('\t') {
        fields.push(field)?;
    }
    Ok(fields)
}

/// The field at this place, from 0, or an empty one where the line has no such field.
pub fn at<'l>(fields: &[&'l str], place: usize) -> &'l str {
    fields.get(place).copied().unwrap_or("")
}

// Adds `N:TEXT`, the text N times.
fn add_times(alloc: Global, bytes: &mut Vec<u8>, part: &str) -> anyhow::Result<()> {
    let (count, unit) = part.split_once(':').unwrap_or((part, ""));
    let unit = Vec::unescape_bytes(alloc, unit)?;
    for _ in 0..count.parse::<u32>()? {
        bytes.extend_from_slice(&unit)?;
    }
    Ok(())
}

/// The bytes of a field: its text, in which `\n`, `\xNN` and so on are bytes and `\\` is a backslash; and of `@N:TEXT@M:TEXT..`
/// the first text N times, then the next M times, and so on. The errors are a count that is no number of 32 bits, and out of memory.
pub fn bytes_of(alloc: Global, field: &str) -> anyhow::Result<Vec<u8>> {
    let Some(parts) = field.strip_prefix('@') else {
        return Ok(Vec::unescape_bytes(alloc, field)?);
    };
    let mut bytes = Vec::new(alloc);
    for part in parts.split('@') {
        add_times(alloc, &mut bytes, part)?;
    }
    Ok(bytes)
}

/// The text of a field, with the bytes of `bytes_of` and its errors.
pub fn text_of(alloc: Global, field: &str) -> anyhow::Result<Text> {
    Ok(Text::of(bytes_of(alloc, field)?))
}
