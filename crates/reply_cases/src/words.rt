// The texts and patterns of a line's fields.

use case_words::text_of;
use element_props::{Pattern, Patterns, RegexPatterns};
use jm_base::Text;
use std::alloc::Global;

/// The text of the field at this place, where there is one.
pub fn text_at(alloc: Global, fields: &[&str], place: usize) -> anyhow::Result<Option<Text>> {
    match fields.get(place) {
        Some(field) => Ok(Some(text_of(alloc, field)?)),
        None => Ok(None),
    }
}

/// What is made of these bytes as a regular expression.
pub fn pattern_of(alloc: Global, bytes: &[u8]) -> anyhow::Result<Pattern> {
    let text = std::str::from_utf8(bytes)?;
    let regex = RegexPatterns::new(Vec::new(alloc)).make(alloc, text)?;
    Ok(Pattern::of(Text::new(alloc, text.as_bytes())?, regex))
}
