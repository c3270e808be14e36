// The words of a case.

use jm_base::M;
use std::alloc::Global;
use std::str;

/// The number that a word is, and 0 for any other word.
pub fn whole(word: &str) -> u32 {
    word.parse::<u32>().unwrap_or(0)
}

/// The number of 16 bits that a word is, and 0 for any other word.
pub fn small(word: &str) -> u16 {
    word.parse::<u16>().unwrap_or(0)
}

/// The number of 64 bits that a word is, and 0 for any other word.
pub fn long(word: &str) -> u64 {
    word.parse::<u64>().unwrap_or(0)
}

/// The two parts of a text around this mark, or all of it and nothing where the mark is not there.
pub fn parted(text: &str, mark: char) -> (&str, &str) {
    text.split_once(mark).unwrap_or((text, ""))
}

/// Bytes as a text, where they are UTF-8.
pub fn plain(bytes: &[u8]) -> &str {
    match str::from_utf8(bytes) {
        Ok(text) => text,
        Err(_) => "(not UTF-8)",
    }
}

/// The numbers between marks, of which an empty text has none.
pub fn numbers(alloc: Global, text: &str, mark: char) -> M<Vec<u32>> {
    let mut all = Vec::new(alloc);
    for word in text.split(mark) {
        if !word.is_empty() {
            all.push(whole(word))?;
        }
    }
    Ok(all)
}

/// What stands after this name and its `=`, and nothing where it doesn't stand there.
pub fn after<'a>(words: &'a str, name: &str) -> &'a str {
    for word in words.split(' ') {
        if let Some((found, rest)) = word.split_once('=') {
            if found == name {
                return rest;
            }
        }
    }
    ""
}

/// That many bytes, from `!` to `y` over and over.
pub fn counting(alloc: Global, count: u32) -> M<Vec<u8>> {
    let mut bytes = Vec::with_capacity(alloc, count as usize)?;
    for place in 0..count {
        bytes.push(b'!' + (place % 89) as u8)?;
    }
    Ok(bytes)
}
