// Names of the variables that an extractor sets.

ghost use Rattle.std.specs.Prelude.{◌≡◌, ◌++◌, IfOk};
ghost use Rattle.extractors.specs.Extraction.{ending_in, match_name, count_name, groups_name, group_name};

use itoa::Buffer;
use jm_base::{M, Text};
use std::alloc::Global;

// A name, an underscore and an ending of two parts.
fn joined(alloc: Global, name: &[u8], word: &[u8], digits: &[u8]) -> M<Text>
    ensures { IfOk result (λ text. text ≡ ending_in name.now (word.now ++ digits.now)) }
{
    let mut text = Vec::new(alloc);
    text.extend_from_slice(name)?;
    text.push(b'_')?;
    text.extend_from_slice(word)?;
    text.extend_from_slice(digits)?;
    Ok(Text::of(text))
}

/// The variable of the match of this number.
pub(crate) fn match_name(alloc: Global, name: &[u8], number: u64) -> M<Text>
    ensures { IfOk result (λ text. text ≡ match_name name.now number) }
{
    let mut digits = Buffer::new();
    joined(alloc, name, b"", digits.format(number).as_bytes())
}

/// The variable of how many matches there are.
pub(crate) fn count_name(alloc: Global, name: &[u8]) -> M<Text>
    ensures { IfOk result (λ text. text ≡ count_name name.now) }
{
    joined(alloc, name, b"matchNr", b"")
}

/// The variable of how many groups a match has.
pub(crate) fn groups_name(alloc: Global, name: &[u8]) -> M<Text>
    ensures { IfOk result (λ text. text ≡ groups_name name.now) }
{
    joined(alloc, name, b"g", b"")
}

/// The variable of the group of this number.
pub(crate) fn group_name(alloc: Global, name: &[u8], number: u64) -> M<Text>
    ensures { IfOk result (λ text. text ≡ group_name name.now number) }
{
    let mut digits = Buffer::new();
    joined(alloc, name, b"g", digits.format(number).as_bytes())
}
