// The matches of the extractors in a text.

ghost use Rattle.std.specs.Prelude.{◌≡◌, ◌≤◌, IfOk, length};
ghost use Rattle.std.specs.Option.{option_map};
ghost use Rattle.extractors.specs.Matches.{text_at, json_texts, cut_at, bounded_texts};

use jm_base::{M, NoMemory, Text};
use json_path::{PathError, parse_path, select};
use reply_search::place_in;
use serde_json::Value;
use std::alloc::Global;

/// The text of a span; of none it is empty.
pub(crate) fn text_at(text: &[u8], span: Option<(usize, usize)>) -> &[u8]
    ensures { result.now ≡ text_at text.now span }
{
    match span {
        None => &[],
        Some((start, end)) => {
            if start <= end && end <= text.len() {
                &text[start..end]
            } else {
                &[]
            }
        }
    }
}

/// The texts that a JSON path reaches in a text, which has none where it is no JSON.
pub(crate) fn json_texts(alloc: Global, path: &[u8], text: &str) -> M<Vec<Text>>
    requires { length path.now ≤ 65536 }
    ensures { IfOk result (λ texts. texts.items ≡ json_texts path.now text.now) }
{
    match parse_path(alloc, path) {
        Ok(steps) => match Value::from_str(alloc, text) {
            Ok(value) => select(alloc, &steps, &value),
            Err(error) => {
                if error.is_memory() {
                    Err(NoMemory)
                } else {
                    Ok(Vec::new(alloc))
                }
            }
        },
        Err(PathError::BadPath { .. }) => Ok(Vec::new(alloc)),
        Err(PathError::NoMemory) => Err(NoMemory),
    }
}

// What stands before a part where it stands first in a text, and what after it.
fn cut_at<'t>(part: &[u8], text: &'t [u8]) -> Option<(&'t [u8], &'t [u8])>
    ensures { option_map (λ cut. (cut.0.now, cut.1.now)) result ≡ cut_at part.now text.now }
{
    match place_in(part, text) {
        Some(at) => {
            let after = at + part.len();
            Some((&text[..at], &text[after..]))
        }
        None => None,
    }
}

/// The texts between a left and a right boundary, from left to right. No byte is looked at twice: the first boundary that
/// isn't found ends the search.
pub(crate) fn bounded_texts(alloc: Global, left: &[u8], right: &[u8], text: &[u8]) -> M<Vec<Text>>
    ensures { IfOk result (λ texts. texts.items ≡ bounded_texts left.now right.now text.now) }
{
    let mut texts = Vec::new(alloc);
    let mut rest = text;
    'texts: for _turn in 0..text.len() {
        match cut_at(left, rest) {
            Some((_before, within)) => match cut_at(right, within) {
                Some((inner, after)) => {
                    texts.push(Text::new(alloc, inner)?)?;
                    rest = after;
                }
                None => return Ok(texts),
            },
            None => return Ok(texts),
        }
    }
    Ok(texts)
}
