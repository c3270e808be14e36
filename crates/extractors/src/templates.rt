// Templates of a regular expression's values.

ghost use Rattle.std.specs.Prelude.{◌≡◌, ◌<◌, ◌≤◌, Err, IfOk, IfSome, length, map};
ghost use Rattle.thread_vars.specs.Vars.{most_text};
ghost use Rattle.extractors.specs.Matches.{text_at};
ghost use Rattle.extractors.specs.Templates.{digit_count, reference_in, group_at, filled};

use crate::matches::text_at;
use cursor_steps::decimal_number;
use jm_base::Text;
use std::alloc::Global;
use var_functions::VarError;

/// How many bytes a variable's value may have.
const MOST_TEXT: usize = 65536;

// How many digits a text begins with.
fn digit_count(bytes: &[u8]) -> usize
    ensures count { result ≡ digit_count bytes.now }
    ensures within { result ≤ length bytes.now }
{
    let mut count = 0;
    'digits: for byte in bytes {
        if !byte.is_ascii_digit() {
            return count;
        }
        count += 1;
    }
    count
}

// How many digits a reference has that begins with this byte, before these bytes, where it is one.
fn reference_in(first: u8, after: &[u8]) -> Option<usize>
    ensures digits { result ≡ reference_in first after.now }
    ensures within { IfSome result (λ digits. digits < length after.now) }
{
    if first != b'$' {
        return None;
    }
    let digits = digit_count(after);
    if digits > 0 && after.get(digits).copied().unwrap_or(0) == b'$' {
        Some(digits)
    } else {
        None
    }
}

// What the group that digits name spans; of one that isn't there nothing.
fn group_at<'t>(text: &'t [u8], spans: &[Option<(usize, usize)>], digits: &[u8]) -> &'t [u8]
    ensures { result.now ≡ group_at (map (text_at text.now) spans.now) digits.now }
{
    match decimal_number(digits) {
        Some(number) => match spans.get(number as usize) {
            Some(span) => text_at(text, *span),
            None => &[],
        },
        None => &[],
    }
}

/// The value of a match by its template and what its groups span in the text, the whole match first: each `$d$` stands for
/// the group d, and other bytes for themselves.
///
/// `ValueLimit` comes only where it would have more than 65,536 bytes; no more than one group is added past them.
pub(crate) fn filled(
    alloc: Global,
    template: &[u8],
    text: &[u8],
    spans: &[Option<(usize, usize)>],
) -> Result<Text, VarError>
    ensures value { IfOk result (λ value. value ≡ filled template.now (map (text_at text.now) spans.now)) }
    ensures limit { result ≡ Err VarError.ValueLimit → most_text < length (filled template.now (map (text_at text.now) spans.now)) }
{
    let mut value = Vec::new(alloc);
    let mut skip: usize = 0;
    'bytes: for (place, byte) in template.iter().enumerate() {
        if skip > 0 {
            skip -= 1;
            continue;
        }
        if value.len() > MOST_TEXT {
            return Err(VarError::ValueLimit);
        }
        let after = &template[place + 1..];
        match reference_in(*byte, after) {
            None => value.push(*byte)?,
            Some(digits) => {
                value.extend_from_slice(group_at(text, spans, &after[..digits]))?;
                skip = digits + 1;
            }
        }
    }
    Ok(Text::of(value))
}
