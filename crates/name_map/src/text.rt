// A text that is written over.

ghost use Rattle.std.specs.Prelude.{◌≡◌, ◌≤◌, length, OnOk, OnErr, IsOk};
ghost use Rattle.name_map.specs.Names.{FitsIn};

use jm_base::{M, Text};
use std::alloc::Global;
use std::mem::replace;

/// A text of no more bytes keeps its memory when it becomes shorter or longer. A long text's memory goes with it, so that
/// texts don't hold more than about what their bytes need.
const USUAL_LENGTH: usize = 64;

/// Writes a value over a text's bytes, in their memory where there is room. Out of memory they stay.
fn overwrite(bytes: &mut Vec<u8>, value: &[u8]) -> M<()>
    ensures ok { OnOk result (bytes.new.items ≡ value.now) }
    ensures err { OnErr result (bytes.new.items ≡ bytes.old.items) }
    ensures memory { length value.now ≤ length bytes.old.items → IsOk result }
{
    let before = bytes.len();
    if before < value.len() {
        bytes.extend_from_slice(&value[before..])?;
    } else {
        bytes.truncate(value.len());
    }
    bytes.copy_from_slice(value);
    Ok(())
}

/// Writes a value over another one. It takes no memory for as many bytes, nor for fewer where the text has at most 64. Out of memory
/// the text stays.
pub fn write_over(alloc: Global, text: &mut Text, value: &[u8]) -> M<()>
    ensures ok { OnOk result (text.new ≡ value.now) }
    ensures err { OnErr result (text.new ≡ text.old) }
    ensures memory { FitsIn (length text.old) (length value.now) → IsOk result }
{
    let before = text.bytes().len();
    if before != value.len() && before.max(value.len()) > USUAL_LENGTH {
        *text = Text::new(alloc, value)?;
        return Ok(());
    }
    let mut bytes = replace(text, Text::of(Vec::new(alloc))).into_vec();
    let written = overwrite(&mut bytes, value);
    *text = Text::of(bytes);
    written
}
