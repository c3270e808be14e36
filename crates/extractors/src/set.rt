// One match, or the default, that is set.

ghost use Rattle.std.specs.Prelude.{◌≡◌, decimal, map};
ghost use Rattle.thread_vars.specs.Vars.{put_var, Puts};
ghost use Rattle.var_changes.specs.Changes.{Changes};
ghost use Rattle.extractors.specs.Matches.{text_at, match_by};
ghost use Rattle.extractors.specs.Extraction.{sets_groups, sets_all_groups, sets_match, sets_default};

use crate::matches::text_at;
use crate::names::{group_name, groups_name};
use crate::templates::filled;
use itoa::Buffer;
use jm_base::Text;
use std::alloc::Global;
use var_changes::put_copy;
use var_functions::{VarError, Vars};

/// Sets a variable to a copy of a value.
pub(crate) fn put_text(
    alloc: Global,
    name: Text,
    value: &[u8],
    vars: &mut Vars,
) -> Result<(), VarError>
    ensures exact { Puts (put_var name value.now vars.old) vars.old vars.new result }
{
    let value = Text::new(alloc, value)?;
    vars.put(name, value)
}

/// Sets a variable to a number.
pub(crate) fn put_number(
    alloc: Global,
    name: Text,
    number: u64,
    vars: &mut Vars,
) -> Result<(), VarError>
    ensures exact { Puts (put_var name (decimal number) vars.old) vars.old vars.new result }
{
    let mut digits = Buffer::new();
    put_text(alloc, name, digits.format(number).as_bytes(), vars)
}

// Sets the groups, from the whole match on.
fn put_groups(
    alloc: Global,
    name: &[u8],
    text: &[u8],
    spans: &[Option<(usize, usize)>],
    vars: &mut Vars,
) -> Result<(), VarError>
    ensures exact { Changes (sets_groups name.now 0 (map (text_at text.now) spans.now)) vars.old vars.new result }
{
    'groups: for (number, span) in spans.iter().enumerate() {
        let name = group_name(alloc, name, number as u64)?;
        put_text(alloc, name, text_at(text, *span), vars)?;
    }
    Ok(())
}

// Sets how many groups there are beside the whole match, and each of them.
fn put_all_groups(
    alloc: Global,
    name: &[u8],
    text: &[u8],
    spans: &[Option<(usize, usize)>],
    vars: &mut Vars,
) -> Result<(), VarError>
    ensures exact { Changes (sets_all_groups name.now (map (text_at text.now) spans.now)) vars.old vars.new result }
{
    if spans.is_empty() {
        return Ok(());
    }
    let count = groups_name(alloc, name)?;
    put_number(alloc, count, spans.len() as u64 - 1, vars)?;
    put_groups(alloc, name, text, spans, vars)
}

/// Sets a match of a pattern under a name, by its template and what its groups span in the text.
pub(crate) fn put_match(
    alloc: Global,
    name: &[u8],
    template: &[u8],
    text: &[u8],
    spans: &[Option<(usize, usize)>],
    vars: &mut Vars,
) -> Result<(), VarError>
    ensures exact { Changes (sets_match name.now (match_by template.now text.now spans.now)) vars.old vars.new result }
{
    let value = filled(alloc, template, text, spans)?;
    vars.put_copy(alloc, name, value.bytes())?;
    put_all_groups(alloc, name, text, spans, vars)
}

/// Sets the default, if there is one.
pub(crate) fn put_default(
    alloc: Global,
    name: &[u8],
    default: &Option<Text>,
    vars: &mut Vars,
) -> Result<(), VarError>
    ensures exact { Changes (sets_default name.now default.now) vars.old vars.new result }
{
    match default {
        Some(default) => put_copy(alloc, name, default.bytes(), vars),
        None => Ok(()),
    }
}
