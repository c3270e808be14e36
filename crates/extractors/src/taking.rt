// What is taken of all matches.

ghost use Rattle.std.specs.Prelude.{None, Some, map};
ghost use Rattle.std.specs.Option.{option_map};
ghost use Rattle.var_changes.specs.Changes.{Changes};
ghost use Rattle.reply_search.specs.Found.{groups_of};
ghost use Rattle.extractors.specs.Extraction.{which_of, taken, takes_one, takes_all, extracted};
ghost use Rattle.extractors.specs.Matches.{match_by, pattern_matches, plain};

use crate::all::{begin_all, put_matches, put_texts};
use crate::removed::remove_groups;
use crate::set::{put_default, put_match};
use crate::which::{Which, taken, taken_row, which_of};
use element_tree::RegexExtractor;
use jm_base::Text;
use reply_search::{Searches, groups_of};
use std::alloc::Global;
use var_changes::put_copy;
use var_functions::{VarError, Vars};

// Sets a match of a pattern, by what its groups span in the text, or where there is none the default.
fn take_one_row(
    alloc: Global,
    x: &RegexExtractor,
    text: &[u8],
    row: Option<Vec<Option<(usize, usize)>>>,
    vars: &mut Vars,
) -> Result<(), VarError>
    ensures exact { Changes (takes_one x.now.ref_ x.now.default (Some (groups_of x.now.pattern))
        (option_map (λ spans. match_by x.now.template text.now spans.items) row)) vars.old vars.new result }
{
    let name = x.ref_.bytes();
    remove_groups(alloc, name, Some(groups_of(&x.pattern)), vars)?;
    match row {
        Some(spans) => put_match(
            alloc,
            name,
            x.template.bytes(),
            text,
            spans.as_slice(),
            vars,
        ),
        None => put_default(alloc, name, &x.default, vars),
    }
}

// Sets all matches of a pattern in a text. They are counted first.
fn take_all_matches<'p>(
    alloc: Global,
    x: &'p RegexExtractor,
    text: &str,
    searches: &mut Searches<'p>,
    vars: &mut Vars,
) -> Result<(), VarError>
    ensures exact { Changes (takes_all x.now.ref_ x.now.default (Some (groups_of x.now.pattern))
        (pattern_matches x.now.pattern x.now.template text.now) vars.old) vars.old vars.new result }
{
    let name = x.ref_.bytes();
    let count = searches.match_count(alloc, &x.pattern, text)?;
    begin_all(alloc, name, Some(groups_of(&x.pattern)), count, vars)?;
    put_matches(alloc, x, text, count, searches, vars)?;
    put_default(alloc, name, &x.default, vars)
}

// Sets the one match of a pattern in a text that is taken, or the default.
fn take_one_match<'p>(
    alloc: Global,
    x: &'p RegexExtractor,
    text: &str,
    which: Which,
    pick: u64,
    searches: &mut Searches<'p>,
    vars: &mut Vars,
) -> Result<(), VarError>
    ensures exact { Changes (takes_one x.now.ref_ x.now.default (Some (groups_of x.now.pattern))
        (taken which pick (pattern_matches x.now.pattern x.now.template text.now))) vars.old vars.new result }
{
    let row = taken_row(alloc, x, text, which, pick, searches)?;
    take_one_row(alloc, x, text.as_bytes(), row, vars)
}

/// What a regular expression's extractor makes of the variables by all matches of its pattern in a text. Where one match is
/// taken, the others are not kept.
pub(crate) fn take_matches<'p>(
    alloc: Global,
    x: &'p RegexExtractor,
    text: &str,
    pick: u64,
    searches: &mut Searches<'p>,
    vars: &mut Vars,
) -> Result<(), VarError>
    ensures exact { Changes (extracted x.now.ref_ (which_of x.now.match_) x.now.default (Some (groups_of x.now.pattern))
        (pattern_matches x.now.pattern x.now.template text.now) pick vars.old) vars.old vars.new result }
{
    let which = which_of(x.match_);
    match which {
        Which::All => take_all_matches(alloc, x, text, searches, vars),
        Which::AtRandom | Which::One(_) => {
            take_one_match(alloc, x, text, which, pick, searches, vars)
        }
    }
}

// Sets all of these texts.
fn take_all_texts(
    alloc: Global,
    name: &[u8],
    default: &Option<Text>,
    texts: &[Text],
    vars: &mut Vars,
) -> Result<(), VarError>
    ensures exact { Changes (takes_all name.now default.now None (map plain texts.now) vars.old) vars.old vars.new result }
{
    begin_all(alloc, name, None, texts.len(), vars)?;
    put_texts(alloc, name, texts, vars)?;
    put_default(alloc, name, default, vars)
}

// Sets the one of these texts that is taken, or the default.
fn take_one_text(
    alloc: Global,
    name: &[u8],
    default: &Option<Text>,
    texts: &[Text],
    which: Which,
    pick: u64,
    vars: &mut Vars,
) -> Result<(), VarError>
    ensures exact { Changes (takes_one name.now default.now None (taken which pick (map plain texts.now))) vars.old vars.new result }
{
    match taken(which, pick, texts) {
        Some(text) => put_copy(alloc, name, text.bytes(), vars),
        None => put_default(alloc, name, default, vars),
    }
}

/// What an extractor without groups makes of the variables by the texts of all its matches.
pub(crate) fn take_texts(
    alloc: Global,
    name: &[u8],
    which: Which,
    default: &Option<Text>,
    texts: &[Text],
    pick: u64,
    vars: &mut Vars,
) -> Result<(), VarError>
    ensures exact { Changes (extracted name.now which default.now None (map plain texts.now) pick vars.old) vars.old vars.new result }
{
    match which {
        Which::All => take_all_texts(alloc, name, default, texts, vars),
        Which::AtRandom | Which::One(_) => {
            take_one_text(alloc, name, default, texts, which, pick, vars)
        }
    }
}
