// All matches that are set.

ghost use Rattle.std.specs.Prelude.{◌≡◌, length, map};
ghost use Rattle.reply_search.specs.Found.{matches_of};
ghost use Rattle.var_changes.specs.Changes.{Changes};
ghost use Rattle.extractors.specs.Matches.{match_by, pattern_matches, plain};
ghost use Rattle.extractors.specs.Extraction.{sets_matches, begins_all};

use crate::names::{count_name, match_name};
use crate::removed::{old_count, remove_groups, remove_matches};
use crate::set::{put_match, put_number, put_text};
use element_props::Pattern;
use element_tree::RegexExtractor;
use jm_base::Text;
use reply_search::Searches;
use std::alloc::Global;
use var_functions::{VarError, Vars};

/// What comes before all matches: those from before are removed, and how many there are is set.
pub(crate) fn begin_all(
    alloc: Global,
    name: &[u8],
    groups: Option<usize>,
    count: usize,
    vars: &mut Vars,
) -> Result<(), VarError>
    ensures exact { Changes (begins_all name.now groups count vars.old) vars.old vars.new result }
{
    let old = old_count(alloc, name, vars)?;
    remove_groups(alloc, name, groups, vars)?;
    remove_matches(alloc, name, groups, old, vars)?;
    let own = count_name(alloc, name)?;
    put_number(alloc, own, count as u64, vars)
}

// Sets the matches of a pattern in a text under their numbers, by a template. Each is set before the next one is looked for.
fn put_found<'p>(
    alloc: Global,
    name: &[u8],
    template: &[u8],
    pattern: &'p Pattern,
    text: &str,
    count: usize,
    searches: &mut Searches<'p>,
    vars: &mut Vars,
) -> Result<(), VarError>
    requires { count ≡ length (matches_of pattern.now text.now) }
    ensures exact { Changes (sets_matches name.now 1 (map (match_by template.now text.now) (matches_of pattern.now text.now))) vars.old vars.new result }
{
    let mut after = 0;
    'matches: for place in 0..count {
        let next = searches.next_match(alloc, pattern, text, after)?;
        let Some(found) = next else {
            return Ok(());
        };
        let own = match_name(alloc, name, place as u64 + 1)?;
        put_match(
            alloc,
            own.bytes(),
            template,
            text.as_bytes(),
            found.spans.as_slice(),
            vars,
        )?;
        after = found.after;
    }
    Ok(())
}

/// Sets the matches of a pattern in a text under their numbers, of which there are this many.
pub(crate) fn put_matches<'p>(
    alloc: Global,
    x: &'p RegexExtractor,
    text: &str,
    count: usize,
    searches: &mut Searches<'p>,
    vars: &mut Vars,
) -> Result<(), VarError>
    requires { count ≡ length (matches_of x.now.pattern text.now) }
    ensures exact { Changes (sets_matches x.now.ref_ 1 (pattern_matches x.now.pattern x.now.template text.now)) vars.old vars.new result }
{
    let name = x.ref_.bytes();
    let template = x.template.bytes();
    put_found(
        alloc, name, template, &x.pattern, text, count, searches, vars,
    )
}

/// Sets texts under their numbers.
pub(crate) fn put_texts(
    alloc: Global,
    name: &[u8],
    texts: &[Text],
    vars: &mut Vars,
) -> Result<(), VarError>
    ensures exact { Changes (sets_matches name.now 1 (map plain texts.now)) vars.old vars.new result }
{
    'texts: for (place, text) in texts.iter().enumerate() {
        let name = match_name(alloc, name, place as u64 + 1)?;
        put_text(alloc, name, text.bytes(), vars)?;
    }
    Ok(())
}
