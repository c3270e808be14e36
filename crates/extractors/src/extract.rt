// The three extractors.

ghost use Rattle.std.specs.Prelude.{◌≤◌, length};
ghost use Rattle.var_changes.specs.Changes.{Changes};
ghost use Rattle.extractors.specs.Matches.{extracted_regex, extracted_json, extracted_bounds};

use crate::matches::{bounded_texts, json_texts};
use crate::taking::{take_matches, take_texts};
use crate::which::which_of;
use element_tree::{BoundaryExtractor, JsonExtractor, RegexExtractor};
use reply_search::{Searches, text_in};
use std::alloc::Global;
use var_functions::{VarError, Vars};

/// Takes text by a regular expression into variables (the manual's "Regular Expression Extractor"). The text is seen up to
/// its longest prefix that is UTF-8. `pick` picks the match where the match number is 0.
///
/// `ValueLimit` comes at the first variable whose value would have more than 65,536 bytes, or with which all names and
/// values together would have more than 4,194,304: what was to be removed is removed then, and the variables before it
/// are set. Out of memory a prefix of the changes is made.
pub fn extract_regex(
    alloc: Global,
    x: &RegexExtractor,
    text: &[u8],
    pick: u64,
    vars: &mut Vars,
) -> Result<(), VarError>
    ensures exact { Changes (extracted_regex x.now text.now pick vars.old) vars.old vars.new result }
{
    let mut searches = Searches::new(alloc);
    extract_regex_with(alloc, x, text, pick, &mut searches, vars)
}

/// The same, by the searches that are kept from text to text.
pub fn extract_regex_with<'p>(
    alloc: Global,
    x: &'p RegexExtractor,
    text: &[u8],
    pick: u64,
    searches: &mut Searches<'p>,
    vars: &mut Vars,
) -> Result<(), VarError>
    ensures exact { Changes (extracted_regex x.now text.now pick vars.old) vars.old vars.new result }
{
    let text = text_in(text);
    take_matches(alloc, x, text, pick, searches, vars)
}

/// Takes values that a JSON path reaches into variables (the manual's "JSON Extractor"). The text is seen up to its longest
/// prefix that is UTF-8; one that is not JSON has no matches. `pick` picks the match where the match number is 0.
///
/// `ValueLimit` and out of memory come as of `extract_regex`.
pub fn extract_json(
    alloc: Global,
    x: &JsonExtractor,
    text: &[u8],
    pick: u64,
    vars: &mut Vars,
) -> Result<(), VarError>
    requires { length x.now.path ≤ 65536 }
    ensures exact { Changes (extracted_json x.now text.now pick vars.old) vars.old vars.new result }
{
    let texts = json_texts(alloc, x.path.bytes(), text_in(text))?;
    let which = which_of(x.match_);
    take_texts(
        alloc,
        x.ref_.bytes(),
        which,
        &x.default,
        texts.as_slice(),
        pick,
        vars,
    )
}

/// Takes the text between two boundaries into variables (the manual's "Boundary Extractor"). The text is seen up to its
/// longest prefix that is UTF-8. `pick` picks the match where the match number is 0. The time is linear in the text.
///
/// `ValueLimit` and out of memory come as of `extract_regex`.
pub fn extract_bounds(
    alloc: Global,
    x: &BoundaryExtractor,
    text: &[u8],
    pick: u64,
    vars: &mut Vars,
) -> Result<(), VarError>
    ensures exact { Changes (extracted_bounds x.now text.now pick vars.old) vars.old vars.new result }
{
    let text = text_in(text);
    let texts = bounded_texts(alloc, x.left.bytes(), x.right.bytes(), text.as_bytes())?;
    let which = which_of(x.match_);
    take_texts(
        alloc,
        x.ref_.bytes(),
        which,
        &x.default,
        texts.as_slice(),
        pick,
        vars,
    )
}
