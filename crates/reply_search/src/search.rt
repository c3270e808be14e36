// What searches for one pattern.

ghost use Rattle.std.specs.Prelude.{◌≡◌, ℕ, ◌+◌, ◌-◌, ◌^◌, ◌<◌, ◌≤◌, [], ◌∷◌, true, IfOk, IfSome, IsSomeAnd, IsTrue, MatchOption, Some, length, map, slice_get};
ghost use Rattle.std.specs.List.{range_with_len};
ghost use Rattle.std.specs.Option.{option_map};
ghost use Rattle.regex.specs.Strings.{matcher_pattern};
ghost use Rattle.regex.specs.Locations.{location, location_count, AreLocationsOf};
ghost use Rattle.regex.specs.Patterns.{find_str, find_all_str, span};
ghost use Rattle.regex.specs.Search.{next_match, Answers};
ghost use Rattle.reply_search.specs.Found.{matches_of, matches_left, is_found};

use crate::found::spans_in;
use crate::searches::NextMatch;
use element_props::Pattern;
use jm_base::M;
use regex::{CaptureLocations, Matcher, Regex};
use std::alloc::Global;
use std::marker::Model;

/// What searches for a pattern. It keeps what it has learnt of the pattern, so that a later search takes less time. Contracts
/// see the text of the pattern.
#[derive(Drop)]
pub(crate) struct Search<'p> {
    regex: &'p Regex,
    matcher: Matcher<'p>,
    locations: CaptureLocations,
}

impl<'p> Model for Search<'p> {
    ghost use Rattle.std.specs.Prelude.{List, ℕ};
    ghost use Rattle.regex.specs.Strings.{regex_source};
    ghost use Rattle.reply_search.specs.Searching.{SearchesFor};

    ghost Value = { List ℕ };

    ghost view = { λ s. regex_source s.regex.now };

    ghost invariant = { λ s. SearchesFor s.regex.now s.matcher s.locations };
}

// The first match from this byte on, by its first byte and the one after its last. Its groups are written to the locations.
fn read_from(
    matcher: &mut Matcher<'_>,
    locations: &mut CaptureLocations,
    text: &str,
    start: usize,
) -> Option<(usize, usize)>
    ensures found { Answers result (find_str (matcher_pattern matcher.old) text.now start)
        (λ m whole. (whole ≡ span m) × AreLocationsOf m locations.new) }
    ensures same { matcher_pattern matcher.new ≡ matcher_pattern matcher.old }
    ensures count { location_count locations.new ≡ location_count locations.old }
{
    match matcher.captures_read_at(locations, text, start) {
        Some(found) => Some((found.start(), found.end())),
        None => None,
    }
}

// The match that comes next, where `after` is one more than the end of the last match, or 0 before the first. An empty match
// where the last one ended does not count.
fn read_next(
    matcher: &mut Matcher<'_>,
    locations: &mut CaptureLocations,
    text: &str,
    after: usize,
) -> Option<(usize, usize)>
    ensures found { Answers result (next_match true (matcher_pattern matcher.old) text.now after)
        (λ m whole. (whole ≡ span m) × AreLocationsOf m locations.new) }
    ensures within { IfSome result (λ whole. (after ≤ whole.1) × (whole.1 ≤ length text.now)) }
    ensures same { matcher_pattern matcher.new ≡ matcher_pattern matcher.old }
    ensures count { location_count locations.new ≡ location_count locations.old }
{
    let start = after.saturating_sub(1);
    match read_from(matcher, locations, text, start) {
        Some(whole) => {
            if after <= whole.1 {
                Some(whole)
            } else {
                read_from(matcher, locations, text, after)
            }
        }
        None => None,
    }
}

// The match at this place of all matches from left to right, from 0. The search ends with it.
fn read_nth(
    matcher: &mut Matcher<'_>,
    locations: &mut CaptureLocations,
    text: &str,
    place: usize,
) -> Option<(usize, usize)>
    ensures found { Answers result (slice_get (find_all_str (matcher_pattern matcher.old) text.now) place)
        (λ m whole. (whole ≡ span m) × AreLocationsOf m locations.new) }
    ensures same { matcher_pattern matcher.new ≡ matcher_pattern matcher.old }
    ensures count { location_count locations.new ≡ location_count locations.old }
{
    let mut before = place;
    let mut after = 0;
    'matches: while let Some(whole) = read_next(matcher, locations, text, after) {
        if before == 0 {
            return Some(whole);
        }
        before -= 1;
        after = whole.1 + 1;
    }
    None
}

// Where the first match from this byte on ends.
fn end_from(matcher: &mut Matcher<'_>, text: &str, start: usize) -> Option<usize>
    ensures found { Answers result (find_str (matcher_pattern matcher.old) text.now start) (λ m end. end ≡ m.trace.end) }
    ensures same { matcher_pattern matcher.new ≡ matcher_pattern matcher.old }
{
    match matcher.find_at(text, start) {
        Some(found) => Some(found.end()),
        None => None,
    }
}

// Where the match that comes next ends, as of `read_next`.
fn next_end(matcher: &mut Matcher<'_>, text: &str, after: usize) -> Option<usize>
    ensures found { Answers result (next_match true (matcher_pattern matcher.old) text.now after) (λ m end. end ≡ m.trace.end) }
    ensures within { IfSome result (λ end. (after ≤ end) × (end ≤ length text.now)) }
    ensures same { matcher_pattern matcher.new ≡ matcher_pattern matcher.old }
{
    let start = after.saturating_sub(1);
    match end_from(matcher, text, start) {
        Some(end) => {
            if after <= end {
                Some(end)
            } else {
                end_from(matcher, text, after)
            }
        }
        None => None,
    }
}

// How many matches there are.
fn count_all(matcher: &mut Matcher<'_>, text: &str) -> usize
    ensures count { result ≡ length (find_all_str (matcher_pattern matcher.old) text.now) }
    ensures same { matcher_pattern matcher.new ≡ matcher_pattern matcher.old }
{
    let mut count = 0;
    let mut after = 0;
    'matches: while let Some(end) = next_end(matcher, text, after) {
        count += 1;
        after = end + 1;
    }
    count
}

// What the groups of a match span, where there is one.
fn row_of(
    alloc: Global,
    whole: Option<(usize, usize)>,
    locations: &CaptureLocations,
) -> M<Option<Vec<Option<(usize, usize)>>>>
    ensures { IfOk result (λ row. option_map (λ spans. spans.items) row ≡ option_map (λ (at : ℕ × ℕ). Some at
        ∷ map (location locations.now) (range_with_len 1 (location_count locations.now - 1))) whole) }
{
    match whole {
        Some(whole) => match spans_in(alloc, whole, locations) {
            Ok(spans) => Ok(Some(spans)),
            Err(error) => Err(error),
        },
        None => Ok(None),
    }
}

// The match that comes next, where there is one.
fn next_of(
    alloc: Global,
    whole: Option<(usize, usize)>,
    locations: &CaptureLocations,
) -> M<Option<NextMatch>>
    requires { IfSome whole (λ at. at.1 < 2 ^ 63) }
    ensures { IfOk result (λ next. MatchOption next (whole ≡ None) (λ m. IsSomeAnd whole (λ at. (m.after ≡ at.1 + 1)
        × (m.spans.items ≡ Some at ∷ map (location locations.now) (range_with_len 1 (location_count locations.now - 1)))))) }
{
    match whole {
        Some(whole) => match spans_in(alloc, whole, locations) {
            Ok(spans) => Ok(Some(NextMatch {
                spans,
                after: whole.1 + 1,
            })),
            Err(error) => Err(error),
        },
        None => Ok(None),
    }
}

impl<'p> Search<'p> {
    /// What searches for this pattern.
    pub(crate) fn new(alloc: Global, pattern: &'p Pattern) -> M<Search<'p>>
        ensures { IfOk result (λ s. s ≡ pattern.now) }
    {
        let regex = pattern.regex();
        let matcher = regex.matcher(alloc)?;
        let locations = regex.capture_locations(alloc)?;
        let _groups = regex.captures_len();
        Ok(Search {
            regex,
            matcher,
            locations,
        })
    }

    /// Whether it searches for a pattern of the same text.
    pub(crate) fn is_for(&self, pattern: &Pattern) -> bool
        ensures { IsTrue result → self.now ≡ pattern.now }
    {
        self.regex.as_str().as_bytes() == pattern.text().bytes()
    }

    /// Whether the pattern is found in a text.
    pub(crate) fn finds(&mut self, text: &str) -> bool
        ensures found { result ≡ is_found self.old text.now }
        ensures same { self.new ≡ self.old }
    {
        self.matcher.is_match(text)
    }

    /// How many matches it has in a text.
    pub(crate) fn match_count(&mut self, text: &str) -> usize
        ensures count { result ≡ length (matches_of self.old text.now) }
        ensures same { self.new ≡ self.old }
    {
        count_all(&mut self.matcher, text)
    }

    /// The match that comes next, as of `read_next`.
    pub(crate) fn next_match(
        &mut self,
        alloc: Global,
        text: &str,
        after: usize,
    ) -> M<Option<NextMatch>>
        ensures next { IfOk result (λ next. MatchOption next (matches_left self.old text.now after ≡ [])
            (λ m. matches_left self.old text.now after ≡ m.spans.items ∷ matches_left self.old text.now m.after)) }
        ensures same { self.new ≡ self.old }
    {
        let whole = read_next(&mut self.matcher, &mut self.locations, text, after);
        next_of(alloc, whole, &self.locations)
    }

    /// The match at this place, from 0, by what its groups span.
    pub(crate) fn nth_match(
        &mut self,
        alloc: Global,
        text: &str,
        place: usize,
    ) -> M<Option<Vec<Option<(usize, usize)>>>>
        ensures row { IfOk result (λ row. option_map (λ spans. spans.items) row ≡ slice_get (matches_of self.old text.now) place) }
        ensures same { self.new ≡ self.old }
    {
        let whole = read_nth(&mut self.matcher, &mut self.locations, text, place);
        row_of(alloc, whole, &self.locations)
    }
}
