// The searches that are kept from text to text.

ghost use Rattle.std.specs.Prelude.{◌≡◌, [], ◌∷◌, IfOk, MatchOption, length, slice_get};
ghost use Rattle.std.specs.Option.{option_map};
ghost use Rattle.reply_search.specs.Found.{matches_of, matches_left, is_found};

use crate::search::Search;
use element_props::Pattern;
use jm_base::M;
use std::alloc::Global;
use std::marker::Model;

/// How many searches are kept at most.
const PLACES: usize = 256;

/// How many places a pattern's search may be kept at.
const TRIES: usize = 8;

/// A match, by what its groups span, and where the search for the next one goes on.
#[derive(Drop)]
pub struct NextMatch {
    /// The bytes that its groups span, from the first up to the one after the last, the whole match first. A group that took no
    /// part spans nothing.
    pub spans: Vec<Option<(usize, usize)>>,
    /// One more than the end of the match.
    pub after: usize,
}

/// Where patterns are found, with what searches for each of them kept from text to text: to make it anew takes microseconds.
/// At most 256 are kept. Contracts see nothing of what is kept, since no answer depends on it.
pub struct Searches<'p> {
    kept: Vec<Option<Box<Search<'p>>>>,
}

// Written out, so that other crates let what is kept go by one call.
impl<'p> Drop for Searches<'p> {
    fn drop(self) {
        let Self { kept: _kept } = self;
    }
}

impl<'p> Model for Searches<'p> {
    ghost use Rattle.std.specs.Prelude.{⊤};

    ghost Value = { ⊤ };

    ghost view = { λ _. tt };
}

// The first place that is tried for a pattern of this text.
fn first_place(text: &[u8]) -> usize {
    let mut place = 0usize;
    for byte in text {
        place = place.wrapping_mul(31).wrapping_add(usize::from(*byte));
    }
    place % PLACES
}

// The place of a pattern: where its search is kept, or one that is free, or else the first that was tried.
fn place_of(kept: &[Option<Box<Search<'_>>>], pattern: &Pattern) -> usize {
    let first = first_place(pattern.text().bytes());
    for step in 0..TRIES {
        let place = first.wrapping_add(step) % PLACES;
        if is_open(kept, place, pattern) {
            return place;
        }
    }
    first
}

// Whether this place is free or keeps the search of this pattern.
fn is_open(kept: &[Option<Box<Search<'_>>>], place: usize, pattern: &Pattern) -> bool {
    match kept.get(place) {
        Some(Some(search)) => search.is_for(pattern),
        _ => true,
    }
}

// Makes the places.
fn make_places<'p>(kept: &mut Vec<Option<Box<Search<'p>>>>) -> M<()> {
    for _place in kept.len()..PLACES {
        kept.push(None)?;
    }
    Ok(())
}

// What is kept at this place, which is free then.
fn taken_from<'p>(
    kept: &mut Vec<Option<Box<Search<'p>>>>,
    place: usize,
) -> Option<Box<Search<'p>>> {
    match kept.get_mut(place) {
        Some(search) => search.take(),
        None => None,
    }
}

// Keeps a search at this place.
fn keep_at<'p>(kept: &mut Vec<Option<Box<Search<'p>>>>, place: usize, search: Box<Search<'p>>) {
    if let Some(at) = kept.get_mut(place) {
        *at = Some(search);
    }
}

// A new search for a pattern.
fn search_for<'p>(alloc: Global, pattern: &'p Pattern) -> M<Box<Search<'p>>>
    ensures { IfOk result (λ search. search.value ≡ pattern.now) }
{
    let search = Box::new(alloc, Search::new(alloc, pattern)?)?;
    Ok(search)
}

// This search, if it is for the pattern, or else a new one.
fn search_by<'p>(alloc: Global, search: Box<Search<'p>>, pattern: &'p Pattern) -> M<Box<Search<'p>>>
    ensures { IfOk result (λ search. search.value ≡ pattern.now) }
{
    if search.is_for(pattern) {
        return Ok(search);
    }
    search_for(alloc, pattern)
}

impl<'p> Searches<'p> {
    /// No search is kept yet.
    pub fn new(alloc: Global) -> Searches<'p> {
        Searches {
            kept: Vec::new(alloc),
        }
    }

    // The place of a pattern.
    fn place_for(&mut self, pattern: &Pattern) -> M<usize> {
        make_places(&mut self.kept)?;
        Ok(place_of(&self.kept, pattern))
    }

    // The search of a pattern, taken out of its place: what is kept there, or a new one.
    fn take(&mut self, alloc: Global, place: usize, pattern: &'p Pattern) -> M<Box<Search<'p>>>
        ensures { IfOk result (λ search. search.value ≡ pattern.now) }
    {
        match taken_from(&mut self.kept, place) {
            Some(search) => search_by(alloc, search, pattern),
            None => search_for(alloc, pattern),
        }
    }

    /// Whether a pattern is found in a text. The time is linear in the text for each pattern.
    pub fn finds(&mut self, alloc: Global, pattern: &'p Pattern, text: &str) -> M<bool>
        ensures { IfOk result (λ found. found ≡ is_found pattern.now text.now) }
    {
        let place = self.place_for(pattern)?;
        let mut search = self.take(alloc, place, pattern)?;
        let found = search.finds(text);
        keep_at(&mut self.kept, place, search);
        Ok(found)
    }

    /// How many matches a pattern has in a text, from left to right, no two of which overlap. No room is taken for them.
    pub fn match_count(&mut self, alloc: Global, pattern: &'p Pattern, text: &str) -> M<usize>
        ensures { IfOk result (λ count. count ≡ length (matches_of pattern.now text.now)) }
    {
        let place = self.place_for(pattern)?;
        let mut search = self.take(alloc, place, pattern)?;
        let count = search.match_count(text);
        keep_at(&mut self.kept, place, search);
        Ok(count)
    }

    /// The match of a pattern that comes next in a text, where `after` is what the last match said, or 0 for the first. Room is
    /// taken for its groups alone.
    pub fn next_match(
        &mut self,
        alloc: Global,
        pattern: &'p Pattern,
        text: &str,
        after: usize,
    ) -> M<Option<NextMatch>>
        ensures { IfOk result (λ next. MatchOption next (matches_left pattern.now text.now after ≡ [])
            (λ m. matches_left pattern.now text.now after ≡ m.spans.items ∷ matches_left pattern.now text.now m.after)) }
    {
        let place = self.place_for(pattern)?;
        let mut search = self.take(alloc, place, pattern)?;
        let next = search.next_match(alloc, text, after);
        keep_at(&mut self.kept, place, search);
        next
    }

    /// The match of a pattern in a text that stands at this place of all its matches from left to right, no two of which
    /// overlap, from 0, where there are more matches than that: the bytes that its groups span, from the first up to the one
    /// after the last, the whole match first. A group that took no part spans nothing. The search ends with that match, and
    /// room is taken for its groups alone.
    pub fn nth_match(
        &mut self,
        alloc: Global,
        pattern: &'p Pattern,
        text: &str,
        number: usize,
    ) -> M<Option<Vec<Option<(usize, usize)>>>>
        ensures { IfOk result (λ row. option_map (λ spans. spans.items) row ≡ slice_get (matches_of pattern.now text.now) number) }
    {
        let place = self.place_for(pattern)?;
        let mut search = self.take(alloc, place, pattern)?;
        let row = search.nth_match(alloc, text, number);
        keep_at(&mut self.kept, place, search);
        row
    }
}
