// What the groups of a match span, and where plain texts are found.

ghost use Rattle.std.specs.Prelude.{◌≡◌, ◌+◌, ◌≤◌, ◌∷◌, ◌-◌, map, length, IfOk, IfSome, Some};
ghost use Rattle.std.specs.List.{range_with_len};
ghost use Rattle.regex.specs.Locations.{location, location_count};
ghost use Rattle.reply_search.specs.Found.{groups_of, place_in};

use element_props::Pattern;
use jm_base::M;
use memchr::memmem;
use regex::CaptureLocations;
use std::alloc::Global;

/// What the groups of a match span, by the span of the whole match, which comes first, and the places of its groups: pairs of
/// the first byte and the one after the last. A group that took no part spans nothing.
pub(crate) fn spans_in(
    alloc: Global,
    whole: (usize, usize),
    locations: &CaptureLocations,
) -> M<Vec<Option<(usize, usize)>>>
    ensures { IfOk result (λ spans. spans.items ≡ Some whole
        ∷ map (location locations.now) (range_with_len 1 (location_count locations.now - 1))) }
{
    let mut spans = Vec::new(alloc);
    spans.push(Some(whole))?;
    for group in 1..locations.len() {
        spans.push(locations.get(group))?;
    }
    Ok(spans)
}

/// How many groups a pattern has beside the whole match.
pub fn groups_of(pattern: &Pattern) -> usize
    ensures { result ≡ groups_of pattern.now }
{
    pattern.regex().captures_len().saturating_sub(1)
}

/// The first place at which a plain text stands in another, byte for byte. The empty text stands at place 0 of each text. The
/// time is linear in the two together.
pub fn place_in(part: &[u8], text: &[u8]) -> Option<usize>
    ensures place { result ≡ place_in part.now text.now }
    ensures within { IfSome result (λ place. place + length part.now ≤ length text.now) }
{
    memmem::find(text, part)
}
