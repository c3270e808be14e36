// The patterns of a Response Assertion, tried one after another until one decides.

ghost use Rattle.std.specs.Prelude.{◌≡◌, IfOk, not};
ghost use Rattle.element_props.specs.declared.choices.TestKind.TheVariants.{Contains, Equals, Substring};
ghost use Rattle.assertions.specs.Judging.{turned, together, meets};

use element_props::Pattern;
use jm_base::{M, Text};
use reply_search::{Searches, place_in};
use std::alloc::Global;

/// Whether a pattern holds that a text meets or not: `not` turns it.
fn turned(negate: bool, met: bool) -> bool
    ensures { result ≡ turned negate met }
{
    met != negate
}

/// Whether one pattern decides for all: with `or` one that holds, without it one that does not.
fn decides(either: bool, held: bool) -> bool
    ensures { result ≡ turned (not either) held }
{
    held == either
}

/// Whether regular expressions hold together of a text.
pub fn found_together<'p>(
    alloc: Global,
    patterns: &'p [Pattern],
    text: &str,
    negate: bool,
    either: bool,
    searches: &mut Searches<'p>,
) -> M<bool>
    ensures { IfOk result (λ held. held ≡ together either (λ tried. turned negate (meets Contains text.now tried)) patterns.now) }
{
    'patterns: for pattern in patterns {
        let met = searches.finds(alloc, pattern, text)?;
        if decides(either, turned(negate, met)) {
            return Ok(either);
        }
    }
    Ok(!either)
}

/// Whether texts hold together, each of which has to be the whole text.
pub fn same_together(patterns: &[Text], text: &str, negate: bool, either: bool) -> bool
    ensures { result ≡ together either (λ tried. turned negate (meets Equals text.now tried)) patterns.now }
{
    'patterns: for pattern in patterns {
        let met = is_same(text.as_bytes(), pattern.bytes());
        if decides(either, turned(negate, met)) {
            return either;
        }
    }
    !either
}

/// Whether texts hold together, each of which has to stand in the text.
pub fn inside_together(patterns: &[Text], text: &str, negate: bool, either: bool) -> bool
    ensures { result ≡ together either (λ tried. turned negate (meets Substring text.now tried)) patterns.now }
{
    'patterns: for pattern in patterns {
        let met = stands_in(pattern.bytes(), text.as_bytes());
        if decides(either, turned(negate, met)) {
            return either;
        }
    }
    !either
}

/// Whether two texts are the same bytes.
fn is_same(text: &[u8], pattern: &[u8]) -> bool
    ensures { result ≡ meets Equals text.now pattern.now }
{
    text == pattern
}

/// Whether a text stands in another.
fn stands_in(part: &[u8], text: &[u8]) -> bool
    ensures { result ≡ meets Substring text.now part.now }
{
    place_in(part, text).is_some()
}
