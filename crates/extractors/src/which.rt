// Which match is taken.

ghost use Rattle.std.specs.Prelude.{◌≡◌, IfOk};
ghost use Rattle.std.specs.Option.{option_copied, option_map};
ghost use Rattle.reply_search.specs.Found.{matches_of};
ghost use Rattle.extractors.specs.Extraction.{which_of, taken};

use element_tree::RegexExtractor;
use jm_base::M;
use reply_search::Searches;
use std::alloc::Global;

/// Which match is taken.
#[derive(Clone, Copy, PartialEq, Eq, Debug)]
pub(crate) enum Which {
    /// All of them.
    All,
    /// One at random.
    AtRandom,
    /// The one at this place, from 0.
    One(u32),
}

/// The match of this number: from 1, or 0 for one at random, or -1 for all.
pub(crate) fn which_of(number: i32) -> Which
    ensures { result ≡ which_of number }
{
    match u32::try_from(number) {
        Err(_) => Which::All,
        Ok(0) => Which::AtRandom,
        Ok(number) => Which::One(number - 1),
    }
}

/// The one match that is taken, where it is there. A word picks the one at random.
pub(crate) fn taken<M>(which: Which, pick: u64, matches: &[M]) -> Option<&M>
    ensures { option_copied result ≡ taken which pick matches.now }
{
    match which {
        Which::All => None,
        Which::AtRandom => at_random(pick, matches),
        Which::One(place) => matches.get(place as usize),
    }
}

fn at_random<M>(pick: u64, matches: &[M]) -> Option<&M>
    ensures { option_copied result ≡ taken Which.AtRandom pick matches.now }
{
    if matches.is_empty() {
        return None;
    }
    matches.get((pick % matches.len() as u64) as usize)
}

/// The one match of a pattern that is taken, where it is there, by what its groups span. The search ends with it, and no
/// other match is kept; for one at random all are counted before.
pub(crate) fn taken_row<'p>(
    alloc: Global,
    x: &'p RegexExtractor,
    text: &str,
    which: Which,
    pick: u64,
    searches: &mut Searches<'p>,
) -> M<Option<Vec<Option<(usize, usize)>>>>
    ensures { IfOk result (λ row. option_map (λ spans. spans.items) row ≡ taken which pick (matches_of x.now.pattern text.now)) }
{
    match which {
        Which::All => Ok(None),
        Which::AtRandom => random_row(alloc, x, text, pick, searches),
        Which::One(place) => searches.nth_match(alloc, &x.pattern, text, place as usize),
    }
}

fn random_row<'p>(
    alloc: Global,
    x: &'p RegexExtractor,
    text: &str,
    pick: u64,
    searches: &mut Searches<'p>,
) -> M<Option<Vec<Option<(usize, usize)>>>>
    ensures { IfOk result (λ row. option_map (λ spans. spans.items) row
        ≡ taken Which.AtRandom pick (matches_of x.now.pattern text.now)) }
{
    let count = searches.match_count(alloc, &x.pattern, text)?;
    if count == 0 {
        return Ok(None);
    }
    let row = searches.nth_match(alloc, &x.pattern, text, (pick % count as u64) as usize)?;
    Ok(row)
}
