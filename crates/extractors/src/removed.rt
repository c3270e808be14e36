// Variables from before that are removed.

ghost use Rattle.std.specs.Prelude.{◌≡◌, IfOk, unwrap_or, option_and_then};
ghost use Rattle.cursor_steps.specs.Numeral.{decimal_number};
ghost use Rattle.var_changes.specs.Changes.{Changes};
ghost use Rattle.extractors.specs.Extraction.{small, old_count, removes_groups, removes_matches};

use crate::names::{count_name, group_name, groups_name, match_name};
use cursor_steps::decimal_number;
use jm_base::M;
use std::alloc::Global;
use var_functions::{VarError, Vars};

/// The greatest count of matches from before that is looked at.
const MOST_OLD: u32 = 65_536;

/// Removes the groups that a match of a pattern with that many groups may have had; other extractors have none.
pub(crate) fn remove_groups(
    alloc: Global,
    name: &[u8],
    groups: Option<usize>,
    vars: &mut Vars,
) -> Result<(), VarError>
    ensures exact { Changes (removes_groups name.now groups) vars.old vars.new result }
{
    let Some(groups) = groups else {
        return Ok(());
    };
    let count = groups_name(alloc, name)?;
    vars.remove(count.bytes());
    let last = groups as u64;
    'groups: for number in 0..last {
        let group = group_name(alloc, name, number)?;
        vars.remove(group.bytes());
    }
    let group = group_name(alloc, name, last)?;
    vars.remove(group.bytes());
    Ok(())
}

/// How many matches were set before, by the variable that counts them.
pub(crate) fn old_count(alloc: Global, name: &[u8], vars: &Vars) -> M<u32>
    ensures { IfOk result (λ n. n ≡ old_count name.now vars.now) }
{
    let name = count_name(alloc, name)?;
    Ok(match vars.get(name.bytes()) {
        Some(text) => small_number(text.bytes()),
        None => 0,
    })
}

fn small_number(text: &[u8]) -> u32
    ensures { result ≡ unwrap_or (option_and_then small (decimal_number text.now)) 0 }
{
    match decimal_number(text) {
        Some(number) if number <= MOST_OLD => number,
        _ => 0,
    }
}

/// Removes that many matches from before. The time grows with their number alone.
pub(crate) fn remove_matches(
    alloc: Global,
    name: &[u8],
    groups: Option<usize>,
    count: u32,
    vars: &mut Vars,
) -> Result<(), VarError>
    ensures exact { Changes (removes_matches name.now groups count) vars.old vars.new result }
{
    'matches: for place in 0..u64::from(count) {
        let name = match_name(alloc, name, place + 1)?;
        vars.remove(name.bytes());
        remove_groups(alloc, name.bytes(), groups, vars)?;
    }
    Ok(())
}
