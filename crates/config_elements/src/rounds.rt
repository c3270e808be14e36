// The start of a round.

ghost use Rattle.std.specs.Prelude.{◌≡◌, ◌<◌, ◌∷◌, [], map, Err, IfOk, Some, ℕ, slice_get, slice_set, slice_index_or, decimal, codes};
ghost use Rattle.jm_base.specs.Run.{over};
ghost use Rattle.jm_base.specs.Outside.{Account};
ghost use Rattle.cursor_steps.specs.CursorStep.{StepsTo};
ghost use Rattle.config_elements.specs.RoundStart.{with_fields, next_row, counter_advance, at_the_end, set_advance, advance_at, advancing, begin_each, begin_round, feeds_of, rows_at, AreFed, FeedsOne};
ghost use Rattle.config_elements.specs.RoundCut.{FeedsInPart, CutsRound};

use crate::rows::Rows;
use crate::state::{ConfigState, Feed};
use element_tree::{AtEnd, Kind, Plan};
use itoa::Buffer;
use jm_base::{Items, M, Outside, Text};
use std::alloc::Global;
use var_changes::{Variable, put_all};
use var_functions::{UserState, VarError};

/// What an element gives at the start of a round.
#[derive(Drop)]
pub(crate) struct Advance {
    /// The variables that it sets; there are none where no row is left and the thread is to stop.
    pub sets: Option<Items<Variable>>,
    /// Its next place.
    pub place: u64,
}

fn variable(alloc: Global, name: &Text, value: &[u8]) -> M<Variable>
    ensures { IfOk result (λ v. v ≡ record { name = name.now; value = value.now }) }
{
    Ok(Variable {
        name: name.copy(alloc)?,
        value: Text::new(alloc, value)?,
    })
}

// The place after this one of a Counter.
fn next_value(increment: u64, maximum: u64, start: u64, place: u64) -> u64
    ensures { result ≡ (counter_advance increment maximum start [] place).place }
{
    match place.checked_add(increment) {
        Some(next) if next <= maximum => next,
        _ => start,
    }
}

// The variable of a Counter at this place.
fn counted(alloc: Global, var: &Text, place: u64) -> M<Vec<Variable>>
    ensures { IfOk result (λ vs. vs.items ≡ record { name = var.now; value = decimal place } ∷ []) }
{
    let mut digits = Buffer::new();
    let mut variables = Vec::new(alloc);
    variables.push(variable(alloc, var, digits.format(place).as_bytes())?)?;
    Ok(variables)
}

// Each name with its field.
fn with_fields(alloc: Global, names: &[Text], row: &[Text]) -> M<Vec<Variable>>
    ensures { IfOk result (λ vs. vs.items ≡ with_fields names.now row.now) }
{
    let mut variables = Vec::new(alloc);
    'names: for (place, name) in names.iter().enumerate() {
        match row.get(place) {
            Some(field) => variables.push(variable(alloc, name, field.bytes())?)?,
            None => return Ok(variables),
        }
    }
    Ok(variables)
}

// The row after this one.
fn next_row(at_end: AtEnd, count: usize, place: u64) -> u64
    requires { place < count }
    ensures { result ≡ next_row at_end count place }
{
    match at_end {
        AtEnd::Recycle => {
            if place + 1 < count as u64 {
                place + 1
            } else {
                0
            }
        }
        AtEnd::Stop | AtEnd::Eof => place + 1,
    }
}

// Each name with `<EOF>`.
fn all_eof(alloc: Global, names: &[Text]) -> M<Vec<Variable>>
    ensures { IfOk result (λ vs. vs.items ≡ map (λ name. record { name = name; value = codes "<EOF>" }) names.now) }
{
    let mut variables = Vec::new(alloc);
    'names: for name in names {
        variables.push(variable(alloc, name, b"<EOF>")?)?;
    }
    Ok(variables)
}

// What a data set gives after its last row.
fn at_the_end(alloc: Global, at_end: AtEnd, names: &[Text]) -> M<Option<Items<Variable>>>
    ensures { IfOk result (λ sets. sets ≡ at_the_end at_end names.now) }
{
    match at_end {
        AtEnd::Recycle => Ok(Some(Items::of(Vec::new(alloc)))),
        AtEnd::Stop => Ok(None),
        AtEnd::Eof => Ok(Some(Items::of(all_eof(alloc, names)?))),
    }
}

// What a data set of these rows gives at its place.
fn set_advance(alloc: Global, at_end: AtEnd, names: &[Text], rows: &Rows, place: u64) -> M<Advance>
    ensures { IfOk result (λ a. a ≡ set_advance at_end names.now rows.now place) }
{
    match rows.get(place) {
        Some(row) => Ok(Advance {
            sets: Some(Items::of(with_fields(alloc, names, row.as_slice())?)),
            place: next_row(at_end, rows.count(), place),
        }),
        None => Ok(Advance {
            sets: at_the_end(alloc, at_end, names)?,
            place,
        }),
    }
}

// What an element gives at its place.
fn advanced(alloc: Global, plan: &Plan, feed: &Feed, place: u64) -> M<Advance>
    ensures { feed.now.rows ≡ rows_at plan.now.elements feed.now.number
        → IfOk result (λ a. advance_at (slice_get plan.now.elements feed.now.number) place ≡ over a) }
{
    let Some(element) = plan.element(feed.number) else {
        return Ok(nothing(alloc, place));
    };
    match &element.kind {
        Kind::Counter {
            increment,
            maximum,
            start,
            var,
        } => Ok(Advance {
            sets: Some(Items::of(counted(alloc, var, place)?)),
            place: next_value(*increment, *maximum, *start, place),
        }),
        Kind::DataSet { at_end, names, .. } => {
            set_advance(alloc, *at_end, names.as_slice(), &feed.rows, place)
        }
        _ => Ok(nothing(alloc, place)),
    }
}

fn nothing(alloc: Global, place: u64) -> Advance
    ensures { result ≡ record { sets = Some []; place = place } }
{
    Advance {
        sets: Some(Items::of(Vec::new(alloc))),
        place,
    }
}

// One element advances: its variables are set. It answers false where no row is left.
fn feed_one(
    alloc: Global,
    plan: &Plan,
    feed: &Feed,
    places: &mut Vec<u64>,
    state: &mut UserState,
) -> Result<bool, VarError>
    ensures fed { feed.now.rows ≡ rows_at plan.now.elements feed.now.number
        → FeedsOne plan.now.elements feed.now.number places.old.items state.old places.new.items state.new result }
    ensures cut { feed.now.rows ≡ rows_at plan.now.elements feed.now.number → result ≡ Err VarError.NoMemory
        → FeedsInPart plan.now.elements feed.now.number places.old.items state.old places.new.items state.new }
    ensures fns { state.new.fns ≡ state.old.fns }
{
    let place = place_of(places, feed.number);
    let advance = advanced(alloc, plan, feed, place)?;
    let Advance { sets, place: next } = advance;
    match sets {
        Some(sets) => {
            put_all(sets.into_vec(), &mut state.vars)?;
            set_place(places, feed.number, next);
            Ok(true)
        }
        None => Ok(false),
    }
}

// Puts the element of this number at this place.
fn set_place(places: &mut Vec<u64>, number: u16, place: u64)
    ensures { places.new.items ≡ slice_set places.old.items number place }
{
    if let Some(kept) = places.get_mut(usize::from(number)) {
        *kept = place;
    }
}

// The place of the element of this number.
fn place_of(places: &Vec<u64>, number: u16) -> u64
    ensures { result ≡ slice_index_or places.now.items number 0 }
{
    places.get(usize::from(number)).copied().unwrap_or(0)
}

// All of them advance, one after another.
fn feed_all(
    alloc: Global,
    plan: &Plan,
    feeds: &[Feed],
    places: &mut Vec<u64>,
    state: &mut UserState,
) -> Result<bool, VarError>
    ensures came { AreFed plan.now.elements feeds.now → (a : Account)
        → StepsTo a (begin_each plan.now.elements (map (λ f. f.number) feeds.now) places.old.items state.old) a places.new.items state.new result }
    ensures cut { AreFed plan.now.elements feeds.now → result ≡ Err VarError.NoMemory
        → CutsRound plan.now.elements (map (λ f. f.number) feeds.now) places.old.items state.old places.new.items state.new }
    ensures fns { state.new.fns ≡ state.old.fns }
{
    'feeds: for feed in feeds {
        let fed = feed_one(alloc, plan, feed, places, state)?;
        if !fed {
            return Ok(false);
        }
    }
    Ok(true)
}

/// Begins a round of a thread's group: the Counters that stand directly under the plan or below the group advance, in tree
/// order, and then the data sets that do. A Counter sets its variable, and a data set a variable for each field of its next
/// row (the manual's "Counter" and "CSV Data Set Config"). It answers false where a data set that stops its thread has no row
/// left.
///
/// `ValueLimit` comes where a value would have more than 65,536 bytes, or all names and values of variables more than
/// 4,194,304. What was set before is set then, and the element that met the limit has not advanced. Out of memory it is the
/// same: those before have advanced, and of the variables of the next one a prefix is set.
pub fn begin_round<O: Outside>(
    alloc: Global,
    config: &mut ConfigState,
    plan: &Plan,
    state: &mut UserState,
    outside: &mut O,
) -> Result<bool, VarError>
    ensures came { (group : ℕ) → config.old.feeds ≡ feeds_of plan.now.elements group
        → StepsTo (O.account outside.old) (begin_round plan.now.elements group config.old.places state.old) (O.account outside.new) config.new.places state.new result }
    ensures cut { (group : ℕ) → config.old.feeds ≡ feeds_of plan.now.elements group → result ≡ Err VarError.NoMemory
        → CutsRound plan.now.elements (advancing plan.now.elements group) config.old.places state.old config.new.places state.new }
    // After every answer, out of memory included.
    ensures kept { config.new.feeds ≡ config.old.feeds }
    ensures fns { state.new.fns ≡ state.old.fns }
{
    feed_all(
        alloc,
        plan,
        config.feeds.as_slice(),
        &mut config.places,
        state,
    )
}
