// The elements below a thread group: samplers, transactions and critical sections by their kind, the other controllers by their
// cursors.

ghost use Rattle.std.specs.Prelude.{◌≡◌, ◌≤◌, ℕ, List, length, slice_get, Some};
ghost use Rattle.jm_meaning.specs.Beginning.{max_rounds};
ghost use Rattle.jm_meaning.specs.Children.{children_of, in_order, one_of};
ghost use Rattle.jm_meaning.specs.Sections.{section};
ghost use Rattle.jm_meaning.specs.Transactions.{transaction};
ghost use Rattle.jm_meaning.specs.Meaning.{kind_meaning};
ghost use Rattle.open_elements.specs.Cursors.{cursor_left, begun_of, FitsKind};
ghost use Rattle.plain_run.specs.Levels.{at_level};
ghost use Rattle.plain_run.specs.Plays.{Runs, here_of};

use crate::children::{child_at, children_of};
use crate::progress::{Progress, refused};
use crate::transaction::{give_sum, joined};
use cursor_steps::run_count;
use element_tree::{Element, Kind, Plan, Turn};
use jm_base::{End, M, Outside};
use jm_meaning::{Item, Signal, Tally};
use open_elements::{Cursor, Entered, enter};

/// A level of a plan: what a failed sample leads to there, and how deep elements nest at it at most.
#[derive(Clone, Copy)]
pub struct Level<'p> {
    pub plan: &'p Plan,
    pub at_failure: Signal,
    pub depth: u8,
}

// Runs an element of this level by its kind, in a round of its nearest looping ancestor, where there is one. Its children are of
// the level below.
#[cycle(elements)]
fn run_element<O: Outside>(
    level: Level<'_>,
    number: Option<u16>,
    round: u64,
    progress: &mut Progress,
    outside: &mut O,
) -> M<Signal>
    requires { progress.old.rounds ≤ max_rounds }
    ensures { Runs (O.account outside.old) progress.old
        (one_of (at_level level.entry) round number) result progress.new (O.account outside.new) }
{
    let Some(number) = number else {
        return Ok(Signal::Normal);
    };
    if level.depth == 0 {
        return Ok(Signal::Normal);
    }
    let Some(element) = level.plan.element(number) else {
        return Ok(Signal::Normal);
    };
    let children = children_of(progress.alloc, level.plan, element)?;
    let children = children.as_slice();
    let below = Level {
        depth: level.depth - 1,
        ..level
    };
    match &element.kind {
        Kind::Transaction => run_transaction(
            below,
            level.plan.label_of(number),
            children,
            round,
            progress,
            outside,
        ),
        Kind::CriticalSection { .. } => run_section(
            below,
            level.plan.lock_of(number),
            children,
            round,
            progress,
            outside,
        ),
        _ => run_entered(below, number, element, children, round, progress, outside),
    }
}

// Enters an element that is no transaction and no section: a sampler runs, and an open controller takes its turns.
#[cycle(elements)]
fn run_entered<O: Outside>(
    level: Level<'_>,
    number: u16,
    element: &Element,
    children: &[u16],
    round: u64,
    progress: &mut Progress,
    outside: &mut O,
) -> M<Signal>
    requires rounds { progress.old.rounds ≤ max_rounds }
    requires there { slice_get level.plan.now.elements number ≡ Some element.now }
    requires children { children.now ≡ children_of level.plan.now.elements element.now }
    requires transaction { element.now.kind ≡ Kind.Transaction → ⊥ }
    requires section { (name : List ℕ) → element.now.kind ≡ Kind.CriticalSection name → ⊥ }
    ensures { Runs (O.account outside.old) progress.old
        (kind_meaning (here_of level.entry.plan.now level.entry.at_failure) (at_level level.entry) number element.now element.now.kind round)
        result progress.new (O.account outside.new) }
{
    match enter(
        progress.alloc,
        level.plan,
        number,
        run_count(level.plan, element),
        &mut progress.places,
        &mut progress.user,
        outside,
    ) {
        Ok(Entered::Nothing) => Ok(Signal::Normal),
        Ok(Entered::Sampler) => progress.sample(level.plan, number, level.at_failure, outside),
        Ok(Entered::Open(mut cursor)) => run_turns(
            level,
            number,
            element,
            children,
            round,
            &mut cursor,
            progress,
            outside,
        ),
        Err(error) => refused(error),
    }
}

// The turns of an open controller: rounds are taken from those left, and the children that it names are run, up to the first
// signal that isn't Normal.
#[cycle(elements)]
fn run_turns<O: Outside>(
    level: Level<'_>,
    number: u16,
    element: &Element,
    children: &[u16],
    round: u64,
    cursor: &mut Cursor,
    progress: &mut Progress,
    outside: &mut O,
) -> M<Signal>
    requires rounds { progress.old.rounds ≤ max_rounds }
    requires there { slice_get level.plan.now.elements number ≡ Some element.now }
    requires children { children.now ≡ children_of level.plan.now.elements element.now }
    requires fits { FitsKind number (length (children_of level.plan.now.elements element.now)) element.now.kind cursor.old }
    requires begun { begun_of cursor.old ≡ 0 }
    ensures { Runs (O.account outside.old) progress.old
        (cursor_left (at_level level.entry) round (children_of level.entry.plan.now.elements element.now) element.now cursor.old)
        result progress.new (O.account outside.new) }
{
    'turns: loop {
        match cursor.next(
            progress.alloc,
            level.plan,
            round,
            &mut progress.user,
            outside,
        ) {
            Ok(Turn::Over) => return Ok(Signal::Normal),
            Ok(Turn::Round) => match progress.take_round() {
                Signal::Normal => {}
                other => return Ok(other),
            },
            Ok(Turn::Child(place)) => {
                match run_element(
                    level,
                    child_at(children, place),
                    cursor.round(round),
                    progress,
                    outside,
                )? {
                    Signal::Normal => {}
                    other => return Ok(other),
                }
            }
            Err(error) => return refused(error),
        }
    }
}

/// Runs these elements one after another, up to the first signal that isn't Normal.
#[cycle(elements)]
pub fn run_children<O: Outside>(
    level: Level<'_>,
    children: &[u16],
    round: u64,
    progress: &mut Progress,
    outside: &mut O,
) -> M<Signal>
    requires { progress.old.rounds ≤ max_rounds }
    ensures { Runs (O.account outside.old) progress.old
        (in_order (at_level level.entry) round children.now)
        result progress.new (O.account outside.new) }
{
    for child in children {
        match run_element(level, Some(*child), round, progress, outside)? {
            Signal::Normal => {}
            other => return Ok(other),
        }
    }
    Ok(Signal::Normal)
}

// A Transaction runs its children, and then gives its sample. What it counts is counted by the one around it too.
#[cycle(elements)]
fn run_transaction<O: Outside>(
    level: Level<'_>,
    label: u16,
    children: &[u16],
    round: u64,
    progress: &mut Progress,
    outside: &mut O,
) -> M<Signal>
    requires { progress.old.rounds ≤ max_rounds }
    ensures { Runs (O.account outside.old) progress.old
        (transaction label (in_order (at_level level.entry) round children.now))
        result progress.new (O.account outside.new) }
{
    let around = progress.tally;
    progress.tally = Tally::none();
    let signal = run_children(level, children, round, progress, outside)?;
    let inside = progress.tally;
    progress.tally = joined(around, inside);
    give_sum(progress, label, inside, signal)
}

// A critical section uses a unit and is entered; its children run, and it is left, whatever they ended with.
#[cycle(elements)]
fn run_section<O: Outside>(
    level: Level<'_>,
    lock: u16,
    children: &[u16],
    round: u64,
    progress: &mut Progress,
    outside: &mut O,
) -> M<Signal>
    requires { progress.old.rounds ≤ max_rounds }
    ensures { Runs (O.account outside.old) progress.old
        (section lock (in_order (at_level level.entry) round children.now))
        result progress.new (O.account outside.new) }
{
    if progress.units == 0 {
        return Ok(Signal::Stop(End::SampleLimit));
    }
    progress.units -= 1;
    progress.items.push(Item::Entered(lock))?;
    let signal = run_children(level, children, round, progress, outside)?;
    progress.items.push(Item::Left(lock))?;
    Ok(signal)
}
