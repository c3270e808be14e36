// What a thread keeps of Counters and data sets.

ghost use Rattle.std.specs.Prelude.{◌≡◌, ◌<◌, ◌++◌, ◌∷◌, [], map, length, nat_eq, IfOk, OnOk};
ghost use Rattle.std.specs.List.{filter, list_any};
ghost use Rattle.scope_resolver.specs.Scoping.{parent_in};
ghost use Rattle.element_tree.specs.Tree.{threads_of, group_of};
ghost use Rattle.config_elements.specs.RoundStart.{is_of, is_at, is_in_scope, is_advancing, advancing_of, first_in, first_config, rows_in, feed_of, feeds_of};

use crate::rows::Rows;
use element_tree::{Element, Kind, Plan};
use jm_base::M;
use scope_resolver::line_to;
use std::alloc::Global;
use std::marker::Model;

/// An element that advances, and the rows of a data set.
#[derive(Drop)]
pub struct Feed {
    pub number: u16,
    pub(crate) rows: Rows,
}

/// What a thread keeps of the Counters and data sets that advance in its rounds. It is used with the plan for which it was
/// made.
pub struct ConfigState {
    pub(crate) feeds: Vec<Feed>,
    pub(crate) places: Vec<u64>,
}

// Written out, so that other crates let a state go by one call.
impl Drop for ConfigState {
    fn drop(self) {
        let Self {
            feeds: _feeds,
            places: _places,
        } = self;
    }
}

impl Model for ConfigState {
    ghost use Rattle.config_elements.specs.RoundStart.{Config};

    ghost Value = { Config };

    ghost view = { λ c. record { feeds = c.feeds.items; places = c.places.items } };
}

/// The elements that advance: all Counters do before the data sets.
#[derive(Clone, Copy)]
pub(crate) enum Sort {
    Counters,
    DataSets,
}

fn is_of(sort: Sort, kind: &Kind) -> bool
    ensures { result ≡ is_of sort kind.now }
{
    match sort {
        Sort::Counters => matches!(kind, Kind::Counter { .. }),
        Sort::DataSets => matches!(kind, Kind::DataSet { .. }),
    }
}

// Whether the element of this number is there, and of this sort.
fn is_at(sort: Sort, plan: &Plan, number: u16) -> bool
    ensures { result ≡ is_at sort plan.now.elements number }
{
    match plan.element(number) {
        Some(element) => is_of(sort, &element.kind),
        None => false,
    }
}

// Whether an element stands directly under the plan.
fn is_under_plan(plan: &Plan, number: u16) -> bool
    ensures { result ≡ nat_eq (parent_in plan.now.elements number) 0 }
{
    match plan.element(number) {
        Some(element) => element.parent == 0,
        None => true,
    }
}

fn has_level(levels: &[u16], group: u16) -> bool
    ensures { result ≡ list_any (nat_eq group) levels.now }
{
    levels.iter().any(|level| group == *level)
}

// Whether an element stands directly under the plan, or at any depth below the group.
fn is_in_scope(alloc: Global, plan: &Plan, group: u16, number: u16) -> M<bool>
    ensures { IfOk result (λ b. b ≡ is_in_scope plan.now.elements group number) }
{
    let line = line_to(alloc, plan, number)?;
    Ok(is_under_plan(plan, number) || has_level(line.as_slice(), group))
}

// What an element keeps before the first round.
fn first_in(kind: &Kind) -> u64
    ensures { result ≡ first_in kind.now }
{
    match kind {
        Kind::Counter { start, .. } => *start,
        _ => 0,
    }
}

// The rows of a data set.
fn rows_in(alloc: Global, kind: &Kind) -> M<Rows>
    ensures { IfOk result (λ r. r ≡ rows_in kind.now) }
{
    match kind {
        Kind::DataSet { text, .. } => Rows::read(alloc, text.bytes()),
        _ => Ok(Rows::none(alloc)),
    }
}

// Whether an element is of this sort and advances in the rounds of the group.
fn is_advancing(alloc: Global, plan: &Plan, sort: Sort, group: u16, number: u16) -> M<bool>
    ensures { IfOk result (λ b. b ≡ is_advancing sort plan.now.elements group number) }
{
    if is_at(sort, plan, number) {
        is_in_scope(alloc, plan, group, number)
    } else {
        Ok(false)
    }
}

// Adds an element to the numbers of those that advance, if it does.
fn add_one(
    alloc: Global,
    plan: &Plan,
    sort: Sort,
    group: u16,
    number: u16,
    numbers: &mut Vec<u16>,
) -> M<()>
    ensures { OnOk result (numbers.new.items ≡ numbers.old.items ++ filter (is_advancing sort plan.now.elements group) (number ∷ [])) }
{
    if is_advancing(alloc, plan, sort, group, number)? {
        numbers.push(number)?;
    }
    Ok(())
}

// Adds the elements of a sort that advance in the rounds of the group, in tree order.
fn add_all(alloc: Global, plan: &Plan, sort: Sort, group: u16, numbers: &mut Vec<u16>) -> M<()>
    ensures { OnOk result (numbers.new.items ≡ numbers.old.items ++ advancing_of sort plan.now.elements group) }
{
    let count = plan.elements().len() as u16;
    'elements: for number in 0..count {
        add_one(alloc, plan, sort, group, number, numbers)?;
    }
    Ok(())
}

// An element that advances.
fn feed_of(alloc: Global, plan: &Plan, number: u16) -> M<Feed>
    ensures { IfOk result (λ f. f ≡ feed_of plan.now.elements number) }
{
    let rows = match plan.element(number) {
        Some(element) => rows_in(alloc, &element.kind)?,
        None => Rows::none(alloc),
    };
    Ok(Feed { number, rows })
}

fn feeds_of(alloc: Global, plan: &Plan, numbers: &[u16]) -> M<Vec<Feed>>
    ensures { IfOk result (λ feeds. feeds.items ≡ map (feed_of plan.now.elements) numbers.now) }
{
    let mut feeds = Vec::new(alloc);
    'numbers: for number in numbers {
        feeds.push(feed_of(alloc, plan, *number)?)?;
    }
    Ok(feeds)
}

// What each element keeps before the first round.
fn first_places(alloc: Global, elements: &[Element]) -> M<Vec<u64>>
    ensures { IfOk result (λ places. places.items ≡ first_config elements.now) }
{
    let mut places = Vec::new(alloc);
    'elements: for element in elements {
        places.push(first_in(&element.kind))?;
    }
    Ok(places)
}

impl ConfigState {
    /// What a thread keeps before its first round. Threads are numbered from 0 over all groups.
    pub fn new(alloc: Global, plan: &Plan, thread: u16) -> M<ConfigState>
        requires { thread < length (threads_of plan.now) }
        ensures feeds { IfOk result (λ c. c.feeds ≡ feeds_of plan.now.elements (group_of plan.now thread)) }
        ensures places { IfOk result (λ c. c.places ≡ first_config plan.now.elements) }
    {
        let group = plan.group_of(thread);
        let mut numbers = Vec::new(alloc);
        add_all(alloc, plan, Sort::Counters, group, &mut numbers)?;
        add_all(alloc, plan, Sort::DataSets, group, &mut numbers)?;
        let feeds = feeds_of(alloc, plan, numbers.as_slice())?;
        let places = first_places(alloc, plan.elements())?;
        Ok(ConfigState { feeds, places })
    }
}
