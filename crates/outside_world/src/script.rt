// An outside that answers from the replies of a plan, with a clock of its own.

ghost use Rattle.std.specs.Prelude.{option_map, ◌≡◌, ◌+◌, ◌%◌, ◌<◌, slice_index, slice_set, map, replicate, IfOk};
ghost use Rattle.element_tree.specs.Tree.{replies_of_kind, replies_of_element};
ghost use Rattle.jm_base.specs.Outside.{fault_count, later};
ghost use Rattle.outside_world.specs.Worlds.{origin_of};
ghost use Rattle.outside_world.specs.Scripted.{scripted_account, opened_account, scripts_of};

use crate::closed::Closed;
use crate::copies::copy_replies;
use crate::kept::{Kept, Told, note, note_asked, told_list};
use crate::replies::{outcome_of_reply, replies_at, reply_at};
use element_tree::{Element, Kind, Plan};
use jm_base::{Heard, Items, M, Outcome, Outside, Request, ScriptReply};
use std::alloc::Global;
use std::marker::Model;

/// Answers each sampler with its own replies, one after another and again from the first.
/// Its clock starts at 0 and is moved by pauses and by the replies' milliseconds alone.
#[derive(Drop)]
pub struct ScriptOutside {
    alloc: Global,
    replies: Items<Items<ScriptReply>>,
    clock: u64,
    places: Vec<usize>,
    keep: bool,
    calls: Vec<Kept>,
    faults: u64,
    opening: Option<Opening>,
}

/// Which world opened an outside for which number, and the place that the outside takes there when it is closed.
#[derive(Drop)]
pub(crate) struct Opening {
    pub(crate) identity: u64,
    pub(crate) number: u16,
    pub(crate) place: Box<Closed>,
}

impl Model for ScriptOutside {
    ghost use Rattle.jm_base.specs.Outside.{Account};
    ghost use Rattle.outside_world.specs.Scripted.{account_of};
    ghost use Rattle.outside_world.specs.Told.{told_of};
    ghost use Rattle.outside_world.specs.Worlds.{origin_of};

    ghost Value = { Account };

    ghost view = { λ o. account_of (origin_of o.opening) o.replies o.clock o.places.items o.keep (told_of o.replies o.calls.items) o.faults };
}

impl Outside for ScriptOutside {
    ghost account = { λ o. o };

    fn now(&mut self) -> M<u64> {
        let clock = self.clock;
        note(&mut self.calls, self.keep, Kept::Reading(clock))?;
        Ok(clock)
    }

    fn pause(&mut self, ms: u32) -> M<()> {
        note(&mut self.calls, self.keep, Kept::Paused(ms))?;
        self.clock = later(self.clock, ms);
        Ok(())
    }

    fn ask(&mut self, sampler: u16, request: &Request) -> M<Outcome> {
        let place = place_of(&self.places, sampler);
        let replies = replies_at(&self.replies, sampler);
        let Some(reply) = reply_at(replies, place) else {
            note_asked(
                self.alloc,
                &mut self.calls,
                self.keep,
                sampler,
                place,
                request,
            )?;
            return Ok(Outcome::Null);
        };
        let outcome = outcome_of_reply(self.alloc, request, reply)?;
        note_asked(
            self.alloc,
            &mut self.calls,
            self.keep,
            sampler,
            place,
            request,
        )?;
        self.faults = faults_after(self.faults, &outcome);
        self.clock = later(self.clock, reply.ms);
        set_place(&mut self.places, sampler, place_after(place, replies.len()));
        Ok(outcome)
    }
}

impl ScriptOutside {
    /// The outside of a plan's own replies, before its first call: the clock at 0, each sampler at its first reply, no faults.
    /// With `keep` it tells: it stores the list of its calls and answers.
    pub fn new(alloc: Global, plan: &Plan, keep: bool) -> M<ScriptOutside>
        ensures { IfOk result (λ o. o ≡ scripted_account (scripts_of plan.now) keep) }
    {
        let elements = plan.elements();
        Ok(ScriptOutside {
            alloc,
            replies: all_replies(alloc, elements)?,
            clock: 0,
            places: zeros(alloc, elements.len())?,
            keep,
            calls: Vec::new(alloc),
            faults: 0,
            opening: None,
        })
    }

    // The outside of a plan's own replies, before its first call, opened by a world. It tells.
    pub(crate) fn opened(alloc: Global, plan: &Plan, opening: Opening) -> M<ScriptOutside>
        ensures { IfOk result (λ o. o ≡ opened_account opening.identity opening.number (scripts_of plan.now)) }
    {
        let mut outside = ScriptOutside::new(alloc, plan, true)?;
        outside.opening = Some(opening);
        Ok(outside)
    }

    // What it was told, where it tells, and which world opened it.
    pub(crate) fn into_told(self) -> (Option<Told>, Option<Opening>)
        ensures told { result.0 ≡ self.told }
        ensures origin { origin_of result.1 ≡ self.origin }
    {
        let ScriptOutside {
            replies,
            keep,
            calls,
            opening,
            ..
        } = self;
        let told = if keep {
            Some(Told::of(replies, calls))
        } else {
            None
        };
        (told, opening)
    }

    /// What it was told, in order, where it tells. The list is made in memory of its own.
    pub fn told(&self, alloc: Global) -> M<Option<Vec<Heard>>>
        ensures { IfOk result (λ t. option_map (λ v. v.items) t ≡ self.now.told) }
    {
        if self.keep {
            Ok(Some(told_list(alloc, &self.replies, &self.calls)?))
        } else {
            Ok(None)
        }
    }
}

fn zeros(alloc: Global, count: usize) -> M<Vec<usize>>
    ensures { IfOk result (λ v. v.items ≡ replicate count 0) }
{
    Ok(vec![in alloc; 0; count]?)
}

fn all_replies(alloc: Global, elements: &[Element]) -> M<Items<Items<ScriptReply>>>
    ensures { IfOk result (λ r. r ≡ map replies_of_element elements.now) }
{
    let mut all = Vec::with_capacity(alloc, elements.len())?;
    for element in elements {
        all.push(replies_of(alloc, element)?)?;
    }
    Ok(Items::of(all))
}

fn replies_of(alloc: Global, element: &Element) -> M<Items<ScriptReply>>
    ensures { IfOk result (λ r. r ≡ replies_of_element element.now) }
{
    match &element.kind {
        Kind::Script { replies, .. } => copy_replies(alloc, replies.as_slice()),
        Kind::Http {
            replies: Some(replies),
            ..
        } => copy_replies(alloc, replies.as_slice()),
        _ => Ok(Items::of(Vec::new(alloc))),
    }
}

fn later(clock: u64, ms: u32) -> u64
    ensures { result ≡ later clock ms }
{
    clock.saturating_add(u64::from(ms))
}

// The place after this one among that many: after the last one comes the first.
fn place_after(place: usize, count: usize) -> usize
    requires { place < count }
    ensures { result ≡ (place + 1) % count }
{
    let next = place + 1;
    if next < count { next } else { 0 }
}

fn place_of(places: &Vec<usize>, sampler: u16) -> usize
    ensures { result ≡ slice_index places.now.items sampler }
{
    places.get(usize::from(sampler)).copied().unwrap_or(0)
}

fn set_place(places: &mut Vec<usize>, sampler: u16, place: usize)
    ensures { places.new.items ≡ slice_set places.old.items sampler place }
{
    let index = usize::from(sampler);
    if index < places.len() {
        places[index] = place;
    }
}

fn faults_after(faults: u64, outcome: &Outcome) -> u64
    ensures { result ≡ fault_count faults outcome.now }
{
    match outcome {
        Outcome::Fault => faults.saturating_add(1),
        Outcome::Reply(_) | Outcome::Null | Outcome::Broken(_) => faults,
    }
}
