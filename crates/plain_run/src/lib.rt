//! The run of a plan, by recursion on its elements: slow, without a stack of open elements and without tables. Its contract is
//! that what a thread shows is the meaning of its plan.
#![tactic(auto)]

mod children;
mod elements;
mod group;
mod progress;
mod transaction;

ghost use Rattle.std.specs.Prelude.{length, ◌<◌, ◌≤◌, ◌≡◌, [], ℕ, IfOk, OnOk, OnErr};
ghost use Rattle.jm_base.specs.Run.{Run, over};
ghost use Rattle.element_tree.specs.Tree.{threads_of, group_of};
ghost use Rattle.config_elements.specs.RoundStart.{feeds_of};
ghost use Rattle.jm_meaning.specs.Beginning.{Options, first_of, max_rounds};
ghost use Rattle.jm_meaning.specs.Meaning.{events, end_of, after_pause};
ghost use Rattle.jm_meaning.specs.TraceShown.{Shows};
ghost use Rattle.plain_run.specs.Plays.{state_in, IsUnderWay};

use crate::group::run_thread;
use crate::progress::Progress;
use config_elements::ConfigState;
use element_tree::Plan;
use jm_base::{End, M, Outside};
use jm_meaning::{Item, Places, Signal, Tally, first_user, ramp_up_pause};
use std::alloc::Global;
use std::mem;
use var_functions::Props;

/// What a thread of the plan does over this outside, from its ramp-up pause to its end, by recursion on the elements: what
/// its trace shows, but for interval numbers and places.
///
/// Threads are numbered from 0 over all groups. `seed` is that of the random words, `props` are the properties of the run,
/// and `budget` is how many units of the sample budget the thread may use. It is slow, and takes memory for the whole
/// trace at once. Out of memory it has asked the outside for a prefix of what the thread does, and for nothing else.
pub fn run_plainly<O: Outside>(
    alloc: Global,
    plan: &Plan,
    thread: u16,
    seed: u64,
    props: &Props,
    budget: u32,
    outside: &mut O,
) -> M<Vec<Item>>
    requires { thread < length (threads_of plan.now) }
    ensures shows { IfOk result (λ items. Shows (O.account outside.old) []
        (events plan.now thread (record { seed = seed; props = props.now; budget = budget }))
        (over tt) items.items (O.account outside.new)) }
    ensures cut { OnErr result (IsUnderWay (O.account outside.old)
        (events plan.now thread (record { seed = seed; props = props.now; budget = budget })) (O.account outside.new)) }
{
    let mut progress = first_progress(alloc, plan, thread, seed, props, budget)?;
    run_begun(plan, thread, &mut progress, outside)
}

// What the thread does from its first event on: what its trace shows is taken out.
fn run_begun<O: Outside>(
    plan: &Plan,
    thread: u16,
    progress: &mut Progress,
    outside: &mut O,
) -> M<Vec<Item>>
    requires thread { thread < length (threads_of plan.now) }
    requires rounds { progress.old.rounds ≤ max_rounds }
    requires feeds { progress.old.config.feeds ≡ feeds_of plan.now.elements (group_of plan.now thread) }
    requires items { progress.old.items.items ≡ [] }
    ensures shows { IfOk result (λ items. (options : Options) → state_in progress.old ≡ first_of plan.now thread options
        → Shows (O.account outside.old) [] (events plan.now thread options) (over tt) items.items (O.account outside.new)) }
    ensures cut { OnErr result ((options : Options) → state_in progress.old ≡ first_of plan.now thread options
        → IsUnderWay (O.account outside.old) (events plan.now thread options) (O.account outside.new)) }
{
    pause(ramp_up_pause(plan, thread), outside, &mut progress.items)?;
    let signal = run_thread(plan, plan.group_of(thread), progress, outside)?;
    progress.items.push(Item::Ended(end_of(signal)))?;
    Ok(mem::replace(&mut progress.items, Vec::new(progress.alloc)))
}

// The thread before its first event.
fn first_progress(
    alloc: Global,
    plan: &Plan,
    thread: u16,
    seed: u64,
    props: &Props,
    budget: u32,
) -> M<Progress>
    requires { thread < length (threads_of plan.now) }
    ensures state { IfOk result (λ p. state_in p ≡ first_of plan.now thread (record { seed = seed; props = props.now; budget = budget })) }
    ensures feeds { IfOk result (λ p. p.config.feeds ≡ feeds_of plan.now.elements (group_of plan.now thread)) }
    ensures items { IfOk result (λ p. p.items.items ≡ []) }
{
    let places = Places::first(alloc, plan)?;
    let config = ConfigState::new(alloc, plan, thread)?;
    let user = first_user(alloc, plan, thread, seed, props)?;
    Ok(Progress {
        alloc,
        user,
        units: budget,
        rounds: 16_777_216,
        places,
        config,
        tally: Tally::none(),
        items: Vec::new(alloc),
    })
}

// A pause of that many milliseconds, where there is one.
fn pause<O: Outside>(ms: u32, outside: &mut O, items: &mut Vec<Item>) -> M<()>
    ensures shows { OnOk result ((run : Run Unit) → Shows (O.account outside.old) items.old.items
        (after_pause ms run) run items.new.items (O.account outside.new)) }
    ensures cut { OnErr result ((run : Run Unit) → IsUnderWay (O.account outside.old) (after_pause ms run) (O.account outside.new)) }
{
    if ms > 0 {
        outside.pause(ms)?;
        items.push(Item::Paused(ms))?;
    }
    Ok(())
}

// How the thread ends.
fn end_of(signal: Signal) -> End
    ensures { result ≡ end_of signal }
{
    match signal {
        Signal::Normal | Signal::NextLoop => End::Completed,
        Signal::Stop(end) => end,
    }
}
