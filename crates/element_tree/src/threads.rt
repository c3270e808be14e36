// The threads of a plan.

ghost use Rattle.std.specs.Prelude.{◌≡◌, ◌≤◌, ◌<◌, ◌++◌, length, IfOk, OnOk, MatchOption};
ghost use Rattle.element_tree.specs.Threads.{threads_in, group_size, group_threads};

use crate::kinds::{Element, Kind};
use jm_base::M;
use std::alloc::Global;

/// The most threads that a plan may have, over all its groups.
pub const THREAD_LIMIT: usize = 64;

/// A thread of a plan.
#[derive(Clone, Copy, PartialEq, Eq, Debug)]
pub struct Thread {
    /// The number of its group's element.
    pub element: u16,
    /// The number of its group, from 1, among the groups in tree order.
    pub group: u16,
    /// Its own number in the group, from 1.
    pub number: u16,
}

fn group_size(kind: &Kind) -> Option<u16>
    ensures { result ≡ group_size kind.now }
{
    match kind {
        Kind::ThreadGroup { threads, .. } => Some(*threads),
        _ => None,
    }
}

// Adds the threads of a group, up to one more than a plan may have.
fn add_group(threads: &mut Vec<Thread>, element: u16, group: u16, size: u16) -> M<()>
    ensures { OnOk result (threads.new.items ≡ threads.old.items ++ group_threads element group size) }
{
    for number in 0..size {
        threads.push(Thread {
            element,
            group,
            number: number + 1,
        })?;
    }
    Ok(())
}

/// The threads of these elements, where there are at most 64.
#[tactic(auto, using(crate::proofs::ThreadLaws::no_group_step, crate::proofs::ThreadLaws::group_step, crate::proofs::ThreadLaws::no_more_threads, crate::proofs::ThreadLaws::too_many_threads), unfolding(crate::specs::Threads::threads_in))]
pub(crate) fn threads_of(alloc: Global, elements: &[Element]) -> M<Option<Vec<Thread>>>
    requires { length elements.now ≤ 4096 }
    ensures { IfOk result (λ o. MatchOption o (THREAD_LIMIT < length (threads_in elements.now)) (λ threads. (threads.items ≡ threads_in elements.now) × (length threads.items ≤ THREAD_LIMIT))) }
{
    let mut threads = Vec::new(alloc);
    let mut group = 1;
    'elements: for (number, element) in elements.iter().enumerate() {
        let Some(size) = group_size(&element.kind) else {
            continue;
        };
        add_group(&mut threads, number as u16, group, size)?;
        group += 1;
        if threads.len() > THREAD_LIMIT {
            return Ok(None);
        }
    }
    Ok(Some(threads))
}
