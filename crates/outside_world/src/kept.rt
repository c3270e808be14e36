// What an outside keeps of its calls, and what it was told by them.

ghost use Rattle.std.specs.Prelude.{◌≡◌, IfOk, OnOk, OnErr};
ghost use Rattle.jm_base.specs.declared.types.Heard.{Heard};
ghost use Rattle.outside_world.specs.Told.{TellsOneMore, outcome_at, heard_of, told_of};

use crate::copies::copy_request;
use crate::replies::outcome_at;
use jm_base::{Heard, Items, M, Request, ScriptReply};
use std::alloc::Global;
use std::marker::Model;

/// A call that an outside keeps. The outcome of an ask isn't kept: it follows from the reply at its place.
#[derive(Drop)]
pub(crate) enum Kept {
    /// A reading of the clock, in milliseconds.
    Reading(u64),
    /// A pause of this many milliseconds.
    Paused(u32),
    /// A sampler's request, and the place of the sampler in its replies.
    Asked {
        sampler: u16,
        place: usize,
        request: Box<Request>,
    },
}

/// What an outside was told: its calls, over the replies that it answered from.
#[derive(Drop)]
pub(crate) struct Told {
    replies: Items<Items<ScriptReply>>,
    calls: Vec<Kept>,
}

impl Model for Told {
    ghost use Rattle.std.specs.Prelude.{List};
    ghost use Rattle.jm_base.specs.declared.types.Heard.{Heard};
    ghost use Rattle.outside_world.specs.Told.{told_of};

    ghost Value = { List Heard };

    ghost view = { λ t. told_of t.replies t.calls.items };
}

impl Told {
    // It takes no memory.
    pub(crate) fn of(replies: Items<Items<ScriptReply>>, calls: Vec<Kept>) -> Told
        ensures { result ≡ told_of replies calls.items }
    {
        Told { replies, calls }
    }
}

// Keeps a call, where calls are kept.
pub(crate) fn note(calls: &mut Vec<Kept>, keep: bool, call: Kept) -> M<()>
    ensures ok { OnOk result (TellsOneMore keep calls.old.items calls.new.items (λ replies. heard_of replies call)) }
    ensures err { OnErr result (calls.new.items ≡ calls.old.items) }
{
    if keep {
        calls.push(call)?;
    }
    Ok(())
}

// Keeps an ask, where calls are kept, with a copy of its request.
pub(crate) fn note_asked(
    alloc: Global,
    calls: &mut Vec<Kept>,
    keep: bool,
    sampler: u16,
    place: usize,
    request: &Request,
) -> M<()>
    ensures ok { OnOk result (TellsOneMore keep calls.old.items calls.new.items
        (λ replies. Heard.Asked sampler request.now (outcome_at replies sampler place request.now))) }
    ensures err { OnErr result (calls.new.items ≡ calls.old.items) }
{
    if keep {
        let call = Kept::Asked {
            sampler,
            place,
            request: Box::new(alloc, copy_request(alloc, request)?)?,
        };
        note(calls, keep, call)?;
    }
    Ok(())
}

// What a kept call told.
fn heard(alloc: Global, replies: &Items<Items<ScriptReply>>, call: &Kept) -> M<Heard>
    ensures { IfOk result (λ h. h ≡ heard_of replies.now call.now) }
{
    match call {
        Kept::Reading(clock) => Ok(Heard::Reading(*clock)),
        Kept::Paused(ms) => Ok(Heard::Paused(*ms)),
        Kept::Asked {
            sampler,
            place,
            request,
        } => Ok(Heard::Asked {
            sampler: *sampler,
            request: copy_request(alloc, request)?,
            outcome: outcome_at(alloc, replies, *sampler, *place, request)?,
        }),
    }
}

// What the kept calls told, in order, in memory of its own.
pub(crate) fn told_list(
    alloc: Global,
    replies: &Items<Items<ScriptReply>>,
    calls: &[Kept],
) -> M<Vec<Heard>>
    ensures { IfOk result (λ t. t.items ≡ told_of replies.now calls.now) }
{
    let mut told = Vec::with_capacity(alloc, calls.len())?;
    for call in calls {
        told.push(heard(alloc, replies, call)?)?;
    }
    Ok(told)
}
