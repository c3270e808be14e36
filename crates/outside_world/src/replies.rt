// The replies of a plan's samplers, and what they answer.

ghost use Rattle.std.specs.Prelude.{◌≡◌, slice_get, IfOk, unwrap_or, []};
ghost use Rattle.std.specs.Option.{option_copied};
ghost use Rattle.jm_base.specs.Outside.{outcome_of_reply, request_text};
ghost use Rattle.outside_world.specs.Told.{outcome_at};

use jm_base::{Items, M, Outcome, Reply, Request, ScriptReply, Text};
use std::alloc::Global;

// The replies of a sampler, none where it has none.
pub(crate) fn replies_at(replies: &Items<Items<ScriptReply>>, sampler: u16) -> &[ScriptReply]
    ensures { result.now ≡ unwrap_or (slice_get replies.now sampler) [] }
{
    match replies.as_slice().get(usize::from(sampler)) {
        Some(own) => own.as_slice(),
        None => &[],
    }
}

// The reply at a place, where there is one.
pub(crate) fn reply_at(replies: &[ScriptReply], place: usize) -> Option<&ScriptReply>
    ensures { option_copied result ≡ slice_get replies.now place }
{
    replies.get(place)
}

fn request_text(request: &Request) -> &Text
    ensures { result.now ≡ request_text request.now }
{
    match request {
        Request::Script(text) => text,
        Request::Http { bytes, .. } => bytes,
    }
}

// What a reply answers to a request.
pub(crate) fn outcome_of_reply(alloc: Global, request: &Request, reply: &ScriptReply) -> M<Outcome>
    ensures { IfOk result (λ o. o ≡ outcome_of_reply request.now reply.now) }
{
    if reply.null {
        return Ok(Outcome::Null);
    }
    if reply.fault {
        return Ok(Outcome::Fault);
    }
    let body = if reply.echo {
        request_text(request)
    } else {
        &reply.body
    };
    Ok(Outcome::Reply(Reply {
        code: reply.code,
        message: reply.message.copy(alloc)?,
        headers: reply.headers.copy(alloc)?,
        body: body.copy(alloc)?,
    }))
}

// What the reply at a sampler's place answers to a request, `Null` where no reply is there.
pub(crate) fn outcome_at(
    alloc: Global,
    replies: &Items<Items<ScriptReply>>,
    sampler: u16,
    place: usize,
    request: &Request,
) -> M<Outcome>
    ensures { IfOk result (λ o. o ≡ outcome_at replies.now sampler place request.now) }
{
    match reply_at(replies_at(replies, sampler), place) {
        Some(reply) => outcome_of_reply(alloc, request, reply),
        None => Ok(Outcome::Null),
    }
}
