// Copies of replies, requests and outcomes.

ghost use Rattle.std.specs.Prelude.{◌≡◌, IfOk};

use jm_base::{Items, M, Outcome, Reply, Request, ScriptReply};
use std::alloc::Global;

/// The same reply again.
pub fn copy_reply(alloc: Global, reply: &Reply) -> M<Reply>
    ensures { IfOk result (λ r. r ≡ reply.now) }
{
    Ok(Reply {
        code: reply.code,
        message: reply.message.copy(alloc)?,
        headers: reply.headers.copy(alloc)?,
        body: reply.body.copy(alloc)?,
    })
}

/// The same request again.
pub fn copy_request(alloc: Global, request: &Request) -> M<Request>
    ensures { IfOk result (λ r. r ≡ request.now) }
{
    match request {
        Request::Script(text) => Ok(Request::Script(text.copy(alloc)?)),
        Request::Http { host, port, bytes } => Ok(Request::Http {
            host: host.copy(alloc)?,
            port: *port,
            bytes: bytes.copy(alloc)?,
        }),
    }
}

/// The same outcome again.
pub fn copy_outcome(alloc: Global, outcome: &Outcome) -> M<Outcome>
    ensures { IfOk result (λ r. r ≡ outcome.now) }
{
    match outcome {
        Outcome::Reply(reply) => Ok(Outcome::Reply(copy_reply(alloc, reply)?)),
        Outcome::Null => Ok(Outcome::Null),
        Outcome::Fault => Ok(Outcome::Fault),
        Outcome::Broken(wire) => Ok(Outcome::Broken(*wire)),
    }
}

fn copy_script_reply(alloc: Global, reply: &ScriptReply) -> M<ScriptReply>
    ensures { IfOk result (λ r. r ≡ reply.now) }
{
    Ok(ScriptReply {
        code: reply.code,
        message: reply.message.copy(alloc)?,
        headers: reply.headers.copy(alloc)?,
        body: reply.body.copy(alloc)?,
        ms: reply.ms,
        null: reply.null,
        fault: reply.fault,
        echo: reply.echo,
    })
}

/// The same replies again.
pub fn copy_replies(alloc: Global, replies: &[ScriptReply]) -> M<Items<ScriptReply>>
    ensures { IfOk result (λ r. r ≡ replies.now) }
{
    let mut all = Vec::with_capacity(alloc, replies.len())?;
    for reply in replies {
        all.push(copy_script_reply(alloc, reply)?)?;
    }
    Ok(Items::of(all))
}
