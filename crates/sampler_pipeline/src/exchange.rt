// One request between two readings of the clock.

ghost use Rattle.std.specs.Prelude.{◌≡◌, [], IfOk, OnErr};
ghost use Rattle.jm_base.specs.Run.{over};
ghost use Rattle.jm_base.specs.Outside.{Goes};
ghost use Rattle.var_functions.specs.Came.{LeftOf};
ghost use Rattle.sampler_pipeline.specs.Exchanges.{exchange, unasked, exchange_if, answered, reply_of, fault_reply};

use assertions::Answer;
use config_elements::capped;
use jm_base::{M, Outcome, Outside, Reply, Request, Text, Wire};
use std::alloc::Global;

/// What came of a request.
#[derive(Drop)]
pub struct Exchange {
    /// The clock before the request, in milliseconds.
    pub stamp: u64,
    /// The answer, unless the outcome is null.
    pub answer: Option<Answer>,
}

// Makes a request for the sampler of this number between two readings of the clock.
fn hold_exchange<O: Outside>(
    alloc: Global,
    number: u16,
    request: &Request,
    outside: &mut O,
) -> M<Exchange>
    ensures done { IfOk result (λ x. Goes (O.account outside.old) (exchange number request.now) [] (over x) (O.account outside.new)) }
    ensures cut { OnErr result (LeftOf (O.account outside.old) (exchange number request.now) (O.account outside.new)) }
{
    let first = outside.now()?;
    let outcome = outside.ask(number, request)?;
    let second = outside.now()?;
    let reply = reply_of(alloc, outcome)?;
    Ok(Exchange {
        stamp: first,
        answer: answered(capped(second.saturating_sub(first)), reply),
    })
}

// Makes the two readings alone, for a request without a target.
fn leave_unasked<O: Outside>(alloc: Global, outside: &mut O) -> M<Exchange>
    ensures done { IfOk result (λ x. Goes (O.account outside.old) unasked [] (over x) (O.account outside.new)) }
    ensures cut { OnErr result (LeftOf (O.account outside.old) unasked (O.account outside.new)) }
{
    let earlier = outside.now()?;
    let later = outside.now()?;
    let reply = fault_reply(alloc, b"bad target")?;
    Ok(Exchange {
        stamp: earlier,
        answer: answered(capped(later.saturating_sub(earlier)), Some(reply)),
    })
}

/// Makes a request, if there is any, for the sampler of this number between two readings of the clock.
pub(crate) fn exchange_if<O: Outside>(
    alloc: Global,
    number: u16,
    request: Option<Request>,
    outside: &mut O,
) -> M<Exchange>
    ensures done { IfOk result (λ x. Goes (O.account outside.old) (exchange_if number request) [] (over x) (O.account outside.new)) }
    ensures cut { OnErr result (LeftOf (O.account outside.old) (exchange_if number request) (O.account outside.new)) }
{
    match request {
        Some(request) => hold_exchange(alloc, number, &request, outside),
        None => leave_unasked(alloc, outside),
    }
}

fn answered(elapsed: u32, reply: Option<Reply>) -> Option<Answer>
    ensures { result ≡ answered elapsed reply }
{
    reply.map(|reply| Answer { elapsed, reply })
}

// A reply that stands for what came, where something did.
fn reply_of(alloc: Global, outcome: Outcome) -> M<Option<Reply>>
    ensures { IfOk result (λ r. r ≡ reply_of outcome) }
{
    match outcome {
        Outcome::Reply(reply) => Ok(Some(reply)),
        Outcome::Null => Ok(None),
        Outcome::Fault => Ok(Some(fault_reply(alloc, b"fault")?)),
        Outcome::Broken(wire) => Ok(Some(fault_reply(alloc, fault_text(wire))?)),
    }
}

fn fault_text(wire: Wire) -> &'static [u8]
    ensures { result.now ≡ Rattle.sampler_pipeline.specs.Exchanges.fault_text wire }
{
    match wire {
        Wire::BadHead => b"bad head",
        Wire::BadChunk => b"bad chunk",
        Wire::TooLong => b"too long",
        Wire::EndEarly => b"end early",
    }
}

fn fault_reply(alloc: Global, message: &[u8]) -> M<Reply>
    ensures { IfOk result (λ r. r ≡ fault_reply message.now) }
{
    Ok(Reply {
        code: 0,
        message: Text::new(alloc, message)?,
        headers: Text::new(alloc, &[])?,
        body: Text::new(alloc, &[])?,
    })
}
