// The whole of one sampler.

ghost use Rattle.std.specs.Prelude.{◌≡◌, ◌++◌, Err, IfOk, OnOk, OnErr, IfSome, take};
ghost use Rattle.jm_base.specs.Run.{over};
ghost use Rattle.jm_base.specs.Outside.{Account};
ghost use Rattle.var_functions.specs.Came.{CameTo};
ghost use Rattle.var_functions.specs.FunctionState.{IsLater};
ghost use Rattle.trials.specs.Tried.{fine, past_limit};
ghost use Rattle.sampler_pipeline.specs.Exchanges.{sample_of};
ghost use Rattle.sampler_pipeline.specs.SamplerPipeline.{label_at, listeners_of, assert_all, noting, exchanging, answering, sampling_of, following, asking, pipeline, order_of};
ghost use Rattle.sampler_pipeline.specs.PipelineCut.{cut_answering, cut_sampling, cut_following, cut_asking, cut_pipeline, cut_sampler};

use crate::exchange::{Exchange, exchange_if};
use crate::pipeline::Pipeline;
use crate::post::post_process;
use crate::pre::{pause, pre_process, request};
use crate::verdict::{Verdict, judge};
use assertions::Answer;
use config_elements::{capped, delay};
use element_tree::{Package, Plan};
use jm_base::{M, Outside, Reply, Request, Sample, Text};
use reply_search::Searches;
use std::alloc::Global;
use var_functions::{UserState, VarError};

/// What one sampler came to.
#[derive(Drop)]
pub struct Done {
    /// The sample, unless the outcome was null.
    pub sample: Option<Sample>,
    /// How long its timers paused it, in milliseconds.
    pub paused: u32,
}

// The message of a sample: at most the first 256 bytes of the reply's, which is taken as it is where it has no more.
fn message_of(alloc: Global, message: Text) -> M<Text>
    ensures { IfOk result (λ t. t ≡ take 256 message) }
{
    if message.bytes().len() > 256 {
        Text::new(alloc, &message.bytes()[..256])
    } else {
        Ok(message)
    }
}

// The label of the element of this number; 0 where it isn't there.
fn label_at(plan: &Plan, number: u16) -> u16
    ensures { result ≡ label_at plan.now.elements number }
{
    match plan.element(number) {
        Some(_element) => plan.label_of(number),
        None => 0,
    }
}

fn listeners_of(scope: &Package) -> u16
    ensures { result ≡ listeners_of scope.now }
{
    u16::try_from(scope.listeners.len()).unwrap_or(u16::MAX)
}

fn sample_of(
    alloc: Global,
    label: u16,
    stamp: u64,
    answer: Answer,
    verdict: Verdict,
    listeners: u16,
) -> M<Sample>
    ensures { IfOk result (λ s. s ≡ sample_of label stamp answer verdict listeners) }
{
    let Answer { elapsed, reply } = answer;
    let Reply {
        code,
        message,
        headers: _,
        body,
    } = reply;
    Ok(Sample {
        stamp,
        elapsed,
        label,
        code,
        message: message_of(alloc, message)?,
        ok: verdict.ok,
        failure: verdict.failure,
        bytes: capped(body.bytes().len() as u64),
        listeners,
    })
}

// The sample of an answer, after the assertions.
fn assert_all<'p>(
    alloc: Global,
    plan: &'p Plan,
    scope: &Package,
    sampler: u16,
    stamp: u64,
    answer: Answer,
    searches: &mut Searches<'p>,
) -> M<Sample>
    ensures { IfOk result (λ s. s ≡ assert_all plan.now.elements scope.now sampler stamp answer) }
{
    let verdict = judge(alloc, plan, scope.assertions.as_slice(), &answer, searches)?;
    sample_of(
        alloc,
        label_at(plan, sampler),
        stamp,
        answer,
        verdict,
        listeners_of(scope),
    )
}

// Sets whether the last sample succeeded.
fn note(alloc: Global, ok: bool, state: &mut UserState) -> Result<(), VarError>
    ensures came { (a : Account) (sample : Sample) → sample.ok ≡ ok → CameTo a (noting sample state.old) a
        (λ u. over (fine u state.new)) (over (past_limit state.new)) result }
    ensures later { IsLater state.old.fns state.new.fns }
    ensures kept { OnErr result (state.new ≡ state.old) }
{
    state.vars.put_last_ok(alloc, ok)
}

// Post-processors, assertions and listeners after an answer.
fn sample_answer<'p>(
    alloc: Global,
    plan: &'p Plan,
    scope: &Package,
    sampler: u16,
    stamp: u64,
    answer: Answer,
    state: &mut UserState,
    searches: &mut Searches<'p>,
) -> Result<Sample, VarError>
    ensures came { (a : Account) → CameTo a (answering plan.now.elements scope.now sampler stamp answer state.old) a
        (λ s. over (fine s state.new)) (over (past_limit state.new)) result }
    ensures label { IfOk result (λ s. s.label ≡ label_at plan.now.elements sampler) }
    ensures later { IsLater state.old.fns state.new.fns }
    ensures cut { (a : Account) → result ≡ Err VarError.NoMemory → cut_answering plan.now.elements scope.now answer a state.old a state.new }
{
    post_process(
        alloc,
        plan,
        scope.post.as_slice(),
        &answer.reply,
        state,
        searches,
    )?;
    let sample = assert_all(alloc, plan, scope, sampler, stamp, answer, searches)?;
    note(alloc, sample.ok, state)?;
    Ok(sample)
}

// What follows from an answer, if there is one.
fn sample<'p>(
    alloc: Global,
    plan: &'p Plan,
    scope: &Package,
    sampler: u16,
    stamp: u64,
    answer: Option<Answer>,
    state: &mut UserState,
    searches: &mut Searches<'p>,
) -> Result<Option<Sample>, VarError>
    ensures came { (a : Account) → CameTo a (sampling_of plan.now.elements scope.now sampler stamp answer state.old) a
        (λ s. over (fine s state.new)) (over (past_limit state.new)) result }
    ensures label { IfOk result (λ o. IfSome o (λ s. s.label ≡ label_at plan.now.elements sampler)) }
    ensures later { IsLater state.old.fns state.new.fns }
    ensures cut { (a : Account) → result ≡ Err VarError.NoMemory → cut_sampling plan.now.elements scope.now answer a state.old a state.new }
{
    match answer {
        Some(answer) => {
            let sample = sample_answer(
                alloc, plan, scope, sampler, stamp, answer, state, searches,
            )?;
            Ok(Some(sample))
        }
        None => Ok(None),
    }
}

// What follows from an exchange.
fn follow<'p>(
    alloc: Global,
    plan: &'p Plan,
    scope: &Package,
    sampler: u16,
    exchange: Exchange,
    state: &mut UserState,
    searches: &mut Searches<'p>,
) -> Result<Option<Sample>, VarError>
    ensures came { (a : Account) → CameTo a (following plan.now.elements scope.now sampler exchange state.old) a
        (λ s. over (fine s state.new)) (over (past_limit state.new)) result }
    ensures label { IfOk result (λ o. IfSome o (λ s. s.label ≡ label_at plan.now.elements sampler)) }
    ensures later { IsLater state.old.fns state.new.fns }
    ensures cut { (a : Account) → result ≡ Err VarError.NoMemory → cut_following plan.now.elements scope.now exchange a state.old a state.new }
{
    let Exchange { stamp, answer } = exchange;
    sample(alloc, plan, scope, sampler, stamp, answer, state, searches)
}

// What comes of a request between two readings.
fn exchange_for<O: Outside>(
    alloc: Global,
    sampler: u16,
    request: Option<Request>,
    state: &UserState,
    outside: &mut O,
) -> Result<Exchange, VarError>
    ensures came { CameTo (O.account outside.old) (exchanging sampler request state.now) (O.account outside.new)
        (λ x. over (fine x state.now)) (over (past_limit state.now)) result }
{
    let exchange = exchange_if(alloc, sampler, request, outside)?;
    Ok(exchange)
}

// The request, and what follows from its reply.
fn ask<'p, O: Outside>(
    alloc: Global,
    plan: &'p Plan,
    scope: &Package,
    sampler: u16,
    state: &mut UserState,
    outside: &mut O,
    searches: &mut Searches<'p>,
) -> Result<Option<Sample>, VarError>
    ensures came { CameTo (O.account outside.old) (asking plan.now.elements scope.now sampler state.old) (O.account outside.new)
        (λ s. over (fine s state.new)) (over (past_limit state.new)) result }
    ensures label { IfOk result (λ o. IfSome o (λ s. s.label ≡ label_at plan.now.elements sampler)) }
    ensures later { IsLater state.old.fns state.new.fns }
    ensures cut { result ≡ Err VarError.NoMemory
        → cut_asking plan.now.elements scope.now sampler (O.account outside.old) state.old (O.account outside.new) state.new }
{
    let request = request(alloc, plan, scope, sampler, state, outside)?;
    let exchange = exchange_for(alloc, sampler, request, state, outside)?;
    follow(alloc, plan, scope, sampler, exchange, state, searches)
}

/// The whole of a sampler.
pub(crate) fn run_pipeline<'p, O: Outside>(
    alloc: Global,
    plan: &'p Plan,
    scope: &Package,
    sampler: u16,
    state: &mut UserState,
    outside: &mut O,
    searches: &mut Searches<'p>,
) -> Result<Done, VarError>
    ensures came { CameTo (O.account outside.old) (pipeline plan.now.elements scope.now sampler state.old) (O.account outside.new)
        (λ done. over (fine done state.new)) (over (past_limit state.new)) result }
    ensures label { IfOk result (λ done. IfSome done.sample (λ s. s.label ≡ label_at plan.now.elements sampler)) }
    ensures later { IsLater state.old.fns state.new.fns }
    ensures cut { result ≡ Err VarError.NoMemory
        → cut_pipeline plan.now.elements scope.now sampler (O.account outside.old) state.old (O.account outside.new) state.new }
{
    pre_process(alloc, plan, scope.pre.as_slice(), state, outside)?;
    let paused = delay(alloc, plan, scope, state, outside)?;
    pause(paused, state, outside)?;
    let sample = ask(alloc, plan, scope, sampler, state, outside, searches)?;
    Ok(Done { sample, paused })
}

// The elements that took part, in their order.
fn list_order(alloc: Global, scope: &Package, sampler: u16, sample: &Option<Sample>) -> M<Vec<u16>>
    ensures { IfOk result (λ list. list.items ≡ order_of scope.now sampler sample.now) }
{
    let mut list = Vec::new(alloc);
    list.extend_from_slice(scope.config.as_slice())?;
    list.extend_from_slice(scope.pre.as_slice())?;
    list.extend_from_slice(scope.timers.as_slice())?;
    list.push(sampler)?;
    if sample.is_some() {
        list.extend_from_slice(scope.post.as_slice())?;
        list.extend_from_slice(scope.assertions.as_slice())?;
        list.extend_from_slice(scope.listeners.as_slice())?;
    }
    Ok(list)
}

/// Runs one sampler with its package, in the order of the manual's "Execution order": pre-processors; the pause of its
/// timers, if it is any; its request between two readings of the clock; and where there is a reply, post-processors,
/// assertions and listeners. An HTTP sampler asks for the request of its settings. Where they have no target nothing is asked
/// between the readings, and the reply has code 0, the message `bad target`, no headers and no body. After post-processors and
/// assertions `JMeterThread.last_sample_ok` is set to whether the sample succeeded; without a sample it stays. `order` becomes the elements that took part; after a refusal it is as before.
///
/// `ValueLimit` comes where a text or a value would have more than 65,536 bytes, or all names and values of variables more
/// than 4,194,304. After it and out of memory variables and functions are what the steps done left: each step before the one
/// that was refused is whole, and of that one a prefix of its changes is made.
pub fn run_one<O: Outside>(
    alloc: Global,
    plan: &Plan,
    scope: &Package,
    sampler: u16,
    state: &mut UserState,
    outside: &mut O,
    order: &mut Vec<u16>,
) -> Result<Done, VarError>
    ensures came { CameTo (O.account outside.old) (pipeline plan.now.elements scope.now sampler state.old) (O.account outside.new)
        (λ done. over (fine done state.new)) (over (past_limit state.new)) result }
    ensures label { IfOk result (λ done. IfSome done.sample (λ s. s.label ≡ label_at plan.now.elements sampler)) }
    ensures order { IfOk result (λ done. order.new.items ≡ order_of scope.now sampler done.sample) }
    ensures kept { OnErr result (order.new.items ≡ order.old.items) }
    ensures cut { result ≡ Err VarError.NoMemory
        → cut_sampler plan.now.elements scope.now sampler (O.account outside.old) state.old (O.account outside.new) state.new }
    // After every answer, out of memory included.
    ensures later { IsLater state.old.fns state.new.fns }
{
    let mut samplers = Pipeline::new(alloc);
    let done = samplers.run(plan, scope, sampler, state, outside)?;
    let list = list_order(alloc, scope, sampler, &done.sample)?;
    *order = list;
    Ok(done)
}
