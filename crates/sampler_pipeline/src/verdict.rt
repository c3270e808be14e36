// What the assertions of a sampler say of its answer.

ghost use Rattle.std.specs.Prelude.{◌≡◌, IfOk, slice_get};
ghost use Rattle.std.specs.Option.{option_copied};
ghost use Rattle.element_tree.specs.KeptPatterns.{KeepsPatterns};
ghost use Rattle.sampler_pipeline.specs.Exchanges.{is_success};
ghost use Rattle.sampler_pipeline.specs.SamplerPipeline.{assertion_in, cleared, failed, failure_text, judged_by, judged_at, judged, at_first};

use assertions::{Answer, check_with};
use element_tree::{Assertion, Kind, Plan};
use jm_base::{M, Text};
use reply_search::Searches;
use std::alloc::Global;

/// Whether a sample has succeeded, and the failure message of its first assertion that failed, which is empty where none did.
#[derive(Drop)]
pub struct Verdict {
    pub ok: bool,
    pub failure: Text,
}

// The assertion of an element.
fn assertion_in(kind: &Kind) -> Option<&Assertion>
    ensures { option_copied result ≡ assertion_in kind.now }
{
    match kind {
        Kind::ResponseAssertion(a) | Kind::DurationAssertion(a) | Kind::SizeAssertion(a) => Some(a),
        _ => None,
    }
}

// The failure message of an assertion of this name.
fn failure_text(alloc: Global, name: &[u8]) -> M<Text>
    ensures { IfOk result (λ text. text ≡ failure_text name.now) }
{
    let mut text = Vec::new(alloc);
    text.extend_from_slice(b"assertion ")?;
    text.extend_from_slice(name)?;
    text.extend_from_slice(b" failed")?;
    Ok(Text::of(text))
}

// Before an assertion: with `ignoreStatus` the sample counts as succeeded.
fn cleared(alloc: Global, assertion: &Assertion, verdict: Verdict) -> M<Verdict>
    ensures { IfOk result (λ v. v ≡ cleared assertion.now verdict) }
{
    match assertion {
        Assertion::Response {
            ignore_status: true,
            ..
        } => Ok(Verdict {
            ok: true,
            failure: Text::new(alloc, &[])?,
        }),
        _ => Ok(verdict),
    }
}

// After an assertion that failed.
fn failed(alloc: Global, name: &[u8], verdict: Verdict) -> M<Verdict>
    ensures { IfOk result (λ v. v ≡ failed name.now verdict) }
{
    let failure = if verdict.failure.bytes().is_empty() {
        failure_text(alloc, name)?
    } else {
        verdict.failure
    };
    Ok(Verdict { ok: false, failure })
}

fn judged_by<'p>(
    alloc: Global,
    name: &[u8],
    answer: &Answer,
    assertion: &'p Assertion,
    verdict: Verdict,
    searches: &mut Searches<'p>,
) -> M<Verdict>
    requires patterns { KeepsPatterns assertion.now }
    ensures { IfOk result (λ v. v ≡ judged_by name.now answer.now assertion.now verdict) }
{
    let holds = check_with(alloc, assertion, answer, searches)?;
    let verdict = cleared(alloc, assertion, verdict)?;
    if holds {
        Ok(verdict)
    } else {
        failed(alloc, name, verdict)
    }
}

fn judged_at<'p>(
    alloc: Global,
    plan: &'p Plan,
    number: u16,
    answer: &Answer,
    verdict: Verdict,
    searches: &mut Searches<'p>,
) -> M<Verdict>
    ensures { IfOk result (λ v. v ≡ judged_at (slice_get plan.now.elements number) answer.now verdict) }
{
    let _elements = plan.elements();
    match plan.element(number) {
        Some(element) => match assertion_in(&element.kind) {
            Some(assertion) => judged_by(
                alloc,
                element.name.bytes(),
                answer,
                assertion,
                verdict,
                searches,
            ),
            None => Ok(verdict),
        },
        None => Ok(verdict),
    }
}

fn is_success(code: u16) -> bool
    ensures { result ≡ is_success code }
{
    200 <= code && code <= 399
}

/// What these assertions say, one after another, of an answer, which succeeds at first by its code.
pub(crate) fn judge<'p>(
    alloc: Global,
    plan: &'p Plan,
    numbers: &[u16],
    answer: &Answer,
    searches: &mut Searches<'p>,
) -> M<Verdict>
    ensures { IfOk result (λ v. v ≡ judged plan.now.elements answer.now numbers.now (at_first answer.now)) }
{
    let mut verdict = Verdict {
        ok: is_success(answer.reply.code),
        failure: Text::new(alloc, &[])?,
    };
    'numbers: for number in numbers {
        verdict = judged_at(alloc, plan, *number, answer, verdict, searches)?;
    }
    Ok(verdict)
}
