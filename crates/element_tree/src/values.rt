// The properties of a kind, each value where it is kept.

ghost use Rattle.std.specs.Prelude.{◌≡◌, ◌^◌, ◌<◌, map, IfOk};
ghost use Rattle.element_props.specs.NamedProps.{◌holds◌};
ghost use Rattle.element_props.specs.ValueShown.{named_shown_seen, shown_seen};
ghost use Rattle.element_tree.specs.FormedPlan.{HasForms};
ghost use Rattle.element_tree.specs.Values.{maybe, maybe_replies, loops_number, attached_values, config_values, sampler_values, controller_values, values_of};

use crate::kinds::{Assertion, BoundaryExtractor, JsonExtractor, Kind, Loops, RegexExtractor};
use element_props::{Choice, NamedShown, Shown};
use jm_base::{Items, M, ScriptReply, Text};
use std::alloc::Global;

fn loops_number(loops: Loops) -> i64
    ensures { result ≡ loops_number loops }
{
    match loops {
        Loops::Forever => -1,
        Loops::Times(n) => i64::from(n),
    }
}

fn maybe(text: &Option<Text>) -> Shown<'_>
    ensures { shown_seen result ≡ maybe text.now }
{
    match text {
        Some(text) => Shown::Text(text),
        None => Shown::Absent,
    }
}

fn maybe_replies(replies: &Option<Items<ScriptReply>>) -> Shown<'_>
    ensures { shown_seen result ≡ maybe_replies replies.now }
{
    match replies {
        Some(replies) => Shown::Replies(replies.as_slice()),
        None => Shown::Absent,
    }
}

fn of<'a>(name: &'static str, value: Shown<'a>) -> NamedShown<'a>
    ensures { named_shown_seen result ≡ (name.now holds shown_seen value.entry) }
{
    NamedShown { name, value }
}

fn list<'a>(alloc: Global, values: &[NamedShown<'a>]) -> M<Vec<NamedShown<'a>>>
    ensures { IfOk result (λ v. map named_shown_seen v.items ≡ map named_shown_seen values.now) }
{
    let list = Vec::from_slice(alloc, values)?;
    Ok(list)
}

fn counter_values<'a>(
    alloc: Global,
    increment: u64,
    maximum: u64,
    start: u64,
    var: &'a Text,
) -> M<Vec<NamedShown<'a>>>
    requires increment { increment < 2 ^ 63 }
    requires maximum { maximum < 2 ^ 63 }
    requires start { start < 2 ^ 63 }
    ensures { IfOk result (λ v. map named_shown_seen v.items ≡ values_of (Kind.Counter increment maximum start var.now)) }
{
    list(
        alloc,
        &[
            of("increment", Shown::Number(increment as i64)),
            of("maximum", Shown::Number(maximum as i64)),
            of("start", Shown::Number(start as i64)),
            of("var", Shown::Text(var)),
        ],
    )
}

fn regex_extractor_values(alloc: Global, x: &RegexExtractor) -> M<Vec<NamedShown<'_>>>
    ensures { IfOk result (λ v. map named_shown_seen v.items ≡ values_of (Kind.RegexExtractor x.now)) }
{
    list(
        alloc,
        &[
            of("default", maybe(&x.default)),
            of("field", Shown::Word(x.field.word())),
            of("match", Shown::Number(i64::from(x.match_))),
            of("pattern", Shown::Pattern(&x.pattern)),
            of("ref", Shown::Text(&x.ref_)),
            of("template", Shown::Text(&x.template)),
        ],
    )
}

fn json_extractor_values(alloc: Global, x: &JsonExtractor) -> M<Vec<NamedShown<'_>>>
    ensures { IfOk result (λ v. map named_shown_seen v.items ≡ values_of (Kind.JsonExtractor x.now)) }
{
    list(
        alloc,
        &[
            of("default", maybe(&x.default)),
            of("match", Shown::Number(i64::from(x.match_))),
            of("path", Shown::Text(&x.path)),
            of("ref", Shown::Text(&x.ref_)),
        ],
    )
}

fn boundary_extractor_values(alloc: Global, x: &BoundaryExtractor) -> M<Vec<NamedShown<'_>>>
    ensures { IfOk result (λ v. map named_shown_seen v.items ≡ values_of (Kind.BoundaryExtractor x.now)) }
{
    list(
        alloc,
        &[
            of("default", maybe(&x.default)),
            of("field", Shown::Word(x.field.word())),
            of("left", Shown::Text(&x.left)),
            of("match", Shown::Number(i64::from(x.match_))),
            of("ref", Shown::Text(&x.ref_)),
            of("right", Shown::Text(&x.right)),
        ],
    )
}

fn response_values(alloc: Global, assertion: &Assertion) -> M<Vec<NamedShown<'_>>>
    ensures { IfOk result (λ v. map named_shown_seen v.items ≡ values_of (Kind.ResponseAssertion assertion.now)) }
{
    match assertion {
        Assertion::Response {
            field,
            ignore_status,
            not,
            or,
            patterns,
            regexes,
            test,
            whole_regexes,
        } => list(
            alloc,
            &[
                of("field", Shown::Word(field.word())),
                of("ignoreStatus", Shown::Truth(*ignore_status)),
                of("not", Shown::Truth(*not)),
                of("or", Shown::Truth(*or)),
                of(
                    "patterns",
                    Shown::Patterns {
                        texts: patterns.as_slice(),
                        regexes: regexes.as_slice(),
                        whole_regexes: whole_regexes.as_slice(),
                    },
                ),
                of("test", Shown::Word(test.word())),
            ],
        ),
        Assertion::Duration { .. } => list(alloc, &[]),
        Assertion::Size { .. } => list(alloc, &[]),
    }
}

fn duration_values(alloc: Global, assertion: &Assertion) -> M<Vec<NamedShown<'_>>>
    ensures { IfOk result (λ v. map named_shown_seen v.items ≡ values_of (Kind.DurationAssertion assertion.now)) }
{
    match assertion {
        Assertion::Duration { ms } => list(alloc, &[of("ms", Shown::Number(i64::from(*ms)))]),
        Assertion::Response { .. } => list(alloc, &[]),
        Assertion::Size { .. } => list(alloc, &[]),
    }
}

fn size_values(alloc: Global, assertion: &Assertion) -> M<Vec<NamedShown<'_>>>
    ensures { IfOk result (λ v. map named_shown_seen v.items ≡ values_of (Kind.SizeAssertion assertion.now)) }
{
    match assertion {
        Assertion::Size { op, size } => list(
            alloc,
            &[
                of("op", Shown::Word(op.word())),
                of("size", Shown::Number(i64::from(*size))),
            ],
        ),
        Assertion::Response { .. } => list(alloc, &[]),
        Assertion::Duration { .. } => list(alloc, &[]),
    }
}

/// The properties of what comes before or after a sample; no other kind has any here.
fn attached_values(alloc: Global, kind: &Kind) -> M<Vec<NamedShown<'_>>>
    ensures { IfOk result (λ v. map named_shown_seen v.items ≡ attached_values kind.now) }
{
    match kind {
        Kind::UserParameters { vars } => list(alloc, &[of("vars", Shown::Pairs(vars.as_slice()))]),
        Kind::ConstantTimer { delay } => list(alloc, &[of("delay", Shown::Template(delay))]),
        Kind::UniformTimer { offset, range } => {
            list(
                alloc,
                &[
                    of("offset", Shown::Template(offset)),
                    of("range", Shown::Template(range)),
                ],
            )
        }
        Kind::RegexExtractor(x) => regex_extractor_values(alloc, x),
        Kind::JsonExtractor(x) => json_extractor_values(alloc, x),
        Kind::BoundaryExtractor(x) => boundary_extractor_values(alloc, x),
        Kind::ResponseAssertion(assertion) => response_values(alloc, assertion),
        Kind::DurationAssertion(assertion) => duration_values(alloc, assertion),
        Kind::SizeAssertion(assertion) => size_values(alloc, assertion),
        _ => list(alloc, &[]),
    }
}

fn config_values(alloc: Global, kind: &Kind) -> M<Vec<NamedShown<'_>>>
    requires { HasForms kind.now }
    ensures { IfOk result (λ v. map named_shown_seen v.items ≡ config_values kind.now) }
{
    match kind {
        Kind::UserVariables { vars } => list(alloc, &[of("vars", Shown::Pairs(vars.as_slice()))]),
        Kind::HttpDefaults { host, path, port } => list(
            alloc,
            &[
                of("host", Shown::Template(host)),
                of("path", Shown::Template(path)),
                of("port", Shown::Template(port)),
            ],
        ),
        Kind::HeaderManager { headers } => list(
            alloc,
            &[of("headers", Shown::Pairs(headers.as_slice()))],
        ),
        Kind::Counter {
            increment,
            maximum,
            start,
            var,
        } => counter_values(alloc, *increment, *maximum, *start, var),
        Kind::DataSet {
            at_end,
            names,
            share,
            text,
        } => list(
            alloc,
            &[
                of("atEnd", Shown::Word(at_end.word())),
                of("names", Shown::Texts(names.as_slice())),
                of("share", Shown::Word(share.word())),
                of("text", Shown::Text(text)),
            ],
        ),
        _ => attached_values(alloc, kind),
    }
}

fn sampler_values(alloc: Global, kind: &Kind) -> M<Vec<NamedShown<'_>>>
    requires { HasForms kind.now }
    ensures { IfOk result (λ v. map named_shown_seen v.items ≡ sampler_values kind.now) }
{
    match kind {
        Kind::Script { replies, request } => list(
            alloc,
            &[
                of("replies", Shown::Replies(replies.as_slice())),
                of("request", Shown::Template(request)),
            ],
        ),
        Kind::Http {
            body,
            host,
            method,
            params,
            path,
            port,
            replies,
        } => list(
            alloc,
            &[
                of("body", Shown::Template(body)),
                of("host", Shown::Template(host)),
                of("method", Shown::Word(method.word())),
                of("params", Shown::Pairs(params.as_slice())),
                of("path", Shown::Template(path)),
                of("port", Shown::Template(port)),
                of("replies", maybe_replies(replies)),
            ],
        ),
        _ => config_values(alloc, kind),
    }
}

fn controller_values(alloc: Global, kind: &Kind) -> M<Vec<NamedShown<'_>>>
    requires { HasForms kind.now }
    ensures { IfOk result (λ v. map named_shown_seen v.items ≡ controller_values kind.now) }
{
    match kind {
        Kind::Loop { loops } => list(alloc, &[of("loops", Shown::Template(loops))]),
        Kind::If { all, condition } => {
            list(
                alloc,
                &[
                    of("all", Shown::Truth(*all)),
                    of("condition", Shown::Template(condition)),
                ],
            )
        }
        Kind::While { condition } => list(alloc, &[of("condition", Shown::Template(condition))]),
        Kind::Switch { value } => list(alloc, &[of("value", Shown::Template(value))]),
        Kind::ForEach {
            end,
            input,
            output,
            separator,
            start,
        } => list(
            alloc,
            &[
                of("end", Shown::Number(i64::from(*end))),
                of("input", Shown::Text(input)),
                of("output", Shown::Text(output)),
                of("separator", Shown::Truth(*separator)),
                of("start", Shown::Number(i64::from(*start))),
            ],
        ),
        Kind::CriticalSection { lock } => list(alloc, &[of("lock", Shown::Text(lock))]),
        _ => sampler_values(alloc, kind),
    }
}

/// The properties of a kind, in byte order of their names.
pub(crate) fn values_of(alloc: Global, kind: &Kind) -> M<Vec<NamedShown<'_>>>
    requires { HasForms kind.now }
    ensures { IfOk result (λ v. map named_shown_seen v.items ≡ values_of kind.now) }
{
    match kind {
        Kind::TestPlan { version } => list(
            alloc,
            &[of("version", Shown::Number(i64::from(*version)))],
        ),
        Kind::ThreadGroup {
            loops,
            on_error,
            ramp_ms,
            threads,
        } => list(
            alloc,
            &[
                of("loops", Shown::Number(loops_number(*loops))),
                of("onError", Shown::Word(on_error.word())),
                of("rampMs", Shown::Number(i64::from(*ramp_ms))),
                of("threads", Shown::Number(i64::from(*threads))),
            ],
        ),
        _ => controller_values(alloc, kind),
    }
}
