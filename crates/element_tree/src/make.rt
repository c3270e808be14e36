// Makes a kind of the properties of its type, each taken by its name.

ghost use Rattle.std.specs.Prelude.{◌≡◌, ◌^◌, Some};
ghost use Rattle.std.specs.Vec.Iter.{into_iter_items};
ghost use Rattle.element_props.specs.NamedProps.{value_named, rest};
ghost use Rattle.element_tree.specs.Kinds.{template_in, text_in, maybe_in, number_in, signed_in, loops_in, truth_in, pattern_in, pairs_in, texts_in, replies_in, maybe_replies_in, patterns_in, choice_in, kind_of};

use crate::kinds::{Assertion, BoundaryExtractor, JsonExtractor, Kind, Loops, RegexExtractor};
use crate::types::ElementType;
use element_props::{Choice, NamedProp, Pair, Pattern, Prop, choice_of};
use jm_base::{Items, ScriptReply, Text};
use std::vec::IntoIter;
use template_text::Template;

/// The kind of this type that these properties make, which stand in byte order of their names.
pub fn kind_of(kind: ElementType, props: Vec<NamedProp>) -> Option<Kind>
    ensures { result ≡ kind_of kind props.items }
{
    let props = props.into_iter();
    match kind {
        ElementType::TestPlan => test_plan_of(props),
        ElementType::ThreadGroup => thread_group_of(props),
        ElementType::Simple => simple_of(props),
        ElementType::OnceOnly => once_only_of(props),
        ElementType::Interleave => interleave_of(props),
        ElementType::Random => random_of(props),
        ElementType::RandomOrder => random_order_of(props),
        ElementType::Transaction => transaction_of(props),
        ElementType::Loop => loop_of(props),
        ElementType::If => if_of(props),
        ElementType::While => while_of(props),
        ElementType::Switch => switch_of(props),
        ElementType::ForEach => for_each_of(props),
        ElementType::CriticalSection => critical_section_of(props),
        ElementType::Script => script_of(props),
        ElementType::Http => http_of(props),
        ElementType::UserVariables => user_variables_of(props),
        ElementType::HttpDefaults => http_defaults_of(props),
        ElementType::HeaderManager => header_manager_of(props),
        ElementType::Counter => counter_of(props),
        ElementType::DataSet => data_set_of(props),
        ElementType::UserParameters => user_parameters_of(props),
        ElementType::ConstantTimer => constant_timer_of(props),
        ElementType::UniformTimer => uniform_timer_of(props),
        ElementType::RegexExtractor => regex_extractor_of(props),
        ElementType::JsonExtractor => json_extractor_of(props),
        ElementType::BoundaryExtractor => boundary_extractor_of(props),
        ElementType::ResponseAssertion => response_assertion_of(props),
        ElementType::DurationAssertion => duration_assertion_of(props),
        ElementType::SizeAssertion => size_assertion_of(props),
        ElementType::Listener => listener_of(props),
    }
}

#[tactic(auto, unfolding(crate::specs::Kinds::kind_of))]
fn test_plan_of(mut props: IntoIter<NamedProp>) -> Option<Kind>
    ensures { result ≡ kind_of ElementType.TestPlan (into_iter_items props) }
{
    Some(Kind::TestPlan {
        version: whole_u8(take(&mut props, "version"))?,
    })
}

#[tactic(auto, unfolding(crate::specs::Kinds::kind_of))]
fn thread_group_of(mut props: IntoIter<NamedProp>) -> Option<Kind>
    ensures { result ≡ kind_of ElementType.ThreadGroup (into_iter_items props) }
{
    Some(Kind::ThreadGroup {
        loops: loops(take(&mut props, "loops"))?,
        on_error: choice(&mut props, "onError")?,
        ramp_ms: whole_u32(take(&mut props, "rampMs"))?,
        threads: whole_u16(take(&mut props, "threads"))?,
    })
}

#[tactic(auto, unfolding(crate::specs::Kinds::kind_of))]
fn simple_of(props: IntoIter<NamedProp>) -> Option<Kind>
    ensures { result ≡ kind_of ElementType.Simple (into_iter_items props) }
{
    Some(Kind::Simple)
}

#[tactic(auto, unfolding(crate::specs::Kinds::kind_of))]
fn once_only_of(props: IntoIter<NamedProp>) -> Option<Kind>
    ensures { result ≡ kind_of ElementType.OnceOnly (into_iter_items props) }
{
    Some(Kind::OnceOnly)
}

#[tactic(auto, unfolding(crate::specs::Kinds::kind_of))]
fn interleave_of(props: IntoIter<NamedProp>) -> Option<Kind>
    ensures { result ≡ kind_of ElementType.Interleave (into_iter_items props) }
{
    Some(Kind::Interleave)
}

#[tactic(auto, unfolding(crate::specs::Kinds::kind_of))]
fn random_of(props: IntoIter<NamedProp>) -> Option<Kind>
    ensures { result ≡ kind_of ElementType.Random (into_iter_items props) }
{
    Some(Kind::Random)
}

#[tactic(auto, unfolding(crate::specs::Kinds::kind_of))]
fn random_order_of(props: IntoIter<NamedProp>) -> Option<Kind>
    ensures { result ≡ kind_of ElementType.RandomOrder (into_iter_items props) }
{
    Some(Kind::RandomOrder)
}

#[tactic(auto, unfolding(crate::specs::Kinds::kind_of))]
fn transaction_of(props: IntoIter<NamedProp>) -> Option<Kind>
    ensures { result ≡ kind_of ElementType.Transaction (into_iter_items props) }
{
    Some(Kind::Transaction)
}

#[tactic(auto, unfolding(crate::specs::Kinds::kind_of))]
fn loop_of(mut props: IntoIter<NamedProp>) -> Option<Kind>
    ensures { result ≡ kind_of ElementType.Loop (into_iter_items props) }
{
    Some(Kind::Loop {
        loops: template(take(&mut props, "loops"))?,
    })
}

#[tactic(auto, unfolding(crate::specs::Kinds::kind_of))]
fn if_of(mut props: IntoIter<NamedProp>) -> Option<Kind>
    ensures { result ≡ kind_of ElementType.If (into_iter_items props) }
{
    Some(Kind::If {
        all: truth(take(&mut props, "all"))?,
        condition: template(take(&mut props, "condition"))?,
    })
}

#[tactic(auto, unfolding(crate::specs::Kinds::kind_of))]
fn while_of(mut props: IntoIter<NamedProp>) -> Option<Kind>
    ensures { result ≡ kind_of ElementType.While (into_iter_items props) }
{
    Some(Kind::While {
        condition: template(take(&mut props, "condition"))?,
    })
}

#[tactic(auto, unfolding(crate::specs::Kinds::kind_of))]
fn switch_of(mut props: IntoIter<NamedProp>) -> Option<Kind>
    ensures { result ≡ kind_of ElementType.Switch (into_iter_items props) }
{
    Some(Kind::Switch {
        value: template(take(&mut props, "value"))?,
    })
}

#[tactic(auto, unfolding(crate::specs::Kinds::kind_of))]
fn for_each_of(mut props: IntoIter<NamedProp>) -> Option<Kind>
    ensures { result ≡ kind_of ElementType.ForEach (into_iter_items props) }
{
    Some(Kind::ForEach {
        end: whole_u32(take(&mut props, "end"))?,
        input: text(take(&mut props, "input"))?,
        output: text(take(&mut props, "output"))?,
        separator: truth(take(&mut props, "separator"))?,
        start: whole_u32(take(&mut props, "start"))?,
    })
}

#[tactic(auto, unfolding(crate::specs::Kinds::kind_of))]
fn critical_section_of(mut props: IntoIter<NamedProp>) -> Option<Kind>
    ensures { result ≡ kind_of ElementType.CriticalSection (into_iter_items props) }
{
    Some(Kind::CriticalSection {
        lock: text(take(&mut props, "lock"))?,
    })
}

#[tactic(auto, unfolding(crate::specs::Kinds::kind_of))]
fn script_of(mut props: IntoIter<NamedProp>) -> Option<Kind>
    ensures { result ≡ kind_of ElementType.Script (into_iter_items props) }
{
    Some(Kind::Script {
        replies: replies(take(&mut props, "replies"))?,
        request: template(take(&mut props, "request"))?,
    })
}

#[tactic(auto, unfolding(crate::specs::Kinds::kind_of))]
fn http_of(mut props: IntoIter<NamedProp>) -> Option<Kind>
    ensures { result ≡ kind_of ElementType.Http (into_iter_items props) }
{
    Some(Kind::Http {
        body: template(take(&mut props, "body"))?,
        host: template(take(&mut props, "host"))?,
        method: choice(&mut props, "method")?,
        params: pairs(take(&mut props, "params"))?,
        path: template(take(&mut props, "path"))?,
        port: template(take(&mut props, "port"))?,
        replies: maybe_replies(take(&mut props, "replies"))?,
    })
}

#[tactic(auto, unfolding(crate::specs::Kinds::kind_of))]
fn user_variables_of(mut props: IntoIter<NamedProp>) -> Option<Kind>
    ensures { result ≡ kind_of ElementType.UserVariables (into_iter_items props) }
{
    Some(Kind::UserVariables {
        vars: pairs(take(&mut props, "vars"))?,
    })
}

#[tactic(auto, unfolding(crate::specs::Kinds::kind_of))]
fn http_defaults_of(mut props: IntoIter<NamedProp>) -> Option<Kind>
    ensures { result ≡ kind_of ElementType.HttpDefaults (into_iter_items props) }
{
    Some(Kind::HttpDefaults {
        host: template(take(&mut props, "host"))?,
        path: template(take(&mut props, "path"))?,
        port: template(take(&mut props, "port"))?,
    })
}

#[tactic(auto, unfolding(crate::specs::Kinds::kind_of))]
fn header_manager_of(mut props: IntoIter<NamedProp>) -> Option<Kind>
    ensures { result ≡ kind_of ElementType.HeaderManager (into_iter_items props) }
{
    Some(Kind::HeaderManager {
        headers: pairs(take(&mut props, "headers"))?,
    })
}

#[tactic(auto, unfolding(crate::specs::Kinds::kind_of))]
fn counter_of(mut props: IntoIter<NamedProp>) -> Option<Kind>
    ensures { result ≡ kind_of ElementType.Counter (into_iter_items props) }
{
    Some(Kind::Counter {
        increment: whole_u64(take(&mut props, "increment"))?,
        maximum: whole_u64(take(&mut props, "maximum"))?,
        start: whole_u64(take(&mut props, "start"))?,
        var: text(take(&mut props, "var"))?,
    })
}

#[tactic(auto, unfolding(crate::specs::Kinds::kind_of))]
fn data_set_of(mut props: IntoIter<NamedProp>) -> Option<Kind>
    ensures { result ≡ kind_of ElementType.DataSet (into_iter_items props) }
{
    Some(Kind::DataSet {
        at_end: choice(&mut props, "atEnd")?,
        names: texts(take(&mut props, "names"))?,
        share: choice(&mut props, "share")?,
        text: text(take(&mut props, "text"))?,
    })
}

#[tactic(auto, unfolding(crate::specs::Kinds::kind_of))]
fn user_parameters_of(mut props: IntoIter<NamedProp>) -> Option<Kind>
    ensures { result ≡ kind_of ElementType.UserParameters (into_iter_items props) }
{
    Some(Kind::UserParameters {
        vars: pairs(take(&mut props, "vars"))?,
    })
}

#[tactic(auto, unfolding(crate::specs::Kinds::kind_of))]
fn constant_timer_of(mut props: IntoIter<NamedProp>) -> Option<Kind>
    ensures { result ≡ kind_of ElementType.ConstantTimer (into_iter_items props) }
{
    Some(Kind::ConstantTimer {
        delay: template(take(&mut props, "delay"))?,
    })
}

#[tactic(auto, unfolding(crate::specs::Kinds::kind_of))]
fn uniform_timer_of(mut props: IntoIter<NamedProp>) -> Option<Kind>
    ensures { result ≡ kind_of ElementType.UniformTimer (into_iter_items props) }
{
    Some(Kind::UniformTimer {
        offset: template(take(&mut props, "offset"))?,
        range: template(take(&mut props, "range"))?,
    })
}

#[tactic(auto, unfolding(crate::specs::Kinds::kind_of))]
fn regex_extractor_of(mut props: IntoIter<NamedProp>) -> Option<Kind>
    ensures { result ≡ kind_of ElementType.RegexExtractor (into_iter_items props) }
{
    Some(Kind::RegexExtractor(RegexExtractor {
        default: maybe(take(&mut props, "default"))?,
        field: choice(&mut props, "field")?,
        match_: whole_i32(take(&mut props, "match"))?,
        pattern: pattern(take(&mut props, "pattern"))?,
        ref_: text(take(&mut props, "ref"))?,
        template: text(take(&mut props, "template"))?,
    }))
}

#[tactic(auto, unfolding(crate::specs::Kinds::kind_of))]
fn json_extractor_of(mut props: IntoIter<NamedProp>) -> Option<Kind>
    ensures { result ≡ kind_of ElementType.JsonExtractor (into_iter_items props) }
{
    Some(Kind::JsonExtractor(JsonExtractor {
        default: maybe(take(&mut props, "default"))?,
        match_: whole_i32(take(&mut props, "match"))?,
        path: text(take(&mut props, "path"))?,
        ref_: text(take(&mut props, "ref"))?,
    }))
}

#[tactic(auto, unfolding(crate::specs::Kinds::kind_of))]
fn boundary_extractor_of(mut props: IntoIter<NamedProp>) -> Option<Kind>
    ensures { result ≡ kind_of ElementType.BoundaryExtractor (into_iter_items props) }
{
    Some(Kind::BoundaryExtractor(BoundaryExtractor {
        default: maybe(take(&mut props, "default"))?,
        field: choice(&mut props, "field")?,
        left: text(take(&mut props, "left"))?,
        match_: whole_i32(take(&mut props, "match"))?,
        ref_: text(take(&mut props, "ref"))?,
        right: text(take(&mut props, "right"))?,
    }))
}

#[tactic(auto, unfolding(crate::specs::Kinds::kind_of))]
fn response_assertion_of(mut props: IntoIter<NamedProp>) -> Option<Kind>
    ensures { result ≡ kind_of ElementType.ResponseAssertion (into_iter_items props) }
{
    let field = choice(&mut props, "field")?;
    let ignore_status = truth(take(&mut props, "ignoreStatus"))?;
    let not = truth(take(&mut props, "not"))?;
    let or = truth(take(&mut props, "or"))?;
    let (patterns, regexes, whole_regexes) = patterns(take(&mut props, "patterns"))?;
    let test = choice(&mut props, "test")?;
    Some(Kind::ResponseAssertion(Assertion::Response {
        field,
        ignore_status,
        not,
        or,
        patterns,
        regexes,
        test,
        whole_regexes,
    }))
}

#[tactic(auto, unfolding(crate::specs::Kinds::kind_of))]
fn duration_assertion_of(mut props: IntoIter<NamedProp>) -> Option<Kind>
    ensures { result ≡ kind_of ElementType.DurationAssertion (into_iter_items props) }
{
    Some(Kind::DurationAssertion(Assertion::Duration {
        ms: whole_u32(take(&mut props, "ms"))?,
    }))
}

#[tactic(auto, unfolding(crate::specs::Kinds::kind_of))]
fn size_assertion_of(mut props: IntoIter<NamedProp>) -> Option<Kind>
    ensures { result ≡ kind_of ElementType.SizeAssertion (into_iter_items props) }
{
    Some(Kind::SizeAssertion(Assertion::Size {
        op: choice(&mut props, "op")?,
        size: whole_u32(take(&mut props, "size"))?,
    }))
}

#[tactic(auto, unfolding(crate::specs::Kinds::kind_of))]
fn listener_of(props: IntoIter<NamedProp>) -> Option<Kind>
    ensures { result ≡ kind_of ElementType.Listener (into_iter_items props) }
{
    Some(Kind::Listener)
}

// The value of the next property, where it has this name.
fn take(props: &mut IntoIter<NamedProp>, name: &str) -> Prop
    ensures value { result ≡ value_named name.now (into_iter_items props.old) }
    ensures rest { into_iter_items props.new ≡ rest (into_iter_items props.old) }
{
    match props.next() {
        Some(prop) => prop.value_as(name),
        None => Prop::Absent,
    }
}

fn template(prop: Prop) -> Option<Template>
    ensures { result ≡ template_in prop }
{
    match prop {
        Prop::Template(value) => Some(value),
        _ => None,
    }
}

fn text(prop: Prop) -> Option<Text>
    ensures { result ≡ text_in prop }
{
    match prop {
        Prop::Text(value) => Some(value),
        _ => None,
    }
}

fn truth(prop: Prop) -> Option<bool>
    ensures { result ≡ truth_in prop }
{
    match prop {
        Prop::Truth(value) => Some(value),
        _ => None,
    }
}

fn pattern(prop: Prop) -> Option<Pattern>
    ensures { result ≡ pattern_in prop }
{
    match prop {
        Prop::Pattern(value) => Some(value),
        _ => None,
    }
}

fn pairs(prop: Prop) -> Option<Items<Pair>>
    ensures { result ≡ pairs_in prop }
{
    match prop {
        Prop::Pairs(value) => Some(value),
        _ => None,
    }
}

fn texts(prop: Prop) -> Option<Items<Text>>
    ensures { result ≡ texts_in prop }
{
    match prop {
        Prop::Texts(value) => Some(value),
        _ => None,
    }
}

fn replies(prop: Prop) -> Option<Items<ScriptReply>>
    ensures { result ≡ replies_in prop }
{
    match prop {
        Prop::Replies(value) => Some(value),
        _ => None,
    }
}

fn patterns(prop: Prop) -> Option<(Items<Text>, Items<Pattern>, Items<Pattern>)>
    ensures { result ≡ patterns_in prop }
{
    match prop {
        Prop::Patterns {
            texts,
            regexes,
            whole_regexes,
        } => Some((texts, regexes, whole_regexes)),
        _ => None,
    }
}

fn maybe(prop: Prop) -> Option<Option<Text>>
    ensures { result ≡ maybe_in prop }
{
    match prop {
        Prop::Text(value) => Some(Some(value)),
        Prop::Absent => Some(None),
        _ => None,
    }
}

fn maybe_replies(prop: Prop) -> Option<Option<Items<ScriptReply>>>
    ensures { result ≡ maybe_replies_in prop }
{
    match prop {
        Prop::Replies(value) => Some(Some(value)),
        Prop::Absent => Some(None),
        _ => None,
    }
}

fn whole_u8(prop: Prop) -> Option<u8>
    ensures { result ≡ number_in (2 ^ 8) prop }
{
    match prop {
        Prop::Number(number) => u8::try_from(number).ok(),
        _ => None,
    }
}

fn whole_u16(prop: Prop) -> Option<u16>
    ensures { result ≡ number_in (2 ^ 16) prop }
{
    match prop {
        Prop::Number(number) => u16::try_from(number).ok(),
        _ => None,
    }
}

fn whole_u32(prop: Prop) -> Option<u32>
    ensures { result ≡ number_in (2 ^ 32) prop }
{
    match prop {
        Prop::Number(number) => u32::try_from(number).ok(),
        _ => None,
    }
}

fn whole_u64(prop: Prop) -> Option<u64>
    ensures { result ≡ number_in (2 ^ 64) prop }
{
    match prop {
        Prop::Number(number) => u64::try_from(number).ok(),
        _ => None,
    }
}

fn whole_i32(prop: Prop) -> Option<i32>
    ensures { result ≡ signed_in prop }
{
    match prop {
        Prop::Number(number) => i32::try_from(number).ok(),
        _ => None,
    }
}

fn loops(prop: Prop) -> Option<Loops>
    ensures { result ≡ loops_in prop }
{
    match prop {
        Prop::Number(number) => {
            if number < 0 {
                return Some(Loops::Forever);
            }
            let times = u32::try_from(number).ok()?;
            Some(Loops::Times(times))
        }
        _ => None,
    }
}

// The value of the next property, where it has this name and is a text of a choice.
fn choice<C: Choice>(props: &mut IntoIter<NamedProp>, name: &str) -> Option<C>
    ensures value { result ≡ choice_in C.word C.all (value_named name.now (into_iter_items props.old)) }
    ensures rest { into_iter_items props.new ≡ rest (into_iter_items props.old) }
{
    let prop = take(props, name);
    match &prop {
        Prop::Word(word) => choice_of(word.text()),
        _ => None,
    }
}
