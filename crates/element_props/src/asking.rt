// Properties that are regular expressions, which the maker of patterns is asked for.

ghost use Rattle.std.specs.Prelude.{◌≡◌, ◌++◌, ◌∷◌, [], ◌||◌, map, OnOk, IfOk, string_bytes, bytes_eq, false, List, ℕ};
ghost use Rattle.std.specs.Option.{option_map_or};
ghost use Rattle.serde_json.specs.Find.{as_str};
ghost use Rattle.serde_json.specs.View.{view};
ghost use Rattle.plan_json.specs.Shape.{members_in};
ghost use Rattle.element_props.specs.declared.prop.Prop.TheVariants as props;
ghost use Rattle.element_props.specs.Reads.{Gives, over, ask};
ghost use Rattle.element_props.specs.Forms.{pattern_asked, pattern_checked, around, around_asked, one_asked, regexes_checked, tests_checked, tests_given, whole_of, has_reference, is_test};
ghost use Rattle.element_props.specs.Props.{prop_at};

use crate::choice::Choice;
use crate::choices::TestKind;
use crate::error::{BuildError, PatternFault};
use crate::forms::{copies, has_reference, strings_in};
use crate::patterns::{MakeError, Pattern, Patterns};
use crate::place::prop_path;
use crate::prop::Prop;
use jm_base::{Items, M, Text};
use serde_json::Value;
use std::alloc::Global;

/// A text, with what the maker makes of it.
#[tactic(auto, using(crate::proofs::ReadsLaws::no_memory))]
fn made<G: Patterns>(
    alloc: Global,
    places: &[u64],
    name: &str,
    text: &str,
    patterns: &mut G,
) -> Result<Pattern, BuildError>
    ensures gives { Gives (λ p. p) (G.account patterns.old) (ask (prop_at places.now name.now) text.now (over text.now)) result (G.account patterns.new) }
    ensures text { IfOk result (λ p. p ≡ text.now) }
{
    let kept = Text::new(alloc, text.as_bytes())?;
    match patterns.make(alloc, text) {
        Ok(regex) => Ok(Pattern::of(kept, regex)),
        Err(MakeError::Syntax) => Err(BuildError::BadPattern {
            path: prop_path(alloc, places, name)?,
            why: PatternFault::Syntax,
        }),
        Err(MakeError::Size) => Err(BuildError::BadPattern {
            path: prop_path(alloc, places, name)?,
            why: PatternFault::Size,
        }),
        Err(MakeError::NoMemory) => Err(BuildError::NoMemory),
    }
}

/// A pattern, which may hold no `${`.
#[tactic(auto, using(crate::proofs::ReadsLaws::no_memory))]
fn pattern<G: Patterns>(
    alloc: Global,
    places: &[u64],
    name: &str,
    text: &str,
    patterns: &mut G,
) -> Result<Pattern, BuildError>
    ensures gives { Gives (λ p. p) (G.account patterns.old) (pattern_asked (prop_at places.now name.now) text.now (has_reference text.now)) result (G.account patterns.new) }
    ensures text { IfOk result (λ p. p ≡ text.now) }
{
    if has_reference(text.as_bytes()) {
        return Err(BuildError::BadPattern {
            path: prop_path(alloc, places, name)?,
            why: PatternFault::Reference,
        });
    }
    made(alloc, places, name, text, patterns)
}

/// A property that is a pattern.
pub(crate) fn pattern_prop<G: Patterns>(
    alloc: Global,
    places: &[u64],
    name: &str,
    text: &str,
    patterns: &mut G,
) -> Result<Prop, BuildError>
    ensures { Gives (λ p. p) (G.account patterns.old) (pattern_checked (prop_at places.now name.now) text.now (has_reference text.now)) result (G.account patterns.new) }
{
    match pattern(alloc, places, name, text, patterns) {
        Ok(pattern) => Ok(Prop::Pattern(pattern)),
        Err(error) => Err(error),
    }
}

/// The text around a pattern that a whole text must match.
fn around(alloc: Global, text: &str) -> M<String>
    ensures { IfOk result (λ s. string_bytes s ≡ around text.now) }
{
    let around = format!(in alloc; "\\A(?:{text})\\z")?;
    Ok(around)
}

/// Adds what is made of the text around a pattern, where a whole text must match.
#[tactic(auto, using(crate::proofs::ReadsLaws::no_memory))]
fn add_whole<G: Patterns>(
    alloc: Global,
    places: &[u64],
    name: &str,
    text: &str,
    fully: bool,
    whole: &mut Vec<Pattern>,
    patterns: &mut G,
) -> Result<(), BuildError>
    ensures asks { Gives (λ u. u) (G.account patterns.old) (around_asked (prop_at places.now name.now) fully text.now) result (G.account patterns.new) }
    ensures adds { OnOk result (whole.new.items ≡ whole.old.items ++ whole_of fully (text.now ∷ [])) }
{
    if !fully {
        return Ok(());
    }
    let text = around(alloc, text)?;
    match made(alloc, places, name, text.as_str(), patterns) {
        Ok(pattern) => {
            whole.push(pattern)?;
            Ok(())
        }
        Err(error) => Err(error),
    }
}

/// Adds what is made of a pattern, and of the text around it where a whole text must match.
#[tactic(auto, using(crate::proofs::ReadsLaws::no_memory))]
fn add_pattern<G: Patterns>(
    alloc: Global,
    places: &[u64],
    name: &str,
    text: &str,
    fully: bool,
    regexes: &mut Vec<Pattern>,
    whole: &mut Vec<Pattern>,
    patterns: &mut G,
) -> Result<(), BuildError>
    ensures asks { Gives (λ u. u) (G.account patterns.old) (one_asked (prop_at places.now name.now) fully text.now) result (G.account patterns.new) }
    ensures regexes { OnOk result (regexes.new.items ≡ regexes.old.items ++ (text.now ∷ [])) }
    ensures whole { OnOk result (whole.new.items ≡ whole.old.items ++ whole_of fully (text.now ∷ [])) }
{
    match pattern(alloc, places, name, text, patterns) {
        Ok(pattern) => {
            regexes.push(pattern)?;
            add_whole(alloc, places, name, text, fully, whole, patterns)
        }
        Err(error) => Err(error),
    }
}

/// A property that is a list of patterns, all of them regular expressions.
#[tactic(auto, using(crate::proofs::ReadsLaws::no_memory))]
fn regexes_prop<G: Patterns>(
    alloc: Global,
    places: &[u64],
    name: &str,
    texts: &[&str],
    fully: bool,
    patterns: &mut G,
) -> Result<Prop, BuildError>
    ensures { Gives (λ p. p) (G.account patterns.old) (regexes_checked (prop_at places.now name.now) fully (map (λ s. s.now) texts.now)) result (G.account patterns.new) }
{
    let mut regexes = Vec::new(alloc);
    let mut whole = Vec::new(alloc);
    'texts: for text in texts {
        match add_pattern(
            alloc,
            places,
            name,
            text,
            fully,
            &mut regexes,
            &mut whole,
            patterns,
        ) {
            Ok(()) => {}
            Err(error) => return Err(error),
        }
    }
    let texts = copies(alloc, texts)?;
    Ok(Prop::Patterns {
        texts,
        regexes: Items::of(regexes),
        whole_regexes: Items::of(whole),
    })
}

/// A list of patterns that are plain texts.
fn plain_prop(alloc: Global, texts: &[&str]) -> M<Prop>
    ensures { IfOk result (λ p. p ≡ props.Patterns (map (λ s. s.now) texts.now) [] []) }
{
    let texts = copies(alloc, texts)?;
    Ok(Prop::Patterns {
        texts,
        regexes: Items::of(Vec::new(alloc)),
        whole_regexes: Items::of(Vec::new(alloc)),
    })
}

fn either(a: bool, b: bool) -> bool
    ensures { result ≡ (a || b) }
{
    a || b
}

/// The patterns of a Response Assertion: regular expressions that must be found or that a whole text must match, or plain texts.
#[tactic(auto, using(crate::proofs::ReadsLaws::no_memory))]
fn tests_prop<G: Patterns>(
    alloc: Global,
    places: &[u64],
    name: &str,
    texts: &[&str],
    regex: bool,
    fully: bool,
    patterns: &mut G,
) -> Result<Prop, BuildError>
    ensures { Gives (λ p. p) (G.account patterns.old) (tests_checked (prop_at places.now name.now) regex fully (map (λ s. s.now) texts.now)) result (G.account patterns.new) }
{
    if either(regex, fully) {
        return regexes_prop(alloc, places, name, texts, fully, patterns);
    }
    let prop = plain_prop(alloc, texts)?;
    Ok(prop)
}

/// Whether the property `test` is the text of this kind.
fn is_test(props: &Value, test: TestKind) -> bool
    ensures { result ≡ is_test test (members_in (view props.now)) }
{
    match props.get("test") {
        Some(value) => is_text(value, test.word()),
        None => false,
    }
}

fn is_text(value: &Value, word: &str) -> bool
    ensures { result ≡ option_map_or (λ (s : List ℕ). bytes_eq s word.now) (as_str (view value.now)) false }
{
    match value.as_str() {
        Some(text) => text == word,
        None => false,
    }
}

/// The patterns of a Response Assertion with these properties.
#[tactic(auto, using(crate::proofs::ReadsLaws::no_memory))]
pub(crate) fn tests_given<G: Patterns>(
    alloc: Global,
    places: &[u64],
    name: &str,
    props: &Value,
    value: &Value,
    patterns: &mut G,
) -> Result<Prop, BuildError>
    ensures { Gives (λ p. p) (G.account patterns.old) (tests_given (prop_at places.now name.now) (members_in (view props.now)) (view value.now)) result (G.account patterns.new) }
{
    let strings = strings_in(alloc, value)?;
    match strings {
        Some(texts) => {
            let regex = is_test(props, TestKind::Contains);
            let fully = is_test(props, TestKind::Matches);
            tests_prop(alloc, places, name, &texts, regex, fully, patterns)
        }
        None => Err(BuildError::BadProp {
            path: prop_path(alloc, places, name)?,
        }),
    }
}
