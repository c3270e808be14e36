// The forms of a property's value.

ghost use Rattle.std.specs.Prelude.{◌≡◌, ◌≤◌, ◌<◌, length, nat_lt, nat_le, ℕ, IfOk, IfSome, false, ◌||◌, ◌&&◌, map, option_map, option_and_then, decimal, pos, List};
ghost use Rattle.std.specs.Option.{option_map_or};
ghost use Rattle.std.specs.Fmt.{signed_decimal};
ghost use Rattle.serde_json.specs.View.{view, items_view, members_view};
ghost use Rattle.serde_json.specs.Find.{as_str, as_array};
ghost use Rattle.serde_json.specs.Data.{Data};
ghost use Rattle.plan_json.specs.Shape.{members_in};
ghost use Rattle.template_text.specs.Scan.{reading};
ghost use Rattle.element_props.specs.Forms.{has_long, is_too_long, template_text, whole_within, value_of, all_of, few_of, path_text, table_text, list_len, has_reference, filled_text, up_to_bound, pair_in, pair_from, pair_items, pair_with, is_no_item, items_have_long, AreShort, IsShort};
ghost use Rattle.element_props.specs.ChoiceTexts.{word_in};
ghost use Rattle.element_props.specs.Conditions.{plain_bytes};
ghost use Rattle.element_props.specs.Replies.{reply_in};
ghost use Rattle.element_props.specs.RowsSeen.{form_seen, words_seen};

use crate::prop::{Pair, Prop, Word};
use crate::replies::reply_in;
use crate::rows::{Form, Words, word_in};
use crate::tables::is_table;
use jm_base::{Items, M, NoMemory, ScriptReply, Text};
use json_path::{PathError, parse_path};
use serde_json::Value;
use std::alloc::Global;
use template_text::{Template, parse_template};

/// A text of a property has at most this many bytes.
const TEXT_LIMIT: usize = 65_536;

/// The name of a lock has at most this many bytes.
const LOCK_LIMIT: usize = 256;

/// Whether a text of the value, at any depth, is longer than this. Names of members don't count.
fn has_long(limit: usize, value: &Value) -> bool
    ensures { result ≡ has_long limit (view value.now) }
{
    match value {
        Value::Null | Value::Bool(_) | Value::Number(_) => false,
        Value::String(text) => text.len() > limit,
        Value::Array(items) => {
            for item in items {
                if has_long(limit, item) {
                    return true;
                }
            }
            false
        }
        Value::Object(members) => {
            for (_, item) in members {
                if has_long(limit, item) {
                    return true;
                }
            }
            false
        }
    }
}

/// Whether a text of the value is too long under a form.
pub fn is_too_long(form: Form, value: &Value) -> bool
    ensures exact { result ≡ is_too_long (form_seen form) (view value.now) }
    ensures short { result ≡ false → has_long 65536 (view value.now) ≡ false }
{
    has_long(TEXT_LIMIT, value) || is_lock(form) && is_long_text(LOCK_LIMIT, value)
}

fn is_lock(form: Form) -> bool
    ensures { (d : Data) → is_too_long (form_seen form) d ≡ (has_long 65536 d || (result && option_map_or (λ (s : List ℕ). nat_lt 256 (length s)) (as_str d) false)) }
{
    match form {
        Form::Lock => true,
        Form::Template | Form::Plain | Form::Filled | Form::Flag | Form::Pattern => false,
        Form::TestPatterns | Form::Pairs | Form::Replies | Form::Texts | Form::JsonPath => false,
        Form::Csv(_) => false,
        Form::Whole(_, _) => false,
        Form::UpTo(_) => false,
        Form::Choice(_) => false,
    }
}

fn is_long_text(limit: usize, value: &Value) -> bool
    ensures { result ≡ option_map_or (λ (s : List ℕ). nat_lt limit (length s)) (as_str (view value.now)) false }
{
    match value.as_str() {
        Some(text) => text.len() > limit,
        None => false,
    }
}

/// What a value is under a form, among these properties, where it has the form.
pub fn value_of(alloc: Global, form: Form, props: &Value, value: &Value) -> M<Option<Prop>>
    requires { has_long 65536 (view value.now) ≡ false }
    ensures value { IfOk result (λ o. o ≡ value_of (form_seen form) (members_in (view props.now)) (view value.now)) }
    ensures short { IfOk result (λ o. IfSome o IsShort) }
{
    match form {
        Form::Template => Ok(template_of(alloc, value)?.map(Prop::Template)),
        Form::Plain => Ok(plain_text(alloc, value)?.map(Prop::Text)),
        Form::Filled => Ok(filled(alloc, value)?.map(Prop::Text)),
        Form::Lock => Ok(filled(alloc, value)?.map(Prop::Text)),
        Form::Whole(low, high) => Ok(whole_within(low, high, value).map(Prop::Number)),
        Form::UpTo(name) => Ok(whole_within(0, bound(props, name), value).map(Prop::Number)),
        Form::Flag => Ok(value.as_bool().map(Prop::Truth)),
        Form::Choice(words) => Ok(chosen(words, value).map(Prop::Word)),
        Form::Pattern => Ok(plain_text(alloc, value)?.map(Prop::Text)),
        Form::TestPatterns => Ok(texts_in(alloc, value)?.map(Prop::Texts)),
        Form::Pairs => Ok(pairs(alloc, value)?.map(Prop::Pairs)),
        Form::Replies => Ok(replies(alloc, value)?.map(Prop::Replies)),
        Form::Texts => Ok(texts_in(alloc, value)?.map(Prop::Texts)),
        Form::Csv(names) => Ok(table_text(alloc, list_len(props, names), value)?.map(Prop::Text)),
        Form::JsonPath => Ok(path_text(alloc, value)?.map(Prop::Text)),
    }
}

#[tactic(auto, using(crate::proofs::FormLaws::short_template))]
fn template_of(alloc: Global, value: &Value) -> M<Option<Template>>
    requires { has_long 65536 (view value.now) ≡ false }
    ensures value { IfOk result (λ o. o ≡ option_map reading (template_text (view value.now))) }
    ensures short { IfOk result (λ o. IfSome o (λ t. plain_bytes t ≤ 65536)) }
{
    let Some(text) = template_text(alloc, value)? else {
        return Ok(None);
    };
    let template = parse_template(alloc, text.bytes())?;
    Ok(Some(template))
}

fn plain_text(alloc: Global, value: &Value) -> M<Option<Text>>
    ensures { IfOk result (λ o. o ≡ as_str (view value.now)) }
{
    match value.as_str() {
        Some(text) => Ok(Some(Text::new(alloc, text.as_bytes())?)),
        None => Ok(None),
    }
}

fn filled(alloc: Global, value: &Value) -> M<Option<Text>>
    ensures { IfOk result (λ o. o ≡ option_and_then filled_text (as_str (view value.now))) }
{
    match value.as_str() {
        Some("") => Ok(None),
        Some(text) => Ok(Some(Text::new(alloc, text.as_bytes())?)),
        None => Ok(None),
    }
}

/// The text of a template: a text, or a whole number in decimal.
fn template_text(alloc: Global, value: &Value) -> M<Option<Text>>
    requires { has_long 65536 (view value.now) ≡ false }
    ensures text { IfOk result (λ o. o ≡ template_text (view value.now)) }
    ensures short { IfOk result (λ o. IfSome o (λ s. length s ≤ 65536)) }
{
    if let Some(text) = value.as_str() {
        return Ok(Some(Text::new(alloc, text.as_bytes())?));
    }
    if let Some(n) = value.as_u64() {
        let text = unsigned_text(alloc, n)?;
        return Ok(Some(text));
    }
    if let Some(n) = value.as_i64() {
        let text = signed_text(alloc, n)?;
        return Ok(Some(text));
    }
    Ok(None)
}

#[tactic(auto, using(crate::proofs::FormLaws::short_decimal))]
fn unsigned_text(alloc: Global, n: u64) -> M<Text>
    ensures text { IfOk result (λ t. t ≡ decimal n) }
    ensures short { IfOk result (λ t. length t ≤ 65536) }
{
    let text = format!(in alloc; "{n}")?;
    Text::new(alloc, text.as_bytes())
}

#[tactic(auto, using(crate::proofs::FormLaws::short_signed))]
fn signed_text(alloc: Global, n: i64) -> M<Text>
    ensures text { IfOk result (λ t. t ≡ signed_decimal n) }
    ensures short { IfOk result (λ t. length t ≤ 65536) }
{
    let text = format!(in alloc; "{n}")?;
    Text::new(alloc, text.as_bytes())
}

/// A whole number in this range.
pub fn whole_within(low: i64, high: i64, value: &Value) -> Option<i64>
    ensures { result ≡ whole_within low high (view value.now) }
{
    let n = value.as_i64()?;
    if low <= n && n <= high { Some(n) } else { None }
}

/// The bound that another property is.
fn bound(props: &Value, name: &str) -> i64
    ensures { result ≡ up_to_bound name.now (members_in (view props.now)) }
{
    match props.get(name) {
        Some(value) => whole_within(0, i64::MAX, value).unwrap_or(i64::MAX),
        None => i64::MAX,
    }
}

/// The value, where it is one of the texts.
fn chosen(words: Words, value: &Value) -> Option<Word>
    ensures { result ≡ option_and_then (word_in (words_seen words)) (as_str (view value.now)) }
{
    let text = value.as_str()?;
    word_in(words, text)
}

/// A list of pairs of a name and a value.
fn pairs(alloc: Global, value: &Value) -> M<Option<Items<Pair>>>
    requires { has_long 65536 (view value.now) ≡ false }
    ensures value { IfOk result (λ o. o ≡ option_and_then (all_of pair_in) (as_array (view value.now))) }
    ensures short { IfOk result (λ o. IfSome o AreShort) }
{
    match value.as_array() {
        Some(items) => pairs_in(alloc, items),
        None => Ok(None),
    }
}

#[tactic(auto, using(crate::proofs::FormLaws::short_pairs))]
fn pairs_in(alloc: Global, items: &[Value]) -> M<Option<Items<Pair>>>
    requires { items_have_long 65536 (items_view items.now) ≡ false }
    ensures value { IfOk result (λ o. o ≡ all_of pair_in (items_view items.now)) }
    ensures short { IfOk result (λ o. IfSome o AreShort) }
{
    let mut found = Vec::new(alloc);
    'pairs: for item in items {
        let Some(pair) = pair(alloc, item)? else {
            return Ok(None);
        };
        found.push(pair)?;
    }
    Ok(Some(Items::of(found)))
}

fn pair(alloc: Global, value: &Value) -> M<Option<Pair>>
    requires { has_long 65536 (view value.now) ≡ false }
    ensures value { IfOk result (λ o. o ≡ pair_in (view value.now)) }
    ensures short { IfOk result (λ o. IfSome o (λ p. plain_bytes p.value ≤ 65536)) }
{
    match value.as_array() {
        Some(items) => pair_items(alloc, items),
        None => Ok(None),
    }
}

fn pair_items(alloc: Global, items: &[Value]) -> M<Option<Pair>>
    requires { items_have_long 65536 (items_view items.now) ≡ false }
    ensures value { IfOk result (λ o. o ≡ pair_items (items_view items.now)) }
    ensures short { IfOk result (λ o. IfSome o (λ p. plain_bytes p.value ≤ 65536)) }
{
    match items {
        [] => Ok(None),
        [name, rest @ ..] => pair_with(alloc, name, rest),
    }
}

fn pair_with(alloc: Global, name: &Value, rest: &[Value]) -> M<Option<Pair>>
    requires { items_have_long 65536 (items_view rest.now) ≡ false }
    ensures value { IfOk result (λ o. o ≡ pair_with (view name.now) (items_view rest.now)) }
    ensures short { IfOk result (λ o. IfSome o (λ p. plain_bytes p.value ≤ 65536)) }
{
    match rest {
        [] => Ok(None),
        [value, more @ ..] => {
            if is_none(more) {
                pair_of(alloc, name, value)
            } else {
                Ok(None)
            }
        }
    }
}

#[tactic(auto, using(crate::proofs::PropLaws::no_item_empty))]
fn is_none(items: &[Value]) -> bool
    ensures { result ≡ is_no_item (items_view items.now) }
{
    items.is_empty()
}

fn pair_of(alloc: Global, name: &Value, value: &Value) -> M<Option<Pair>>
    requires { has_long 65536 (view value.now) ≡ false }
    ensures value { IfOk result (λ o. o ≡ pair_from (view name.now) (view value.now)) }
    ensures short { IfOk result (λ o. IfSome o (λ p. plain_bytes p.value ≤ 65536)) }
{
    let Some(name) = plain_text(alloc, name)? else {
        return Ok(None);
    };
    let Some(value) = template_of(alloc, value)? else {
        return Ok(None);
    };
    Ok(Some(Pair { name, value }))
}

fn is_count(most: usize, count: usize) -> bool
    ensures { result ≡ (nat_le 1 count && nat_le count most) }
{
    1 <= count && count <= most
}

/// A list of 1 to 64 texts.
#[tactic(auto, using(crate::proofs::PropLaws::few_are, crate::proofs::PropLaws::few_not))]
pub fn strings_in<'a>(alloc: Global, value: &'a Value) -> M<Option<Vec<&'a str>>>
    ensures { IfOk result (λ o. option_map (λ v. map (λ s. s.now) v.items) o ≡ option_and_then (few_of 64 as_str) (as_array (view value.now))) }
{
    match value.as_array() {
        Some(items) => {
            if is_count(64, items.len()) {
                strings_of(alloc, items)
            } else {
                Ok(None)
            }
        }
        None => Ok(None),
    }
}

fn strings_of<'a>(alloc: Global, items: &'a [Value]) -> M<Option<Vec<&'a str>>>
    ensures { IfOk result (λ o. option_map (λ v. map (λ s. s.now) v.items) o ≡ all_of as_str (items_view items.now)) }
{
    let mut found = Vec::new(alloc);
    'strings: for item in items {
        let Some(text) = item.as_str() else {
            return Ok(None);
        };
        found.push(text)?;
    }
    Ok(Some(found))
}

/// Texts of their own.
pub fn copies(alloc: Global, strings: &[&str]) -> M<Items<Text>>
    ensures { IfOk result (λ ts. ts ≡ map (λ s. s.now) strings.now) }
{
    let mut texts = Vec::new(alloc);
    'copies: for string in strings {
        texts.push(Text::new(alloc, string.as_bytes())?)?;
    }
    Ok(Items::of(texts))
}

fn texts_in(alloc: Global, value: &Value) -> M<Option<Items<Text>>>
    ensures { IfOk result (λ o. o ≡ option_and_then (few_of 64 as_str) (as_array (view value.now))) }
{
    match strings_in(alloc, value)? {
        Some(strings) => {
            let texts = copies(alloc, &strings)?;
            Ok(Some(texts))
        }
        None => Ok(None),
    }
}

/// A list of 1 to 4,096 replies.
#[tactic(auto, using(crate::proofs::PropLaws::few_are, crate::proofs::PropLaws::few_not))]
fn replies(alloc: Global, value: &Value) -> M<Option<Items<ScriptReply>>>
    ensures { IfOk result (λ o. o ≡ option_and_then (few_of 4096 reply_in) (as_array (view value.now))) }
{
    match value.as_array() {
        Some(items) => {
            if is_count(4096, items.len()) {
                replies_of(alloc, items)
            } else {
                Ok(None)
            }
        }
        None => Ok(None),
    }
}

fn replies_of(alloc: Global, items: &[Value]) -> M<Option<Items<ScriptReply>>>
    ensures { IfOk result (λ o. o ≡ all_of reply_in (items_view items.now)) }
{
    let mut found = Vec::new(alloc);
    'replies: for item in items {
        let Some(reply) = reply_in(alloc, item)? else {
            return Ok(None);
        };
        found.push(reply)?;
    }
    Ok(Some(Items::of(found)))
}

/// How many items the property of this name has, where it is a list.
#[tactic(auto, using(crate::proofs::PropLaws::list_length))]
fn list_len(props: &Value, name: &str) -> Option<usize>
    ensures { result ≡ list_len name.now (members_in (view props.now)) }
{
    let items = props.get(name)?.as_array()?;
    Some(items.len())
}

/// A text whose rows have that many fields.
fn table_text(alloc: Global, width: Option<usize>, value: &Value) -> M<Option<Text>>
    ensures { IfOk result (λ o. o ≡ option_and_then (table_text width) (as_str (view value.now))) }
{
    let Some(text) = value.as_str() else {
        return Ok(None);
    };
    let Some(width) = width else {
        return Ok(None);
    };
    let fits = is_table(alloc, text.as_bytes(), width)?;
    if !fits {
        return Ok(None);
    }
    let text = Text::new(alloc, text.as_bytes())?;
    Ok(Some(text))
}

/// A text that is a JSON path.
fn path_text(alloc: Global, value: &Value) -> M<Option<Text>>
    requires { has_long 65536 (view value.now) ≡ false }
    ensures { IfOk result (λ o. o ≡ option_and_then path_text (as_str (view value.now))) }
{
    let Some(text) = value.as_str() else {
        return Ok(None);
    };
    match parse_path(alloc, text.as_bytes()) {
        Ok(_) => {
            let text = Text::new(alloc, text.as_bytes())?;
            Ok(Some(text))
        }
        Err(PathError::BadPath { .. }) => Ok(None),
        Err(PathError::NoMemory) => Err(NoMemory),
    }
}

/// Whether the text has a `${`.
pub fn has_reference(text: &[u8]) -> bool
    ensures { result ≡ has_reference text.now }
{
    let mut after_dollar = false;
    for byte in text {
        if after_dollar && *byte == b'{' {
            return true;
        }
        after_dollar = *byte == b'$';
    }
    false
}
