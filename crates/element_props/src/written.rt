// Properties as they are written.

ghost use Rattle.std.specs.Prelude.{◌≡◌, true, [], IfOk, OnOk, map, nat_eq, not, bytes_eq};
ghost use Rattle.serde_json.specs.View.{view, members_view};
ghost use Rattle.serde_json.specs.Data.{string, boolean, number, unsigned, array, put};
ghost use Rattle.serde_json.specs.Find.{of_integer};
ghost use Rattle.template_text.specs.Pieces.{spelling};
ghost use Rattle.element_props.specs.RowsSeen.{form_seen, presence_seen, row_seen};
ghost use Rattle.element_props.specs.ValueShown.{named_shown_seen, shown_seen};
ghost use Rattle.element_props.specs.PropertiesWritten.{entry, is_default, is_first, is_no_pairs, is_nothing, is_number, is_text, is_truth, items_by, no_pair, pair_data, reply_data, reply_members, text_data, unless, value_data, with_entry, written};

use crate::patterns::Pattern;
use crate::prop::Pair;
use crate::rows::{Form, Presence, Row, first_word};
use jm_base::{M, ScriptReply, Text};
use serde_json::{Map, Number, Value};
use std::alloc::Global;
use template_text::{Template, spell};

/// The value of a property where it is kept, to be written: a `Prop` that borrows.
#[derive(Clone, Copy)]
pub enum Shown<'a> {
    /// The property is absent, and nothing stands for it.
    Absent,
    Template(&'a Template),
    Text(&'a Text),
    Number(i64),
    Truth(bool),
    /// One of the texts of a choice.
    Word(&'static str),
    Pattern(&'a Pattern),
    Pairs(&'a [Pair]),
    Replies(&'a [ScriptReply]),
    Texts(&'a [Text]),
    /// The patterns of a Response Assertion: their texts, and what was made of them.
    Patterns {
        texts: &'a [Text],
        regexes: &'a [Pattern],
        whole_regexes: &'a [Pattern],
    },
}

/// A property where it is kept, to be written: its name and its value.
#[derive(Clone, Copy)]
pub struct NamedShown<'a> {
    pub name: &'static str,
    pub value: Shown<'a>,
}

fn text_value(alloc: Global, text: &[u8]) -> M<Value>
    ensures { IfOk result (λ v. view v ≡ text_data text.now) }
{
    let own = String::from_utf8_lossy(alloc, text)?;
    Ok(Value::String(own))
}

fn template_value(alloc: Global, template: &Template) -> M<Value>
    ensures { IfOk result (λ v. view v ≡ text_data (spelling template.now)) }
{
    let text = spell(alloc, template)?;
    let value = text_value(alloc, text.bytes())?;
    Ok(value)
}

fn number_value(n: i64) -> Value
    ensures { view result ≡ number (of_integer n) }
{
    Value::Number(Number::from(n))
}

fn texts_value(alloc: Global, texts: &[Text]) -> M<Value>
    ensures { IfOk result (λ v. view v ≡ array (items_by text_data texts.now)) }
{
    let mut values = Vec::new(alloc);
    'texts: for text in texts {
        let value = text_value(alloc, text.bytes())?;
        values.push(value)?;
    }
    Ok(Value::Array(values))
}

fn pair_value(alloc: Global, pair: &Pair) -> M<Value>
    ensures { IfOk result (λ v. view v ≡ pair_data pair.now) }
{
    let name = text_value(alloc, pair.name.bytes())?;
    let value = template_value(alloc, &pair.value)?;
    let mut both = Vec::new(alloc);
    both.push(name)?;
    both.push(value)?;
    Ok(Value::Array(both))
}

fn pairs_value(alloc: Global, pairs: &[Pair]) -> M<Value>
    ensures { IfOk result (λ v. view v ≡ array (items_by pair_data pairs.now)) }
{
    let mut values = Vec::new(alloc);
    'pairs: for pair in pairs {
        let value = pair_value(alloc, pair)?;
        values.push(value)?;
    }
    Ok(Value::Array(values))
}

/// Puts a member in its place.
#[tactic(auto, using(crate::proofs::WrittenLaws::put_seen))]
fn put(alloc: Global, map: &mut Map<String, Value>, name: &str, value: Value) -> M<()>
    ensures { OnOk result (members_view map.new.entries ≡ put name.now (view value) (members_view map.old.entries)) }
{
    let name = String::from_str(alloc, name)?;
    map.insert(name, value)?;
    Ok(())
}

fn put_text(
    alloc: Global,
    map: &mut Map<String, Value>,
    name: &str,
    text: &[u8],
    default: &[u8],
) -> M<()>
    ensures { OnOk result (members_view map.new.entries ≡ with_entry name.now (unless (bytes_eq text.now default.now) (text_data text.now)) (members_view map.old.entries)) }
{
    if text == default {
        return Ok(());
    }
    let value = text_value(alloc, text)?;
    put(alloc, map, name, value)
}

fn put_number(
    alloc: Global,
    map: &mut Map<String, Value>,
    name: &str,
    n: u32,
    default: u32,
) -> M<()>
    ensures { OnOk result (members_view map.new.entries ≡ with_entry name.now (unless (nat_eq n default) (number (unsigned n))) (members_view map.old.entries)) }
{
    if n == default {
        return Ok(());
    }
    put(alloc, map, name, Value::Number(Number::from(n)))
}

fn put_flag(alloc: Global, map: &mut Map<String, Value>, name: &str, flag: bool) -> M<()>
    ensures { OnOk result (members_view map.new.entries ≡ with_entry name.now (unless (not flag) (boolean true)) (members_view map.old.entries)) }
{
    if !flag {
        return Ok(());
    }
    put(alloc, map, name, Value::Bool(true))
}

fn reply_map(alloc: Global, reply: &ScriptReply) -> M<Map<String, Value>>
    ensures { IfOk result (λ m. members_view m.entries ≡ reply_members reply.now) }
{
    let mut map = Map::new(alloc);
    put_flag(alloc, &mut map, "null", reply.null)?;
    put_number(alloc, &mut map, "ms", reply.ms, 0)?;
    put_text(alloc, &mut map, "message", reply.message.bytes(), b"OK")?;
    put_text(alloc, &mut map, "headers", reply.headers.bytes(), b"")?;
    put_flag(alloc, &mut map, "fault", reply.fault)?;
    put_flag(alloc, &mut map, "echo", reply.echo)?;
    put_number(alloc, &mut map, "code", u32::from(reply.code), 200)?;
    put_text(alloc, &mut map, "body", reply.body.bytes(), b"")?;
    Ok(map)
}

fn reply_value(alloc: Global, reply: &ScriptReply) -> M<Value>
    ensures { IfOk result (λ v. view v ≡ reply_data reply.now) }
{
    let map = reply_map(alloc, reply)?;
    Ok(Value::Object(map))
}

fn replies_value(alloc: Global, replies: &[ScriptReply]) -> M<Value>
    ensures { IfOk result (λ v. view v ≡ array (items_by reply_data replies.now)) }
{
    let mut values = Vec::new(alloc);
    'replies: for reply in replies {
        let value = reply_value(alloc, reply)?;
        values.push(value)?;
    }
    Ok(Value::Array(values))
}

fn word_value(alloc: Global, word: &str) -> M<Value>
    ensures { IfOk result (λ v. view v ≡ string word.now) }
{
    let own = String::from_str(alloc, word)?;
    Ok(Value::String(own))
}

/// The value of a property as JSON.
fn shown_value(alloc: Global, value: &Shown<'_>) -> M<Value>
    ensures { IfOk result (λ v. view v ≡ value_data (shown_seen value.now)) }
{
    match value {
        Shown::Absent => Ok(Value::Null),
        Shown::Template(template) => template_value(alloc, template),
        Shown::Text(text) => text_value(alloc, text.bytes()),
        Shown::Number(n) => Ok(number_value(*n)),
        Shown::Truth(b) => Ok(Value::Bool(*b)),
        Shown::Word(word) => word_value(alloc, word),
        Shown::Pattern(pattern) => text_value(alloc, pattern.text().bytes()),
        Shown::Pairs(pairs) => pairs_value(alloc, pairs),
        Shown::Replies(replies) => replies_value(alloc, replies),
        Shown::Texts(texts) => texts_value(alloc, texts),
        Shown::Patterns { texts, .. } => texts_value(alloc, texts),
    }
}

/// Whether the value is this text, or the template of it.
fn is_text(alloc: Global, text: &str, value: &Shown<'_>) -> M<bool>
    ensures { IfOk result (λ b. b ≡ is_text text.now (shown_seen value.now)) }
{
    match value {
        Shown::Template(template) => {
            let spelled = spell(alloc, template)?;
            Ok(spelled.bytes() == text.as_bytes())
        }
        Shown::Text(own) => Ok(own.bytes() == text.as_bytes()),
        Shown::Absent | Shown::Number(_) | Shown::Truth(_) | Shown::Word(_) => Ok(false),
        Shown::Pattern(_) | Shown::Pairs(_) | Shown::Replies(_) | Shown::Texts(_) => Ok(false),
        Shown::Patterns { .. } => Ok(false),
    }
}

fn is_number(n: i64, value: &Shown<'_>) -> bool
    ensures { result ≡ is_number n (shown_seen value.now) }
{
    match value {
        Shown::Number(own) => *own == n,
        Shown::Absent | Shown::Truth(_) | Shown::Word(_) => false,
        Shown::Template(_) | Shown::Text(_) | Shown::Pattern(_) => false,
        Shown::Pairs(_) | Shown::Replies(_) | Shown::Texts(_) => false,
        Shown::Patterns { .. } => false,
    }
}

fn is_truth(truth: bool, value: &Shown<'_>) -> bool
    ensures { result ≡ is_truth truth (shown_seen value.now) }
{
    match value {
        Shown::Truth(own) => *own == truth,
        Shown::Absent | Shown::Number(_) | Shown::Word(_) => false,
        Shown::Template(_) | Shown::Text(_) | Shown::Pattern(_) => false,
        Shown::Pairs(_) | Shown::Replies(_) | Shown::Texts(_) => false,
        Shown::Patterns { .. } => false,
    }
}

fn is_first(form: Form, value: &Shown<'_>) -> bool
    ensures { result ≡ is_first (form_seen form) (shown_seen value.now) }
{
    match value {
        Shown::Word(word) => *word == first_word(form),
        Shown::Absent | Shown::Number(_) | Shown::Truth(_) => false,
        Shown::Template(_) | Shown::Text(_) | Shown::Pattern(_) => false,
        Shown::Pairs(_) | Shown::Replies(_) | Shown::Texts(_) => false,
        Shown::Patterns { .. } => false,
    }
}

fn is_no_pairs(value: &Shown<'_>) -> bool
    ensures { result ≡ is_no_pairs (shown_seen value.now) }
{
    match value {
        Shown::Pairs(pairs) => has_no_pair(pairs),
        Shown::Absent | Shown::Number(_) | Shown::Truth(_) | Shown::Word(_) => false,
        Shown::Template(_) | Shown::Text(_) | Shown::Pattern(_) => false,
        Shown::Replies(_) | Shown::Texts(_) => false,
        Shown::Patterns { .. } => false,
    }
}

#[tactic(auto, using(crate::proofs::WrittenLaws::no_pair_empty))]
fn has_no_pair(pairs: &[Pair]) -> bool
    ensures { result ≡ no_pair pairs.now }
{
    pairs.is_empty()
}

fn is_nothing(value: &Shown<'_>) -> bool
    ensures { result ≡ is_nothing (shown_seen value.now) }
{
    match value {
        Shown::Absent => true,
        Shown::Number(_) | Shown::Truth(_) | Shown::Word(_) => false,
        Shown::Template(_) | Shown::Text(_) | Shown::Pattern(_) => false,
        Shown::Pairs(_) | Shown::Replies(_) | Shown::Texts(_) => false,
        Shown::Patterns { .. } => false,
    }
}

/// Whether the value is what stands for the property when it is absent.
fn is_default(alloc: Global, form: Form, presence: Presence, value: &Shown<'_>) -> M<bool>
    ensures { IfOk result (λ b. b ≡ is_default (form_seen form) (presence_seen presence) (shown_seen value.now)) }
{
    match presence {
        Presence::Required => Ok(false),
        Presence::Optional => Ok(is_nothing(value)),
        Presence::Text(text) => is_text(alloc, text, value),
        Presence::Number(n) => Ok(is_number(n, value)),
        Presence::Truth(b) => Ok(is_truth(b, value)),
        Presence::First => Ok(is_first(form, value)),
        Presence::NoPairs => Ok(is_no_pairs(value)),
    }
}

/// Puts what is written of a property.
fn put_prop(alloc: Global, map: &mut Map<String, Value>, row: &Row, prop: &NamedShown<'_>) -> M<()>
    ensures { OnOk result (members_view map.new.entries ≡ with_entry prop.now.name.now (entry (row_seen row.now) (shown_seen prop.now.value)) (members_view map.old.entries)) }
{
    let left_out = is_default(alloc, row.form, row.presence, &prop.value)?;
    if left_out {
        return Ok(());
    }
    let json = shown_value(alloc, &prop.value)?;
    put(alloc, map, prop.name, json)
}

/// The properties of an element as they are written: in byte order of the names exactly those whose value differs from its
/// default, a required one always, a template as its spelling, and a reply with exactly the keys whose value differs from its
/// default. The values are those of the rows, in their order, and each is written under its own name; where the lists differ in
/// length, what goes beyond the shorter one is left out. A text that isn't UTF-8 is written with U+FFFD for each sequence that isn't, as `String::from_utf8_lossy` gives it.
pub fn written_members(
    alloc: Global,
    rows: &[Row],
    values: &[NamedShown<'_>],
) -> M<Map<String, Value>>
    ensures { IfOk result (λ m. members_view m.entries ≡ written (map row_seen rows.now) (map named_shown_seen values.now)) }
{
    let mut map = Map::new(alloc);
    let mut left = rows.len().min(values.len());
    while left > 0 {
        left -= 1;
        put_prop(alloc, &mut map, &rows[left], &values[left])?;
    }
    Ok(map)
}
