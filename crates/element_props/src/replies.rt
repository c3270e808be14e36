// The replies that a plan keeps for a sampler.

ghost use Rattle.std.specs.Prelude.{◌≡◌, ◌≤◌, false, map, option_map, bytes_eq, IfOk, IfSome};
ghost use Rattle.std.specs.List.{list_any};
ghost use Rattle.serde_json.specs.View.{view, members_view};
ghost use Rattle.serde_json.specs.Find.{get_member, as_str, as_bool};
ghost use Rattle.element_props.specs.Replies.{has_only, object_of, at_key, natural_within, reply_in};

use jm_base::{M, ScriptReply, Text};
use serde_json::{Map, Value};
use std::alloc::Global;

/// The value at a key.
fn member<'a>(members: &'a Map<String, Value>, key: &str) -> Option<&'a Value>
    ensures { option_map (λ x. view x.now) result ≡ get_member key.now (members_view members.now.entries) }
{
    members.get(key)
}

fn is_among(keys: &[&str], key: &str) -> bool
    ensures { result ≡ list_any (λ k. bytes_eq key.now k.now) keys.now }
{
    keys.iter().any(|known| key == *known)
}

/// Whether each key is one of these.
#[tactic(auto, using(crate::proofs::ReplyLaws::keys_seen))]
fn has_only(keys: &[&str], members: &Map<String, Value>) -> bool
    ensures { result ≡ has_only (map (λ k. k.now) keys.now) (members_view members.now.entries) }
{
    for (key, _) in members {
        if !is_among(keys, key.as_str()) {
            return false;
        }
    }
    true
}

/// The members of an object that has no keys but these.
fn object_of<'a>(keys: &[&str], value: &'a Value) -> Option<&'a Map<String, Value>>
    ensures { option_map (λ m. members_view m.now.entries) result ≡ object_of (map (λ k. k.now) keys.now) (view value.now) }
{
    let members = value.as_object()?;
    if has_only(keys, members) {
        Some(members)
    } else {
        None
    }
}

/// A whole number from 0 to the limit.
fn natural_within(limit: u32, value: &Value) -> Option<u32>
    ensures value { result ≡ natural_within limit (view value.now) }
    ensures bound { IfSome result (λ n. n ≤ limit) }
{
    let number = value.as_u64()?;
    if number <= u64::from(limit) {
        Some(number as u32)
    } else {
        None
    }
}

/// The text at a key.
fn text_at<'a>(members: &'a Map<String, Value>, key: &str, default: &'a str) -> Option<&'a str>
    ensures { option_map (λ s. s.now) result ≡ at_key key.now as_str default.now (members_view members.now.entries) }
{
    match member(members, key) {
        Some(value) => value.as_str(),
        None => Some(default),
    }
}

/// The truth at a key, false where it is absent.
fn flag_at(members: &Map<String, Value>, key: &str) -> Option<bool>
    ensures { result ≡ at_key key.now as_bool false (members_view members.now.entries) }
{
    match member(members, key) {
        Some(value) => value.as_bool(),
        None => Some(false),
    }
}

/// The whole number at a key, from 0 to the limit.
fn natural_at(members: &Map<String, Value>, key: &str, limit: u32, default: u32) -> Option<u32>
    requires { default ≤ limit }
    ensures value { result ≡ at_key key.now (natural_within limit) default (members_view members.now.entries) }
    ensures bound { IfSome result (λ n. n ≤ limit) }
{
    match member(members, key) {
        Some(value) => natural_within(limit, value),
        None => Some(default),
    }
}

/// The reply that a value is.
pub fn reply_in(alloc: Global, value: &Value) -> M<Option<ScriptReply>>
    ensures { IfOk result (λ o. o ≡ reply_in (view value.now)) }
{
    let Some(given) = object_of(
        &[
            "body", "code", "echo", "fault", "headers", "message", "ms", "null",
        ],
        value,
    ) else {
        return Ok(None);
    };
    let Some(body) = text_at(given, "body", "") else {
        return Ok(None);
    };
    let Some(code) = natural_at(given, "code", 999, 200) else {
        return Ok(None);
    };
    let Some(echo) = flag_at(given, "echo") else {
        return Ok(None);
    };
    let Some(fault) = flag_at(given, "fault") else {
        return Ok(None);
    };
    let Some(headers) = text_at(given, "headers", "") else {
        return Ok(None);
    };
    let Some(message) = text_at(given, "message", "OK") else {
        return Ok(None);
    };
    let Some(ms) = natural_at(given, "ms", u32::MAX, 0) else {
        return Ok(None);
    };
    let Some(null) = flag_at(given, "null") else {
        return Ok(None);
    };
    Ok(Some(ScriptReply {
        code: code as u16,
        message: Text::new(alloc, message.as_bytes())?,
        headers: Text::new(alloc, headers.as_bytes())?,
        body: Text::new(alloc, body.as_bytes())?,
        ms,
        null,
        fault,
        echo,
    }))
}
