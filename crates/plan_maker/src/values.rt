// The names and the properties of elements, as JSON has them.

ghost use Rattle.std.specs.Prelude.{◌≡◌, IfOk};
ghost use Rattle.serde_json.specs.View.{view};
ghost use Rattle.serde_json.specs.Data.{object, no_members};
ghost use Rattle.plan_maker.specs.Raws.{reply_data, replies_data, loops_data};
ghost use Rattle.plan_maker.specs.Generated.{code_of, loop_name, sampler_name};

use jm_base::{M, Text};
use serde_json::{Map, Value};
use std::alloc::Global;

/// The name of a loop.
pub fn loop_name(alloc: Global, place: u16) -> M<Text>
    ensures { IfOk result (λ name. name ≡ loop_name place) }
{
    let name = format!(in alloc; "L{place}")?;
    Text::new(alloc, name.as_bytes())
}

/// The name of a sampler, one of sixteen.
pub fn sampler_name(alloc: Global, place: u16) -> M<Text>
    ensures { IfOk result (λ name. name ≡ sampler_name place) }
{
    let number = place % 16;
    let name = format!(in alloc; "S{number}")?;
    Text::new(alloc, name.as_bytes())
}

/// No properties.
pub fn no_props(alloc: Global) -> Value
    ensures { view result ≡ object no_members }
{
    Value::Object(Map::new(alloc))
}

/// The properties of a loop.
pub fn loop_props(alloc: Global, place: u16) -> M<Value>
    ensures { IfOk result (λ value. view value ≡ loops_data place) }
{
    let mut props = Map::new(alloc);
    props.insert(
        String::from_str(alloc, "loops")?,
        Value::from(u64::from(place % 7 + 1)),
    )?;
    Ok(Value::Object(props))
}

// The code of a sampler's reply: each fifth one fails.
fn code_of(place: u16) -> u16
    ensures { result ≡ code_of place }
{
    if place % 5 == 4 { 500 } else { 200 }
}

fn reply(alloc: Global, place: u16) -> M<Value>
    ensures { IfOk result (λ value. view value ≡ reply_data place) }
{
    let mut reply = Map::new(alloc);
    reply.insert(
        String::from_str(alloc, "code")?,
        Value::from(u64::from(code_of(place))),
    )?;
    reply.insert(
        String::from_str(alloc, "ms")?,
        Value::from(u64::from(place % 10)),
    )?;
    Ok(Value::Object(reply))
}

/// The properties of a sampler: one reply.
pub fn sampler_props(alloc: Global, place: u16) -> M<Value>
    ensures { IfOk result (λ value. view value ≡ replies_data place) }
{
    let replies = vec![in alloc; reply(alloc, place)?]?;
    let mut props = Map::new(alloc);
    props.insert(String::from_str(alloc, "replies")?, Value::Array(replies))?;
    Ok(Value::Object(props))
}
