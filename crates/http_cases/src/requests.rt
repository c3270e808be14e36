// Requests of lines.

use crate::calls;
use crate::shown::{request_shown, target_error_name};
use case_words::{at, text_of};
use http_text::{HttpSettings, NamedText, Target, TargetError};
use jm_base::{Items, Method};
use std::alloc::{AllocError, Global};

/// The method of a name.
fn method_of(name: &str) -> anyhow::Result<Method> {
    match name {
        "GET" => Ok(Method::Get),
        "POST" => Ok(Method::Post),
        "PUT" => Ok(Method::Put),
        "DELETE" => Ok(Method::Delete),
        "HEAD" => Ok(Method::Head),
        _ => anyhow::bail!("there is no such method"),
    }
}

/// The pairs of fields that begin with a mark.
fn pairs_of(alloc: Global, fields: &[&str], mark: &str) -> anyhow::Result<Vec<NamedText>> {
    let mut pairs = Vec::new(alloc);
    for field in fields {
        if let Some(pair) = field.strip_prefix(mark) {
            let (name, value) = pair.split_once('=').unwrap_or((pair, ""));
            let name = text_of(alloc, name)?;
            let value = text_of(alloc, value)?;
            pairs.push(NamedText { name, value })?;
        }
    }
    Ok(pairs)
}

/// `request METHOD HOST PORT PATH BODY FIELD ..`
pub fn settings_of(alloc: Global, fields: &[&str]) -> anyhow::Result<HttpSettings> {
    let pairs = fields.get(6..).unwrap_or(&[]);
    Ok(HttpSettings {
        method: method_of(at(fields, 1))?,
        host: text_of(alloc, at(fields, 2))?,
        port: text_of(alloc, at(fields, 3))?,
        path: text_of(alloc, at(fields, 4))?,
        body: text_of(alloc, at(fields, 5))?,
        params: Items::of(pairs_of(alloc, pairs, "p:")?),
        headers: Items::of(pairs_of(alloc, pairs, "h:")?),
    })
}

/// Writes what comes of settings.
fn write_asked(asked: Result<Target, TargetError>, out: &mut String) -> Result<(), AllocError> {
    match asked {
        Ok(target) => write!(
            out,
            "{}\t{}\t{}",
            target.host.bytes().escape_ascii(),
            target.port,
            request_shown(target.bytes.bytes())
        ),
        Err(error) => out.push_str(target_error_name(error)),
    }
}

/// What comes of settings that are asked for this many times.
pub fn requested(
    alloc: Global,
    fields: &[&str],
    times: u32,
    out: &mut String,
) -> anyhow::Result<()> {
    let settings = settings_of(alloc, fields)?;
    let mut asked = Err(TargetError::NoMemory);
    for _ in 0..times {
        asked = calls::request(alloc, &settings);
    }
    write_asked(asked, out)?;
    Ok(())
}
