// The extractors of lines.

use crate::words::{pattern_of, text_at};
use case_words::{at, bytes_of, text_of};
use element_props::choice_of;
use element_tree::{BoundaryExtractor, Field, JsonExtractor, RegexExtractor};
use std::alloc::Global;

/// The field of a reply that has this name.
pub fn field_of(name: &str) -> anyhow::Result<Field> {
    match choice_of::<Field>(name) {
        Some(field) => Ok(field),
        None => anyhow::bail!("a reply has no field {name}"),
    }
}

/// `regex REF PATTERN TEMPLATE MATCH FIELD PICK [DEFAULT]`
pub fn regex_of(alloc: Global, fields: &[&str]) -> anyhow::Result<RegexExtractor> {
    Ok(RegexExtractor {
        field: field_of(at(fields, 5))?,
        match_: at(fields, 4).parse::<i32>()?,
        pattern: pattern_of(alloc, &bytes_of(alloc, at(fields, 2))?)?,
        default: text_at(alloc, fields, 7)?,
        ref_: text_of(alloc, at(fields, 1))?,
        template: text_of(alloc, at(fields, 3))?,
    })
}

/// `json REF PATH MATCH PICK [DEFAULT]`
pub fn json_of(alloc: Global, fields: &[&str]) -> anyhow::Result<JsonExtractor> {
    Ok(JsonExtractor {
        match_: at(fields, 3).parse::<i32>()?,
        default: text_at(alloc, fields, 5)?,
        path: text_of(alloc, at(fields, 2))?,
        ref_: text_of(alloc, at(fields, 1))?,
    })
}

/// `bounds REF LEFT RIGHT MATCH FIELD PICK [DEFAULT]`
pub fn bounds_of(alloc: Global, fields: &[&str]) -> anyhow::Result<BoundaryExtractor> {
    Ok(BoundaryExtractor {
        field: field_of(at(fields, 5))?,
        match_: at(fields, 4).parse::<i32>()?,
        default: text_at(alloc, fields, 7)?,
        left: text_of(alloc, at(fields, 2))?,
        ref_: text_of(alloc, at(fields, 1))?,
        right: text_of(alloc, at(fields, 3))?,
    })
}
