// The assertions of lines.

use crate::calls::{holds, holds_with};
use crate::extractors_read::field_of;
use crate::words::pattern_of;
use assertions::Answer;
use case_words::{at, bytes_of, text_of};
use element_props::{Pattern, choice_of};
use element_tree::{Assertion, Comparison, TestKind};
use jm_base::{Items, M, Reply, Text};
use reply_search::Searches;
use std::alloc::Global;

/// The texts of patterns.
fn texts_of(alloc: Global, patterns: &[&str]) -> anyhow::Result<Vec<Text>> {
    let mut texts = Vec::new(alloc);
    for pattern in patterns {
        texts.push(Text::of(bytes_of(alloc, pattern)?))?;
    }
    Ok(texts)
}

/// What is made of each text, between two others.
fn regexes_of(
    alloc: Global,
    texts: &[Text],
    before: &[u8],
    after: &[u8],
) -> anyhow::Result<Vec<Pattern>> {
    let mut made = Vec::new(alloc);
    for text in texts {
        let mut whole = Vec::from_slice(alloc, before)?;
        whole.extend_from_slice(text.bytes())?;
        whole.extend_from_slice(after)?;
        made.push(pattern_of(alloc, &whole)?)?;
    }
    Ok(made)
}

/// `check response TEST FIELD FLAGS PATTERN ..`
fn response_of(alloc: Global, fields: &[&str]) -> anyhow::Result<Assertion> {
    let Some(test) = choice_of::<TestKind>(at(fields, 2)) else {
        anyhow::bail!("no such test");
    };
    let field = field_of(at(fields, 3))?;
    let flags = at(fields, 4);
    let texts = texts_of(alloc, fields.get(5..).unwrap_or(&[]))?;
    let found = matches!(test, TestKind::Contains | TestKind::Matches);
    let whole = matches!(test, TestKind::Matches);
    let regexes = regexes_of(alloc, if found { &texts } else { &[] }, b"", b"")?;
    let whole_regexes = regexes_of(alloc, if whole { &texts } else { &[] }, b"\\A(?:", b")\\z")?;
    Ok(Assertion::Response {
        field,
        ignore_status: flags.contains('i'),
        not: flags.contains('n'),
        or: flags.contains('o'),
        patterns: Items::of(texts),
        regexes: Items::of(regexes),
        test,
        whole_regexes: Items::of(whole_regexes),
    })
}

/// `check duration MS`, `check size OP SIZE`
fn assertion_of(alloc: Global, fields: &[&str]) -> anyhow::Result<Assertion> {
    match at(fields, 1) {
        "response" => response_of(alloc, fields),
        "duration" => Ok(Assertion::Duration {
            ms: at(fields, 2).parse::<u32>()?,
        }),
        _ => {
            let Some(op) = choice_of::<Comparison>(at(fields, 2)) else {
                anyhow::bail!("no such comparison");
            };
            let size = at(fields, 3).parse::<u32>()?;
            Ok(Assertion::Size { op, size })
        }
    }
}

fn word_of(held: M<bool>) -> &'static str {
    match held {
        Ok(true) => "true",
        Ok(false) => "false",
        Err(_) => "no memory",
    }
}

/// Whether an assertion holds of an answer.
pub fn checked(
    alloc: Global,
    fields: &[&str],
    answer: &Answer,
    out: &mut String,
) -> anyhow::Result<()> {
    let assertion = assertion_of(alloc, fields)?;
    out.push_str(word_of(holds(alloc, &assertion, answer)))?;
    Ok(())
}

/// `checks TEST FLAGS COUNT PATTERN .. BODY ..`: whether a Response Assertion of that many patterns holds of each body, by searches
/// that are kept from body to body.
pub fn checked_each(alloc: Global, fields: &[&str], out: &mut String) -> anyhow::Result<()> {
    let count = at(fields, 3).parse::<usize>()?;
    let end = count.saturating_add(4).min(fields.len());
    let mut words = Vec::new(alloc);
    words.extend_from_slice(&["check", "response", at(fields, 1), "body", at(fields, 2)])?;
    words.extend_from_slice(fields.get(4..end).unwrap_or(&[]))?;
    let assertion = response_of(alloc, &words)?;
    check_bodies(alloc, &assertion, fields.get(end..).unwrap_or(&[]), out)
}

/// Whether an assertion holds of each body.
fn check_bodies(
    alloc: Global,
    assertion: &Assertion,
    bodies: &[&str],
    out: &mut String,
) -> anyhow::Result<()> {
    let mut searches = Searches::new(alloc);
    let mut space = "";
    for body in bodies {
        let answer = answer_of(alloc, body)?;
        let held = word_of(holds_with(alloc, assertion, &answer, &mut searches));
        write!(out, "{space}{held}")?;
        space = " ";
    }
    Ok(())
}

/// An answer of this body alone.
fn answer_of(alloc: Global, body: &str) -> anyhow::Result<Answer> {
    Ok(Answer {
        elapsed: 0,
        reply: Reply {
            code: 200,
            message: Text::new(alloc, b"")?,
            headers: Text::new(alloc, b"")?,
            body: text_of(alloc, body)?,
        },
    })
}
