// Values of properties as cases show them.

use element_props::{Pair, Pattern, Prop, Words, text_at};
use jm_base::{ScriptReply, Text};
use std::alloc::Global;
use template_text::spell;

/// Lists with more values than this are shown by the first alone and their number.
const SHOWN: usize = 8;

/// A text in quotes, and a long one by its first byte and its length.
fn text_shown(alloc: Global, bytes: &[u8]) -> anyhow::Result<String> {
    let text = String::from_utf8_lossy(alloc, bytes)?;
    if text.len() > 80 {
        return Ok(format!(in alloc; "{} bytes", text.len())?);
    }
    Ok(format!(in alloc; "{:?}", text.as_str())?)
}

/// Adds a value of a list.
fn push_shown(out: &mut String, value: &str) -> anyhow::Result<()> {
    if !out.is_empty() {
        out.push_str(", ")?;
    }
    out.push_str(value)?;
    Ok(())
}

/// A list in brackets, of which these values are shown.
fn listed(alloc: Global, count: usize, values: &str) -> anyhow::Result<String> {
    if count > SHOWN {
        return Ok(format!(in alloc; "[{values}, .. {count} in all]")?);
    }
    Ok(format!(in alloc; "[{values}]")?)
}

/// How many values of a list are shown.
fn shown_of(count: usize) -> usize {
    if count > SHOWN { 1 } else { count }
}

/// The texts of a list of words.
pub fn words_shown(alloc: Global, words: Words) -> anyhow::Result<String> {
    let mut out = String::new(alloc);
    for place in 0..SHOWN {
        let Some(text) = text_at(words, place) else {
            break;
        };
        push_shown(&mut out, text_shown(alloc, text.as_bytes())?.as_str())?;
    }
    listed(alloc, 0, out.as_str())
}

fn own_texts_shown(alloc: Global, texts: &[Text]) -> anyhow::Result<String> {
    let mut out = String::new(alloc);
    for text in texts.iter().take(shown_of(texts.len())) {
        push_shown(&mut out, text_shown(alloc, text.bytes())?.as_str())?;
    }
    listed(alloc, texts.len(), out.as_str())
}

/// A pattern: its text, and the text of its regular expression.
fn pattern_shown(alloc: Global, pattern: &Pattern) -> anyhow::Result<String> {
    let text = text_shown(alloc, pattern.text().bytes())?;
    Ok(format!(in alloc; "{} by {:?}", text.as_str(), pattern.regex().as_str())?)
}

fn patterns_shown(alloc: Global, patterns: &[Pattern]) -> anyhow::Result<String> {
    let mut out = String::new(alloc);
    for pattern in patterns.iter().take(shown_of(patterns.len())) {
        push_shown(&mut out, pattern_shown(alloc, pattern)?.as_str())?;
    }
    listed(alloc, patterns.len(), out.as_str())
}

fn pair_shown(alloc: Global, pair: &Pair) -> anyhow::Result<String> {
    let name = text_shown(alloc, pair.name.bytes())?;
    let value = text_shown(alloc, spell(alloc, &pair.value)?.bytes())?;
    Ok(format!(in alloc; "{}: {}", name.as_str(), value.as_str())?)
}

fn pairs_shown(alloc: Global, pairs: &[Pair]) -> anyhow::Result<String> {
    let mut out = String::new(alloc);
    for pair in pairs.iter().take(shown_of(pairs.len())) {
        push_shown(&mut out, pair_shown(alloc, pair)?.as_str())?;
    }
    listed(alloc, pairs.len(), out.as_str())
}

fn reply_shown(alloc: Global, reply: &ScriptReply) -> anyhow::Result<String> {
    let message = text_shown(alloc, reply.message.bytes())?;
    let headers = text_shown(alloc, reply.headers.bytes())?;
    let body = text_shown(alloc, reply.body.bytes())?;
    Ok(format!(in alloc;
        "{{code {}, message {}, headers {}, body {}, ms {}, null {}, fault {}, echo {}}}",
        reply.code,
        message.as_str(),
        headers.as_str(),
        body.as_str(),
        reply.ms,
        reply.null,
        reply.fault,
        reply.echo
    )?)
}

fn replies_shown(alloc: Global, replies: &[ScriptReply]) -> anyhow::Result<String> {
    let mut out = String::new(alloc);
    for reply in replies.iter().take(shown_of(replies.len())) {
        push_shown(&mut out, reply_shown(alloc, reply)?.as_str())?;
    }
    listed(alloc, replies.len(), out.as_str())
}

fn tests_shown(
    alloc: Global,
    texts: &[Text],
    regexes: &[Pattern],
    whole_regexes: &[Pattern],
) -> anyhow::Result<String> {
    let texts = own_texts_shown(alloc, texts)?;
    let regexes = patterns_shown(alloc, regexes)?;
    let whole = patterns_shown(alloc, whole_regexes)?;
    Ok(format!(in alloc;
        "Patterns {}, regexes {}, whole {}",
        texts.as_str(),
        regexes.as_str(),
        whole.as_str()
    )?)
}

/// A value after the name of its kind.
fn named(alloc: Global, kind: &str, value: String) -> anyhow::Result<String> {
    Ok(format!(in alloc; "{kind} {}", value.as_str())?)
}

/// The value of a property.
pub fn prop_shown(alloc: Global, prop: &Prop) -> anyhow::Result<String> {
    match prop {
        Prop::Absent => Ok(format!(in alloc; "Absent")?),
        Prop::Template(template) => {
            let text = spell(alloc, template)?;
            named(alloc, "Template", text_shown(alloc, text.bytes())?)
        }
        Prop::Text(text) => named(alloc, "Text", text_shown(alloc, text.bytes())?),
        Prop::Number(n) => Ok(format!(in alloc; "Number {n}")?),
        Prop::Truth(truth) => Ok(format!(in alloc; "Truth {truth}")?),
        Prop::Word(word) => named(alloc, "Word", text_shown(alloc, word.text().as_bytes())?),
        Prop::Pattern(pattern) => named(alloc, "Pattern", pattern_shown(alloc, pattern)?),
        Prop::Pairs(pairs) => named(alloc, "Pairs", pairs_shown(alloc, pairs.as_slice())?),
        Prop::Replies(replies) => named(
            alloc,
            "Replies",
            replies_shown(alloc, replies.as_slice())?,
        ),
        Prop::Texts(texts) => named(alloc, "Texts", own_texts_shown(alloc, texts.as_slice())?),
        Prop::Patterns {
            texts,
            regexes,
            whole_regexes,
        } => tests_shown(
            alloc,
            texts.as_slice(),
            regexes.as_slice(),
            whole_regexes.as_slice(),
        ),
    }
}
