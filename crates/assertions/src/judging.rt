// Assertions.

ghost use Rattle.std.specs.Prelude.{◌≡◌, IfOk, OnErr, IsTrue};
ghost use Rattle.assertions.specs.Judging.{compares, holds, takes_memory};
ghost use Rattle.element_tree.specs.KeptPatterns.{KeepsPatterns};
ghost use Rattle.assertions.specs.ByPatterns.{holds_by_patterns};

use crate::response::{found_together, inside_together, same_together};
use element_tree::{Assertion, Comparison, TestKind};
use itoa::Buffer;
use jm_base::{M, Reply};
use reply_search::{Searches, field_of, text_in};
use std::alloc::Global;

/// What a sampler was answered.
#[derive(Drop)]
pub struct Answer {
    /// Milliseconds from the first reading of the clock to the second.
    pub elapsed: u32,
    pub reply: Reply,
}

/// Whether an assertion holds of an answer (the manual's "Assertions").
///
/// A Response Assertion looks at the longest prefix of its field that is UTF-8, and tries each of its patterns. With
/// `contains` a regular expression is found in that text, with `matches` one matches the whole of it; with `equals` the text
/// is the pattern, with `substring` the pattern stands in it, byte for byte. `not` turns each of these answers. All have to
/// hold, or with `or` one. A Duration Assertion holds up to and at its milliseconds. A Size Assertion holds where the length
/// of the body in bytes compares with its size as it says. Only `contains` and `matches` take memory.
pub fn check(alloc: Global, assertion: &Assertion, answer: &Answer) -> M<bool>
    ensures truth { IfOk result (λ held. held ≡ holds assertion.now answer.now) }
    ensures patterns { KeepsPatterns assertion.now → IfOk result (λ held. held ≡ holds_by_patterns assertion.now answer.now) }
    ensures memory { OnErr result (IsTrue (takes_memory assertion.now)) }
{
    let mut searches = Searches::new(alloc);
    check_with(alloc, assertion, answer, &mut searches)
}

/// The same, by the searches that are kept from answer to answer.
pub fn check_with<'p>(
    alloc: Global,
    assertion: &'p Assertion,
    answer: &Answer,
    searches: &mut Searches<'p>,
) -> M<bool>
    ensures truth { IfOk result (λ held. held ≡ holds assertion.now answer.now) }
    ensures patterns { KeepsPatterns assertion.now → IfOk result (λ held. held ≡ holds_by_patterns assertion.now answer.now) }
    ensures memory { OnErr result (IsTrue (takes_memory assertion.now)) }
{
    match assertion {
        Assertion::Response {
            field,
            not,
            or,
            patterns,
            regexes,
            test,
            whole_regexes,
            ..
        } => {
            let mut digits = Buffer::new();
            let text = text_in(field_of(*field, &answer.reply, &mut digits));
            match test {
                TestKind::Contains => found_together(
                    alloc,
                    regexes.as_slice(),
                    text,
                    *not,
                    *or,
                    searches,
                ),
                TestKind::Matches => found_together(
                    alloc,
                    whole_regexes.as_slice(),
                    text,
                    *not,
                    *or,
                    searches,
                ),
                TestKind::Equals => Ok(same_together(patterns.as_slice(), text, *not, *or)),
                TestKind::Substring => Ok(inside_together(patterns.as_slice(), text, *not, *or)),
            }
        }
        Assertion::Duration { ms } => Ok(answer.elapsed <= *ms),
        Assertion::Size { op, size } => Ok(compares(*op, answer.reply.body.bytes().len(), *size)),
    }
}

/// How a length compares with a size.
fn compares(op: Comparison, length: usize, size: u32) -> bool
    ensures { result ≡ compares op length size }
{
    let size = size as usize;
    match op {
        Comparison::Equal => length == size,
        Comparison::NotEqual => length != size,
        Comparison::Above => length > size,
        Comparison::Below => length < size,
        Comparison::AtLeast => length >= size,
        Comparison::AtMost => length <= size,
    }
}
