// The reading of a text.

ghost use Rattle.std.specs.Prelude.{◌≡◌, ◌≤◌, length, IfOk, IsSome, Some, option_map};
ghost use Rattle.template_text.specs.Pieces.{spelling};
ghost use Rattle.template_text.specs.TemplateGrammar.{IsReadingOf};
ghost use Rattle.template_text.specs.Scan.{AreFound, shape, normal, first_at, arguments_at, reading};
ghost use Rattle.template_text.specs.View.{reference_of, arguments_of};

use crate::builders::{ArgumentsBuilder, TemplateBuilder};
use crate::scan::{Found, Step, Token, after, first_found, first_token, next_step, references};
use crate::template::{Piece, Template};
use jm_base::{M, Text};
use std::alloc::Global;

/// The template that a text of at most 65,536 bytes is read as: the JMeter manual's functions and variables. Every text
/// has one reading, so the one error is out of memory. It takes time in proportion to the text.
pub fn parse_template(alloc: Global, text: &[u8]) -> M<Template>
    requires { length text.now ≤ 65536 }
    ensures reading { IfOk result (λ template. IsReadingOf text.now template) }
    ensures spelled { IfOk result (λ template. spelling template ≡ text.now) }
    // The same, as a function of the text.
    ensures exact { IfOk result (λ template. template ≡ reading text.now) }
{
    let found = references(alloc, text)?;
    let template = read(alloc, text, &found)?;
    Ok(template)
}

/// The pieces of the text, where what is found is what begins at each place.
fn read(alloc: Global, text: &[u8], found: &[Option<Found>]) -> M<Template>
    requires { AreFound text.now found.now }
    ensures { IfOk result (λ template. template ≡ reading text.now) }
{
    let mut pieces = TemplateBuilder::new(alloc);
    let mut at = 0;
    while at < text.len() {
        let rest = after(text, at);
        let places = after(found, at);
        match first_found(places) {
            None => {
                pieces.byte(text[at])?;
                at += 1;
            }
            Some(first) => {
                let reference = piece(alloc, rest, places, first)?;
                pieces.reference(alloc, reference)?;
                at += first.length();
            }
        }
    }
    pieces.finish(alloc)
}

/// The piece of the reference that begins the text.
#[cycle(build)]
fn piece(alloc: Global, text: &[u8], found: &[Option<Found>], first: Found) -> M<Piece>
    requires places { AreFound text.now found.now }
    requires here { option_map shape (first_at text.now) ≡ Some first }
    ensures { IfOk result (λ piece. reference_of piece ≡ first_at text.now) }
{
    match first {
        Found::Variable { length } => {
            let (name, _) = after(text, 2).split_at(length - 3);
            Ok(Piece::Var(Text::new(alloc, name)?))
        }
        Found::Call { name: length, .. } => {
            let (name, _) = after(text, 4).split_at(length);
            let name = Text::new(alloc, name)?;
            let args = call_arguments(alloc, after(text, length + 5), after(found, length + 5))?;
            Ok(Piece::Call { name, args })
        }
    }
}

/// The arguments of a call, from the byte after its `(`.
#[cycle(build)]
fn call_arguments(alloc: Global, text: &[u8], found: &[Option<Found>]) -> M<Vec<Template>>
    requires places { AreFound text.now found.now }
    requires some { IsSome (arguments_at text.now 0) }
    ensures { IfOk result (λ args. option_map normal (arguments_at text.now 0) ≡ Some (arguments_of args.items)) }
{
    match first_token(text) {
        Token::Close => Ok(Vec::new(alloc)),
        _ => arguments(alloc, text, found),
    }
}

/// One or more arguments.
#[cycle(build)]
fn arguments(alloc: Global, text: &[u8], found: &[Option<Found>]) -> M<Vec<Template>>
    requires places { AreFound text.now found.now }
    requires some { IsSome (arguments_at text.now 0) }
    ensures { IfOk result (λ args. arguments_at text.now 0 ≡ Some (arguments_of args.items)) }
{
    let mut arguments = ArgumentsBuilder::new(alloc);
    let mut at = 0;
    let mut unclosed = 0;
    while let Step::Goes { by, unclosed: then } = next_step(
        after(text, at),
        after(found, at),
        unclosed,
    ) {
        let rest = after(text, at);
        let places = after(found, at);
        match first_found(places) {
            None => arguments.token(alloc, first_token(rest))?,
            Some(first) => {
                let reference = piece(alloc, rest, places, first)?;
                arguments.reference(alloc, reference)?;
            }
        }
        at += by;
        unclosed = then;
    }
    arguments.finish(alloc)
}
