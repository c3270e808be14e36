// The conditions in a template: calls of `__jexl3`.

ghost use Rattle.std.specs.Prelude.{◌≡◌, ◌≤◌, IfOk, option_map, option_and_then, length, bytes_eq, codes};
ghost use Rattle.template_text.specs.View.{pieces_of, arguments_of, reference_of};
ghost use Rattle.element_props.specs.Conditions.{bad_condition, bad_reference, bad_argument, fault_in, single_text, only_text, condition_of, is_end, plain_bytes, reference_bytes, arguments_bytes};
ghost use Rattle.element_props.specs.PieceViews.{text_in, bytes_in};

use cond_expr::{CondError, parse_cond};
use jm_base::{M, NoMemory, Text};
use std::alloc::Global;
use template_text::{Piece, Template};

/// The first place, in the first condition that can't be read, where it can't. Conditions are the calls of `__jexl3` with one
/// argument that is a single plain text, in order from left to right, those in the arguments of other calls among them.
/// A place is counted from 0 in the condition's own text.
#[cycle(walk)]
pub fn bad_condition(alloc: Global, template: &Template) -> M<Option<u32>>
    requires { plain_bytes template.now ≤ 65536 }
    ensures { IfOk result (λ o. o ≡ bad_condition template.now) }
{
    for piece in &template.pieces {
        let found = bad_piece(alloc, piece)?;
        if found.is_some() {
            return Ok(found);
        }
    }
    Ok(None)
}

/// The same of one piece.
#[cycle(walk)]
fn bad_piece(alloc: Global, piece: &Piece) -> M<Option<u32>>
    requires { bytes_in piece.now ≤ 65536 }
    ensures { IfOk result (λ o. o ≡ option_and_then bad_reference (reference_of piece.now)) }
{
    match piece {
        Piece::Text(_) => Ok(None),
        Piece::Var(_) => Ok(None),
        Piece::Call { name, args } => {
            let own = own_fault(alloc, name, args)?;
            if own.is_some() {
                return Ok(own);
            }
            bad_argument(alloc, args)
        }
    }
}

/// The same of a call's arguments.
#[cycle(walk)]
fn bad_argument(alloc: Global, args: &[Template]) -> M<Option<u32>>
    requires { arguments_bytes (arguments_of args.now) ≤ 65536 }
    ensures { IfOk result (λ o. o ≡ bad_argument (arguments_of args.now)) }
{
    for argument in args {
        let found = bad_condition(alloc, argument)?;
        if found.is_some() {
            return Ok(found);
        }
    }
    Ok(None)
}

/// Where the condition of a call can't be read, if it is one.
fn own_fault(alloc: Global, name: &Text, args: &[Template]) -> M<Option<u32>>
    requires { arguments_bytes (arguments_of args.now) ≤ 65536 }
    ensures { IfOk result (λ o. o ≡ option_and_then fault_in (condition_of name.now (arguments_of args.now))) }
{
    match condition_of(name, args) {
        Some(text) => fault_in(alloc, text.bytes()),
        None => Ok(None),
    }
}

/// The condition of a call of `__jexl3`.
fn condition_of<'a>(name: &Text, args: &'a [Template]) -> Option<&'a Text>
    ensures text { option_map (λ t. t.now) result ≡ condition_of name.now (arguments_of args.now) }
{
    if name.bytes() == "jexl3".as_bytes() {
        only_text(args)
    } else {
        None
    }
}

/// The text of the one argument, where it is a single plain text.
fn only_text(args: &[Template]) -> Option<&Text>
    ensures { option_map (λ t. t.now) result ≡ only_text (arguments_of args.now) }
{
    match args {
        [] => None,
        [template, rest @ ..] => {
            if rest.is_empty() {
                single_text(template)
            } else {
                None
            }
        }
    }
}

/// The text of a template that is a single plain text.
fn single_text(template: &Template) -> Option<&Text>
    ensures { option_map (λ t. t.now) result ≡ single_text template.now }
{
    single_piece(&template.pieces)
}

fn single_piece(pieces: &[Piece]) -> Option<&Text>
    ensures { option_map (λ t. t.now) result ≡ single_text (pieces_of pieces.now) }
{
    match pieces {
        [] => None,
        [piece, rest @ ..] => {
            if is_end(rest) {
                plain_text(piece)
            } else {
                None
            }
        }
    }
}

fn is_end(pieces: &[Piece]) -> bool
    ensures { result ≡ is_end (pieces_of pieces.now) }
{
    pieces.is_empty()
}

fn plain_text(piece: &Piece) -> Option<&Text>
    ensures { option_map (λ t. t.now) result ≡ text_in piece.now }
{
    match piece {
        Piece::Text(text) => Some(text),
        Piece::Var(_) => None,
        Piece::Call { .. } => None,
    }
}

/// Where a text is not a condition.
fn fault_in(alloc: Global, text: &[u8]) -> M<Option<u32>>
    requires { length text.now ≤ 65536 }
    ensures { IfOk result (λ o. o ≡ fault_in text.now) }
{
    match parse_cond(alloc, text) {
        Ok(_) => Ok(None),
        Err(CondError::BadCond { at }) => Ok(Some(at)),
        Err(CondError::NoMemory) => Err(NoMemory),
    }
}
