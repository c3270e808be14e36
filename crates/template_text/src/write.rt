// The text of a template, and of one reference.

ghost use Rattle.std.specs.Prelude.{◌≡◌, ◌++◌, IfOk, OnOk};
ghost use Rattle.template_text.specs.Pieces.{variable, call, escaped, spelling, reference_spelling, argument_spelling, arguments_spelling, further_spelling};
ghost use Rattle.template_text.specs.View.{arguments_of};

use crate::template::{Piece, Template};
use jm_base::{M, Text};
use std::alloc::Global;

/// The text of a template. It is the inverse of `parse_template`: a template that was read from a text is spelled as
/// that text.
pub fn spell(alloc: Global, template: &Template) -> M<Text>
    ensures { IfOk result (λ text. text ≡ spelling template.now) }
{
    let mut out = Vec::new(alloc);
    for piece in &template.pieces {
        match piece {
            Piece::Text(text) => out.extend_from_slice(text.bytes())?,
            Piece::Var(name) => write_variable(name, &mut out)?,
            Piece::Call { name, args } => write_call(name, args, &mut out)?,
        }
    }
    Ok(Text::of(out))
}

/// The spelling of a variable reference: `${name}`.
pub fn spell_variable(alloc: Global, name: &Text) -> M<Text>
    ensures { IfOk result (λ text. text ≡ reference_spelling (variable name.now)) }
{
    let mut out = Vec::new(alloc);
    write_variable(name, &mut out)?;
    Ok(Text::of(out))
}

/// The spelling of a call: `${__name(arguments)}`, with a comma between two arguments, and in the plain text of an
/// argument a backslash before each comma.
pub fn spell_call(alloc: Global, name: &Text, args: &[Template]) -> M<Text>
    ensures { IfOk result (λ text. text ≡ reference_spelling (call name.now (arguments_of args.now))) }
{
    let mut out = Vec::new(alloc);
    write_call(name, args, &mut out)?;
    Ok(Text::of(out))
}

/// Writes `${name}` at the end.
fn write_variable(name: &Text, out: &mut Vec<u8>) -> M<()>
    ensures { OnOk result (out.new.items ≡ out.old.items ++ reference_spelling (variable name.now)) }
{
    out.extend_from_slice(b"${")?;
    out.extend_from_slice(name.bytes())?;
    out.push(b'}')?;
    Ok(())
}

/// Writes `${__name(arguments)}` at the end.
#[cycle(write)]
fn write_call(name: &Text, args: &[Template], out: &mut Vec<u8>) -> M<()>
    ensures { OnOk result (out.new.items ≡ out.old.items ++ reference_spelling (call name.now (arguments_of args.now))) }
{
    out.extend_from_slice(b"${__")?;
    out.extend_from_slice(name.bytes())?;
    out.push(b'(')?;
    write_arguments(args, out)?;
    out.extend_from_slice(b")}")?;
    Ok(())
}

/// Writes arguments at the end, with a comma between two.
#[cycle(write)]
fn write_arguments(args: &[Template], out: &mut Vec<u8>) -> M<()>
    ensures { OnOk result (out.new.items ≡ out.old.items ++ arguments_spelling (arguments_of args.now)) }
{
    let mut is_first = true;
    for argument in args {
        if !is_first {
            out.push(b',')?;
        }
        write_argument(argument, out)?;
        is_first = false;
    }
    Ok(())
}

/// Writes an argument at the end.
#[cycle(write)]
fn write_argument(template: &Template, out: &mut Vec<u8>) -> M<()>
    ensures { OnOk result (out.new.items ≡ out.old.items ++ argument_spelling template.now) }
{
    for piece in &template.pieces {
        match piece {
            Piece::Text(text) => write_escaped(text.bytes(), out)?,
            Piece::Var(name) => write_variable(name, out)?,
            Piece::Call { name, args } => write_call(name, args, out)?,
        }
    }
    Ok(())
}

/// Writes plain text of an argument at the end, with a backslash before each comma.
fn write_escaped(text: &[u8], out: &mut Vec<u8>) -> M<()>
    ensures { OnOk result (out.new.items ≡ out.old.items ++ escaped text.now) }
{
    for byte in text {
        if *byte == b',' {
            out.push(b'\\')?;
        }
        out.push(*byte)?;
    }
    Ok(())
}
