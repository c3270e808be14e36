// How a text is read as a template, and how that is spelled.

use crate::texts::Shown;
use std::alloc::{AllocError, Global};
use template_text::{Piece, Template, parse_template, spell};

/// The reading alone. What it promises is left out here, so that no proof above carries it along.
pub fn read(alloc: Global, text: &[u8]) -> anyhow::Result<Template> {
    if text.len() > 65536 {
        anyhow::bail!("the template has more than 65,536 bytes");
    }
    Ok(parse_template(alloc, text)?)
}

/// Writes the pieces of a template: plain text as `'text'`, a variable as `<name>`, a call as `(name:argument|argument|)`.
#[cycle(pieces)]
fn write_pieces(template: &Template, out: &mut String) -> Result<(), AllocError> {
    for piece in &template.pieces {
        match piece {
            Piece::Text(text) => write!(out, "'{}'", Shown(text.bytes()))?,
            Piece::Var(name) => write!(out, "<{}>", Shown(name.bytes()))?,
            Piece::Call { name, args } => {
                write!(out, "({}:", Shown(name.bytes()))?;
                write_arguments(args, out)?;
                out.push_str(")")?;
            }
        }
    }
    Ok(())
}

/// Writes the pieces of each argument, and `|` after it.
#[cycle(pieces)]
fn write_arguments(args: &[Template], out: &mut String) -> Result<(), AllocError> {
    for argument in args {
        write_pieces(argument, out)?;
        out.push_str("|")?;
    }
    Ok(())
}

/// The pieces of a text and their spelling.
pub fn answer(alloc: Global, text: &[u8], out: &mut String) -> anyhow::Result<()> {
    let template = read(alloc, text)?;
    out.push_str(" => ")?;
    write_pieces(&template, out)?;
    let spelling = spell(alloc, &template)?;
    write!(out, " spelled '{}'", Shown(spelling.bytes()))?;
    Ok(())
}
