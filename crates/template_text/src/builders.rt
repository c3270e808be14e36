// Templates and arguments that are put together from bytes and references.

ghost use Rattle.std.specs.Prelude.{◌≡◌, [], false, IfOk, OnOk, IsSome, Some, None};
ghost use Rattle.template_text.specs.Pieces.{Reference, Pieces, reference, no_more, Arguments, argument, no_arguments};
ghost use Rattle.template_text.specs.TemplateGrammar.{begins_with_text};
ghost use Rattle.template_text.specs.Scan.{with_byte, add, join, put};
ghost use Rattle.template_text.specs.View.{reference_of, arguments_of};
ghost use Rattle.template_text.specs.Builders.{pieces_then, joined, joined_arguments};

use crate::scan::Token;
use crate::template::{Piece, Template};
use jm_base::{M, Text};
use std::alloc::Global;
use std::mem;

/// Pieces so far, and the plain text after them.
#[derive(Drop)]
pub struct TemplateBuilder {
    pub pieces: Vec<Piece>,
    pub plain: Vec<u8>,
}

impl TemplateBuilder {
    /// No pieces yet.
    pub fn new(alloc: Global) -> TemplateBuilder
        ensures { (more : Pieces) → joined result more ≡ more }
    {
        TemplateBuilder {
            pieces: Vec::new(alloc),
            plain: Vec::new(alloc),
        }
    }

    /// Adds a byte of plain text.
    pub fn byte(&mut self, byte: u8) -> M<()>
        ensures { OnOk result ((more : Pieces) → joined self.new more ≡ joined self.old (with_byte byte more)) }
    {
        self.plain.push(byte)?;
        Ok(())
    }

    /// Adds a reference.
    pub fn reference(&mut self, alloc: Global, piece: Piece) -> M<()>
        ensures { OnOk result ((r : Reference) (more : Pieces) → reference_of piece ≡ Some r → joined self.new more ≡ joined self.old (reference r more)) }
    {
        self.end_plain(alloc)?;
        self.pieces.push(piece)?;
        Ok(())
    }

    /// Makes a piece of the plain text, where there is some.
    fn end_plain(&mut self, alloc: Global) -> M<()>
        ensures none { OnOk result (self.new.plain.items ≡ []) }
        ensures same { OnOk result ((more : Pieces) → begins_with_text more ≡ false → pieces_then self.new.pieces.items more ≡ joined self.old more) }
    {
        if !self.plain.is_empty() {
            let plain = mem::replace(&mut self.plain, Vec::new(alloc));
            self.pieces.push(Piece::Text(Text::of(plain)))?;
        }
        Ok(())
    }

    /// The template of these pieces.
    pub fn finish(self, alloc: Global) -> M<Template>
        ensures { IfOk result (λ t. t ≡ joined self no_more) }
    {
        let mut all = self;
        all.end_plain(alloc)?;
        Ok(Template { pieces: all.pieces })
    }
}

/// Arguments so far, and the pieces of the one after them.
#[derive(Drop)]
pub struct ArgumentsBuilder {
    pub done: Vec<Template>,
    pub last: TemplateBuilder,
}

impl ArgumentsBuilder {
    /// No arguments yet.
    pub fn new(alloc: Global) -> ArgumentsBuilder
        ensures { (args : Arguments) → joined_arguments result args ≡ args }
    {
        ArgumentsBuilder {
            done: Vec::new(alloc),
            last: TemplateBuilder::new(alloc),
        }
    }

    /// Adds what a token stands for that begins no reference.
    pub fn token(&mut self, alloc: Global, token: Token) -> M<()>
        ensures { OnOk result ((args : Arguments) → joined_arguments self.new args ≡ joined_arguments self.old (put token None args)) }
    {
        match token {
            Token::Open => self.byte(b'('),
            Token::Close => self.byte(b')'),
            Token::Separator => self.end_argument(alloc),
            Token::Comma => self.byte(b','),
            Token::Start => Ok(()),
            Token::Byte(byte) => self.byte(byte),
        }
    }

    /// Adds a byte of plain text.
    fn byte(&mut self, byte: u8) -> M<()>
        ensures { OnOk result ((args : Arguments) → joined_arguments self.new args ≡ joined_arguments self.old (add byte args)) }
    {
        self.last.byte(byte)?;
        Ok(())
    }

    /// Adds a reference.
    pub fn reference(&mut self, alloc: Global, piece: Piece) -> M<()>
        ensures { OnOk result ((r : Reference) (args : Arguments) → reference_of piece ≡ Some r → joined_arguments self.new args ≡ joined_arguments self.old (join (Some r) args)) }
    {
        self.last.reference(alloc, piece)?;
        Ok(())
    }

    /// Ends an argument.
    fn end_argument(&mut self, alloc: Global) -> M<()>
        ensures { OnOk result ((args : Arguments) → joined_arguments self.new args ≡ joined_arguments self.old (argument no_more args)) }
    {
        let last = mem::replace(&mut self.last, TemplateBuilder::new(alloc));
        let template = last.finish(alloc)?;
        self.done.push(template)?;
        Ok(())
    }

    /// The arguments.
    pub fn finish(self, alloc: Global) -> M<Vec<Template>>
        ensures { IfOk result (λ v. arguments_of v.items ≡ joined_arguments self (argument no_more no_arguments)) }
    {
        let mut all = self;
        let template = all.last.finish(alloc)?;
        all.done.push(template)?;
        Ok(all.done)
    }
}
