// Templates and their pieces.

use jm_base::Text;
use std::marker::Model;

/// One piece of a template.
#[cycle(template)]
#[derive(Drop)]
pub enum Piece {
    /// Plain text.
    Text(Text),
    /// A variable reference, `${name}`.
    Var(Text),
    /// A function call, `${__name(arguments)}`.
    Call { name: Text, args: Vec<Template> },
}

/// Plain text, variable references and function calls in order.
#[cycle(template)]
#[derive(Drop)]
pub struct Template {
    pub pieces: Vec<Piece>,
}

impl Model for Template {
    ghost use Rattle.template_text.specs.Pieces.{Pieces};
    ghost use Rattle.template_text.specs.Code.{pieces_code};

    ghost Value = { Pieces };

    ghost coded = { pieces_code };

    ghost use Rattle.template_text.specs.View.{pieces_of, weight};

    ghost view = { λ t. pieces_of t.pieces.items };

    ghost size = { weight };

    ghost use Rattle.template_text.specs.Falls.{falls};

    ghost size_decreases = { λ t h. falls t.pieces.items };
}
