// The value of one property.

ghost use Rattle.std.specs.Prelude.{◌≡◌};

use crate::patterns::Pattern;
use jm_base::{Items, ScriptReply, Text};
use std::marker::Model;
use template_text::Template;

/// A name and its value.
#[derive(Drop)]
pub struct Pair {
    pub name: Text,
    pub value: Template,
}

/// The text of a choice.
#[derive(Drop)]
pub struct Word {
    text: &'static str,
}

impl Model for Word {
    ghost use Rattle.std.specs.Prelude.{List, ℕ};

    ghost Value = { List ℕ };

    ghost view = { λ w. w.text.now };
}

impl Word {
    /// The word that this text is.
    pub fn of(text: &'static str) -> Word
        ensures { result ≡ text.now }
    {
        Word { text }
    }

    /// The text.
    pub fn text(&self) -> &'static str
        ensures { result.now ≡ self.now }
    {
        self.text
    }
}

/// The value of one property.
#[derive(Drop)]
pub enum Prop {
    /// The property is absent, and nothing stands for it.
    Absent,
    Template(Template),
    Text(Text),
    Number(i64),
    Truth(bool),
    /// One of the texts of a choice.
    Word(Word),
    Pattern(Pattern),
    Pairs(Items<Pair>),
    Replies(Items<ScriptReply>),
    Texts(Items<Text>),
    /// The patterns of a Response Assertion: their texts; what was made of each, where they are regular expressions; and what was
    /// made of the text around each, where a whole text must match.
    Patterns {
        texts: Items<Text>,
        regexes: Items<Pattern>,
        whole_regexes: Items<Pattern>,
    },
}
