// Patterns, each with what was made of it.

ghost use Rattle.std.specs.Prelude.{◌≡◌, ◌≤◌, ◌∷◌, ◌⊎◌, [], Err, None, IfOk, OnOk};
ghost use Rattle.jm_base.specs.FaultCounts.{Rose};
ghost use Rattle.regex.specs.Strings.{regex_source};
ghost use Rattle.element_props.specs.Patterns.{Asked, Asks, HasReading, IsKept, reading_of};

use jm_base::Text;
use regex::Regex;
use std::alloc::Global;
use std::marker::Model;
use thiserror::Error;

/// Why no pattern was made of a text.
#[derive(Clone, Copy, PartialEq, Eq, Debug, Error)]
pub enum MakeError {
    /// The text is not a regular expression, or nests too deep for one.
    #[error("not a regular expression")]
    Syntax,
    /// The expression is too large once compiled.
    #[error("too large a regular expression")]
    Size,
    /// Out of memory.
    #[error("out of memory")]
    NoMemory,
}

/// Makes regular expressions of texts. It counts those that were too large, and may tell which texts it was given.
pub trait Patterns {
    /// What is known of a maker: the texts that it was given in order, where it tells, and its count of those that were too large.
    ghost account: { Self → Asked };

    /// The regular expression that a text is.
    fn make(&mut self, alloc: Global, text: &str) -> Result<Regex, MakeError>
        // It has been given this text and nothing else; where memory ran out, maybe not even this text.
        ensures asks { (result ≡ Err MakeError.NoMemory → ⊥) → Asks (account self.old) (text.now ∷ []) (account self.new) }
        ensures memory { result ≡ Err MakeError.NoMemory → Asks (account self.old) [] (account self.new) ⊎ Asks (account self.old) (text.now ∷ []) (account self.new) }
        ensures count { (account self.old).oversize ≤ (account self.new).oversize }
        ensures ok { IfOk result (λ r. (regex_source r ≡ text.now) × IsKept r) }
        // A text of which something was made is a regular expression, and one that is refused by its syntax is not.
        ensures read { OnOk result (HasReading text.now) }
        ensures syntax { result ≡ Err MakeError.Syntax → reading_of text.now ≡ None }
        ensures size { result ≡ Err MakeError.Size → Rose (account self.old).oversize (account self.new).oversize };
}

/// A text with the regular expression that was made of it. Contracts see the text.
#[derive(Drop)]
pub struct Pattern {
    text: Text,
    regex: Regex,
}

impl Model for Pattern {
    ghost use Rattle.std.specs.Prelude.{◌≡◌, List, ℕ};
    ghost use Rattle.regex.specs.Strings.{regex_source};
    ghost use Rattle.element_props.specs.Patterns.{IsKept};

    ghost Value = { List ℕ };

    ghost view = { λ p. p.text };

    ghost invariant = { λ p. (regex_source p.regex ≡ p.text) × IsKept p.regex };
}

impl Pattern {
    /// A text with what was made of it.
    pub fn of(text: Text, regex: Regex) -> Pattern
        requires { (regex_source regex ≡ text) × IsKept regex }
        ensures { result ≡ text }
    {
        Pattern { text, regex }
    }

    /// The text.
    pub fn text(&self) -> &Text
        ensures { result.now ≡ self.now }
    {
        &self.text
    }

    /// The regular expression of the text.
    pub fn regex(&self) -> &Regex
        ensures { (regex_source result.now ≡ self.now) × IsKept result.now }
    {
        &self.regex
    }
}
