// A maker of patterns over the regular expressions of `regex`.

ghost use Rattle.std.specs.Prelude.{◌≡◌, ◌≤◌, ◌∷◌, [], ◌↔◌, ◌⊎◌, Err, None, IfOk, OnOk, IsTrue, Contains};
ghost use Rattle.jm_base.specs.FaultCounts.{Rose};
ghost use Rattle.regex.specs.Strings.{regex_source};
ghost use Rattle.element_props.specs.Patterns.{Asks, HasReading, IsKept, reading_of};
ghost use Rattle.element_props.specs.Makers.{Maker, new_maker, after_call, after_too_large, asked_of, one_more};

use crate::patterns::{MakeError, Patterns};
use regex::{Error, Regex};
use std::alloc::Global;
use std::marker::Model;

/// Compiles each text with `regex`, and answers that it is too large in the calls that it was told to, besides where
/// `regex` does. It doesn't tell which texts it was given. Which regular expressions `regex` finds too large is its own matter.
#[derive(Drop)]
pub struct RegexPatterns {
    failing: Vec<u32>,
    calls: u64,
    oversize: u64,
}

impl Model for RegexPatterns {
    ghost use Rattle.element_props.specs.Makers.{Maker};

    ghost Value = { Maker };

    ghost view = { λ p. record { failing = p.failing.items; calls = p.calls; oversize = p.oversize } };
}

impl RegexPatterns {
    /// A maker whose calls with these numbers, counted from 0, answer `Size`.
    pub fn new(failing: Vec<u32>) -> RegexPatterns
        ensures { result ≡ new_maker failing.items }
    {
        RegexPatterns {
            failing,
            calls: 0,
            oversize: 0,
        }
    }
}

fn is_listed(numbers: &[u32], call: u64) -> bool
    ensures { IsTrue result ↔ Contains numbers.now call }
{
    for number in numbers {
        if u64::from(*number) == call {
            return true;
        }
    }
    false
}

fn next_count(count: u64) -> u64
    ensures { result ≡ one_more count }
{
    count.saturating_add(1)
}

/// The regular expression that a text is.
fn compiled(alloc: Global, text: &str) -> Result<Regex, MakeError>
    ensures ok { IfOk result (λ r. (regex_source r ≡ text.now) × IsKept r) }
    ensures read { OnOk result (HasReading text.now) }
    ensures syntax { result ≡ Err MakeError.Syntax → reading_of text.now ≡ None }
    ensures size { result ≡ Err MakeError.Size → HasReading text.now }
{
    match Regex::new(alloc, text) {
        Ok(regex) => Ok(regex),
        Err(Error::Syntax(_)) => Err(MakeError::Syntax),
        Err(Error::CompiledTooBig) => Err(MakeError::Size),
        Err(Error::OutOfMemory) => Err(MakeError::NoMemory),
        Err(Error::Internal) => unreachable!(),
    }
}

impl Patterns for RegexPatterns {
    ghost account = { asked_of };

    fn make(&mut self, alloc: Global, text: &str) -> Result<Regex, MakeError>
        ensures asks { (result ≡ Err MakeError.NoMemory → ⊥) → Asks (asked_of self.old) (text.now ∷ []) (asked_of self.new) }
        ensures memory { result ≡ Err MakeError.NoMemory → Asks (asked_of self.old) [] (asked_of self.new) ⊎ Asks (asked_of self.old) (text.now ∷ []) (asked_of self.new) }
        ensures count { self.old.oversize ≤ self.new.oversize }
        ensures ok { IfOk result (λ r. (regex_source r ≡ text.now) × IsKept r) }
        ensures read { OnOk result (HasReading text.now) }
        ensures syntax { result ≡ Err MakeError.Syntax → reading_of text.now ≡ None }
        ensures size { result ≡ Err MakeError.Size → Rose self.old.oversize self.new.oversize }

        // The calls that it was told to refuse are refused; in any other call only a regular expression is too large.
        ensures listed { Contains self.old.failing self.old.calls → result ≡ Err MakeError.Size }
        ensures unlisted { (Contains self.old.failing self.old.calls → ⊥) → result ≡ Err MakeError.Size → HasReading text.now }

        // Each call counts, and each text that was too large.
        ensures made { (result ≡ Err MakeError.Size → ⊥) → self.new ≡ after_call self.old }
        ensures too_large { result ≡ Err MakeError.Size → self.new ≡ after_too_large self.old }
    {
        let listed = is_listed(&self.failing, self.calls);
        self.calls = next_count(self.calls);
        if listed {
            self.oversize = next_count(self.oversize);
            return Err(MakeError::Size);
        }
        match compiled(alloc, text) {
            Ok(regex) => Ok(regex),
            Err(MakeError::Syntax) => Err(MakeError::Syntax),
            Err(MakeError::Size) => {
                self.oversize = next_count(self.oversize);
                Err(MakeError::Size)
            }
            Err(MakeError::NoMemory) => Err(MakeError::NoMemory),
        }
    }
}
