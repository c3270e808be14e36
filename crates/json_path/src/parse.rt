// Reading a path, byte by byte.

ghost use Rattle.std.specs.Prelude.{◌≡◌, ◌≤◌, ℕ, List, length, IfOk, Ok, Err};
ghost use Rattle.json_path.specs.declared.path.Step.{Step};
ghost use Rattle.json_path.specs.PathGrammar.{is_name_byte, IsPathOf, IsFaultOf};
ghost use Rattle.json_path.specs.PathMachine.{path_of};
ghost use Rattle.json_path.specs.PathGives.{Gives, steps_of};

use crate::path::{JsonPath, PathError, Step};
use jm_base::{M, Text};
use std::alloc::Global;
use std::mem;

/// How many digits a place of a list may have.
const MAX_DIGITS: usize = 9;

/// Where the reading of a path stands.
#[derive(Clone, Copy)]
enum Place {
    /// Before `$`.
    Start,
    /// After `$` or a whole step.
    Between,
    /// After `.`
    AfterDot,
    /// In a name after a dot.
    InName,
    /// After `[`
    AfterBracket,
    /// After `['`, in a name.
    InQuotes,
    /// After the quote that ends a name.
    AfterQuote,
    /// In the digits of a place.
    InIndex,
    /// After `[*`
    AfterStar,
}

/// What has been read of a path: its steps so far, and the name or place of the step that is being read.
#[derive(Drop)]
struct Parser {
    place: Place,
    steps: Vec<Step>,
    name: Vec<u8>,
    index: u32,
    digits: usize,
}

/// Whether a byte may stand in a name after a dot.
fn is_name_byte(byte: u8) -> bool
    ensures { result ≡ is_name_byte byte }
{
    byte.is_ascii_alphanumeric() || byte == b'_' || byte == b'-'
}

impl Parser {
    ghost use Rattle.std.specs.Prelude.{◌≡◌, ◌+◌, ℕ, List, IfOk, OnOk};
    ghost use Rattle.json_path.specs.declared.parse.Place.TheVariants.{Start, Between, AfterDot, InName, AfterBracket, InQuotes, AfterQuote, InIndex, AfterStar};
    ghost use Rattle.json_path.specs.PathMachine.{State, start, next, next_at, begin_step, with_name, with_index, with_all, finish};
    ghost use Rattle.json_path.specs.PathHolding.{Holds, Takes};
    ghost use Rattle.json_path.specs.PathGives.{Gives, steps_of};

    fn new(alloc: Global) -> Parser
        ensures { Holds result start }
    {
        Parser {
            place: Place::Start,
            steps: Vec::new(alloc),
            name: Vec::new(alloc),
            index: 0,
            digits: 0,
        }
    }

    /// Ends a step by its name.
    fn end_name(&mut self, alloc: Global) -> M<()>
        ensures { (s : State) → Holds self.old s → OnOk result (Holds self.new (with_name s)) }
    {
        let name = mem::replace(&mut self.name, Vec::new(alloc));
        self.steps.push(Step::Name(Text::of(name)))?;
        self.place = Place::Between;
        Ok(())
    }

    /// Takes `$`.
    fn start(&mut self, byte: u8) -> bool
        ensures { (s : State) → Holds self.old s → Takes result (next_at Start byte s) self.new }
    {
        if byte != b'$' {
            return false;
        }
        self.place = Place::Between;
        true
    }

    /// Takes the first byte of a step.
    fn begin_step(&mut self, byte: u8) -> bool
        ensures { (s : State) → Holds self.old s → Takes result (begin_step byte s) self.new }
    {
        if byte == b'.' {
            self.place = Place::AfterDot;
            return true;
        }
        if byte == b'[' {
            self.place = Place::AfterBracket;
            return true;
        }
        false
    }

    /// Takes the first byte of a name after a dot.
    fn begin_name(&mut self, byte: u8) -> M<bool>
        ensures { (s : State) → Holds self.old s → IfOk result (λ stands. Takes stands (next_at AfterDot byte s) self.new) }
    {
        if !is_name_byte(byte) {
            return Ok(false);
        }
        self.name.push(byte)?;
        self.place = Place::InName;
        Ok(true)
    }

    /// Takes a further byte of a name, or the first of the next step.
    fn continue_name(&mut self, alloc: Global, byte: u8) -> M<bool>
        ensures { (s : State) → Holds self.old s → IfOk result (λ stands. Takes stands (next_at InName byte s) self.new) }
    {
        if is_name_byte(byte) {
            self.name.push(byte)?;
            return Ok(true);
        }
        self.end_name(alloc)?;
        Ok(self.begin_step(byte))
    }

    /// Takes the byte after `[`.
    fn open_bracket(&mut self, byte: u8) -> bool
        ensures { (s : State) → Holds self.old s → Takes result (next_at AfterBracket byte s) self.new }
    {
        if byte == b'\'' {
            self.place = Place::InQuotes;
            return true;
        }
        if byte == b'*' {
            self.place = Place::AfterStar;
            return true;
        }
        if !byte.is_ascii_digit() {
            return false;
        }
        self.index = u32::from(byte - b'0');
        self.digits = 1;
        self.place = Place::InIndex;
        true
    }

    /// Takes a byte of a quoted name, or the quote that ends it.
    fn continue_quoted(&mut self, byte: u8) -> M<bool>
        ensures { (s : State) → Holds self.old s → IfOk result (λ stands. Takes stands (next_at InQuotes byte s) self.new) }
    {
        if byte == b'\'' {
            self.place = Place::AfterQuote;
            return Ok(true);
        }
        self.name.push(byte)?;
        Ok(true)
    }

    /// Takes the `]` after a quoted name.
    fn end_quoted(&mut self, alloc: Global, byte: u8) -> M<bool>
        ensures { (s : State) → Holds self.old s → IfOk result (λ stands. Takes stands (next_at AfterQuote byte s) self.new) }
    {
        if byte != b']' {
            return Ok(false);
        }
        self.end_name(alloc)?;
        Ok(true)
    }

    /// Takes a further digit of a place, or the `]` that ends it. Nine digits fit 32 bits.
    fn continue_index(&mut self, byte: u8) -> M<bool>
        ensures { (s : State) → Holds self.old s → IfOk result (λ stands. Takes stands (next_at InIndex byte s) self.new) }
    {
        if byte == b']' {
            self.steps.push(Step::Index(self.index))?;
            self.index = 0;
            self.digits = 0;
            self.place = Place::Between;
            return Ok(true);
        }
        if !byte.is_ascii_digit() || self.digits >= MAX_DIGITS {
            return Ok(false);
        }
        self.index = self
            .index
            .saturating_mul(10)
            .saturating_add(u32::from(byte - b'0'));
        self.digits += 1;
        Ok(true)
    }

    /// Takes the `]` after `[*`.
    fn end_star(&mut self, byte: u8) -> M<bool>
        ensures { (s : State) → Holds self.old s → IfOk result (λ stands. Takes stands (next_at AfterStar byte s) self.new) }
    {
        if byte != b']' {
            return Ok(false);
        }
        self.steps.push(Step::All)?;
        self.place = Place::Between;
        Ok(true)
    }

    /// Takes the next byte, and says whether it can stand there.
    fn take(&mut self, alloc: Global, byte: u8) -> M<bool>
        ensures { (s : State) → Holds self.old s → IfOk result (λ stands. Takes stands (next byte s) self.new) }
    {
        match self.place {
            Place::Start => Ok(self.start(byte)),
            Place::Between => Ok(self.begin_step(byte)),
            Place::AfterDot => self.begin_name(byte),
            Place::InName => self.continue_name(alloc, byte),
            Place::AfterBracket => Ok(self.open_bracket(byte)),
            Place::InQuotes => self.continue_quoted(byte),
            Place::AfterQuote => self.end_quoted(alloc, byte),
            Place::InIndex => self.continue_index(byte),
            Place::AfterStar => self.end_star(byte),
        }
    }

    /// The steps that were read, where the text ends at this place.
    fn finish(mut self, alloc: Global, end: u32) -> Result<Vec<Step>, PathError>
        ensures { (s : State) → Holds self s → Gives (steps_of result) (finish end s) }
    {
        match self.place {
            Place::Between => Ok(self.steps),
            Place::InName => {
                self.end_name(alloc)?;
                Ok(self.steps)
            }
            _ => Err(PathError::BadPath { at: end }),
        }
    }
}

/// The steps of a path, or the first place that can't stand.
fn read(alloc: Global, text: &[u8]) -> Result<Vec<Step>, PathError>
    requires { length text.now ≤ 65536 }
    ensures { Gives (steps_of result) (path_of text.now) }
{
    let mut parser = Parser::new(alloc);
    for (at, byte) in text.iter().enumerate() {
        let stands = parser.take(alloc, *byte)?;
        if !stands {
            return Err(PathError::BadPath { at: at as u32 });
        }
    }
    parser.finish(alloc, text.len() as u32)
}

/// Reads a path: `$`, and then steps `.name`, `['name']`, `[n]` and `[*]`. A name after a dot has one or more ASCII
/// letters, digits, `_` and `-`, a quoted one any bytes but `'`, or none, and a place one to nine digits. The text has at
/// most 65,536 bytes.
pub fn parse_path(alloc: Global, text: &[u8]) -> Result<JsonPath, PathError>
    requires { length text.now ≤ 65536 }
    // The path has the one list of steps that the text spells.
    ensures steps { IfOk result (λ path. IsPathOf text.now path) }
    ensures only { IfOk result (λ path. (others : List Step) → IsPathOf text.now others → others ≡ path) }
    // A refused text spells none, and the place is the first that can't stand.
    ensures refused { (at : ℕ) → result ≡ Err (PathError.BadPath at) → (ss : List Step) → IsPathOf text.now ss → ⊥ }
    ensures place { (at : ℕ) → result ≡ Err (PathError.BadPath at) → IsFaultOf text.now at }
    // The same, as a function of the text.
    ensures exact { Gives result (path_of text.now) }
{
    match read(alloc, text) {
        Ok(steps) => Ok(JsonPath::of(steps)),
        Err(error) => Err(error),
    }
}
