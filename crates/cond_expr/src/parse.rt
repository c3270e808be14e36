// Reading a condition: its tokens one after another, over what is still open.

ghost use Rattle.std.specs.Prelude.{◌≡◌, ◌≤◌, ◌<◌, ◌+◌, ℕ, true, false, ◌++◌, ◌∷◌, List, [], length, vec_len, IfOk, OnOk, MatchResult, Ok, IsTrue};
ghost use Rattle.cond_expr.specs.ConditionTree.{Reading};
ghost use Rattle.cond_expr.specs.ConditionGrammar.{IsReadingOf, IsFaultOf};
ghost use Rattle.cond_expr.specs.Steps.{steps_of};
ghost use Rattle.cond_expr.specs.ConditionMachine.{strength, reading_of};
ghost use Rattle.cond_expr.specs.ConditionHolding.{shape_strength};
ghost use Rattle.cond_expr.specs.ConditionGives.{Gives};

use crate::cond::{Cond, Step};
use crate::token::{Token, token_at};
use crate::value::{CondError, CondValue, Operator};
use jm_base::M;
use std::alloc::Global;

/// How deep parentheses and `!` together may nest.
const MAX_DEPTH: usize = 64;

/// What is open before an operand.
#[derive(Clone, Copy)]
enum Pending {
    /// A parenthesis.
    Group,
    /// `!` at this place.
    Not(u32),
    /// The operator at this place, whose left side has been read.
    Operator(u32, Operator),
}

impl Operator {
    /// How strongly the operator binds: `||` least, then `&&`, then the comparisons.
    fn strength(self) -> u8
        ensures { result ≡ strength self }
    {
        match self {
            Operator::Or => 1,
            Operator::And => 2,
            _ => 3,
        }
    }
}

impl Pending {
    /// How strongly it binds: a parenthesis not at all, and `!` most.
    fn strength(self) -> u8
        ensures { result ≡ shape_strength self }
    {
        match self {
            Pending::Group => 0,
            Pending::Not(_) => 4,
            Pending::Operator(_, operator) => operator.strength(),
        }
    }
}

/// What has been read: the steps of the operands that came, and what is open, the innermost last.
#[derive(Drop)]
struct Parser {
    steps: Vec<Step>,
    pending: Vec<Pending>,
    depth: usize,
    awaiting: bool,
}

impl Parser {
    ghost use Rattle.std.specs.Prelude.{◌≡◌, ◌<◌, ◌+◌, ℕ, true, false, ◌∷◌, List, vec_len, IfOk, OnOk};
    ghost use Rattle.cond_expr.specs.declared.token.Token.TheVariants.{Value, Close, Operate};
    ghost use Rattle.cond_expr.specs.ConditionTree.{Reading};
    ghost use Rattle.cond_expr.specs.ConditionMachine.{Frame, State, awaiting, complete, frame_strength, closed, settled, next, open_frame, chains};
    ghost use Rattle.cond_expr.specs.ConditionMachine.{finish};
    ghost use Rattle.cond_expr.specs.ConditionGives.{Gives};
    ghost use Rattle.cond_expr.specs.ConditionHolding.{Holds, IsOperandHeld, IsOpening, Takes, top_strength, pending_of, shape};

    fn new(alloc: Global) -> Parser
        ensures { Holds result (awaiting []) }
    {
        Parser {
            steps: Vec::new(alloc),
            pending: Vec::new(alloc),
            depth: 0,
            awaiting: true,
        }
    }

    /// How strongly the innermost thing that is open binds, 0 where nothing is.
    fn top_strength(&self) -> u8
        ensures value { (fs : List Frame) → self.now.pending.items ≡ pending_of fs → result ≡ top_strength fs }
        ensures some { 0 < result → 0 < vec_len self.now.pending }
    {
        match self.pending.last() {
            Some(frame) => frame.strength(),
            None => 0,
        }
    }

    /// Closes the innermost thing that is open over the operand that has come.
    fn close_top(&mut self) -> M<()>
        requires { 0 < vec_len self.old.pending }
        ensures closes { (f : Frame) (fs : List Frame) (r : Reading) → 0 < frame_strength f → IsOperandHeld self.old (f ∷ fs) r → OnOk result (IsOperandHeld self.new fs (closed f r)) }
        ensures shorter { OnOk result (vec_len self.new.pending + 1 ≡ vec_len self.old.pending) }
    {
        match self.pending.pop() {
            Some(Pending::Not(at)) => {
                self.depth = self.depth.saturating_sub(1);
                self.steps.push(Step::Not(at))?;
            }
            Some(Pending::Operator(at, operator)) => {
                self.steps.push(Step::Apply(at, operator))?;
            }
            Some(Pending::Group) | None => {}
        }
        Ok(())
    }

    /// Closes what is open and binds at least with this strength.
    fn settle(&mut self, strength: u8) -> M<()>
        requires { 0 < strength }
        ensures { (fs : List Frame) (r : Reading) → IsOperandHeld self.old fs r → OnOk result (Holds self.new (settled strength fs r)) }
    {
        while self.top_strength() >= strength {
            self.close_top()?;
        }
        Ok(())
    }

    /// Takes a number, a text or a truth, where an operand has to come.
    fn take_value(&mut self, value: CondValue) -> M<bool>
        ensures { (at : ℕ) (s : State) → Holds self.old s → IfOk result (λ stands. Takes stands (next at (Value value) s) self.new) }
    {
        if !self.awaiting {
            return Ok(false);
        }
        self.steps.push(Step::Value(value))?;
        self.awaiting = false;
        self.settle(4)?;
        Ok(true)
    }

    /// Opens a parenthesis or takes a `!`, where an operand has to come and the depth allows it.
    fn open(&mut self, opened: Pending) -> M<bool>
        ensures awaiting { (f : Frame) (fs : List Frame) → opened ≡ shape f → IsOpening f → Holds self.old (awaiting fs) → IfOk result (λ stands. Takes stands (open_frame f fs) self.new) }
        ensures complete { (fs : List Frame) (r : Reading) → Holds self.old (complete fs r) → IfOk result (λ stands. stands ≡ false) }
    {
        if !self.awaiting || self.depth >= MAX_DEPTH {
            return Ok(false);
        }
        self.pending.push(opened)?;
        self.depth += 1;
        Ok(true)
    }

    /// Whether the operator would be a second comparison in a row.
    fn chains(&self, operator: Operator) -> bool
        ensures { (fs : List Frame) → self.now.pending.items ≡ pending_of fs → result ≡ chains operator fs }
    {
        match self.pending.last() {
            Some(Pending::Operator(_, before)) => {
                operator.strength() >= 3 && before.strength() >= 3
            }
            _ => false,
        }
    }

    /// Takes an operator after its left side.
    fn operate(&mut self, at: u32, operator: Operator) -> M<bool>
        ensures { (s : State) → Holds self.old s → IfOk result (λ stands. Takes stands (next at (Operate operator) s) self.new) }
    {
        if self.awaiting {
            return Ok(false);
        }
        if self.chains(operator) {
            return Ok(false);
        }
        self.settle(operator.strength())?;
        self.pending.push(Pending::Operator(at, operator))?;
        self.awaiting = true;
        Ok(true)
    }

    /// Closes the innermost parenthesis after its condition.
    fn close(&mut self) -> M<bool>
        ensures { (at : ℕ) (s : State) → Holds self.old s → IfOk result (λ stands. Takes stands (next at Close s) self.new) }
    {
        if self.awaiting {
            return Ok(false);
        }
        self.settle(1)?;
        match self.pending.pop() {
            Some(Pending::Group) => {
                self.depth = self.depth.saturating_sub(1);
                self.settle(4)?;
                Ok(true)
            }
            _ => Ok(false),
        }
    }

    /// Takes the token at a place, and says whether it can stand there.
    fn take(&mut self, at: u32, token: Token) -> M<bool>
        ensures { (s : State) → Holds self.old s → IfOk result (λ stands. Takes stands (next at token s) self.new) }
    {
        match token {
            Token::Value(value) => self.take_value(value),
            Token::Not => self.open(Pending::Not(at)),
            Token::Open => self.open(Pending::Group),
            Token::Operate(operator) => self.operate(at, operator),
            Token::Close => self.close(),
            Token::Unknown => Ok(false),
        }
    }

    /// The condition that was read, where the text ends at this place.
    fn finish(mut self, end: u32) -> Result<Cond, CondError>
        requires { (s : State) × Holds self s }
        ensures { (s : State) → Holds self s → Gives result (finish end s) }
    {
        if self.awaiting {
            return Err(CondError::BadCond { at: end });
        }
        self.settle(1)?;
        if !self.pending.as_slice().is_empty() {
            return Err(CondError::BadCond { at: end });
        }
        Ok(Cond { steps: self.steps })
    }
}

/// The reading of a text, or the first place that can't stand.
fn read(alloc: Global, text: &[u8]) -> Result<Cond, CondError>
    requires { length text.now ≤ 65536 }
    ensures { Gives result (reading_of text.now) }
{
    let mut parser = Parser::new(alloc);
    let mut at = 0;
    while at < text.len() {
        if text[at] == b' ' {
            at += 1;
            continue;
        }
        let (token, length) = token_at(alloc, &text[at..])?;
        let stands = parser.take(at as u32, token)?;
        if !stands {
            return Err(CondError::BadCond { at: at as u32 });
        }
        at += length;
    }
    parser.finish(text.len() as u32)
}

/// Reads a condition: numbers, texts and truths, joined by `!`, the six comparisons, `&&` and `||`, with parentheses.
/// The text has at most 65,536 bytes.
pub fn parse_cond(alloc: Global, text: &[u8]) -> Result<Cond, CondError>
    requires { length text.now ≤ 65536 }
    // The condition is the one reading of the text.
    ensures reading { IfOk result (λ cond. IsReadingOf text.now cond) }
    ensures one_reading { IfOk result (λ cond. (other : Reading) → IsReadingOf text.now other → other ≡ cond) }
    // A refused text has none, and the place is the first that can't stand.
    ensures refused { (at : ℕ) → result ≡ Err (CondError.BadCond at) → (r : Reading) → IsReadingOf text.now r → ⊥ }
    ensures place { (at : ℕ) → result ≡ Err (CondError.BadCond at) → IsFaultOf text.now at }
    // The same, as a function of the text.
    ensures exact { Gives result (reading_of text.now) }
{
    read(alloc, text)
}
