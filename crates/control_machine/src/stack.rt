// The open elements of a thread's round.

ghost use Rattle.std.specs.Prelude.{◌≡◌, List, [], ◌∷◌, OnOk, OnErr, MatchOption};
ghost use Rattle.var_functions.specs.FunctionState.{IsLater};
ghost use Rattle.open_elements.specs.Answers.{StandsAt};
ghost use Rattle.control_machine.specs.Answers.{TopAnswers};
ghost use Rattle.control_machine.specs.Hearing.{all_hearing};

use element_tree::{Plan, Turn};
use jm_base::{M, Outside, Sample};
use open_elements::Cursor;
use std::alloc::Global;
use std::marker::Model;
use var_functions::{UserState, VarError};

/// An open element.
#[derive(Drop)]
pub struct Frame {
    /// The number of the element.
    pub element: u16,
    /// The index, from 0, of the round of its nearest looping ancestor.
    pub round: u64,
    /// How deep the elements below it nest at most.
    pub depth: u8,
    /// Where it stands among its children.
    pub cursor: Cursor,
}

/// The open elements.
#[derive(Drop)]
pub struct Stack {
    frames: Vec<Frame>,
}

impl Model for Stack {
    ghost use Rattle.std.specs.Prelude.{reverse};
    ghost use Rattle.control_machine.specs.Opened.{Opened};

    ghost Value = { Opened };

    ghost view = { λ s. record { frames = reverse s.frames.items } };
}

impl Stack {
    /// No element is open.
    pub fn new(alloc: Global) -> Stack
        ensures { result.frames ≡ [] }
    {
        Stack {
            frames: Vec::new(alloc),
        }
    }

    /// One more element is open, inside the others.
    pub fn push(&mut self, frame: Frame) -> M<()>
        ensures ok { OnOk result (self.new.frames ≡ frame ∷ self.old.frames) }
        ensures err { OnErr result (self.new.frames ≡ self.old.frames) }
    {
        self.frames.push(frame)?;
        Ok(())
    }

    /// Takes the innermost open element out.
    pub fn pop(&mut self) -> Option<Frame>
        ensures { MatchOption result ((self.old.frames ≡ []) × (self.new ≡ self.old)) (λ f. self.old.frames ≡ f ∷ self.new.frames) }
    {
        self.frames.pop()
    }

    /// The innermost open element.
    pub fn top(&self) -> Option<&Frame>
        ensures { MatchOption result (self.now.frames ≡ []) (λ f. (rest : List Frame) × (self.now.frames ≡ f.now ∷ rest)) }
    {
        self.frames.last()
    }

    /// What the innermost open element does next. Its cursor moves on in its place.
    pub fn answer<O: Outside>(
        &mut self,
        alloc: Global,
        plan: &Plan,
        state: &mut UserState,
        outside: &mut O,
    ) -> Result<Turn, VarError>
        requires { (f : Frame) × (rest : List Frame) × (self.old.frames ≡ f ∷ rest) × StandsAt plan.now f.element f.cursor }
        ensures answers { (f : Frame) (rest : List Frame) → self.old.frames ≡ f ∷ rest
            → TopAnswers plan.now (O.account outside.old) f rest state.old (O.account outside.new) self.new.frames state.new result }
        // After every answer, out of memory too.
        ensures later { IsLater state.old.fns state.new.fns }
    {
        let Some(frame) = self.frames.last_mut() else {
            unreachable!();
        };
        frame.cursor.next(alloc, plan, frame.round, state, outside)
    }

    /// Tells the open elements of a sampler's sample.
    pub fn hear(&mut self, sample: &Sample)
        ensures { self.new ≡ record { frames = all_hearing sample.now self.old.frames } }
    {
        hear_all(&mut self.frames, sample);
    }
}

// Tells each of the elements of a sampler's sample.
fn hear_all(frames: &mut Vec<Frame>, sample: &Sample)
    ensures { frames.new.items ≡ all_hearing sample.now frames.old.items }
{
    for frame in frames.iter_mut() {
        frame.cursor.hear(sample);
    }
}
