// The cursor of an open element, of any kind.

ghost use Rattle.std.specs.Prelude.{◌≡◌, ℕ};
ghost use Rattle.var_functions.specs.FunctionState.{IsLater};
ghost use Rattle.open_elements.specs.Answers.{StandsAt, CursorAnswers};
ghost use Rattle.open_elements.specs.Cursors.{round_in};
ghost use Rattle.open_elements.specs.Hearing.{hearing};

use crate::opens::Opens;
use crate::section::OpenSection;
use crate::transaction::OpenTransaction;
use choice_controllers::{InterleaveCursor, OrderCursor, RandomCursor, SwitchCursor};
use element_tree::{Plan, Turn};
use jm_base::{Outside, Sample};
use logic_controllers::{EachCursor, IfCursor, LoopCursor, OnceCursor, SimpleCursor, WhileCursor};
use std::alloc::Global;
use var_functions::{UserState, VarError};

/// Where an open element stands.
pub enum Cursor {
    /// In a Simple Controller.
    Simple(SimpleCursor),
    /// In a Once Only Controller.
    Once(OnceCursor),
    /// In a Loop Controller.
    Loop(LoopCursor),
    /// In an If Controller.
    If(IfCursor),
    /// In a While Controller.
    While(WhileCursor),
    /// In a ForEach Controller.
    Each(EachCursor),
    /// In an Interleave Controller.
    Interleave(InterleaveCursor),
    /// In a Random Controller.
    Random(RandomCursor),
    /// In a Random Order Controller.
    Order(OrderCursor),
    /// In a Switch Controller.
    Switch(SwitchCursor),
    /// In a transaction.
    Transaction(OpenTransaction),
    /// In a critical section.
    Section(OpenSection),
}

// Written out, so that other crates let a cursor go by one call.
impl Drop for Cursor {
    fn drop(self) {
        match self {
            Cursor::Simple(_) => {}
            Cursor::Once(_) => {}
            Cursor::Loop(_) => {}
            Cursor::If(_) => {}
            Cursor::While(_) => {}
            Cursor::Each(_each) => {}
            Cursor::Interleave(_) => {}
            Cursor::Random(_) => {}
            Cursor::Order(_order) => {}
            Cursor::Switch(_) => {}
            Cursor::Transaction(_) => {}
            Cursor::Section(_) => {}
        }
    }
}

// What an open controller does next.
fn next_as<C: Opens, O: Outside>(
    cursor: &mut C,
    alloc: Global,
    plan: &Plan,
    round: u64,
    state: &mut UserState,
    outside: &mut O,
) -> Result<Turn, VarError>
    requires { (n : ℕ) × StandsAt plan.now n (C.opened cursor.old) }
    ensures answers { CursorAnswers plan.now round (O.account outside.old) (C.opened cursor.old) state.old (O.account outside.new) (C.opened cursor.new) state.new result }
    // After every answer, out of memory too.
    ensures later { IsLater state.old.fns state.new.fns }
{
    C::laws();
    cursor.next(alloc, plan, round, state, outside)
}

impl Cursor {
    /// The round that the children are in, from 0: that of the element itself where it has rounds, and else the round
    /// around it, which is `round`.
    pub fn round(&self, round: u64) -> u64
        ensures { result ≡ round_in round self.now }
    {
        match self {
            Cursor::Simple(_) | Cursor::Once(_) | Cursor::If(_) => round,
            Cursor::Loop(cursor) => u64::from(cursor.rounds.begun.saturating_sub(1)),
            Cursor::While(cursor) => u64::from(cursor.rounds.begun.saturating_sub(1)),
            Cursor::Each(cursor) => u64::from(cursor.rounds.begun.saturating_sub(1)),
            Cursor::Interleave(_) | Cursor::Random(_) | Cursor::Order(_) | Cursor::Switch(_) => {
                round
            }
            Cursor::Transaction(_) | Cursor::Section(_) => round,
        }
    }

    /// What the element does next.
    pub fn next<O: Outside>(
        &mut self,
        alloc: Global,
        plan: &Plan,
        round: u64,
        state: &mut UserState,
        outside: &mut O,
    ) -> Result<Turn, VarError>
        requires { (n : ℕ) × StandsAt plan.now n self.old }
        ensures answers { CursorAnswers plan.now round (O.account outside.old) self.old state.old (O.account outside.new) self.new state.new result }
        // After every answer, out of memory too.
        ensures later { IsLater state.old.fns state.new.fns }
    {
        match self {
            Cursor::Simple(cursor) => Ok(cursor.take_turn()),
            Cursor::Once(cursor) => next_as(cursor, alloc, plan, round, state, outside),
            Cursor::Loop(cursor) => next_as(cursor, alloc, plan, round, state, outside),
            Cursor::If(cursor) => next_as(cursor, alloc, plan, round, state, outside),
            Cursor::While(cursor) => next_as(cursor, alloc, plan, round, state, outside),
            Cursor::Each(cursor) => next_as(cursor, alloc, plan, round, state, outside),
            Cursor::Interleave(cursor) => next_as(cursor, alloc, plan, round, state, outside),
            Cursor::Random(cursor) => next_as(cursor, alloc, plan, round, state, outside),
            Cursor::Order(cursor) => next_as(cursor, alloc, plan, round, state, outside),
            Cursor::Switch(cursor) => next_as(cursor, alloc, plan, round, state, outside),
            Cursor::Transaction(open) => Ok(open.children.take_turn()),
            Cursor::Section(open) => Ok(open.children.take_turn()),
        }
    }

    /// Tells of a sampler's sample: a transaction counts it.
    pub fn hear(&mut self, sample: &Sample)
        ensures { self.new ≡ hearing sample.now self.old }
    {
        if let Cursor::Transaction(open) = self {
            open.tally = open.tally.with(sample);
        }
    }
}
