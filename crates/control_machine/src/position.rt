// The place of a thread in its plan: the group's rounds, and the elements that are open in its round.

ghost use Rattle.control_machine.specs.Left.{StandsIn};
ghost use Rattle.control_machine.specs.Turns.{TurnsOn};

use crate::moves::Move;
use crate::stack::Stack;
use cursor_steps::Pass;
use element_tree::{Loops, Plan};
use jm_base::Outside;
use jm_meaning::{Places, Signal};
use node_table::Links;
use std::alloc::Global;
use var_functions::{UserState, VarError};

/// The rounds of the thread's group.
#[derive(Clone, Copy)]
pub struct Group {
    /// The number of the group's element.
    pub element: u16,
    /// How many rounds it has.
    pub loops: Loops,
    /// How many rounds have begun.
    pub begun: u32,
    /// The children in the round that began last.
    pub pass: Pass,
}

/// A thread's place in its plan, which is what contracts see of a machine: the group's rounds, the open elements, the rounds
/// that the thread has left, the places of its Interleave Controllers, what a failed sample leads to, whether the thread is on
/// its way out, and the links of the plan's elements.
#[derive(Drop)]
pub struct Position {
    /// The group and its rounds.
    pub group: Group,
    /// The open elements.
    pub stack: Stack,
    /// How many more rounds may begin in the thread.
    pub rounds: u32,
    /// Where its Interleave Controllers stand.
    pub places: Places,
    /// What a failed sample leads to.
    pub at_failure: Signal,
    /// Normal, or by which signal it is on its way out.
    pub signal: Signal,
    /// The children and looping ancestors of the plan's elements.
    pub links: Links,
}

/// What a turn comes to: the next turn, or a move.
#[derive(Clone, Copy)]
pub enum Went {
    On,
    To(Move),
}

impl Position {
    // One turn: a child is opened, a round begun, or an element left.
    pub(crate) fn turn<O: Outside>(
        &mut self,
        alloc: Global,
        plan: &Plan,
        state: &mut UserState,
        outside: &mut O,
    ) -> Result<Went, VarError>
        requires { StandsIn plan.now self.old }
        ensures { TurnsOn plan.now (O.account outside.old) self.old state.old (O.account outside.new) self.new state.new result }
    {
        match self.signal {
            Signal::Normal => match self.stack.top() {
                Some(_) => match self.stack.answer(alloc, plan, state, outside) {
                    Ok(turn) => self.follow(turn, alloc, plan, state, outside),
                    Err(error) => Err(error),
                },
                None => self.group_turn(alloc, plan, state, outside),
            },
            Signal::NextLoop | Signal::Stop(_) => Ok(self.leave_one()),
        }
    }
}
