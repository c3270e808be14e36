// The machine of a thread: it goes from one move to the next.

ghost use Rattle.std.specs.Prelude.{◌≡◌, ◌<◌, ◌≤◌, [], None, slice_get, length, IfOk, OnErr};
ghost use Rattle.element_tree.specs.Tree.{Tree, threads_of, group_of};
ghost use Rattle.var_functions.specs.Came.{CameTo};
ghost use Rattle.var_functions.specs.FunctionState.{IsLater};
ghost use Rattle.jm_meaning.specs.State.{Own, state_of};
ghost use Rattle.jm_meaning.specs.Sections.{leaving_open};
ghost use Rattle.jm_meaning.specs.Meaning.{group_part, here_at, failure_of};
ghost use Rattle.jm_meaning.specs.Beginning.{max_rounds, first_places};
ghost use Rattle.open_elements.specs.Moves.{past};
ghost use Rattle.control_machine.specs.Left.{Beside, StandsIn, left_of, state_at, moved, IsMove, open_lock};
ghost use Rattle.control_machine.specs.Turns.{TakesRound, IsNormalAt, IsRoundOf, MovesLock, signal_left};
ghost use Rattle.control_machine.specs.Hearing.{told};
ghost use Rattle.control_machine.specs.MachineCut.{IsCut};

use crate::moves::{Leave, Move};
use crate::position::{Group, Position, Went};
use crate::stack::Stack;
use cursor_steps::Pass;
use element_tree::{Kind, Plan};
use jm_base::{End, M, Outside, Sample};
use jm_meaning::{Places, Signal, after_sample, signal_of};
use node_table::Links;
use std::alloc::Global;
use std::marker::Model;
use var_functions::{UserState, VarError};

/// A thread in its plan, between two of its moves. It is used with the plan for which it was made. Contracts see its position.
pub struct Machine {
    position: Position,
}

// Written out, so that other crates let a machine go by one call.
impl Drop for Machine {
    fn drop(self) {
        let Self {
            position: _position,
        } = self;
    }
}

impl Model for Machine {
    ghost use Rattle.control_machine.specs.declared.position.Position.{Position};

    ghost Value = { Position };

    ghost view = { λ m. m.position };
}

impl Machine {
    /// The machine of a thread, before its first round. Threads are numbered from 0 over all groups.
    pub fn new(alloc: Global, plan: &Plan, thread: u16) -> M<Machine>
        requires { thread < length (threads_of plan.now) }
        ensures stands { IfOk result (StandsIn plan.now) }
        ensures whole { IfOk result (λ m. (user : UserState) (own : Own) → own.rounds ≡ max_rounds
            → left_of plan.now m (state_of user own) ≡ group_part (here_at plan.now (group_of plan.now thread)) (group_of plan.now thread)
            (slice_get plan.now.elements (group_of plan.now thread)) (state_of user own)) }
        ensures failure { IfOk result (λ m. m.at_failure ≡ failure_of (slice_get plan.now.elements (group_of plan.now thread))) }
        ensures rounds { IfOk result (λ m. m.rounds ≡ max_rounds) }
        ensures places { IfOk result (λ m. m.places ≡ first_places plan.now.elements) }
        ensures group { IfOk result (λ m. m.group.element ≡ group_of plan.now thread) }
        ensures empty { IfOk result (λ m. m.stack.frames ≡ []) }
        ensures lock { IfOk result (λ m. open_lock m.stack.frames ≡ None) }
    {
        let number = plan.group_of(thread);
        let Some(element) = plan.element(number) else {
            unreachable!();
        };
        let Kind::ThreadGroup {
            loops,
            on_error,
            ..
        } = &element.kind
        else {
            unreachable!();
        };
        let places = Places::first(alloc, plan)?;
        let links = Links::of(alloc, plan)?;
        let children = links.count(number);
        Ok(Machine {
            position: Position {
                group: Group {
                    element: number,
                    loops: *loops,
                    begun: 0,
                    pass: Pass {
                        children,
                        next: children,
                    },
                },
                stack: Stack::new(alloc),
                rounds: 16_777_216,
                places,
                at_failure: signal_of(*on_error),
                signal: Signal::Normal,
                links,
            },
        })
    }

    /// The next move. On a way out the open transactions give their samples and the open section is left, the innermost
    /// first; where no round is left for an element that would begin one, the way out gives no sample. `ValueLimit` comes
    /// where a text, a value or the variables would pass their limit on the way. After a refusal and after `Finished` the
    /// machine is spent, and the open section is the caller's to leave. A refusal leaves the variables as the steps before
    /// it left them.
    pub fn next<O: Outside>(
        &mut self,
        alloc: Global,
        plan: &Plan,
        state: &mut UserState,
        outside: &mut O,
    ) -> Result<Move, VarError>
        requires { StandsIn plan.now self.old }
        ensures came { (beside : Beside)
            → CameTo (O.account outside.old) (left_of plan.now self.old (state_at self.old beside state.old)) (O.account outside.new)
            (moved plan.now self.new (state_at self.new beside state.new))
            (leaving_open (open_lock self.old.stack.frames) (past (state_at self.new beside state.new))) result }
        ensures given { IfOk result (IsMove plan.now.elements) }
        ensures stands { IfOk result (λ m. StandsIn plan.now self.new) }
        ensures deep { IfOk result (λ m. length self.new.stack.frames ≤ 30) }
        ensures normal { IfOk result (λ m. IsNormalAt m self.new.signal) }
        ensures lock { IfOk result (λ m. MovesLock m (open_lock self.old.stack.frames) (open_lock self.new.stack.frames)) }
        ensures rounds { IfOk result (λ m. TakesRound m self.old.rounds self.new.rounds) }
        ensures index { IfOk result (λ m. IsRoundOf m self.new.group) }
        ensures thread { (self.new.group.element ≡ self.old.group.element) × (self.new.at_failure ≡ self.old.at_failure) }
        // After every answer, out of memory too.
        ensures later { IsLater state.old.fns state.new.fns }
        ensures cut { OnErr result (IsCut plan.now (O.account outside.old) (λ beside. left_of plan.now self.old (state_at self.old beside state.old)) (O.account outside.new) state.new) }
    {
        'turns: loop {
            match self.position.turn(alloc, plan, state, outside) {
                Ok(Went::On) => {}
                Ok(Went::To(next)) => return Ok(next),
                Err(error) => return Err(error),
            }
        }
    }

    /// Tells of the sample of the sampler that the last move named: the open transactions count it, and where it failed the
    /// next moves follow the group's action after a sampler error.
    pub fn after(&mut self, sample: &Sample)
        ensures told { self.new ≡ told sample.now self.old }
        ensures stands { (plan : Tree) → StandsIn plan self.old → StandsIn plan self.new }
        ensures lock { open_lock self.new.stack.frames ≡ open_lock self.old.stack.frames }
    {
        self.position.stack.hear(sample);
        self.position.signal = after_sample(sample.ok, self.position.at_failure);
    }

    /// Makes the next moves those of a way out.
    pub fn leave(&mut self, how: Leave)
        ensures left { self.new ≡ record self.old { signal = signal_left how } }
        ensures stands { (plan : Tree) → StandsIn plan self.old → StandsIn plan self.new }
    {
        self.position.signal = signal_left(how);
    }
}

// The signal of a way out.
fn signal_left(how: Leave) -> Signal
    ensures { result ≡ signal_left how }
{
    match how {
        Leave::NextLoop => Signal::NextLoop,
        Leave::StopThread => Signal::Stop(End::StopThread),
        Leave::StopTest => Signal::Stop(End::StopTest),
    }
}
