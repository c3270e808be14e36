// A controller of any kind.

use crate::outsides::Silence;
use anyhow::bail;
use choice_controllers::{InterleaveCursor, OrderCursor, RandomCursor, SwitchCursor};
use cursor_steps::Controller as Cursor;
use element_tree::{Kind, Plan, Turn};
use logic_controllers::{EachCursor, IfCursor, LoopCursor, OnceCursor, SimpleCursor, WhileCursor};
use std::alloc::Global;
use var_functions::{UserState, VarError};

/// The cursor of a controller.
#[derive(Drop)]
pub enum Controller {
    Simple(SimpleCursor),
    Once(OnceCursor),
    Loop(LoopCursor),
    If(IfCursor),
    While(WhileCursor),
    Each(EachCursor),
    Interleave(InterleaveCursor),
    Random(RandomCursor),
    Order(OrderCursor),
    Switch(SwitchCursor),
}

/// What a call gave, or nothing where it can't be made: the element is not of the cursor's kind, or the controller has
/// begun more rounds than a thread has.
pub type Given<T> = Option<Result<T, VarError>>;

// Gives nothing where the cursor's element is not of this kind.
macro_rules! need {
    ($plan:ident, $cursor:ident, $kind:pat) => {
        let Some(element) = $plan.element($cursor.element) else {
            return None;
        };
        let $kind = &element.kind else {
            return None;
        };
    };
}

// Gives nothing where a looping controller has begun more rounds than a thread has.
macro_rules! need_rounds {
    ($cursor:ident) => {
        if $cursor.rounds.begun > 16_777_216 {
            return None;
        }
    };
}

impl Controller {
    /// The controller that an element of this kind is, before its first pass.
    pub fn new(element: u16, kind: &Kind) -> anyhow::Result<Controller> {
        let controller = match kind {
            Kind::Simple => Controller::Simple(SimpleCursor::new(element)),
            Kind::OnceOnly => Controller::Once(OnceCursor::new(element)),
            Kind::Loop { .. } => Controller::Loop(LoopCursor::new(element)),
            Kind::If { .. } => Controller::If(IfCursor::new(element)),
            Kind::While { .. } => Controller::While(WhileCursor::new(element)),
            Kind::ForEach { .. } => Controller::Each(EachCursor::new(element)),
            Kind::Interleave => Controller::Interleave(InterleaveCursor::new(element)),
            Kind::Random => Controller::Random(RandomCursor::new(element)),
            Kind::RandomOrder => Controller::Order(OrderCursor::new(element)),
            Kind::Switch { .. } => Controller::Switch(SwitchCursor::new(element)),
            _ => bail!("no controller"),
        };
        Ok(controller)
    }

    /// Begins a pass.
    pub fn enter(&mut self, alloc: Global, plan: &Plan, state: &mut UserState) -> Given<()> {
        match self {
            Controller::Simple(cursor) => enter_simple(alloc, plan, cursor, state),
            Controller::Once(cursor) => enter_once(alloc, plan, cursor, state),
            Controller::Loop(cursor) => enter_loop(alloc, plan, cursor, state),
            Controller::If(cursor) => enter_if(alloc, plan, cursor, state),
            Controller::While(cursor) => enter_while(alloc, plan, cursor, state),
            Controller::Each(cursor) => enter_each(alloc, plan, cursor, state),
            Controller::Interleave(cursor) => enter_interleave(alloc, plan, cursor, state),
            Controller::Random(cursor) => enter_random(alloc, plan, cursor, state),
            Controller::Order(cursor) => enter_order(alloc, plan, cursor, state),
            Controller::Switch(cursor) => enter_switch(alloc, plan, cursor, state),
        }
    }

    /// What the controller does next, in a round of this index around it.
    pub fn next(
        &mut self,
        alloc: Global,
        plan: &Plan,
        round: u64,
        state: &mut UserState,
    ) -> Given<Turn> {
        match self {
            Controller::Simple(cursor) => next_simple(alloc, plan, cursor, state),
            Controller::Once(cursor) => next_once(alloc, plan, cursor, round, state),
            Controller::Loop(cursor) => next_loop(alloc, plan, cursor, state),
            Controller::If(cursor) => next_if(alloc, plan, cursor, state),
            Controller::While(cursor) => next_while(alloc, plan, cursor, state),
            Controller::Each(cursor) => next_each(alloc, plan, cursor, state),
            Controller::Interleave(cursor) => next_interleave(alloc, plan, cursor, state),
            Controller::Random(cursor) => next_random(alloc, plan, cursor, state),
            Controller::Order(cursor) => next_order(alloc, plan, cursor, state),
            Controller::Switch(cursor) => next_switch(alloc, plan, cursor, state),
        }
    }
}

fn enter_simple(
    alloc: Global,
    plan: &Plan,
    cursor: &mut SimpleCursor,
    state: &mut UserState,
) -> Given<()> {
    need!(plan, cursor, Kind::Simple);
    Some(cursor.enter(alloc, plan, state, &mut Silence))
}

fn next_simple(
    alloc: Global,
    plan: &Plan,
    cursor: &mut SimpleCursor,
    state: &mut UserState,
) -> Given<Turn> {
    Some(cursor.next(alloc, plan, 0, state, &mut Silence))
}

fn enter_once(
    alloc: Global,
    plan: &Plan,
    cursor: &mut OnceCursor,
    state: &mut UserState,
) -> Given<()> {
    need!(plan, cursor, Kind::OnceOnly);
    Some(cursor.enter(alloc, plan, state, &mut Silence))
}

fn next_once(
    alloc: Global,
    plan: &Plan,
    cursor: &mut OnceCursor,
    round: u64,
    state: &mut UserState,
) -> Given<Turn> {
    Some(cursor.next(alloc, plan, round, state, &mut Silence))
}

fn enter_loop(
    alloc: Global,
    plan: &Plan,
    cursor: &mut LoopCursor,
    state: &mut UserState,
) -> Given<()> {
    need!(plan, cursor, Kind::Loop { loops: _ });
    Some(cursor.enter(alloc, plan, state, &mut Silence))
}

fn next_loop(
    alloc: Global,
    plan: &Plan,
    cursor: &mut LoopCursor,
    state: &mut UserState,
) -> Given<Turn> {
    need!(plan, cursor, Kind::Loop { loops: _ });
    need_rounds!(cursor);
    Some(cursor.next(alloc, plan, 0, state, &mut Silence))
}

fn enter_if(alloc: Global, plan: &Plan, cursor: &mut IfCursor, state: &mut UserState) -> Given<()> {
    need!(
        plan,
        cursor,
        Kind::If {
            all: _,
            condition: _
        }
    );
    Some(cursor.enter(alloc, plan, state, &mut Silence))
}

fn next_if(
    alloc: Global,
    plan: &Plan,
    cursor: &mut IfCursor,
    state: &mut UserState,
) -> Given<Turn> {
    need!(
        plan,
        cursor,
        Kind::If {
            all: _,
            condition: _
        }
    );
    Some(cursor.next(alloc, plan, 0, state, &mut Silence))
}

fn enter_while(
    alloc: Global,
    plan: &Plan,
    cursor: &mut WhileCursor,
    state: &mut UserState,
) -> Given<()> {
    need!(plan, cursor, Kind::While { condition: _ });
    Some(cursor.enter(alloc, plan, state, &mut Silence))
}

fn next_while(
    alloc: Global,
    plan: &Plan,
    cursor: &mut WhileCursor,
    state: &mut UserState,
) -> Given<Turn> {
    need!(plan, cursor, Kind::While { condition: _ });
    need_rounds!(cursor);
    Some(cursor.next(alloc, plan, 0, state, &mut Silence))
}

fn enter_each(
    alloc: Global,
    plan: &Plan,
    cursor: &mut EachCursor,
    state: &mut UserState,
) -> Given<()> {
    need!(
        plan,
        cursor,
        Kind::ForEach {
            end: _,
            input: _,
            output: _,
            separator: _,
            start: _
        }
    );
    Some(cursor.enter(alloc, plan, state, &mut Silence))
}

fn next_each(
    alloc: Global,
    plan: &Plan,
    cursor: &mut EachCursor,
    state: &mut UserState,
) -> Given<Turn> {
    need!(
        plan,
        cursor,
        Kind::ForEach {
            end: _,
            input: _,
            output: _,
            separator: _,
            start: _
        }
    );
    Some(cursor.next(alloc, plan, 0, state, &mut Silence))
}

fn enter_interleave(
    alloc: Global,
    plan: &Plan,
    cursor: &mut InterleaveCursor,
    state: &mut UserState,
) -> Given<()> {
    need!(plan, cursor, Kind::Interleave);
    Some(cursor.enter(alloc, plan, state, &mut Silence))
}

fn next_interleave(
    alloc: Global,
    plan: &Plan,
    cursor: &mut InterleaveCursor,
    state: &mut UserState,
) -> Given<Turn> {
    Some(cursor.next(alloc, plan, 0, state, &mut Silence))
}

fn enter_random(
    alloc: Global,
    plan: &Plan,
    cursor: &mut RandomCursor,
    state: &mut UserState,
) -> Given<()> {
    need!(plan, cursor, Kind::Random);
    Some(cursor.enter(alloc, plan, state, &mut Silence))
}

fn next_random(
    alloc: Global,
    plan: &Plan,
    cursor: &mut RandomCursor,
    state: &mut UserState,
) -> Given<Turn> {
    Some(cursor.next(alloc, plan, 0, state, &mut Silence))
}

fn enter_order(
    alloc: Global,
    plan: &Plan,
    cursor: &mut OrderCursor,
    state: &mut UserState,
) -> Given<()> {
    need!(plan, cursor, Kind::RandomOrder);
    Some(cursor.enter(alloc, plan, state, &mut Silence))
}

fn next_order(
    alloc: Global,
    plan: &Plan,
    cursor: &mut OrderCursor,
    state: &mut UserState,
) -> Given<Turn> {
    Some(cursor.next(alloc, plan, 0, state, &mut Silence))
}

fn enter_switch(
    alloc: Global,
    plan: &Plan,
    cursor: &mut SwitchCursor,
    state: &mut UserState,
) -> Given<()> {
    need!(plan, cursor, Kind::Switch { value: _ });
    Some(cursor.enter(alloc, plan, state, &mut Silence))
}

fn next_switch(
    alloc: Global,
    plan: &Plan,
    cursor: &mut SwitchCursor,
    state: &mut UserState,
) -> Given<Turn> {
    Some(cursor.next(alloc, plan, 0, state, &mut Silence))
}
