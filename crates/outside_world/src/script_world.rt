// A world of outsides that answer from the plan itself.

ghost use Rattle.std.specs.Prelude.{◌≡◌, ◌++◌, [], ◌∷◌, IfOk, OnOk, OnErr};
ghost use Rattle.outside_world.specs.Scripted.{opened_account, scripts_of};

use crate::closed::Closed;
use crate::script::{Opening, ScriptOutside};
use crate::world::World;
use element_tree::Plan;
use jm_base::M;
use std::alloc::Global;
use std::marker::Model;
use std::mem;

/// Opens script outsides that tell, and keeps what they were told.
#[derive(Drop)]
pub struct ScriptWorld {
    alloc: Global,
    identity: u64,
    opened: Vec<u16>,
    closed: Closed,
}

impl Model for ScriptWorld {
    ghost use Rattle.outside_world.specs.Worlds.{WorldBook, closed_of};

    ghost Value = { WorldBook };

    ghost view = { λ w. record { identity = w.identity; opened = w.opened.items; closed = closed_of w.closed } };
}

impl ScriptWorld {
    /// A world that has opened and closed nothing. It keeps the allocator. Which world it is isn't told.
    pub fn new(alloc: Global) -> ScriptWorld
        ensures opened { result.opened ≡ [] }
        ensures closed { result.closed ≡ [] }
    {
        ScriptWorld {
            alloc,
            identity: 0,
            opened: Vec::new(alloc),
            closed: Closed::Empty,
        }
    }
}

impl World for ScriptWorld {
    ghost use Rattle.std.specs.Prelude.{true};
    ghost use Rattle.outside_world.specs.Worlds.{numbers_of, told_under};

    type Out = ScriptOutside;

    ghost identity = { λ w. w.identity };

    ghost tells = { λ _. true };

    ghost opened = { λ w. w.opened };

    ghost closed = { λ w. numbers_of w.closed };

    ghost told = { λ w number. told_under w.closed number };

    /// A script outside of the plan that tells. The room for what `close` keeps of it is taken here.
    fn open(&mut self, number: u16, plan: &Plan) -> M<ScriptOutside>
        ensures outside { IfOk result (λ o. o ≡ opened_account self.old.identity number (scripts_of plan.now)) }
        ensures world { OnOk result (self.new ≡ record self.old { opened = self.old.opened ++ number ∷ [] }) }
        ensures refused { OnErr result (self.new ≡ self.old) }
    {
        let opening = Opening {
            identity: self.identity,
            number,
            place: Box::new(self.alloc, Closed::Empty)?,
        };
        let outside = ScriptOutside::opened(self.alloc, plan, opening)?;
        self.opened.push(number)?;
        Ok(outside)
    }

    fn close(&mut self, number: u16, out: ScriptOutside) {
        let (told, opening) = out.into_told();
        let Some(Opening { mut place, .. }) = opening else {
            unreachable!();
        };
        *place = mem::replace(&mut self.closed, Closed::Empty);
        self.closed = Closed::More {
            number,
            told,
            before: place,
        };
    }
}
