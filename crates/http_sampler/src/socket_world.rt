// A world of outsides over the system's sockets and clock.

ghost use Rattle.std.specs.Prelude.{◌≡◌, ◌++◌, [], ◌∷◌, Some, false, IfOk, OnOk, OnErr};
ghost use Rattle.outside_world.specs.Scripted.{scripted_account, scripts_of};

use crate::opening::{Closed, Opening};
use crate::outside::HttpOutside;
use crate::sockets::{RealClock, SocketDialer};
use element_tree::Plan;
use jm_base::M;
use outside_world::{ScriptOutside, World};
use std::alloc::Global;
use std::marker::Model;
use std::mem;
use std::net::Net;
use std::time::{Clock as SystemClock, Duration};

/// How long a connection, a send or a receive waits for a peer, in seconds.
const PATIENCE: u64 = 30;

/// Opens outsides over the system's sockets and clock, each with a script of its own that keeps no list. It tells nothing.
#[derive(Drop)]
pub struct SocketWorld<R> {
    rt: R,
    alloc: Global,
    limit: Duration,
    identity: u64,
    opened: Vec<u16>,
    closed: Closed,
}

impl<R> Model for SocketWorld<R> {
    ghost use Rattle.http_sampler.specs.Worlds.{SocketBook, closed_of};

    ghost Value = { SocketBook };

    ghost view = { λ w. record { identity = w.identity; opened = w.opened.items; closed = closed_of w.closed } };
}

impl<R: Drop> SocketWorld<R> {
    /// A world that has opened and closed nothing, whose connections, sends and receives each wait for a peer for 30 seconds at most.
    /// It keeps `rt` and the allocator. Which world it is isn't told.
    pub fn new(rt: R, alloc: Global) -> SocketWorld<R>
        ensures opened { result.opened ≡ [] }
        ensures closed { result.closed ≡ [] }
    {
        SocketWorld::with_limit(rt, alloc, Duration::from_secs(PATIENCE))
    }

    /// The same with another limit, above zero.
    pub fn with_limit(rt: R, alloc: Global, limit: Duration) -> SocketWorld<R>
        ensures opened { result.opened ≡ [] }
        ensures closed { result.closed ≡ [] }
    {
        SocketWorld {
            rt,
            alloc,
            limit,
            identity: 0,
            opened: Vec::new(alloc),
            closed: Closed::Empty,
        }
    }
}

impl<R: Net + SystemClock + Copy + Drop + Send> World for SocketWorld<R> {
    ghost use Rattle.std.specs.Prelude.{None};

    type Out = HttpOutside<SocketDialer<R>, RealClock<R>>;

    ghost identity = { λ w. w.identity };

    ghost tells = { λ _. false };

    ghost opened = { λ w. w.opened };

    ghost closed = { λ w. w.closed };

    ghost told = { λ _ _. None };

    /// An outside over the plan's own replies, which keeps no list, and over a dialer that has had no fault. The room for what `close`
    /// keeps of it is taken here.
    fn open(&mut self, number: u16, plan: &Plan) -> M<HttpOutside<SocketDialer<R>, RealClock<R>>>
        ensures origin { IfOk result (λ o. o.origin ≡ Some (self.old.identity, number)) }
        ensures script { IfOk result (λ o. o.script ≡ scripted_account (scripts_of plan.now) false) }
        ensures dialer { IfOk result (λ o. o.dialer ≡ 0) }
        ensures world { OnOk result (self.new ≡ record self.old { opened = self.old.opened ++ number ∷ [] }) }
        ensures refused { OnErr result (self.new ≡ self.old) }
    {
        let opening = Opening {
            identity: self.identity,
            number,
            place: Box::new(self.alloc, Closed::Empty)?,
        };
        let script = ScriptOutside::new(self.alloc, plan, false)?;
        let dialer = SocketDialer::new(self.rt, self.limit);
        let clock = RealClock::new(self.rt);
        self.opened.push(number)?;
        Ok(HttpOutside::new(self.alloc, script, dialer, clock).opened(opening))
    }

    fn close(&mut self, number: u16, out: HttpOutside<SocketDialer<R>, RealClock<R>>) {
        let Some(Opening { mut place, .. }) = out.into_opening() else {
            unreachable!();
        };
        *place = mem::replace(&mut self.closed, Closed::Empty);
        self.closed = Closed::More {
            number,
            before: place,
        };
    }
}
