// An outside that asks HTTP samplers over streams, and all others by the replies of the plan.

ghost use Rattle.std.specs.Prelude.{◌≡◌, [], IfOk, OnErr, IsOk, Some, None};
ghost use Rattle.jm_base.specs.Run.{reading, outcome_of, over, wait};
ghost use Rattle.jm_base.specs.Outside.{Goes, TellsNothing, fault_count};
ghost use Rattle.jm_base.specs.declared.types.Heard.{Heard};
ghost use Rattle.http_sampler.specs.Streams.{told_more};
ghost use Rattle.http_sampler.specs.Exchanges.{is_head};
ghost use Rattle.http_sampler.specs.Outsides.{silent_account, dialed_after, IsAnswered, GivesUp, AnswersTo, GivesUpOn, AsksScript};
ghost use Rattle.http_sampler.specs.Worlds.{origin_of};

use crate::asking::exchange_bytes;
use crate::opening::Opening;
use crate::stream::{Clock, Dialer};
use jm_base::{Failed, M, Outcome, Outside, Request};
use outside_world::ScriptOutside;
use std::alloc::Global;
use std::marker::Model;

/// Asks each HTTP sampler over a stream of its own, which it dials and hangs up, and each other sampler by the replies of the plan. Its
/// clock and its pauses are those of a clock. It tells nothing, and its faults are those of its script and its dialer together.
#[derive(Drop)]
pub struct HttpOutside<D, C> {
    alloc: Global,
    script: ScriptOutside,
    dialer: D,
    clock: C,
    opening: Option<Opening>,
}

impl<D, C> Model for HttpOutside<D, C> {
    ghost use Rattle.http_sampler.specs.Outsides.{Parts};
    ghost use Rattle.http_sampler.specs.Worlds.{origin_of};

    ghost Value = { Parts D C };

    ghost view = { λ o. record { origin = origin_of o.opening; script = o.script; dialer = o.dialer; clock = o.clock } };
}

impl<D: Drop, C: Drop> HttpOutside<D, C> {
    /// An outside over this script, this dialer and this clock, which no world opened. It keeps the allocator.
    pub fn new(alloc: Global, script: ScriptOutside, dialer: D, clock: C) -> HttpOutside<D, C>
        ensures { result ≡ record { origin = None; script = script; dialer = dialer; clock = clock } }
    {
        HttpOutside {
            alloc,
            script,
            dialer,
            clock,
            opening: None,
        }
    }

    /// Its dialer, to see what was dialed.
    pub fn dialer(&self) -> &D
        ensures { result.now ≡ self.now.dialer }
    {
        &self.dialer
    }

    // The same outside, opened by a world.
    pub(crate) fn opened(self, opening: Opening) -> HttpOutside<D, C>
        ensures { result ≡ record self { origin = Some (opening.identity, opening.number) } }
    {
        let mut outside = self;
        outside.opening = Some(opening);
        outside
    }

    // Which world opened it.
    pub(crate) fn into_opening(self) -> Option<Opening>
        ensures { origin_of result ≡ self.origin }
    {
        let HttpOutside { opening, .. } = self;
        opening
    }
}

// Whether a request is one of `HEAD`, whose response has no body.
fn is_head(request: &[u8]) -> bool
    ensures { result ≡ is_head request.now }
{
    request.starts_with(b"HEAD ")
}

// Dials once, exchanges once and hangs up.
fn ask_peer<D: Dialer>(
    alloc: Global,
    dialer: &mut D,
    host: &[u8],
    port: u16,
    request: &[u8],
) -> M<Outcome>
    ensures dialed { D.dialed dialer.new ≡ told_more (D.dialed dialer.old) (host.now, port) }
    ensures answered { IfOk result (IsAnswered (D.spent dialer.old) (D.spent dialer.new) request.now) }
    ensures faults { IfOk result (λ a. D.faults dialer.new ≡ fault_count (D.faults dialer.old) a) }
    ensures memory { OnErr result (GivesUp (D.spent dialer.old) (D.spent dialer.new) request.now) }
    ensures calm { OnErr result (D.faults dialer.new ≡ D.faults dialer.old) }
{
    let mut stream = match dialer.dial(host, port) {
        Ok(stream) => stream,
        Err(Failed) => return Ok(Outcome::Fault),
    };
    let outcome = exchange_bytes(alloc, &mut stream, request, is_head(request));
    dialer.hang_up(stream);
    outcome
}

impl<D: Dialer + Drop, C: Clock + Drop> Outside for HttpOutside<D, C> {
    ghost account = { λ o. silent_account o.origin o.script.faults (D.faults o.dialer) };

    /// One reading of the clock.
    fn now(&mut self) -> M<u64>
        ensures ok { IfOk result (λ t. Goes (silent_account self.old.origin self.old.script.faults (D.faults self.old.dialer)) reading [] (over t)
            (silent_account self.new.origin self.new.script.faults (D.faults self.new.dialer))) }
        ensures err { OnErr result (TellsNothing (silent_account self.old.origin self.old.script.faults (D.faults self.old.dialer))
            (silent_account self.new.origin self.new.script.faults (D.faults self.new.dialer))) }

        // It takes no memory, and nothing else moves.
        ensures answered { IsOk result }
        ensures clock { IfOk result (λ t. C.heard self.new.clock ≡ told_more (C.heard self.old.clock) (Heard.Reading t)) }
        ensures others { self.new ≡ record self.old { clock = self.new.clock } }
    {
        Ok(self.clock.now())
    }

    /// One pause of the clock.
    fn pause(&mut self, ms: u32) -> M<()>
        ensures ok { IfOk result (λ u. Goes (silent_account self.old.origin self.old.script.faults (D.faults self.old.dialer)) (wait ms (over u)) [] (over u)
            (silent_account self.new.origin self.new.script.faults (D.faults self.new.dialer))) }
        ensures err { OnErr result (TellsNothing (silent_account self.old.origin self.old.script.faults (D.faults self.old.dialer))
            (silent_account self.new.origin self.new.script.faults (D.faults self.new.dialer))) }

        // It takes no memory, and nothing else moves.
        ensures answered { IsOk result }
        ensures clock { C.heard self.new.clock ≡ told_more (C.heard self.old.clock) (Heard.Paused ms) }
        ensures others { self.new ≡ record self.old { clock = self.new.clock } }
    {
        self.clock.pause(ms);
        Ok(())
    }

    /// A request of HTTP is asked over a stream that is dialed for it and then hung up; a dial that fails is a `Fault`. Another request
    /// is asked of the script, whose time passes on the script's own clock alone.
    fn ask(&mut self, sampler: u16, request: &Request) -> M<Outcome>
        ensures ok { IfOk result (λ a. Goes (silent_account self.old.origin self.old.script.faults (D.faults self.old.dialer)) (outcome_of sampler request.now) [] (over a)
            (silent_account self.new.origin self.new.script.faults (D.faults self.new.dialer))) }
        ensures fault { IfOk result (λ a. (silent_account self.new.origin self.new.script.faults (D.faults self.new.dialer)).faults
            ≡ fault_count (silent_account self.old.origin self.old.script.faults (D.faults self.old.dialer)).faults a) }
        ensures err { OnErr result (TellsNothing (silent_account self.old.origin self.old.script.faults (D.faults self.old.dialer))
            (silent_account self.new.origin self.new.script.faults (D.faults self.new.dialer))) }

        // The host and the port of an HTTP request are dialed, once; for others nothing is.
        ensures dialed { D.dialed self.new.dialer ≡ dialed_after request.now (D.dialed self.old.dialer) }

        // The answer to an HTTP request is what the stream that was dialed for it came to, which was sent its bytes and hung up.
        ensures streams { IfOk result (AnswersTo request.now (D.spent self.old.dialer) (D.spent self.new.dialer)) }
        ensures memory { OnErr result (GivesUpOn request.now (D.spent self.old.dialer) (D.spent self.new.dialer)) }

        // The answer to another request is the script's.
        ensures script { IfOk result (AsksScript sampler request.now self.old.script self.new.script) }

        // Out of memory the script stands as before, whichever the request.
        ensures unscripted { OnErr result (TellsNothing self.old.script self.new.script) }
        ensures clock { self.new.clock ≡ self.old.clock }
    {
        match request {
            Request::Script(_) => self.script.ask(sampler, request),
            Request::Http { host, port, bytes } => ask_peer(
                self.alloc,
                &mut self.dialer,
                host.bytes(),
                *port,
                bytes.bytes(),
            ),
        }
    }
}
