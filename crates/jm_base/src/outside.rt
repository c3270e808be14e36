// The outside of a thread: a clock, pauses, and the answers to what its samplers ask.

ghost use Rattle.std.specs.Prelude.{◌≡◌, IfOk, OnErr, []};
ghost use Rattle.jm_base.specs.Run.{reading, outcome_of, over, wait};
ghost use Rattle.jm_base.specs.Outside.{Account, Goes, fault_count, TellsNothing, SameEvents};

use crate::errors::M;
use crate::types::{Outcome, Request};

/// A clock, pauses and answers, which one thread uses.
pub trait Outside {
    /// What is known of it: which world opened it for which number, its value and what it was told, where it has them, and its
    /// count of faults. The count rises by one where `ask` answers a fault, and at no other call; at the end of 64 bits it stands still.
    ghost account: { Self → Account };

    /// A reading of the clock, in milliseconds.
    fn now(&mut self) -> M<u64>
        ensures ok { IfOk result (λ t. Goes (account self.old) reading [] (over t) (account self.new)) }
        ensures err { OnErr result (TellsNothing (account self.old) (account self.new)) };

    /// A pause of `ms` milliseconds.
    fn pause(&mut self, ms: u32) -> M<()>
        ensures ok { IfOk result (λ u. Goes (account self.old) (wait ms (over u)) [] (over u) (account self.new)) }
        ensures err { OnErr result (TellsNothing (account self.old) (account self.new)) };

    /// The outcome of a sampler's request. `sampler` is the number of its element.
    fn ask(&mut self, sampler: u16, request: &Request) -> M<Outcome>
        ensures ok { IfOk result (λ a. Goes (account self.old) (outcome_of sampler request.now) [] (over a) (account self.new)) }
        ensures fault { IfOk result (λ a. (account self.new).faults ≡ fault_count (account self.old).faults a) }
        ensures err { OnErr result (TellsNothing (account self.old) (account self.new)) };
}

/// The law of the two forms of an outside: over the replies of a plan, and over the list of what they told, a thread's run gives the same events.
pub fn same_events()
    ensures { SameEvents }
{}
