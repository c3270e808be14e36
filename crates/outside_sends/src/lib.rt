//! An outside of a script may go to the thread that asks it, and so may one over sockets.
//!
//! The lemmas say so of each part of such an outside, and a call that runs threads over a world of these needs them. The functions
//! need them too: where an outside gets a part that may not go to another thread, their check fails first.
#![tactic(auto)]

ghost use Rattle.std.specs.Prelude.{◌≡◌};

use http_sampler::{HttpOutside, RealClock, SocketDialer};
use outside_world::ScriptOutside;

// What may go to another thread.
fn sendable<T: Send>(value: T) -> T
    ensures { result ≡ value }
{
    value
}

/// Gives the outside back, which may go to another thread.
pub fn sent(outside: ScriptOutside) -> ScriptOutside
    ensures { result ≡ outside }
{
    sendable(outside)
}

/// Gives an outside over sockets back, which may go to another thread where what it keeps of the runtime may.
pub fn sent_over_sockets<R: Send>(
    outside: HttpOutside<SocketDialer<R>, RealClock<R>>,
) -> HttpOutside<SocketDialer<R>, RealClock<R>>
    ensures { result ≡ outside }
{
    sendable(outside)
}
