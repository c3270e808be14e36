// The pause of a thread before its first round.

ghost use Rattle.std.specs.Prelude.{◌≡◌, ◌≤◌, ◌<◌, ◌-◌, length};
ghost use Rattle.element_tree.specs.Tree.{threads_of};
ghost use Rattle.jm_meaning.specs.RampUp.{pause_of, ramp_up};

use element_tree::{Kind, Plan};

/// The pause of a thread before its first round, in milliseconds: the threads of a group start one after another over
/// its ramp-up time (the manual's "Ramp-Up Period"), the first at once. Threads are numbered from 0 over all groups.
pub fn ramp_up_pause(plan: &Plan, thread: u16) -> u32
    requires { thread < length (threads_of plan.now) }
    ensures { result ≡ pause_of plan.now thread }
{
    let found = plan.thread(thread);
    let Some(element) = plan.element(found.element) else {
        unreachable!();
    };
    let Kind::ThreadGroup {
        ramp_ms,
        threads,
        ..
    } = &element.kind
    else {
        unreachable!();
    };
    ramp_up(found.number, *threads, *ramp_ms)
}

// The pause of the thread of this number, from 1, where that many start over a ramp-up time.
fn ramp_up(number: u16, threads: u16, ramp_ms: u32) -> u32
    requires first { 1 ≤ number }
    requires last { number ≤ threads }
    ensures { result ≡ ramp_up (number - 1) threads ramp_ms }
{
    let pause = u64::from(number - 1) * u64::from(ramp_ms) / u64::from(threads);
    pause as u32
}
