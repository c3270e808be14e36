// A thread: its first variables, and the rounds of its group.

ghost use Rattle.std.specs.Prelude.{◌≡◌, ◌≤◌};
ghost use Rattle.jm_meaning.specs.Beginning.{max_rounds};
ghost use Rattle.config_elements.specs.RoundStart.{feeds_of};
ghost use Rattle.jm_meaning.specs.Rounds.{rounds, group_turns, round_of_group, round_start};
ghost use Rattle.jm_meaning.specs.Children.{in_order};
ghost use Rattle.jm_meaning.specs.Meaning.{thread_part};
ghost use Rattle.plain_run.specs.Levels.{at_level};
ghost use Rattle.plain_run.specs.Plays.{Runs, caught_signal};

use crate::children::children_of;
use crate::elements::{Level, run_children};
use crate::progress::{Progress, refused};
use element_tree::{Kind, Loops, Plan};
use jm_base::{M, Outside};
use jm_meaning::{Signal, set_first, signal_of};
use logic_controllers::round_begins;

/// Sets the first variables, and runs the rounds of the group at this element, below which elements nest at most 30 deep. The
/// thread keeps Counters and data sets for the group.
pub fn run_thread<O: Outside>(
    plan: &Plan,
    group: u16,
    progress: &mut Progress,
    outside: &mut O,
) -> M<Signal>
    requires rounds { progress.old.rounds ≤ max_rounds }
    requires feeds { progress.old.config.feeds ≡ feeds_of plan.now.elements group }
    ensures { Runs (O.account outside.old) progress.old
        (thread_part plan.now group) result progress.new (O.account outside.new) }
{
    match set_first(progress.alloc, plan, &mut progress.user, outside) {
        Ok(()) => {}
        Err(error) => return refused(error),
    }
    let Some(element) = plan.element(group) else {
        return Ok(Signal::Normal);
    };
    let Kind::ThreadGroup {
        loops,
        on_error,
        ..
    } = &element.kind
    else {
        return Ok(Signal::Normal);
    };
    let children = children_of(progress.alloc, plan, element)?;
    let level = Level {
        plan,
        at_failure: signal_of(*on_error),
        depth: 30,
    };
    run_rounds(level, group, *loops, children.as_slice(), progress, outside)
}

// The rounds of the group at this element, over its children, which are of this level.
fn run_rounds<O: Outside>(
    level: Level<'_>,
    group: u16,
    loops: Loops,
    children: &[u16],
    progress: &mut Progress,
    outside: &mut O,
) -> M<Signal>
    requires rounds { progress.old.rounds ≤ max_rounds }
    requires feeds { progress.old.config.feeds ≡ feeds_of level.plan.now.elements group }
    ensures { Runs (O.account outside.old) progress.old
        (rounds max_rounds (group_turns loops (round_start level.entry.plan.now.elements group)) (λ i s. round_of_group (in_order (at_level level.entry) i children.now s)) 0)
        result progress.new (O.account outside.new) }
{
    let mut round = 0;
    'rounds: while round_begins(loops, round) {
        match progress.open_group_round(level.plan, outside)? {
            Signal::Normal => {}
            other => return Ok(other),
        }
        match caught(run_children(level, children, u64::from(round), progress, outside)?) {
            Signal::Normal => {}
            other => return Ok(other),
        }
        round += 1;
    }
    Ok(Signal::Normal)
}

// The signal after a round of a group: NextLoop ends the round alone.
fn caught(signal: Signal) -> Signal
    ensures { result ≡ caught_signal signal }
{
    match signal {
        Signal::NextLoop => Signal::Normal,
        other => other,
    }
}
