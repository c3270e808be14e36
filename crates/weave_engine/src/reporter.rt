// Turns of the reporter.

ghost use Rattle.std.specs.Prelude.{◌≡◌, true, ◌||◌, ◌&&◌, OnOk, List, ℕ};
ghost use Rattle.phaser_core.specs.declared.view.Numbers.{Numbers};
ghost use Rattle.weave_engine.specs.Repeats.{Repeats};
ghost use Rattle.weave_engine.specs.Turns.{Weave, closing_event, is_idle, is_waiting, reporter_turn, ends_reporters_row, idle_after, closing_of};
ghost use Rattle.weave_engine.specs.Woven.{CloseIf};
ghost use Rattle.weave_engine.specs.declared.seat.Seat.{Seat};
ghost use Rattle.weave_engine.specs.Seats.{Runs, all_seats_settled};

use crate::seat::Seat;
use crate::turns::apply;
use jm_base::M;
use phaser_core::{Core, Event, ReporterStage};
use std::alloc::Global;

// The reporter's next event.
fn next_event(closing: &ReporterStage) -> Event
    ensures { result ≡ closing_event closing.now }
{
    match closing {
        ReporterStage::Idle => Event::SwapActive,
        ReporterStage::Swapped => Event::ClearEnd,
        ReporterStage::Cleared => Event::Flip,
        ReporterStage::Waiting { .. } => Event::Look,
        ReporterStage::Harvest { .. } => Event::Take,
    }
}

fn is_idle(closing: &ReporterStage) -> bool
    ensures { result ≡ is_idle closing.now }
{
    match closing {
        ReporterStage::Idle => true,
        _ => false,
    }
}

fn is_waiting(closing: &ReporterStage) -> bool
    ensures { result ≡ is_waiting closing.now }
{
    match closing {
        ReporterStage::Waiting { .. } => true,
        _ => false,
    }
}

// Whether a turn is the last of a row, by whether the reporter waited before it, and how far it is after it.
fn ends_row(waited: bool, closing: &ReporterStage) -> bool
    ensures { result ≡ (is_idle closing.now || (waited && is_waiting closing.now)) }
{
    is_idle(closing) || (waited && is_waiting(closing))
}

/// One turn of the reporter: its next event.
pub fn reporter_turn(alloc: Global, core: &mut Core) -> M<()>
    ensures { OnOk result ((n : Numbers) (seats : List Seat) (s : Weave) → Runs n seats core.old s → Runs n seats core.new (reporter_turn n s)) }
{
    let event = next_event(&core.closing());
    apply(alloc, core, event)?;
    Ok(())
}

/// Turns of the reporter in a row, until it is idle or has to wait.
pub fn reporter_row(alloc: Global, core: &mut Core) -> M<()>
    requires { (n : Numbers) × (seats : List Seat) × (s : Weave) × Runs n seats core.old s }
    ensures { OnOk result ((n : Numbers) (seats : List Seat) (s : Weave) → Runs n seats core.old s
        → (t : Weave) × Repeats (reporter_turn n) (ends_reporters_row n) s t × Runs n seats core.new t) }
{
    'turns: loop {
        let waited = is_waiting(&core.closing());
        reporter_turn(alloc, core)?;
        if ends_row(waited, &core.closing()) {
            return Ok(());
        }
    }
}

/// An open closing is finished. All threads have settled, so each look finds what it waits for.
pub fn close_open(alloc: Global, seats: &Vec<Seat<'_>>, core: &mut Core) -> M<()>
    requires runs { (n : Numbers) × (s : Weave) × Runs n seats.now.items core.old s }
    requires quiet { all_seats_settled seats.now.items ≡ true }
    ensures closes { OnOk result ((n : Numbers) (s : Weave) → Runs n seats.now.items core.old s
        → (t : Weave) × CloseIf (is_idle (closing_of s)) n s t × Runs n seats.now.items core.new t) }
    ensures idle { OnOk result (is_idle core.new.reporter.closing ≡ true) }
{
    if is_idle(&core.closing()) {
        return Ok(());
    }
    'turns: loop {
        reporter_turn(alloc, core)?;
        if is_idle(&core.closing()) {
            return Ok(());
        }
    }
}
