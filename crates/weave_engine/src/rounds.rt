// Rounds of turns, until all threads have ended and owe nothing.

ghost use Rattle.std.specs.Prelude.{◌≡◌, ◌≤◌, OnOk, ℕ, length, true};
ghost use Rattle.phaser_core.specs.declared.view.Numbers.{Numbers};
ghost use Rattle.weave_engine.specs.Repeats.{Repeats};
ghost use Rattle.weave_engine.specs.Turns.{Weave, turns_to, ends_rounds};
ghost use Rattle.weave_engine.specs.Seats.{RunsOn, Locked, is_settled, all_seats_settled, TakesRound, AllKeepOn};

use crate::seat::{Owed, Seat};
use crate::turns::thread_turn;
use jm_base::M;
use phaser_core::Core;
use std::alloc::Global;

// Whether the thread has ended and owes nothing.
fn is_settled(seat: &Seat<'_>) -> bool
    ensures { result ≡ is_settled seat.now }
{
    if !seat.ended {
        return false;
    }
    match seat.owed {
        Owed::Nothing => true,
        Owed::Record { .. } | Owed::Enter(_) | Owed::Stop => false,
    }
}

// Whether all threads have.
fn all_settled(seats: &[Seat<'_>]) -> bool
    ensures { result ≡ all_seats_settled seats.now }
{
    'each: for seat in seats {
        if !is_settled(seat) {
            return false;
        }
    }
    true
}

// One turn of each thread, in thread order.
fn round(alloc: Global, seats: &mut Vec<Seat<'_>>, core: &mut Core, locks: &mut Vec<u64>) -> M<()>
    requires few { length seats.old.items ≤ 64 }
    requires runs { (n : Numbers) × (s : Weave) × RunsOn n seats.old.items core.old locks.old.items s }
    requires locked { Locked seats.old.items locks.old.items }
    ensures turned { OnOk result ((n : Numbers) (s : Weave) → RunsOn n seats.old.items core.old locks.old.items s
        → RunsOn n seats.new.items core.new locks.new.items (turns_to n (length seats.old.items) s)) }
    ensures locked { OnOk result (Locked seats.new.items locks.new.items) }
    ensures lighter { OnOk result (TakesRound seats.old.items seats.new.items) }
    ensures count { OnOk result (length seats.new.items ≡ length seats.old.items) }
    ensures keeps { OnOk result (AllKeepOn seats.old.items seats.new.items) }
{
    let count = seats.len();
    'threads: for thread in 0..count {
        thread_turn(alloc, seats, core, locks, thread as u8)?;
    }
    Ok(())
}

/// Rounds of turns, until all threads have ended and owe nothing.
pub fn run_out(
    alloc: Global,
    seats: &mut Vec<Seat<'_>>,
    core: &mut Core,
    locks: &mut Vec<u64>,
) -> M<()>
    requires few { length seats.old.items ≤ 64 }
    requires runs { (n : Numbers) × (s : Weave) × RunsOn n seats.old.items core.old locks.old.items s }
    requires locked { Locked seats.old.items locks.old.items }
    ensures runs { OnOk result ((n : Numbers) (s : Weave) → RunsOn n seats.old.items core.old locks.old.items s
        → (t : Weave) × Repeats (turns_to n (length seats.old.items)) (ends_rounds n (length seats.old.items)) s t × RunsOn n seats.new.items core.new locks.new.items t) }
    ensures settled { OnOk result (all_seats_settled seats.new.items ≡ true) }
    ensures count { OnOk result (length seats.new.items ≡ length seats.old.items) }
    ensures keeps { OnOk result (AllKeepOn seats.old.items seats.new.items) }
{
    'rounds: loop {
        round(alloc, seats, core, locks)?;
        if all_settled(seats.as_slice()) {
            return Ok(());
        }
    }
}
