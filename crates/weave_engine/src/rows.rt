// Turns in a row.

ghost use Rattle.std.specs.Prelude.{◌≡◌, ◌||◌, OnOk, List, ℕ, slice_get};
ghost use Rattle.phaser_core.specs.declared.view.Numbers.{Numbers};
ghost use Rattle.schedule_text.specs.declared.token.Token.{Token};
ghost use Rattle.weave_engine.specs.Repeats.{Repeats};
ghost use Rattle.weave_engine.specs.Turns.{Weave, thread_turn, ends_row};
ghost use Rattle.weave_engine.specs.Woven.{Runs as RunsAs, AllRun};
ghost use Rattle.weave_engine.specs.Seats.{RunsOn, Locked, is_nothing, is_free_at, is_blocked_at, AllKeepOn};

use crate::reporter::{reporter_row, reporter_turn};
use crate::seat::{Owed, Seat};
use crate::turns::{is_blocked, thread_turn};
use jm_base::M;
use phaser_core::Core;
use schedule_text::Token;
use std::alloc::Global;

// Whether a thread owes nothing.
fn owes_nothing(seat: &Seat<'_>) -> bool
    ensures { result ≡ is_nothing seat.now.owed }
{
    match seat.owed {
        Owed::Nothing => true,
        Owed::Record { .. } | Owed::Enter(_) | Owed::Stop => false,
    }
}

// Whether the thread of this number owes nothing.
fn is_free(seats: &Vec<Seat<'_>>, thread: u8) -> bool
    ensures { result ≡ is_free_at seats.now.items thread }
{
    match seats.get(usize::from(thread)) {
        Some(seat) => owes_nothing(seat),
        None => true,
    }
}

// Whether the thread of this number is to enter a section that is busy.
fn is_busy(seats: &Vec<Seat<'_>>, locks: &Vec<u64>, thread: u8) -> bool
    ensures { result ≡ is_blocked_at seats.now.items locks.now.items thread }
{
    match seats.get(usize::from(thread)) {
        Some(seat) => is_blocked(seat, locks),
        None => false,
    }
}

// Whether a turn is the last of a row, by whether it was a try of a busy section, and whether the thread owes nothing after it.
fn ends_row(busy: bool, free: bool) -> bool
    ensures { result ≡ (free || busy) }
{
    free || busy
}

/// Turns of a thread in a row, until it owes nothing, or has tried to enter a busy section.
pub fn thread_row(
    alloc: Global,
    seats: &mut Vec<Seat<'_>>,
    core: &mut Core,
    locks: &mut Vec<u64>,
    thread: u8,
) -> M<()>
    requires runs { (n : Numbers) × (s : Weave) × RunsOn n seats.old.items core.old locks.old.items s }
    requires locked { Locked seats.old.items locks.old.items }
    ensures runs { OnOk result ((n : Numbers) (s : Weave) → RunsOn n seats.old.items core.old locks.old.items s
        → (t : Weave) × Repeats (thread_turn n thread) (ends_row n thread) s t × RunsOn n seats.new.items core.new locks.new.items t) }
    ensures locked { OnOk result (Locked seats.new.items locks.new.items) }
    ensures keeps { OnOk result (AllKeepOn seats.old.items seats.new.items) }
{
    'turns: loop {
        let busy = is_busy(seats, locks, thread);
        thread_turn(alloc, seats, core, locks, thread)?;
        if ends_row(busy, is_free(seats, thread)) {
            return Ok(());
        }
    }
}

/// What a token says.
pub fn token_turns(
    alloc: Global,
    seats: &mut Vec<Seat<'_>>,
    core: &mut Core,
    locks: &mut Vec<u64>,
    token: Token,
) -> M<()>
    requires runs { (n : Numbers) × (s : Weave) × RunsOn n seats.old.items core.old locks.old.items s }
    requires locked { Locked seats.old.items locks.old.items }
    ensures runs { OnOk result ((n : Numbers) (s : Weave) → RunsOn n seats.old.items core.old locks.old.items s
        → (t : Weave) × RunsAs n token s t × RunsOn n seats.new.items core.new locks.new.items t) }
    ensures locked { OnOk result (Locked seats.new.items locks.new.items) }
    ensures keeps { OnOk result (AllKeepOn seats.old.items seats.new.items) }
{
    match token {
        Token::Turn(thread) => thread_turn(alloc, seats, core, locks, thread),
        Token::Turns(thread) => thread_row(alloc, seats, core, locks, thread),
        Token::Reporter => reporter_turn(alloc, core),
        Token::Reporters => reporter_row(alloc, core),
    }
}

/// All tokens, one after another.
pub fn all_tokens(
    alloc: Global,
    seats: &mut Vec<Seat<'_>>,
    core: &mut Core,
    locks: &mut Vec<u64>,
    tokens: &[Token],
) -> M<()>
    requires runs { (n : Numbers) × (s : Weave) × RunsOn n seats.old.items core.old locks.old.items s }
    requires locked { Locked seats.old.items locks.old.items }
    ensures runs { OnOk result ((n : Numbers) (s : Weave) → RunsOn n seats.old.items core.old locks.old.items s
        → (t : Weave) × AllRun n tokens.now s t × RunsOn n seats.new.items core.new locks.new.items t) }
    ensures locked { OnOk result (Locked seats.new.items locks.new.items) }
    ensures keeps { OnOk result (AllKeepOn seats.old.items seats.new.items) }
{
    'tokens: for token in tokens {
        token_turns(alloc, seats, core, locks, *token)?;
    }
    Ok(())
}
