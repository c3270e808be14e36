// Turns of the threads of a run.

ghost use Rattle.std.specs.Prelude.{◌≡◌, ◌+◌, ◌<◌, ◌++◌, ◌∷◌, ℕ, List, length, drop, Some, None, OnOk, IfOk, slice_get, slice_index};
ghost use Rattle.phaser_core.specs.declared.view.Numbers.{Numbers};
ghost use Rattle.phaser_core.specs.Step.{CoreState, next_state, FitsEvent};
ghost use Rattle.weave_engine.specs.Steps.{Thread, record_steps};
ghost use Rattle.phaser_core.specs.Cells.{is_odd};
ghost use Rattle.phaser_core.specs.CoreShape.{Shape};
ghost use Rattle.weave_engine.specs.Turns.{Weave, interval_after, thread_turn, lock_left};
ghost use Rattle.weave_engine.specs.Seats.{SeatIs, CoreIs, RunsOn, TurnsIn, IsSameThread, MovesOne, HasWords, Locked, IsNext, step_count, is_blocked, turns_left, Lightens, TakesTurn, KeepsOn, AllKeepOn};

use crate::seat::{Owed, Seat};
use jm_base::{Entry, M};
use phaser_core::{Applied, Core, Event};
use std::alloc::Global;

/// The next of a record's steps.
#[derive(Drop)]
struct Next {
    event: Event,
    /// Whether it is the last.
    last: bool,
}

// The step of the record of an entry of which that many are done.
fn next_of(thread: u16, entry: Entry, done: u8) -> Next
    requires { done < step_count entry.ok }
    ensures next { IsNext (drop done (record_steps thread entry)) result.event (drop (done + 1) (record_steps thread entry)) result.last }
    ensures fits { FitsEvent result.event }
{
    let (event, last) = match (done, entry.ok) {
        (0, _) => (Event::Enter(thread), false),
        (1, _) => (Event::Load(thread, entry), false),
        (2, _) => (Event::Add(thread), false),
        (3, _) => (Event::Add(thread), false),
        (4, _) => (Event::Add(thread), false),
        (5, true) => (Event::Lower(thread), false),
        (5, false) => (Event::Add(thread), false),
        (6, true) => (Event::Raise(thread), false),
        (6, false) => (Event::Lower(thread), false),
        (7, true) => (Event::Exit(thread), true),
        (7, false) => (Event::Raise(thread), false),
        _ => (Event::Exit(thread), true),
    };
    Next { event, last }
}

// An atomic step of the recorder.
pub(crate) fn apply(alloc: Global, core: &mut Core, event: Event) -> M<Applied>
    requires { FitsEvent event }
    ensures { OnOk result ((n : Numbers) (state : CoreState) → CoreIs core.old n state → CoreIs core.new n (next_state n state event)) }
{
    core.apply(alloc, event)
}

// The number in a word.
fn word(core: &Core, index: u32) -> u64
    ensures { result ≡ slice_index core.now.words index }
{
    core.word(index).unwrap_or(0)
}

// The interval that is known after this step.
fn interval_after(event: &Event, active: u64, interval: u64) -> u64
    ensures { (words : List ℕ) → active ≡ slice_index words 0 → result ≡ interval_after event.now words interval }
{
    match event {
        Event::Load(_, _) => active,
        _ => interval,
    }
}

// The word of a lock.
fn word_of(locks: &Vec<u64>, lock: u16) -> u64
    ensures { result ≡ slice_index locks.now.items lock }
{
    locks.get(usize::from(lock)).copied().unwrap_or(0)
}

// The word of a lock goes up by one.
fn raise_word(locks: &mut Vec<u64>, lock: u16)
    requires { slice_index locks.old.items lock < 4294967296 }
    ensures { locks.new.items ≡ lock_left (Some lock) locks.old.items }
{
    let next = word_of(locks, lock) + 1;
    let index = usize::from(lock);
    if index < locks.len() {
        locks[index] = next;
    }
}

// The section of this lock is left, if any.
fn leave(locks: &mut Vec<u64>, left: Option<u16>)
    requires { (lock : ℕ) → slice_index locks.old.items lock < 4294967296 }
    ensures { locks.new.items ≡ lock_left left locks.old.items }
{
    if let Some(lock) = left {
        raise_word(locks, lock);
    }
}

fn is_odd(word: u64) -> bool
    ensures { result ≡ is_odd word }
{
    word % 2 == 1
}

/// Whether a thread is to enter a section that is busy.
pub fn is_blocked(seat: &Seat<'_>, locks: &Vec<u64>) -> bool
    ensures { result ≡ is_blocked locks.now.items seat.now.owed }
{
    match seat.owed {
        Owed::Enter(lock) => is_odd(word_of(locks, lock)),
        Owed::Nothing | Owed::Record { .. } | Owed::Stop => false,
    }
}

// The next step of a sample's record. After the last one the trace shows the sample.
fn record_turn(
    alloc: Global,
    seat: &mut Seat<'_>,
    core: &mut Core,
    entry: Entry,
    done: u8,
    interval: u64,
) -> M<()>
    requires owed { seat.old.owed ≡ Owed.Record entry done interval }
    requires is { (t : Thread) × SeatIs seat.old t }
    ensures turned { OnOk result ((locks : List ℕ) → TurnsIn seat.old core.old locks seat.new core.new locks) }
    ensures thread { OnOk result (IsSameThread seat.old seat.new) }
    ensures section { OnOk result (seat.new.worker.section ≡ seat.old.worker.section) }
    ensures lighter { OnOk result (turns_left seat.new < turns_left seat.old) }
    ensures keeps { OnOk result (KeepsOn seat.old seat.new) }
{
    let next = next_of(seat.number, entry, done);
    let active = word(core, 0);
    apply(alloc, core, next.event)?;
    seat.recorded(
        next.last,
        entry,
        done,
        interval_after(&next.event, active, interval),
    );
    Ok(())
}

// One try to enter the section of a lock: an odd word is busy.
fn try_turn(seat: &mut Seat<'_>, locks: &mut Vec<u64>, lock: u16)
    requires owed { seat.old.owed ≡ Owed.Enter lock }
    requires is { (t : Thread) × SeatIs seat.old t }
    requires words { HasWords seat.old locks.old.items }
    ensures turned { (core : Shape) → TurnsIn seat.old core locks.old.items seat.new core locks.new.items }
    ensures thread { IsSameThread seat.old seat.new }
    ensures moves { MovesOne seat.old.worker.section seat.new.worker.section locks.old.items locks.new.items }
    ensures lighter { Lightens locks.old.items locks.new.items seat.old seat.new }
    ensures keeps { KeepsOn seat.old seat.new }
{
    let word = word_of(locks, lock);
    if is_odd(word) {
        return;
    }
    seat.entered(lock, word / 2);
    raise_word(locks, lock);
}

// A thread that owes nothing looks at the stop word, and then is stopped or makes its next step. The section that it leaves
// is left in the same turn.
fn free_turn(alloc: Global, seat: &mut Seat<'_>, core: &mut Core, locks: &mut Vec<u64>) -> M<()>
    requires owed { seat.old.owed ≡ Owed.Nothing }
    requires is { (t : Thread) × SeatIs seat.old t }
    requires words { HasWords seat.old locks.old.items }
    ensures turned { OnOk result (TurnsIn seat.old core.old locks.old.items seat.new core.new locks.new.items) }
    ensures thread { OnOk result (IsSameThread seat.old seat.new) }
    ensures moves { OnOk result (MovesOne seat.old.worker.section seat.new.worker.section locks.old.items locks.new.items) }
    ensures lighter { OnOk result (Lightens locks.old.items locks.new.items seat.old seat.new) }
    ensures keeps { OnOk result (KeepsOn seat.old seat.new) }
{
    if seat.ended {
        return Ok(());
    }
    let seen = word(core, 4);
    apply(alloc, core, Event::LookStop(seat.number))?;
    if seen == 1 {
        let open = seat.stop();
        leave(locks, open);
        Ok(())
    } else {
        let left = seat.step()?;
        leave(locks, left);
        Ok(())
    }
}

// A thread raises stop.
fn raise_turn(alloc: Global, seat: &mut Seat<'_>, core: &mut Core) -> M<()>
    requires owed { seat.old.owed ≡ Owed.Stop }
    requires is { (t : Thread) × SeatIs seat.old t }
    ensures turned { OnOk result ((locks : List ℕ) → TurnsIn seat.old core.old locks seat.new core.new locks) }
    ensures thread { OnOk result (IsSameThread seat.old seat.new) }
    ensures section { OnOk result (seat.new.worker.section ≡ seat.old.worker.section) }
    ensures lighter { OnOk result (turns_left seat.new < turns_left seat.old) }
    ensures keeps { OnOk result (KeepsOn seat.old seat.new) }
{
    apply(alloc, core, Event::RaiseStop(seat.number))?;
    seat.owed = Owed::Nothing;
    Ok(())
}

/// One turn of a thread: the next step of the sample that it records, one try to enter, the stop that it raises, or its next
/// step.
pub fn seat_turn(alloc: Global, seat: &mut Seat<'_>, core: &mut Core, locks: &mut Vec<u64>) -> M<()>
    requires is { (t : Thread) × SeatIs seat.old t }
    requires words { HasWords seat.old locks.old.items }
    ensures turned { OnOk result (TurnsIn seat.old core.old locks.old.items seat.new core.new locks.new.items) }
    ensures thread { OnOk result (IsSameThread seat.old seat.new) }
    ensures moves { OnOk result (MovesOne seat.old.worker.section seat.new.worker.section locks.old.items locks.new.items) }
    ensures lighter { OnOk result (Lightens locks.old.items locks.new.items seat.old seat.new) }
    ensures keeps { OnOk result (KeepsOn seat.old seat.new) }
{
    match seat.owed {
        Owed::Nothing => free_turn(alloc, seat, core, locks),
        Owed::Record {
            entry,
            done,
            interval,
        } => record_turn(alloc, seat, core, entry, done, interval),
        Owed::Enter(lock) => {
            try_turn(seat, locks, lock);
            Ok(())
        }
        Owed::Stop => raise_turn(alloc, seat, core),
    }
}

/// One turn of the thread of this number. A number that is no thread's has an empty turn.
pub fn thread_turn(
    alloc: Global,
    seats: &mut Vec<Seat<'_>>,
    core: &mut Core,
    locks: &mut Vec<u64>,
    thread: u8,
) -> M<()>
    requires runs { (n : Numbers) × (s : Weave) × RunsOn n seats.old.items core.old locks.old.items s }
    requires locked { Locked seats.old.items locks.old.items }
    ensures turned { OnOk result ((n : Numbers) (s : Weave) → RunsOn n seats.old.items core.old locks.old.items s → RunsOn n seats.new.items core.new locks.new.items (thread_turn n thread s)) }
    ensures locked { OnOk result (Locked seats.new.items locks.new.items) }
    ensures lighter { OnOk result (TakesTurn locks.old.items locks.new.items seats.old.items seats.new.items thread) }
    ensures keeps { OnOk result (AllKeepOn seats.old.items seats.new.items) }
{
    let index = usize::from(thread);
    if index >= seats.len() {
        return Ok(());
    }
    seat_turn(alloc, &mut seats[index], core, locks)
}
