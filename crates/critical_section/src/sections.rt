//! The calls: seats that enter and leave the sections of locks, and the book of all sections at the end.
ghost use Rattle.std.specs.Prelude.{◌≡◌, ℕ, ◌<◌, ◌≤◌, ◌∷◌, length, None, IfOk};
ghost use Rattle.critical_section.specs.Book.{closed, taking, one_more, further_view, opening_view, HasOpen, IsFirst, HasAllJoined, IsAlone, Enters, FindsBusy, HasPlacesBelow};
ghost use Rattle.critical_section.specs.SectionSeats.{view_of, IsSeatOf, IfEntered, IfBusy, locks_of, seats_of, book_lists, book_locks};

use crate::places::{SectionBook, SectionSeat, Sections};
use crate::rule::{
    Exchanges, Further, Leaves, Limits, Loads, MOST_LOCKS, MOST_SEATS, MOST_SECTIONS, Taken,
    Telling,
};
use atomic_table::Table;
use jm_base::M;
use std::alloc::Global;
use std::sync::Wait;
use std::sync::atomic::{AtomicU64, Ordering};
use std::thread;
use std::time::Duration;

// How many tries of a thread that waits are followed by a yield of its processor, and those after them by a sleep.
const YIELDS: u32 = 64;

// How often a thread that has left a section yields its processor at most until one that slept has entered.
const HANDING_OVER: u32 = 256;

// How long a sleep lasts at most, in milliseconds, where nobody wakes the thread.
const LONGEST_SLEEP: u64 = 100;

// No thread sleeps at any of that many locks.
fn no_sleepers(alloc: Global, locks: u16) -> M<Vec<AtomicU64>> {
    let mut sleepers = Vec::new(alloc);
    for _ in 0..locks {
        sleepers.push(AtomicU64::new(0))?;
    }
    Ok(sleepers)
}

/// What one try gave.
#[derive(Clone, Copy, PartialEq, Eq, Debug)]
pub enum Try {
    /// The seat has the section of this place open.
    Entered(u64),
    /// The word that stood in the way: an odd one, as another seat has a section open, or another one than was loaded.
    Busy(u64),
}

impl Sections {
    /// Locks, none of them open, and the first of `seats` seats.
    pub fn new(alloc: Global, locks: u16, seats: u16) -> M<(Sections, SectionSeat)>
        requires locks { (1 ≤ locks) × (locks ≤ MOST_LOCKS) }
        requires seats { (1 ≤ seats) × (seats ≤ MOST_SEATS) }
        ensures seat { IfOk result (λ r. IsSeatOf r.0 r.1) }
        ensures limits { IfOk result (λ r. (locks_of r.0 ≡ locks) × (seats_of r.0 ≡ seats)) }
        ensures view { IfOk result (λ r. view_of r.1 ≡ opening_view) }
    {
        let words = Vec::from_elem(alloc, 0u64, locks as usize)?;
        let limits = Limits { locks, seats };
        let sleepers = no_sleepers(alloc, locks)?;
        let (table, seat) = Table::of_words(alloc, words.as_slice(), &limits)?;
        Ok((Sections { table, sleepers }, SectionSeat { seat }))
    }

    /// Makes one more seat, for another thread.
    pub fn split_seat(&self, first: &mut SectionSeat) -> SectionSeat
        requires seat { IsSeatOf self.now first.old }
        requires first { IsFirst (view_of first.old) }
        requires room { (view_of first.old).made < seats_of self.now }
        ensures seats { IsSeatOf self.now first.new × IsSeatOf self.now result }
        ensures first { view_of first.new ≡ one_more (view_of first.old) }
        ensures made { view_of result ≡ further_view }
    {
        let seat = self.table.shared.split_seat::<Further>(&mut first.seat);
        SectionSeat { seat }
    }

    /// Tries once to enter a section of the lock: a load, and where it finds an even word an exchange.
    /// A seat that is alone, as where only one was made, always enters.
    pub fn try_enter(&self, seat: &mut SectionSeat, lock: u16) -> Try
        requires seat { IsSeatOf self.now seat.old }
        requires lock { lock < locks_of self.now }
        requires none_open { (view_of seat.old).inside ≡ None }
        requires few { length (view_of seat.old).own < MOST_SECTIONS }
        ensures seat { IsSeatOf self.now seat.new }
        ensures entered { IfEntered result (λ place. Enters lock place (view_of seat.old) (view_of seat.new)) }
        ensures busy { IfBusy result (λ seen. FindsBusy lock seen (view_of seat.old) (view_of seat.new)) }
        ensures alone { IfBusy result (λ _. ¬ (IsAlone (view_of seat.old))) }
    {
        let shared = &self.table.shared;
        let seen = shared.load::<Loads>(&mut seat.seat, lock as usize);
        if seen % 2 == 1 {
            return Try::Busy(seen);
        }
        let found = shared.compare_exchange::<Exchanges>(
            &mut seat.seat,
            lock as usize,
            seen,
            seen + 1,
        );
        if found == seen {
            Try::Entered(seen / 2)
        } else {
            Try::Busy(found)
        }
    }

    /// Tries until a section of the lock is open, and gives its place. After each of the first 64 tries it yields its processor.
    /// After each further one that found a section open it sleeps until that is left, so that a thread that waits burns no processor.
    /// No clause says that it returns, or who enters next.
    pub fn enter<R: Wait>(&self, rt: &R, seat: &mut SectionSeat, lock: u16) -> u64
        requires seat { IsSeatOf self.now seat.old }
        requires lock { lock < locks_of self.now }
        requires none_open { (view_of seat.old).inside ≡ None }
        requires few { length (view_of seat.old).own < MOST_SECTIONS }
        ensures seat { IsSeatOf self.now seat.new }
        ensures entered { Enters lock result (view_of seat.old) (view_of seat.new) }
    {
        let mut tries: u32 = 0;
        for _ in rt.forever() {
            match self.try_enter(seat, lock) {
                Try::Entered(place) => return place,
                Try::Busy(seen) if tries >= YIELDS && seen % 2 == 1 => self.sleep(rt, lock, seen),
                Try::Busy(_) => thread::yield_now(),
            }
            tries = tries.saturating_add(1);
        }
        unreachable!()
    }

    // Sleeps until a section of the lock is left, at once over where its word is another one than this.
    fn sleep<R: Wait>(&self, rt: &R, lock: u16, seen: u64)
        requires { lock < locks_of self.now }
    {
        let Some(sleepers) = self.sleepers.get(usize::from(lock)) else {
            return;
        };
        let low = (seen % (1 << 32)) as u32;
        let longest = Duration::from_millis(LONGEST_SLEEP);
        sleepers.fetch_add(1, Ordering::SeqCst);
        self.table
            .shared
            .park_timeout(rt, lock as usize, low, longest);
        sleepers.fetch_sub(1, Ordering::SeqCst);
    }

    // Where a thread sleeps at the lock, wakes one, and gives it time to enter.
    fn hand_over(&self, lock: u16)
        requires { lock < locks_of self.now }
    {
        let Some(sleepers) = self.sleepers.get(usize::from(lock)) else {
            return;
        };
        if sleepers.load(Ordering::SeqCst) == 0 {
            return;
        }
        self.table.shared.wake_one(lock as usize);
        for _ in 0..HANDING_OVER {
            if self.table.shared.peek(lock as usize) % 2 == 1 {
                return;
            }
            thread::yield_now();
        }
    }

    /// Ends the seat's open section of the lock. Where threads sleep at the lock it wakes one, and yields its processor until a
    /// thread has entered, 256 times at most.
    pub fn leave(&self, seat: &mut SectionSeat, lock: u16)
        requires seat { IsSeatOf self.now seat.old }
        requires lock { lock < locks_of self.now }
        requires open { HasOpen lock (view_of seat.old) }
        ensures seat { IsSeatOf self.now seat.new }
        ensures closed { view_of seat.new ≡ closed (view_of seat.old) }
    {
        self.table
            .shared
            .fetch_add::<Leaves>(&mut seat.seat, lock as usize, 1);
        self.hand_over(lock);
    }

    /// The first seat takes another in, with its list.
    pub fn join_seat(&self, into: &mut SectionSeat, gone: SectionSeat)
        requires seats { IsSeatOf self.now into.old × IsSeatOf self.now gone }
        requires first { IsFirst (view_of into.old) }
        requires none_open { (view_of gone).inside ≡ None }
        ensures seat { IsSeatOf self.now into.new }
        ensures taken { view_of into.new ≡ taking (view_of into.old) (view_of gone) }
    {
        let SectionSeat { seat } = gone;
        self.table.shared.join_seat::<Taken>(&mut into.seat, seat);
    }

    /// The book of all sections, once every other seat was joined: of each lock it has the places from 0 on, each once.
    pub fn finish(self, seat: SectionSeat) -> SectionBook
        requires seat { IsSeatOf self seat }
        requires first { IsFirst (view_of seat) }
        requires joined { HasAllJoined (view_of seat) }
        requires none_open { (view_of seat).inside ≡ None }
        ensures lists { book_lists result ≡ (view_of seat).own ∷ (view_of seat).joined }
        ensures locks { book_locks result ≡ locks_of self }
        ensures numbered { (lock : ℕ) → lock < locks_of self → (n : ℕ) × HasPlacesBelow lock n (book_lists result) }
    {
        let SectionSeat { mut seat } = seat;
        let lists = self.table.shared.split_seat::<Telling>(&mut seat);
        let Sections { table, sleepers: _ } = self;
        let closed = table.close_with(seat);
        SectionBook { closed, lists }
    }
}

impl SectionBook {
    /// How many sections the lock had.
    pub fn sections(&self, lock: u16) -> u64
        requires { lock < book_locks self.now }
        ensures { HasPlacesBelow lock result (book_lists self.now) }
    {
        self.closed.word(lock as usize) / 2
    }
}
