//! What no clause says: that the calls succeed with ample memory, and that two threads are never inside one section.
ghost use Rattle.std.specs.Prelude.{◌≡◌, ◌+◌, ◌<◌, ◌≤◌, length, None};
ghost use Rattle.critical_section.specs.Book.{further_view, opening_view};
ghost use Rattle.critical_section.specs.SectionSeats.{view_of, IsSeatOf, locks_of, seats_of};

use critical_section::{MOST_SECTIONS, SectionSeat, Sections, Try};
use std::process::Abort;
use std::sync::Wait;
use std::sync::atomic::{AtomicU64, Ordering};
use std::test::Fail;
use std::thread::join;

#[test]
fn two_seats_on_one_lock_take_turns(rt: HostRuntime) -> Result<(), Fail> {
    let (sections, mut first) = Sections::new(rt.alloc(), 1, 2)?;
    let mut second = sections.split_seat(&mut first);
    assert!(rt; matches!(sections.try_enter(&mut first, 0), Try::Entered(0)));
    assert!(rt; matches!(sections.try_enter(&mut second, 0), Try::Busy(1)));
    sections.leave(&mut first, 0);
    let Try::Entered(place) = sections.try_enter(&mut second, 0) else {
        panic!(rt; "the lock was left");
    };
    assert_eq!(rt; place, 1);
    sections.leave(&mut second, 0);
    sections.join_seat(&mut first, second);
    assert_eq!(rt; sections.finish(first).sections(0), 2);
    Ok(())
}

// Enters a section of the lock, adds 1 to the counter by a load and a store, and leaves. An addition is lost where two
// threads are inside at once.
fn add_inside<R: Wait>(
    rt: &R,
    sections: &Sections,
    seat: &mut SectionSeat,
    lock: u16,
    counter: &AtomicU64,
)
    requires seat { IsSeatOf sections.now seat.old }
    requires lock { lock < locks_of sections.now }
    requires none_open { (view_of seat.old).inside ≡ None }
    requires few { length (view_of seat.old).own < MOST_SECTIONS }
    ensures seat { IsSeatOf sections.now seat.new }
    ensures left { (view_of seat.new).inside ≡ None }
    ensures own { length (view_of seat.new).own ≡ length (view_of seat.old).own + 1 }
    ensures same { ((view_of seat.new).made ≡ (view_of seat.old).made) × ((view_of seat.new).seats ≡ (view_of seat.old).seats) }
{
    let _place = sections.enter(rt, seat, lock);
    let value = counter.load(Ordering::SeqCst);
    counter.store(value.wrapping_add(1), Ordering::SeqCst);
    sections.leave(seat, lock);
}

fn add_often<R: Wait>(
    rt: &R,
    sections: &Sections,
    mut seat: SectionSeat,
    counter: &AtomicU64,
) -> SectionSeat
    requires seat { IsSeatOf sections.now seat }
    requires lock { 0 < locks_of sections.now }
    requires fresh { view_of seat ≡ further_view }
    ensures seat { IsSeatOf sections.now result }
    ensures left { (view_of result).inside ≡ None }
    ensures one { (view_of result).seats ≡ 1 }
{
    for _round in 0..1000u32 {
        add_inside(rt, sections, &mut seat, 0, counter);
    }
    seat
}

#[test]
fn two_threads_are_never_inside_at_once(rt: HostRuntime) -> Result<(), Fail> {
    let counter = AtomicU64::new(0);
    let (sections, mut first) = Sections::new(rt.alloc(), 1, 3)?;
    let second = sections.split_seat(&mut first);
    let third = sections.split_seat(&mut first);
    let (second, third) = join(
        &rt,
        || add_often(&rt, &sections, second, &counter),
        || add_often(&rt, &sections, third, &counter),
    );
    sections.join_seat(&mut first, second);
    sections.join_seat(&mut first, third);
    assert_eq!(rt; counter.load(Ordering::SeqCst), 2000);
    assert_eq!(rt; sections.finish(first).sections(0), 2000);
    Ok(())
}

// A seat that is alone enters at its first try.
fn pass_alone(rt: &impl Abort, sections: &Sections, seat: &mut SectionSeat, lock: u16)
    requires seat { IsSeatOf sections.now seat.old }
    requires lock { lock < locks_of sections.now }
    requires none_open { (view_of seat.old).inside ≡ None }
    requires few { length (view_of seat.old).own < MOST_SECTIONS }
    requires alone { (0 < (view_of seat.old).made) × ((view_of seat.old).made ≡ (view_of seat.old).seats) }
    ensures seat { IsSeatOf sections.now seat.new }
    ensures left { (view_of seat.new).inside ≡ None }
    ensures own { length (view_of seat.new).own ≡ length (view_of seat.old).own + 1 }
    ensures same { ((view_of seat.new).made ≡ (view_of seat.old).made) × ((view_of seat.new).seats ≡ (view_of seat.old).seats) }
{
    let Try::Entered(place) = sections.try_enter(seat, lock) else {
        unreachable!()
    };
    assert_eq!(rt; place, 0);
    sections.leave(seat, lock);
}

// The first seat passes the first locks, and then a further seat for each.
fn pass_each(rt: &impl Abort, sections: &Sections, first: &mut SectionSeat, locks: u16)
    requires seat { IsSeatOf sections.now first.old }
    requires opening { view_of first.old ≡ opening_view }
    requires locks { locks ≤ locks_of sections.now }
    ensures seat { IsSeatOf sections.now first.new }
    ensures left { (view_of first.new).inside ≡ None }
    ensures alone { ((view_of first.new).made ≡ 1) × ((view_of first.new).seats ≡ 1) }
    ensures own { length (view_of first.new).own ≡ locks }
{
    for lock in 0..locks {
        pass_alone(rt, sections, first, lock);
    }
}

fn pass_by_new_seats(rt: &impl Abort, sections: &Sections, first: &mut SectionSeat, seats: u16)
    requires seat { IsSeatOf sections.now first.old }
    requires none_open { (view_of first.old).inside ≡ None }
    requires alone { ((view_of first.old).made ≡ 1) × ((view_of first.old).seats ≡ 1) }
    requires room { (seats < seats_of sections.now) × (seats ≤ locks_of sections.now) }
    ensures seat { IsSeatOf sections.now first.new }
    ensures left { (view_of first.new).inside ≡ None }
    ensures alone { ((view_of first.new).made ≡ seats + 1) × ((view_of first.new).seats ≡ seats + 1) }
{
    for lock in 0..seats {
        let mut seat = sections.split_seat(first);
        let Try::Entered(place) = sections.try_enter(&mut seat, lock) else {
            panic!(rt; "the lock was left");
        };
        assert_eq!(rt; place, 1);
        sections.leave(&mut seat, lock);
        sections.join_seat(first, seat);
    }
}

#[test]
fn the_most_locks_and_the_most_seats_can_be_used(rt: HostRuntime) -> Result<(), Fail> {
    let (sections, mut first) = Sections::new(rt.alloc(), 256, 65)?;
    pass_each(&rt, &sections, &mut first, 256);
    pass_by_new_seats(&rt, &sections, &mut first, 64);
    let book = sections.finish(first);
    for lock in 0..256u16 {
        assert_eq!(rt; book.sections(lock), if lock < 64 { 2 } else { 1 });
    }
    Ok(())
}
