//! Enters and leaves as many sections of one lock as its argument says, with nobody else there, so that a script can time it.
#![tactic(auto)]

ghost use Rattle.std.specs.Prelude.{◌≡◌, ◌<◌, ◌≤◌, length, None};
ghost use Rattle.critical_section.specs.Book.{HasAllJoined, IsFirst, opening_view};
ghost use Rattle.critical_section.specs.SectionSeats.{IsSeatOf, locks_of, view_of};

use critical_section::{MOST_SECTIONS, SectionSeat, Sections};
use std::env;
use std::sync::Wait;

/// Enters and leaves `count` sections.
fn pass<R: Wait>(rt: &R, sections: &Sections, seat: &mut SectionSeat, count: u64)
    requires seat { IsSeatOf sections.now seat.old }
    requires lock { 0 < locks_of sections.now }
    requires opening { view_of seat.old ≡ opening_view }
    requires count { count ≤ MOST_SECTIONS }
    ensures seat { IsSeatOf sections.now seat.new }
    ensures left { (view_of seat.new).inside ≡ None }
    ensures whole { IsFirst (view_of seat.new) × HasAllJoined (view_of seat.new) }
{
    for _round in 0..count {
        let _place = sections.enter(rt, seat, 0);
        sections.leave(seat, 0);
    }
}

fn main(rt: HostRuntime) -> anyhow::Result<()> {
    let mut count = 1000;
    for word in env::args(&rt)?.skip(1) {
        count = word.parse::<u64>()?;
    }
    let (sections, mut seat) = Sections::new(rt.alloc(), 1, 1)?;
    pass(&rt, &sections, &mut seat, count.min(MOST_SECTIONS));
    let sections = sections.finish(seat).sections(0);
    println!(rt; "{sections} sections")?;
    Ok(())
}
