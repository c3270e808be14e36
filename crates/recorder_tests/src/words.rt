//! What no clause says: that the calls succeed with ample memory, and what the words hold.
ghost use Rattle.std.specs.Prelude.{◌≡◌, ◌<◌};

use jm_base::Entry;
use phaser_core::Applied;
use phaser_words::{Steps, Words};
use std::alloc::Global;
use std::marker::Brand;
use std::process::Abort;
use std::sync::ledger::{Blank, Ledger};
use std::test::Fail;

const HALF: u64 = 1 << 63;

// A writer enters before the phase turns, and loads the active word after.
fn a_slow_writer<L: Ledger>(rt: &impl Abort, alloc: Global, blank: Blank) -> Result<(), Fail>
    requires { (blank.name ≡ L.name) × (blank.parts ≡ L.parts) × (0 < blank.parts) }
{
    let (words, mut reporter, mut writer) = Words::new(alloc, 1, 1, 10)?;
    let mut steps = Steps::<L>::new(blank);
    let entry = Entry {
        label: 0,
        ok: true,
        elapsed: 5,
        bytes: 0,
    };
    assert_eq!(rt; words.enter(&mut writer, &mut steps), 0);
    assert_eq!(rt; words.swap_active(&mut reporter), 0);
    assert_eq!(rt; words.clear_end(&mut reporter), HALF);
    assert_eq!(rt; words.flip(&mut reporter), 1);
    assert!(rt;
        matches!(
            words.look(&mut reporter),
            Applied::NotYet { seen: 0, want: 1 }
        )
    );
    assert_eq!(rt; words.load(&mut writer, entry, &mut steps), 1);
    Ok(())
}

#[test]
fn the_reporter_waits_for_a_writer_that_is_inside(rt: HostRuntime) -> Result<(), Fail> {
    a_slow_writer::<Brand>(&rt, rt.alloc(), Blank::new(1))
}

#[test]
fn a_raised_stop_is_seen_by_every_writer(rt: HostRuntime) -> Result<(), Fail> {
    let (words, mut reporter, mut first) = Words::new(rt.alloc(), 1, 2, 10)?;
    let mut second = words.split(&mut first);
    assert_eq!(rt; words.look_stop(&mut second), 0);
    assert_eq!(rt; words.raise_stop(&mut first), 0);
    assert_eq!(rt; words.look_stop(&mut second), 1);
    assert_eq!(rt; words.reporter_stop(&mut reporter), 1);
    words.join(&mut reporter, second);
    words.join(&mut reporter, first);
    assert_eq!(rt; words.read(&mut reporter, 4), u64::MAX);
    assert_eq!(rt; words.close(reporter).word(4), 1);
    Ok(())
}
