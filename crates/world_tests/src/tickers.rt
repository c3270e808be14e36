//! What no clause says of the ticker over the machine's clock, and the answers of a list one after another.

use outside_world::{MemTicker, RealTicker, Ticker};
use std::process::Abort;
use std::test::Fail;
use std::time::{Clock, Duration};

#[test]
fn the_answers_of_a_list_come_in_order_and_then_false(rt: HostRuntime) -> Result<(), Fail> {
    let mut ticker = MemTicker::new(vec![in rt.alloc(); false, true, true]?);
    ticker.every(500);
    for want in [false, true, true, false, false] {
        assert_eq!(rt; ticker.tick(), want);
    }
    Ok(())
}

#[test]
fn an_interval_ends_after_its_period(rt: HostRuntime) -> Result<(), Fail> {
    let start = rt.monotonic()?;
    let mut ticker = RealTicker::new(&rt);
    ticker.every(3);
    let mut ends = 0u32;
    for _ in 0..100_000u32 {
        if ends < 5 && ticker.tick() {
            ends += 1;
        }
    }
    assert_eq!(rt; ends, 5);
    let passed = rt.monotonic()?.saturating_sub(start);
    assert!(rt; passed >= Duration::from_millis(15));
    Ok(())
}

#[test]
fn a_ticker_that_waits_sleeps(rt: HostRuntime) -> Result<(), Fail> {
    let mut ticker = RealTicker::new(&rt);
    for period in [0, 3_600_000] {
        if period > 0 {
            ticker.every(period);
        }
        let start = rt.monotonic()?;
        for _ in 0..20u32 {
            assert!(rt; !ticker.tick());
        }
        let passed = rt.monotonic()?.saturating_sub(start);
        assert!(rt; passed >= Duration::from_millis(20));
    }
    Ok(())
}
