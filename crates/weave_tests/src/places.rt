//! Which places the sections of two threads have at one lock, by the order of their turns.
ghost use Rattle.std.specs.Prelude.{◌≤◌, length};

use element_tree::{Plan, RegexPatterns, build};
use jm_base::{Items, M};
use plan_json::read_tree;
use schedule_text::parse_schedule;
use std::alloc::Global;
use std::process::Abort;
use std::test::Fail;
use thread_machine::TraceItem;
use var_functions::Props;
use weave_engine::weave;

// Two threads, each of which makes one sample in a section.
const PLAN: &str =
    r#"{"type":"TestPlan","children":[{"type":"ThreadGroup","name":"TG","props":{"threads":2},"children":[{"type":"CriticalSection","props":{"lock":"db"},"children":[{"type":"Script","name":"A","props":{"replies":[{"ms":5}]}}]}]}]}"#;

// The most samples of a thread.
const BUDGET: u32 = 1000;

fn plan_of(alloc: Global) -> Result<Plan, Fail> {
    let tree = read_tree(alloc, PLAN.as_bytes())?;
    let mut patterns = RegexPatterns::new(Vec::new(alloc));
    let plan = build(alloc, &tree, &mut patterns)?;
    Ok(plan)
}

// The places of the sections that a trace enters, in their order.
fn places_in(alloc: Global, trace: &Items<TraceItem>) -> M<Vec<u64>> {
    let mut places = Vec::new(alloc);
    for item in trace.as_slice() {
        if let TraceItem::Entered { place, .. } = item {
            places.push(*place)?;
        }
    }
    Ok(places)
}

// The places of each thread's sections, by this schedule.
fn woven_places(alloc: Global, schedule: &[u8]) -> Result<Vec<Vec<u64>>, Fail>
    requires { length schedule.now ≤ 65536 }
{
    let plan = plan_of(alloc)?;
    if !plan.samples_fit(BUDGET) {
        return Err(Fail::from("too many samples"));
    }
    let props = Props::read(alloc, b"")?;
    let schedule = parse_schedule(alloc, schedule)?;
    let books = weave(alloc, &plan, &props, 0, BUDGET, &schedule)?;
    let mut places = Vec::new(alloc);
    for trace in books.traces.as_slice() {
        places.push(places_in(alloc, trace)?)?;
    }
    Ok(places)
}

#[test]
fn the_thread_that_finds_the_lock_taken_has_the_next_place(rt: HostRuntime) -> Result<(), Fail> {
    let places = woven_places(rt.alloc(), b"0,1,0,1")?;
    let [first, second] = places.as_slice() else {
        return Err(Fail::from("there are two threads"));
    };
    assert_eq!(rt; first.as_slice(), [0u64].as_slice());
    assert_eq!(rt; second.as_slice(), [1u64].as_slice());
    Ok(())
}

#[test]
fn the_second_thread_has_the_first_place_where_it_comes_first(rt: HostRuntime) -> Result<(), Fail> {
    let places = woven_places(rt.alloc(), b"1,1,0,0")?;
    let [first, second] = places.as_slice() else {
        return Err(Fail::from("there are two threads"));
    };
    assert_eq!(rt; first.as_slice(), [1u64].as_slice());
    assert_eq!(rt; second.as_slice(), [0u64].as_slice());
    Ok(())
}
