//! A world opens and closes an outside with ample memory.
ghost use Rattle.std.specs.Prelude.{◌<◌};

use element_tree::{Plan, RegexPatterns, build};
use jm_base::M;
use outside_world::{ScriptWorld, World};
use plan_json::read_tree;
use std::alloc::Global;
use std::process::Abort;
use std::test::Fail;

const PLAN: &str =
    r#"{"type":"TestPlan","children":[{"type":"ThreadGroup","name":"TG","children":[{"type":"Script","name":"A","props":{"replies":[{"ms":5}]}}]}]}"#;

fn plan_of(alloc: Global, text: &str) -> Result<Plan, Fail> {
    let tree = read_tree(alloc, text.as_bytes())?;
    let mut patterns = RegexPatterns::new(Vec::new(alloc));
    let plan = build(alloc, &tree, &mut patterns)?;
    Ok(plan)
}

// Whether an outside that a new world opens for this thread was told nothing. It is closed again.
fn opens_and_closes(alloc: Global, plan: &Plan, number: u16) -> M<bool>
    requires { number < 64 }
{
    let mut world = ScriptWorld::new(alloc);
    let outside = world.open(number, plan)?;
    let told = outside.told(alloc)?;
    let told_nothing = matches!(&told, Some(calls) if calls.is_empty());
    world.close(number, outside);
    Ok(told_nothing)
}

#[test]
fn an_outside_is_opened_and_closed(rt: HostRuntime) -> Result<(), Fail> {
    let plan = plan_of(rt.alloc(), PLAN)?;
    assert!(rt; opens_and_closes(rt.alloc(), &plan, 0)?);
    assert!(rt; opens_and_closes(rt.alloc(), &plan, 63)?);
    Ok(())
}
