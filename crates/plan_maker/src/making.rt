// Makes the plan of a size.

ghost use Rattle.std.specs.Prelude.{◌≡◌, ◌≤◌, IfOk, IfErr};
ghost use Rattle.plan_json.specs.TreeSeen.{raw_view};
ghost use Rattle.plan_maker.specs.Generated.{generated};
ghost use Rattle.plan_maker.specs.Raws.{plan_raw};

use crate::elements::plan_tree;
use element_tree::{BuildError, Plan, RegexPatterns, build};
use jm_base::{M, NoMemory};
use plan_json::RawElement;
use std::alloc::Global;

/// The most loops: with the test plan, the group and a sampler in each loop they are 4,096 elements.
pub const SIZE_LIMIT: u16 = 2047;

// The plan of a tree, which is that of a size. No pattern is asked for.
fn built(alloc: Global, tree: &RawElement, size: u16) -> Result<Plan, BuildError>
    requires tree { raw_view tree.now ≡ plan_raw size }
    requires few { size ≤ SIZE_LIMIT }
    ensures plan { IfOk result (λ plan. plan ≡ generated size) }
    ensures memory { IfErr result (λ e. e ≡ BuildError.NoMemory) }
{
    let mut patterns = RegexPatterns::new(Vec::new(alloc));
    build(alloc, tree, &mut patterns)
}

/// The plan of this size, 1 to 2,047: a test plan over one thread group, `TG`, which has all defaults, and in it that many
/// loops, `L0`, `L1` and on. The loop of number i goes round (i mod 7) + 1 times over one sampler, whose name is `S` and
/// i mod 16. The sampler answers with one reply, of i mod 10 milliseconds and code 200, or 500 where i mod 5 is 4.
/// Its only error is out of memory.
pub fn make_plan(alloc: Global, size: u16) -> M<Plan>
    requires some { 1 ≤ size }
    requires few { size ≤ SIZE_LIMIT }
    ensures { IfOk result (λ plan. plan ≡ generated size) }
{
    let tree = plan_tree(alloc, size)?;
    match built(alloc, &tree, size) {
        Ok(plan) => Ok(plan),
        Err(BuildError::NoMemory) => Err(NoMemory),
        Err(_) => unreachable!(),
    }
}
