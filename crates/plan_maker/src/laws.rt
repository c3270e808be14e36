// The definition of the plan, at small numbers.

ghost use Rattle.std.specs.Prelude.{◌≡◌};
ghost use Rattle.plan_maker.specs.Generated.{generated, pair, plan_of_one, twentieth};

/// A law: the plan of size 1 is its four elements, and the twentieth loop and its sampler are as they are spelled out.
/// It does nothing.
pub fn small_plan()
    ensures one { generated 1 ≡ plan_of_one }
    ensures later { pair 19 ≡ twentieth }
{}
