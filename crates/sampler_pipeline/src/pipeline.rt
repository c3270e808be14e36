// Samplers one after another.

ghost use Rattle.std.specs.Prelude.{◌≡◌, Err, IfOk, IfSome};
ghost use Rattle.jm_base.specs.Run.{over};
ghost use Rattle.var_functions.specs.Came.{CameTo};
ghost use Rattle.var_functions.specs.FunctionState.{IsLater};
ghost use Rattle.trials.specs.Tried.{fine, past_limit};
ghost use Rattle.sampler_pipeline.specs.SamplerPipeline.{label_at, pipeline};
ghost use Rattle.sampler_pipeline.specs.PipelineCut.{cut_pipeline};

use crate::run::{Done, run_pipeline};
use element_tree::{Package, Plan};
use jm_base::Outside;
use reply_search::Searches;
use std::alloc::Global;
use std::marker::Model;
use var_functions::{UserState, VarError};

/// Runs samplers one after another. It keeps from one to the next what searches for patterns, which saves time. Contracts see
/// nothing of it, since no answer depends on it.
#[derive(Drop)]
pub struct Pipeline<'p> {
    alloc: Global,
    searches: Searches<'p>,
}

impl<'p> Model for Pipeline<'p> {
    ghost use Rattle.std.specs.Prelude.{⊤};

    ghost Value = { ⊤ };

    ghost view = { λ _. tt };
}

impl<'p> Pipeline<'p> {
    /// Nothing is kept yet. It takes no memory.
    pub fn new(alloc: Global) -> Pipeline<'p> {
        Pipeline {
            alloc,
            searches: Searches::new(alloc),
        }
    }

    /// Runs one sampler of the plan, as `run_one` does, and lists no elements.
    pub fn run<O: Outside>(
        &mut self,
        plan: &'p Plan,
        scope: &Package,
        sampler: u16,
        state: &mut UserState,
        outside: &mut O,
    ) -> Result<Done, VarError>
        ensures came { CameTo (O.account outside.old) (pipeline plan.now.elements scope.now sampler state.old) (O.account outside.new)
            (λ done. over (fine done state.new)) (over (past_limit state.new)) result }
        ensures label { IfOk result (λ done. IfSome done.sample (λ s. s.label ≡ label_at plan.now.elements sampler)) }
        ensures cut { result ≡ Err VarError.NoMemory
            → cut_pipeline plan.now.elements scope.now sampler (O.account outside.old) state.old (O.account outside.new) state.new }
        // After every answer, out of memory included.
        ensures later { IsLater state.old.fns state.new.fns }
    {
        run_pipeline(
            self.alloc,
            plan,
            scope,
            sampler,
            state,
            outside,
            &mut self.searches,
        )
    }
}
