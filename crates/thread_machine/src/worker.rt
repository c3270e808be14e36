// One thread of a plan, a step at a time.

ghost use Rattle.std.specs.Prelude.{◌≡◌, ◌+◌, ◌<◌, ◌≤◌, ◌++◌, ◌∷◌, [], length, true, false, Some, None, All, IsSome, IfOk, IfSome};
ghost use Rattle.element_tree.specs.Tree.{threads_of};
ghost use Rattle.element_tree.specs.Names.{labels_of};
ghost use Rattle.thread_machine.specs.Bare.{IsLabelled};
ghost use Rattle.jm_base.specs.Outside.{Account};
ghost use Rattle.jm_meaning.specs.Beginning.{Options};
ghost use Rattle.thread_machine.specs.Standing.{IsAtStart, Stands};
ghost use Rattle.thread_machine.specs.SoFar.{StandsAfter, ShowsAPrefix};
ghost use Rattle.thread_machine.specs.Stepped.{Steps};
ghost use Rattle.thread_machine.specs.Follows.{WasStopped};
ghost use Rattle.thread_machine.specs.SampleCounts.{uses_in};
ghost use Rattle.thread_machine.specs.SectionOrder.{SectionsFrom, left_traced};
ghost use Rattle.thread_machine.specs.Ran.{is_end};

use crate::runner::Runner;
use crate::step::Step;
use crate::trace::TraceItem;
use element_tree::Plan;
use jm_base::{End, M, Outside};
use sampler_pipeline::Pipeline;
use std::alloc::Global;
use std::marker::Model;
use var_functions::Props;

/// One thread of a plan: its variables, its open controllers and its open section, its sample budget and its trace.
/// It is used with one outside, from the first step to the last.
#[derive(Drop)]
pub struct Worker<'p> {
    runner: Runner<'p>,
    // What runs its samplers. It stands beside the runner, whose other parts have nothing to do with it.
    pipeline: Pipeline<'p>,
    ended: bool,
}

impl<'p> Model for Worker<'p> {
    ghost use Rattle.thread_machine.specs.Standing.{Standing};
    ghost use Rattle.thread_machine.specs.Inside.{standing_of, IsSound};
    ghost use Rattle.std.specs.Coded.{codes};
    ghost use Rattle.template_text.specs.Code.{pieces_code};

    ghost Value = { Standing };

    ghost coded = { Prim.hlevel (codes, pieces_code) };

    ghost view = { λ w. standing_of w.runner w.ended };

    ghost invariant = { λ w. IsSound w.runner w.ended };
}

impl<'p> Worker<'p> {
    /// A thread before its first step, by its number from 0 over all groups. It takes a copy of the properties. `seed` is
    /// that of the run's random words, of which each thread has a stream of its own, and `budget` is how many units its
    /// samplers, transactions and sections may use.
    pub fn new(
        alloc: Global,
        plan: &'p Plan,
        number: u16,
        seed: u64,
        props: &Props,
        budget: u32,
    ) -> M<Worker<'p>>
        requires { number < length (threads_of plan.now) }
        ensures start { IfOk result (IsAtStart plan.now number (record { seed = seed; props = props.now; budget = budget })) }
        ensures stands { IfOk result (λ w. (start : Account)
            → Stands start start (record { seed = seed; props = props.now; budget = budget }) w) }
    {
        Ok(Worker {
            runner: Runner::new(alloc, plan, number, seed, props, budget)?,
            pipeline: Pipeline::new(alloc),
            ended: false,
        })
    }

    /// Goes on to the next sampler and runs it, or to the thread's end. The first step pauses before that, where the group
    /// starts its threads over a time (the manual's "Ramp-Up Period"), and then sets the user defined variables.
    ///
    /// A step that comes to a Critical Section Controller answers `Step::Enter`, where no section is open and a unit is left.
    /// Where its section is left the answer is `Step::Leave`, on a way out too; the caller then leaves the section.
    ///
    /// A step that comes to a sampler, a transaction's sample or a section with no unit left ends the thread with
    /// `End::SampleLimit`, one that comes to a round with none left with `End::RoundLimit`, and a text, a value or variables
    /// past their limit with `End::ValueLimit`. An open section is left first, by a step of its own.
    ///
    /// Out of memory, the same step leaves an open section and ends the thread with `End::NoMemory`; the caller then leaves
    /// the section, as after `stop`.
    pub fn step<O: Outside>(&mut self, outside: &mut O) -> Step
        requires owed { self.old.owed ≡ None }
        requires entering { self.old.entering ≡ None }
        requires going { self.old.ended ≡ false }
        ensures steps { Steps (O.account outside.old) (O.account outside.new) self.old self.new result }
        ensures stands { (start : Account) (options : Options) → Stands start (O.account outside.old) options self.old
            → StandsAfter start (O.account outside.new) options self.old self.new result }
        // Samples and sections use units, those that are still owed to the trace too.
        ensures units { uses_in self.new + self.new.units ≤ uses_in self.old + self.old.units }
    {
        match self.runner.try_step(&mut self.pipeline, outside) {
            Ok(step) => {
                self.ended = is_end(&step);
                step
            }
            Err(_) => {
                self.runner.cut(End::NoMemory);
                self.ended = true;
                Step::Ended(End::NoMemory)
            }
        }
    }

    /// Says in which interval the sample of the last step was counted. Its item is appended to the trace.
    pub fn noted(&mut self, interval: u64)
        requires { IsSome self.old.owed }
        ensures item { IfSome self.old.owed (λ s. self.new
            ≡ record self.old { owed = None; trace = self.old.trace ++ TraceItem.Sampled s interval ∷ [] }) }
        ensures stands { (start now : Account) (options : Options) → Stands start now options self.old → Stands start now options self.new }
    {
        if let Some(sample) = self.runner.owed.take() {
            self.runner
                .trace
                .put(TraceItem::Sampled { sample, interval });
        }
    }

    /// Says that the section of the last step was entered, as the one of this place. Its item is appended to the trace.
    pub fn entered(&mut self, place: u64)
        requires { IsSome self.old.entering }
        ensures item { IfSome self.old.entering (λ lock. self.new
            ≡ record self.old { entering = None; section = Some lock; trace = self.old.trace ++ TraceItem.Entered lock place ∷ [] }) }
        ensures stands { (start now : Account) (options : Options) → Stands start now options self.old → Stands start now options self.new }
    {
        if let Some(lock) = self.runner.entering.take() {
            self.runner.section = Some(lock);
            self.runner.trace.put(TraceItem::Entered { lock, place });
        }
    }

    /// Ends the thread because its load of the stop word read 1: the open section is left, and the trace ends with
    /// `End::Stopped`. The caller then leaves the section.
    pub fn stop(&mut self)
        requires owed { self.old.owed ≡ None }
        requires entering { self.old.entering ≡ None }
        requires going { self.old.ended ≡ false }
        ensures stopped { self.new ≡ record self.old {
          section = None;
          ended = true;
          trace = self.old.trace ++ (left_traced self.old.section ++ TraceItem.Ended End.Stopped ∷ []);
        } }
        ensures follows { (start now : Account) (options : Options) → Stands start now options self.old
            → WasStopped start now self.old.plan self.old.thread options self.new.trace }
    {
        self.runner.cut(End::Stopped);
        self.ended = true;
    }

    /// The trace so far. In it each section is entered where none is open, and the open one is left. After the thread's end
    /// none is open.
    pub fn trace(&self) -> &[TraceItem]
        ensures items { result.now ≡ self.now.trace }
        ensures labels { All (IsLabelled (length (labels_of self.now.plan.elements))) result.now }
        ensures sections { SectionsFrom None result.now self.now.section }
        ensures closed { self.now.ended ≡ true → self.now.section ≡ None }
    {
        self.runner.trace.items()
    }

    /// The trace itself.
    pub fn into_trace(self) -> Vec<TraceItem>
        ensures items { result.items ≡ self.entry.trace }
        ensures labels { All (IsLabelled (length (labels_of self.entry.plan.elements))) result.items }
        ensures sections { SectionsFrom None result.items self.entry.section }
        ensures closed { self.entry.ended ≡ true → self.entry.section ≡ None }
    {
        let mut runner = self.runner;
        let alloc = runner.alloc;
        runner.trace.take(alloc)
    }
}

/// The law of a thread that has not ended: its trace, and what is owed to it, show a prefix of the thread's events over what
/// its outside was told since it began.
pub fn a_trace_is_a_prefix()
    ensures { ShowsAPrefix }
{}

fn is_end(step: &Step) -> bool
    ensures { result ≡ is_end step.now }
{
    match step {
        Step::Ended(_) => true,
        Step::Sampled(_) | Step::Null | Step::Enter(_) | Step::Leave(_) => false,
    }
}
