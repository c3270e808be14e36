// How far a thread has come, and the steps of its run that are no recursion.

ghost use Rattle.std.specs.Prelude.{◌≡◌, ◌<◌, ℕ, IfOk, OnOk, MatchResult};
ghost use Rattle.jm_base.specs.declared.types.End.TheVariants.{ValueLimit as PastValueLimit};
ghost use Rattle.jm_base.specs.Run.{over};
ghost use Rattle.jm_base.specs.Outside.{Account};
ghost use Rattle.config_elements.specs.RoundStart.{feeds_of};
ghost use Rattle.jm_meaning.specs.State.{normal, with_round, with_unit};
ghost use Rattle.jm_meaning.specs.Rounds.{round_start};
ghost use Rattle.jm_meaning.specs.Sampling.{sampling, given};
ghost use Rattle.plain_run.specs.Plays.{with_pause, Plays, Runs};

use config_elements::{ConfigState, begin_round};
use element_tree::Plan;
use jm_base::{End, M, NoMemory, Outside, Sample};
use jm_meaning::{Item, Places, Signal, Tally, after_sample};
use sampler_pipeline::{Done, run_one};
use scope_resolver::package;
use std::alloc::Global;
use var_functions::{UserState, VarError};

/// How far a thread has come.
#[derive(Drop)]
pub struct Progress {
    pub alloc: Global,
    /// Its variables, and what its functions keep.
    pub user: UserState,
    /// The units left of its sample budget.
    pub units: u32,
    /// The rounds left.
    pub rounds: u32,
    /// The places of the plan's Interleave Controllers.
    pub places: Places,
    /// What it keeps of the Counters and data sets of its group.
    pub config: ConfigState,
    /// What its samplers gave in the innermost transaction that is open, or outside of all.
    pub tally: Tally,
    /// What its trace shows so far.
    pub items: Vec<Item>,
}

/// A refusal past a limit stops the thread.
pub(crate) fn refused(error: VarError) -> M<Signal>
    ensures { MatchResult result (λ signal. (error ≡ VarError.ValueLimit) × (signal ≡ Signal.Stop PastValueLimit)) (λ e. error ≡ VarError.NoMemory) }
{
    match error {
        VarError::ValueLimit => Ok(Signal::Stop(End::ValueLimit)),
        VarError::NoMemory => Err(NoMemory),
    }
}

impl Progress {
    /// Takes one of the rounds left.
    pub fn take_round(&mut self) -> Signal
        ensures plays { (a : Account) → Plays a self.old (λ s. with_round s (λ s. over (normal s))) result self.new a }
        ensures taken { result ≡ Signal.Normal → self.new.rounds < self.old.rounds }
    {
        if self.rounds == 0 {
            return Signal::Stop(End::RoundLimit);
        }
        self.rounds -= 1;
        Signal::Normal
    }

    /// Runs the sampler of this number with the elements that apply to it, where a unit is left.
    pub fn sample<O: Outside>(
        &mut self,
        plan: &Plan,
        number: u16,
        at_failure: Signal,
        outside: &mut O,
    ) -> M<Signal>
        ensures { Runs (O.account outside.old) self.old
            (λ s. with_unit s (sampling plan.now.elements number at_failure)) result self.new (O.account outside.new) }
    {
        if self.units == 0 {
            return Ok(Signal::Stop(End::SampleLimit));
        }
        self.units -= 1;
        let came = {
            let scope = package(self.alloc, plan, number)?;
            let mut order = Vec::new(self.alloc);
            run_one(
                self.alloc,
                plan,
                &scope,
                number,
                &mut self.user,
                outside,
                &mut order,
            )
        };
        match came {
            Ok(Done { sample, paused }) => self.show(number, at_failure, paused, sample),
            Err(error) => refused(error),
        }
    }

    // Shows the pause of a sampler, if it was any, and then its sample or that there is none.
    fn show(
        &mut self,
        number: u16,
        at_failure: Signal,
        paused: u32,
        sample: Option<Sample>,
    ) -> M<Signal>
        ensures { IfOk result (λ signal. (a : Account) → Plays a self.old
            (given number at_failure (record { sample = sample; paused = paused })) signal self.new a) }
    {
        self.show_pause(paused)?;
        match sample {
            Some(sample) => {
                let signal = after_sample(sample.ok, at_failure);
                self.tally = self.tally.with(&sample);
                self.items.push(Item::Sampled(sample))?;
                Ok(signal)
            }
            None => {
                self.items.push(Item::Null(number))?;
                Ok(Signal::Normal)
            }
        }
    }

    // Shows a pause of that many milliseconds, if it was any.
    fn show_pause(&mut self, ms: u32) -> M<()>
        ensures items { OnOk result (self.new.items.items ≡ with_pause self.old.items.items ms) }
        ensures same { self.new ≡ record self.old { items = self.new.items } }
    {
        if ms > 0 {
            self.items.push(Item::Paused(ms))?;
        }
        Ok(())
    }

    /// Begins a round of the thread's group: it is taken from those left, and then Counters and data sets advance. Where no row
    /// is left the thread stops.
    pub fn open_group_round<O: Outside>(&mut self, plan: &Plan, outside: &mut O) -> M<Signal>
        ensures plays { (group : ℕ) → self.old.config.feeds ≡ feeds_of plan.now.elements group
            → Runs (O.account outside.old) self.old
            (λ s. with_round s (round_start plan.now.elements group)) result self.new (O.account outside.new) }
        ensures taken { IfOk result (λ signal. signal ≡ Signal.Normal → self.new.rounds < self.old.rounds) }
    {
        match self.take_round() {
            Signal::Normal => {
                match begin_round(self.alloc, &mut self.config, plan, &mut self.user, outside) {
                    Ok(true) => Ok(Signal::Normal),
                    Ok(false) => Ok(Signal::Stop(End::StopThread)),
                    Err(error) => refused(error),
                }
            }
            other => Ok(other),
        }
    }
}
