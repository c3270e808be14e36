// A thread of a plan as its worker keeps it.

ghost use Rattle.std.specs.Prelude.{◌≡◌, ℕ, ◌+◌, ◌-◌, ◌≤◌, ◌<◌, true, false, None, Some, [], ◌∷◌, ◌++◌, length, slice_get, IfOk, IfErr, IfSome, OnOk, OnErr};
ghost use Rattle.element_tree.specs.Tree.{threads_of};
ghost use Rattle.jm_base.specs.Outside.{Account, TellsNothing};
ghost use Rattle.jm_base.specs.Run.{over};
ghost use Rattle.var_functions.specs.Came.{CameTo};
ghost use Rattle.scope_resolver.specs.Scoping.{scope_of};
ghost use Rattle.trials.specs.Tried.{fine, past_limit};
ghost use Rattle.config_elements.specs.RoundStart.{feeds_of};
ghost use Rattle.sampler_pipeline.specs.SamplerPipeline.{pipeline, label_at};
ghost use Rattle.jm_meaning.specs.Rounds.{round_start};
ghost use Rattle.node_table.specs.KeptPackages.{packages_of};
ghost use Rattle.jm_meaning.specs.Sections.{leaving_open};
ghost use Rattle.jm_meaning.specs.Meaning.{and_end};
ghost use Rattle.open_elements.specs.Moves.{past};
ghost use Rattle.control_machine.specs.Hearing.{told};
ghost use Rattle.control_machine.specs.Left.{StandsIn, left_of, left_after, state_at, moved, open_lock, IsSampler, IsTransaction, IsLock};
ghost use Rattle.control_machine.specs.Turns.{IsNormalAt};
ghost use Rattle.thread_machine.specs.Inside.{standing_of, IsLimit, GoesOn, IsMoving, IsEntering};
ghost use Rattle.thread_machine.specs.Standing.{IsAtStart, rest, state_in};
ghost use Rattle.thread_machine.specs.Stepped.{entry_of, trace_paused, Gives, Steps};
ghost use Rattle.thread_machine.specs.Ran.{left_to, HasMoved, IsRefusedAt, IsBegun, IsCutAt, IsCutAfter, EndsBy, GoesOnAfter, is_end};
ghost use Rattle.thread_machine.specs.SectionOrder.{left_traced};

use crate::step::Step;
use crate::trace::{Trace, TraceItem};
use config_elements::{ConfigState, begin_round};
use control_machine::{Leave, Machine, Move, Tally};
use element_tree::Plan;
use jm_base::{End, M, NoMemory, Outside, Sample};
use jm_meaning::{Signal, first_user, ramp_up_pause, set_first};
use node_table::NodeTable;
use sampler_pipeline::{Done, Pipeline};
use std::alloc::Global;
use var_functions::{Props, UserState, VarError};

/// A thread: its plan and number, the pause before its first variables that is still to come, whether those are set, its
/// variables and what functions keep, what it keeps of Counters and data sets, the packages of the plan's samplers, the machine
/// of moves, the units left of its sample budget, the sample that is still to be noted, the lock of the section that is still to
/// be entered and of the one that is open, the end that comes after a section was left for a limit, and its trace.
pub struct Runner<'p> {
    pub plan: &'p Plan,
    pub thread: u16,
    pub pause: u32,
    pub begun: bool,
    pub user: UserState,
    pub config: ConfigState,
    pub table: NodeTable,
    pub machine: Machine,
    pub units: u32,
    pub owed: Option<Sample>,
    pub entering: Option<u16>,
    pub section: Option<u16>,
    pub last: Option<End>,
    pub trace: Trace,
    pub alloc: Global,
}

// Written out, so that to let a thread go is one call wherever that is done, and not a call for each of its parts.
impl<'p> Drop for Runner<'p> {
    fn drop(self) {
        let Self {
            plan: _,
            thread: _,
            pause: _,
            begun: _,
            user: _user,
            config: _config,
            table: _table,
            machine: _machine,
            units: _,
            owed: _owed,
            entering: _,
            section: _,
            last: _,
            trace: _trace,
            alloc: _,
        } = self;
    }
}

impl<'p> Runner<'p> {
    /// A thread before its first step. `seed` is that of the run's random words, `budget` is how many units its samplers,
    /// transactions and sections may use.
    pub fn new(
        alloc: Global,
        plan: &'p Plan,
        thread: u16,
        seed: u64,
        props: &Props,
        budget: u32,
    ) -> M<Runner<'p>>
        requires { thread < length (threads_of plan.now) }
        ensures start { IfOk result (λ r. IsAtStart plan.now thread (record { seed = seed; props = props.now; budget = budget }) (standing_of r false)) }
        ensures on { IfOk result GoesOn }
    {
        let trace = Trace::new(alloc, budget)?;
        let table = NodeTable::of(alloc, plan)?;
        let config = ConfigState::new(alloc, plan, thread)?;
        let user = first_user(alloc, plan, thread, seed, props)?;
        let machine = Machine::new(alloc, plan, thread)?;
        Ok(Runner {
            plan,
            thread,
            pause: ramp_up_pause(plan, thread),
            begun: false,
            user,
            config,
            table,
            machine,
            units: budget,
            owed: None,
            entering: None,
            section: None,
            last: None,
            trace,
            alloc,
        })
    }

    /// A step, in which `samplers` runs the sampler that comes next. A limit ends the thread. Out of memory, it stays as it was
    /// cut, with room for a section that is left and for its end.
    pub fn try_step<O: Outside>(&mut self, samplers: &mut Pipeline<'p>, outside: &mut O) -> M<Step>
        requires owed { self.old.owed ≡ None }
        requires entering { self.old.entering ≡ None }
        requires on { GoesOn self.old }
        ensures steps { IfOk result (λ step. Steps (O.account outside.old) (O.account outside.new)
            (standing_of self.old false) (standing_of self.new (is_end step)) step) }
        ensures on { IfOk result (GoesOnAfter self.new) }
        ensures cut { OnErr result (IsCutAfter (O.account outside.old) (O.account outside.new) self.old self.new) }
        ensures room { OnErr result (2 ≤ self.new.trace.room) }
    {
        if let Some(end) = self.last {
            return Ok(self.trace.finish(end));
        }
        self.trace.make_room()?;
        self.pause_first(outside)?;
        match self.move_on(samplers, outside) {
            Ok(step) => Ok(step),
            Err(VarError::ValueLimit) => Ok(self.end_by(End::ValueLimit)),
            Err(VarError::NoMemory) => Err(NoMemory),
        }
    }

    /// The thread ends at once: the open section is left, and the trace says how the thread ended.
    pub fn cut(&mut self, end: End)
        requires { 2 ≤ self.old.trace.room }
        ensures items { self.new.trace.items ≡ self.old.trace.items ++ (left_traced self.old.section ++ TraceItem.Ended end ∷ []) }
        ensures kept { self.new ≡ record self.old { section = None; trace = self.new.trace } }
    {
        match self.section {
            Some(lock) => {
                self.section = None;
                let _left = self.trace.leave(lock);
                self.trace.put(TraceItem::Ended(end));
            }
            None => self.trace.put(TraceItem::Ended(end)),
        }
    }

    // The pause before the first variables, if it is still to come.
    fn pause_first<O: Outside>(&mut self, outside: &mut O) -> M<()>
        requires room { 5 ≤ self.old.trace.room }
        requires last { self.old.last ≡ None }
        ensures begun { OnOk result (IsBegun (O.account outside.old) (O.account outside.new) self.old self.new) }
        ensures room { 4 ≤ self.new.trace.room }
        ensures still { OnErr result (TellsNothing (O.account outside.old) (O.account outside.new)) }
        ensures kept { OnErr result (self.new ≡ self.old) }
    {
        let ms = self.pause;
        if ms > 0 {
            outside.pause(ms)?;
            self.trace.put(TraceItem::Paused(ms));
            self.pause = 0;
        }
        Ok(())
    }

    // A limit ends the thread: where a section is open it is left, and the end comes next.
    fn end_by(&mut self, end: End) -> Step
        requires room { 1 ≤ self.old.trace.room }
        ensures ends { EndsBy self.old.section self.old self.new end result }
        ensures room { self.old.trace.room ≤ self.new.trace.room + 1 }
    {
        match self.section {
            Some(lock) => {
                self.section = None;
                self.last = Some(end);
                self.trace.leave(lock)
            }
            None => self.trace.finish(end),
        }
    }

    // The next move is made: a sampler runs, a transaction gives its sample, a section is entered or left, or the thread's
    // rounds are over.
    fn move_on<O: Outside>(
        &mut self,
        samplers: &mut Pipeline<'p>,
        outside: &mut O,
    ) -> Result<Step, VarError>
        requires { IsMoving self.old }
        ensures gives { IfOk result (λ step. Gives (O.account outside.old) (O.account outside.new) (and_end (left_to self.old))
            (standing_of self.old false) (standing_of self.new (is_end step)) step) }
        ensures on { IfOk result (GoesOnAfter self.new) }
        ensures refused { IfErr result (IsRefusedAt (O.account outside.old) (left_to self.old) (O.account outside.new) self.old self.new) }
    {
        match self.next_move(outside) {
            Ok(Move::RunSampler(number)) => self.sample(number, samplers, outside),
            Ok(Move::TransactionSample { element, tally }) => self.sum_up(element, tally),
            Ok(Move::EnterSection(lock)) => Ok(self.enter(lock)),
            Ok(Move::LeaveSection(lock)) => {
                self.section = None;
                Ok(self.trace.leave(lock))
            }
            Ok(Move::Finished(end)) => Ok(self.trace.finish(end)),
            Ok(_) => unreachable!(),
            Err(error) => Err(error),
        }
    }

    // The next move that ends a step. The first variables are set before the first one.
    fn next_move<O: Outside>(&mut self, outside: &mut O) -> Result<Move, VarError>
        requires { IsMoving self.old }
        ensures came { CameTo (O.account outside.old) (left_to self.old) (O.account outside.new)
            (moved self.new.plan.now self.new.machine (state_in (standing_of self.new false)))
            (leaving_open self.old.section (past (state_in (standing_of self.new false)))) result }
        ensures moved { IfOk result (HasMoved self.new.plan.now self.old.section self.new.machine self.new.config) }
        ensures begun { IfOk result (λ m. self.new.begun ≡ true) }
        ensures kept { self.new ≡ record self.old { begun = self.new.begun; user = self.new.user; config = self.new.config; machine = self.new.machine } }
    {
        match self.set_out(outside) {
            Ok(()) => walk(
                &mut self.machine,
                self.alloc,
                self.plan,
                &mut self.config,
                &mut self.user,
                outside,
            ),
            Err(error) => Err(error),
        }
    }

    // The first variables are set, if they are still to be.
    fn set_out<O: Outside>(&mut self, outside: &mut O) -> Result<(), VarError>
        requires { self.old.begun ≡ false → self.old.section ≡ None }
        ensures came { CameTo (O.account outside.old) (left_to self.old) (O.account outside.new)
            (λ u. left_of self.new.plan.now self.new.machine (state_in (standing_of self.new false)))
            (leaving_open self.old.section (past (state_in (standing_of self.new false)))) result }
        ensures begun { IfOk result (λ u. self.new.begun ≡ true) }
        ensures kept { self.new ≡ record self.old { begun = self.new.begun; user = self.new.user } }
    {
        if self.begun {
            return Ok(());
        }
        match set_first(self.alloc, self.plan, &mut self.user, outside) {
            Ok(()) => {
                self.begun = true;
                Ok(())
            }
            Err(error) => Err(error),
        }
    }

    // A unit is used, and the sampler of this number runs.
    fn sample<O: Outside>(
        &mut self,
        number: u16,
        samplers: &mut Pipeline<'p>,
        outside: &mut O,
    ) -> Result<Step, VarError>
        requires moving { IsMoving self.old }
        requires begun { self.old.begun ≡ true }
        requires normal { IsNormalAt (Move.RunSampler number) self.old.machine.signal }
        requires there { IsSampler self.old.plan.now.elements number }
        ensures gives { IfOk result (λ step. Gives (O.account outside.old) (O.account outside.new)
            (and_end (moved self.old.plan.now self.old.machine (state_in (standing_of self.old false)) (Move.RunSampler number)))
            (standing_of self.old false) (standing_of self.new (is_end step)) step) }
        ensures on { IfOk result (GoesOnAfter self.new) }
        ensures refused { IfErr result (IsRefusedAt (O.account outside.old)
            (moved self.old.plan.now self.old.machine (state_in (standing_of self.old false)) (Move.RunSampler number))
            (O.account outside.new) self.old self.new) }
    {
        if self.units == 0 {
            return Ok(self.end_by(End::SampleLimit));
        }
        self.units -= 1;
        match samplers.run(
            self.plan,
            self.table.package(number),
            number,
            &mut self.user,
            outside,
        ) {
            Ok(Done { sample, paused }) => {
                self.trace.put_pause(paused);
                match sample {
                    Some(sample) => {
                        self.machine.after(&sample);
                        Ok(owe(&mut self.owed, sample))
                    }
                    None => {
                        self.trace.put(TraceItem::Null { sampler: number });
                        Ok(Step::Null)
                    }
                }
            }
            Err(error) => Err(error),
        }
    }

    // A unit is used, and the transaction of this number gives its sample.
    fn sum_up(&mut self, element: u16, tally: Tally) -> Result<Step, VarError>
        requires moving { IsMoving self.old }
        requires begun { self.old.begun ≡ true }
        requires there { IsTransaction self.old.plan.now.elements element }
        ensures gives { (a : Account) → IfOk result (λ step. Gives a a
            (and_end (moved self.old.plan.now self.old.machine (state_in (standing_of self.old false)) (Move.TransactionSample element tally)))
            (standing_of self.old false) (standing_of self.new (is_end step)) step) }
        ensures on { IfOk result (GoesOnAfter self.new) }
        ensures refused { (a : Account) → IfErr result (IsRefusedAt a
            (moved self.old.plan.now self.old.machine (state_in (standing_of self.old false)) (Move.TransactionSample element tally))
            a self.old self.new) }
    {
        if self.units == 0 {
            return Ok(self.end_by(End::SampleLimit));
        }
        let label = self.plan.label_of(element);
        let Ok(sum) = tally.sample(self.alloc, label) else {
            return Err(VarError::NoMemory);
        };
        self.units -= 1;
        Ok(owe(&mut self.owed, sum))
    }

    // A unit is used, and the section of this lock is to be entered.
    fn enter(&mut self, lock: u16) -> Step
        requires { IsEntering self.old lock }
        ensures gives { (a : Account) → Gives a a
            (and_end (moved self.old.plan.now self.old.machine (state_in (standing_of self.old false)) (Move.EnterSection lock)))
            (standing_of self.old false) (standing_of self.new (is_end result)) result }
        ensures on { GoesOnAfter self.new result }
    {
        if self.units == 0 {
            return self.trace.finish(End::SampleLimit);
        }
        self.units -= 1;
        self.entering = Some(lock);
        Step::Enter(lock)
    }
}

// A sample is owed to the trace.
fn owe(owed: &mut Option<Sample>, sample: Sample) -> Step
    ensures step { result ≡ Step.Sampled (entry_of sample) }
    ensures owed { owed.new ≡ Some sample }
{
    let entry = sample.entry();
    *owed = Some(sample);
    Step::Sampled(entry)
}

// Goes on from move to move, up to one that is not the begin of a round of the group. At such a begin Counters and data sets
// advance; where no row is left the thread is to stop.
fn walk<O: Outside>(
    machine: &mut Machine,
    alloc: Global,
    plan: &Plan,
    config: &mut ConfigState,
    user: &mut UserState,
    outside: &mut O,
) -> Result<Move, VarError>
    requires stands { StandsIn plan.now machine.old }
    requires feeds { config.old.feeds ≡ feeds_of plan.now.elements machine.old.group.element }
    ensures came { (units : ℕ)
        → CameTo (O.account outside.old) (left_of plan.now machine.old (state_at machine.old (record { units = units; config = config.old.places }) user.old)) (O.account outside.new)
        (moved plan.now machine.new (state_at machine.new (record { units = units; config = config.new.places }) user.new))
        (leaving_open (open_lock machine.old.stack.frames) (past (state_at machine.new (record { units = units; config = config.new.places }) user.new))) result }
    ensures moved { IfOk result (HasMoved plan.now (open_lock machine.old.stack.frames) machine.new config.new) }
{
    'moves: loop {
        match machine.next(alloc, plan, user, outside) {
            Ok(next) => match next {
                Move::Iteration(_) => match begin_round(alloc, config, plan, user, outside) {
                    Ok(true) => {}
                    Ok(false) => machine.leave(Leave::StopThread),
                    Err(error) => return Err(error),
                },
                _ => return Ok(next),
            },
            Err(error) => return Err(error),
        }
    }
}
