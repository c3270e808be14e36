// Whether the bytes of a plan are fit for a command.

ghost use Rattle.std.specs.Prelude.{◌≡◌, IfOk};
ghost use Rattle.plan_json.specs.TreeSeen.{raw_view};
ghost use Rattle.jm_command.specs.Parts.{Judges};
ghost use Rattle.jm_command.specs.Refusals.{ReadsPlan, replies_fault, thread_fault, solo_fault, weave_fault, samples_fault, fault_for};

use crate::places::places_at;
use crate::refusal::Refusal;
use command_words::{Command, Solo, Weave};
use element_props::{BuildError, Patterns, What};
use element_tree::{Plan, build};
use jm_base::M;
use plan_json::{Path, RawElement, TreeError, read_tree};
use std::alloc::Global;

/// What is found of the bytes of a plan.
#[derive(Drop)]
pub enum Judged {
    /// They are a plan that is fit for the command.
    Fit(Plan),
    /// They are refused.
    Unfit(Refusal),
    /// Memory ran out.
    NoMemory,
}

/// The plan that the bytes are, if it is fit for the command, or the first refusal: of the tree's shape, of its build,
/// and of the command's own conditions.
pub fn judge<G: Patterns>(
    alloc: Global,
    command: &Command,
    bytes: &[u8],
    patterns: &mut G,
) -> Judged
    requires { ReadsPlan command.now }
    ensures { Judges command.now bytes.now (G.account patterns.old) (G.account patterns.new) result }
{
    let tree = match read_tree(alloc, bytes) {
        Ok(tree) => tree,
        Err(TreeError::NoMemory) => return Judged::NoMemory,
        Err(error) => return Judged::Unfit(Refusal::Shape(error)),
    };
    let plan = match build(alloc, &tree, patterns) {
        Ok(plan) => plan,
        Err(BuildError::NoMemory) => return Judged::NoMemory,
        Err(error) => return Judged::Unfit(Refusal::Build(error)),
    };
    match fault_for(alloc, command, &tree, &plan) {
        Ok(None) => Judged::Fit(plan),
        Ok(Some(error)) => Judged::Unfit(Refusal::Unfit(error)),
        Err(_) => Judged::NoMemory,
    }
}

// Which of the command's own conditions the plan does not meet first, if there is one.
fn fault_for(
    alloc: Global,
    command: &Command,
    tree: &RawElement,
    plan: &Plan,
) -> M<Option<BuildError>>
    ensures { IfOk result (λ fault. fault ≡ fault_for command.now (raw_view tree.now) plan.now) }
{
    match command {
        Command::Check | Command::Make(_) => Ok(None),
        Command::Solo(solo) => solo_fault(alloc, tree, plan, solo),
        Command::Weave(weave) => weave_fault(alloc, tree, plan, weave),
        Command::Run(run) => Ok(samples_fault(alloc, plan, run.samples)),
    }
}

// What of the plan does not meet the conditions of running one thread without a server.
fn solo_fault(alloc: Global, tree: &RawElement, plan: &Plan, solo: &Solo) -> M<Option<BuildError>>
    ensures { IfOk result (λ fault. fault ≡ solo_fault (raw_view tree.now) plan.now solo.now) }
{
    match replies_fault(alloc, tree, plan)? {
        Some(error) => Ok(Some(error)),
        None => Ok(thread_fault(alloc, plan, solo)),
    }
}

// What of the plan does not meet the conditions of running all of its threads by a schedule, without a server.
fn weave_fault(
    alloc: Global,
    tree: &RawElement,
    plan: &Plan,
    weave: &Weave,
) -> M<Option<BuildError>>
    ensures { IfOk result (λ fault. fault ≡ weave_fault (raw_view tree.now) plan.now weave.now) }
{
    match replies_fault(alloc, tree, plan)? {
        Some(error) => Ok(Some(error)),
        None => Ok(samples_fault(alloc, plan, weave.samples)),
    }
}

// The refusal of an HTTP sampler that has no replies of its own.
fn replies_fault(alloc: Global, tree: &RawElement, plan: &Plan) -> M<Option<BuildError>>
    ensures { IfOk result (λ fault. fault ≡ replies_fault (raw_view tree.now) plan.now) }
{
    let Some(number) = plan.without_replies() else {
        return Ok(None);
    };
    let path = Path {
        places: places_at(alloc, tree, usize::from(number))?,
        prop: None,
    };
    Ok(Some(BuildError::NoReplies { path }))
}

// The refusal of a thread that the plan does not have, or of a sample budget that not all of its threads can have.
fn thread_fault(alloc: Global, plan: &Plan, solo: &Solo) -> Option<BuildError>
    ensures { result ≡ thread_fault plan.now solo.now }
{
    if solo.thread >= plan.threads() {
        return Some(BuildError::NoThread);
    }
    samples_fault(alloc, plan, solo.samples)
}

// The refusal of a sample budget that not all of the plan's threads can have.
fn samples_fault(alloc: Global, plan: &Plan, samples: u32) -> Option<BuildError>
    ensures { result ≡ samples_fault plan.now samples }
{
    if plan.samples_fit(samples) {
        return None;
    }
    let path = Path {
        places: Vec::new(alloc),
        prop: None,
    };
    Some(BuildError::TooMany {
        path,
        what: What::Samples,
    })
}
