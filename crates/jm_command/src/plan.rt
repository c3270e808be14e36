// The plan that a command reads.

ghost use Rattle.std.specs.Prelude.{◌≡◌, ℕ, List, Option, IfOk, IfErr};
ghost use Rattle.jm_command.specs.Command.{edges, Accepts, SaysUnplanned};
ghost use Rattle.jm_command.specs.Refusals.{ReadsPlan};
ghost use Rattle.jm_command.specs.Parts.{IsFound, SaysUnfound};

use crate::judge::{Judged, judge};
use crate::line::refuse;
use crate::refusal::Refusal;
use crate::status::Status;
use command_words::Command;
use edge_io::{ReadError, Sink, Source, read_all};
use element_props::Patterns;
use element_tree::Plan;
use std::alloc::Global;

/// The most bytes that a plan has.
const PLAN_LIMIT: u32 = 4_194_304;

/// Reads a plan to its end, and gives it if it is fit for the command. Else the line of its refusal goes to the reports, and
/// the status comes.
pub fn read_plan<S: Source, E: Sink, G: Patterns>(
    alloc: Global,
    command: &Command,
    plan: &mut S,
    reports: &mut E,
    patterns: &mut G,
) -> Result<Plan, Status>
    requires { ReadsPlan command.now }
    ensures accepted { IfOk result (λ p. (results : Option (List ℕ)) (faults : ℕ) → Accepts command.now
        (edges (S.left plan.old) (S.faults plan.old) results faults (E.written reports.old) (E.faults reports.old) (G.account patterns.old))
        (edges (S.left plan.new) (S.faults plan.new) results faults (E.written reports.new) (E.faults reports.new) (G.account patterns.new)) p) }
    ensures calm { IfOk result (λ p. (S.faults plan.new ≡ S.faults plan.old) × (E.written reports.new ≡ E.written reports.old) × (E.faults reports.new ≡ E.faults reports.old)) }
    ensures unplanned { IfErr result (λ status. (results : Option (List ℕ)) (faults : ℕ) → SaysUnplanned command.now
        (edges (S.left plan.old) (S.faults plan.old) results faults (E.written reports.old) (E.faults reports.old) (G.account patterns.old))
        (edges (S.left plan.new) (S.faults plan.new) results faults (E.written reports.new) (E.faults reports.new) (G.account patterns.new)) status) }
{
    match read_all(alloc, plan, PLAN_LIMIT) {
        Ok(bytes) => find_plan(alloc, command, &bytes, reports, patterns),
        Err(ReadError::ReadFault) => Err(Status::ReadFault),
        Err(ReadError::TooLong) => Err(refuse(alloc, &Refusal::TooLong, reports)),
        Err(ReadError::NoMemory) => Err(Status::Memory),
    }
}

// The plan of these bytes, or the status after they are refused.
fn find_plan<E: Sink, G: Patterns>(
    alloc: Global,
    command: &Command,
    bytes: &[u8],
    reports: &mut E,
    patterns: &mut G,
) -> Result<Plan, Status>
    requires { ReadsPlan command.now }
    ensures found { IfOk result (IsFound command.now bytes.now (G.account patterns.old) (G.account patterns.new)
        (E.written reports.old) (E.written reports.new) (E.faults reports.old) (E.faults reports.new)) }
    ensures unfound { IfErr result (SaysUnfound command.now bytes.now (G.account patterns.old) (G.account patterns.new)
        (E.written reports.old) (E.written reports.new) (E.faults reports.old) (E.faults reports.new)) }
{
    match judge(alloc, command, bytes, patterns) {
        Judged::Fit(plan) => Ok(plan),
        Judged::Unfit(refusal) => Err(refuse(alloc, &refusal, reports)),
        Judged::NoMemory => Err(Status::Memory),
    }
}
