//! The hook that is asked of each closed report whether the run goes on.

ghost use Rattle.std.specs.Prelude.{◌≡◌, ◌-◌, ◌^◌, ◌<◌, ◌↔◌};
ghost use Rattle.interval_tables.specs.Rows.{IsInBounds};
ghost use Rattle.interval_reporter.specs.Judged.{StopsPast, Keeps, Answers, errors_of};

use crate::verdict::Verdict;
use interval_tables::Report;

/// Keeps a hook that is asked of each closed report, with a limit of errors, whether the run goes on.
#[derive(Drop)]
pub struct Reporter<F: Fn(&Report, u64) -> Verdict> {
    hook: F,
}

impl<F: Fn(&Report, u64) -> Verdict> Reporter<F> {
    /// Keeps a hook that may be called on every report in bounds and every limit, and answers `Stop` exactly where the
    /// report has more errors than the limit. That stands for as long as the hook is kept, since no call changes it.
    pub fn new(hook: F) -> Reporter<F>
        requires { StopsPast F.Fn hook }
        ensures { Keeps F.Fn result }
    {
        Reporter { hook }
    }

    /// What the kept hook answers: `Stop` exactly where the report has more errors than the limit. With the greatest
    /// limit it is always `Go`. It takes no memory.
    #[tactic(auto, using(crate::proofs::Judging::unlimited_goes))]
    pub fn judge(&self, report: &Report, limit: u64) -> Verdict
        requires kept { Keeps F.Fn self.now }
        requires bounds { IsInBounds report.now.rows }
        ensures asked { Answers F.Fn self.now report.now limit result }
        ensures stop { (result ≡ Verdict.Stop) ↔ (limit < errors_of report.now) }
        ensures unlimited { limit ≡ 2 ^ 64 - 1 → result ≡ Verdict.Go }
    {
        (self.hook)(report, limit)
    }
}

/// The hook of a program: `Stop` exactly where the report has more errors than the limit.
pub fn stops_past(report: &Report, limit: u64) -> Verdict
    requires { IsInBounds report.now.rows }
    ensures { (result ≡ Verdict.Stop) ↔ (limit < errors_of report.now) }
{
    if limit < report.errors() {
        Verdict::Stop
    } else {
        Verdict::Go
    }
}
