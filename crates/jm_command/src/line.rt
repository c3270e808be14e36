// The usage line, and the line of a refusal.

ghost use Rattle.std.specs.Prelude.{◌≡◌, ◌⊎◌};
ghost use Rattle.jm_command.specs.Parts.{LineSays, RefusalSays};

use crate::refusal::{Refusal, refusal_line};
use crate::status::Status;
use edge_io::{Sink, write_all};
use std::alloc::Global;

/// Writes the line of a refusal to the reports.
pub fn refuse<E: Sink>(alloc: Global, refusal: &Refusal, reports: &mut E) -> Status
    ensures { RefusalSays refusal.now (E.written reports.old) (E.written reports.new) (E.faults reports.old) (E.faults reports.new) result }
{
    let Ok(line) = refusal_line(alloc, refusal) else {
        return Status::Memory;
    };
    say(reports, &line, Status::Refused)
}

/// Writes one line to the reports.
pub fn say<E: Sink>(reports: &mut E, line: &[u8], status: Status) -> Status
    requires { (status ≡ Status.Usage) ⊎ (status ≡ Status.Refused) }
    ensures { LineSays line.now status (E.written reports.old) (E.written reports.new) (E.faults reports.old) (E.faults reports.new) result }
{
    match write_all(reports, line) {
        Ok(()) => status,
        Err(_) => Status::WriteFault,
    }
}
