// A report's lines, written at once.

ghost use Rattle.std.specs.Prelude.{◌≡◌, length, Err, IfErr, OnOk, OnErr};
ghost use Rattle.std.specs.Io.KnownBytes.{Appends};
ghost use Rattle.edge_io.specs.Edges.{AppendsProperPrefix};
ghost use Rattle.element_tree.specs.Names.{labels_of};
ghost use Rattle.interval_tables.specs.Rows.{IsInBounds};
ghost use Rattle.output_lines.specs.Reports.{report_text};
ghost use Rattle.reporter_loop.specs.ReportsWritten.{AppendsPrefix};
ghost use Rattle.reporter_loop.specs.Failing.{IsCause};

use crate::error::RunError;
use edge_io::{Sink, write_all};
use element_tree::Plan;
use interval_tables::Report;
use output_lines::report_lines;
use std::alloc::Global;

/// Writes the lines of a report: all of them, or a proper prefix where the sink has counted a fault. Out of memory nothing is
/// written.
pub fn write_report<K: Sink>(
    alloc: Global,
    plan: &Plan,
    report: &Report,
    sink: &mut K,
) -> Result<(), RunError>
    requires rows { length report.now.rows ≡ length (labels_of plan.now.elements) }
    requires bounds { IsInBounds report.now.rows }
    ensures written { OnOk result (Appends (K.written sink.old) (K.written sink.new) (report_text plan.now report.now)) }
    ensures cut { OnErr result (AppendsPrefix (K.written sink.old) (K.written sink.new) (report_text plan.now report.now)) }
    ensures failed { result ≡ Err RunError.WriteFault → AppendsProperPrefix (K.written sink.old) (K.written sink.new) (report_text plan.now report.now) }
    ensures nothing { result ≡ Err RunError.NoMemory → K.written sink.new ≡ K.written sink.old }
    ensures ok { OnOk result (K.faults sink.new ≡ K.faults sink.old) }
    ensures cause { IfErr result (IsCause (K.faults sink.old) (K.faults sink.new)) }
{
    let mut text = Vec::new(alloc);
    if report_lines(alloc, &mut text, plan, report).is_err() {
        return Err(RunError::NoMemory);
    }
    match write_all(sink, &text) {
        Ok(()) => Ok(()),
        Err(_) => Err(RunError::WriteFault),
    }
}
