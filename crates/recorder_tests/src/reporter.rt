//! What no clause says: that a hook is asked, and that an interval closes, with ample memory.
ghost use Rattle.std.specs.Prelude.{◌≡◌, ◌<◌, ◌↔◌};
ghost use Rattle.interval_tables.specs.Rows.{IsInBounds};
ghost use Rattle.interval_reporter.specs.Judged.{errors_of};

use crate::recorder::record;
use interval_reporter::{Reporter, Verdict, close_interval, stops_past};
use interval_tables::Report;
use recorder_core::Recorder;
use std::process::Abort;
use std::sync::Wait;
use std::test::Fail;

#[test]
fn a_hook_stops_past_two_errors(rt: HostRuntime) -> Result<(), Fail> {
    let (recorder, seat, mut writer) = Recorder::new(rt.alloc(), 1, 1, 10)?;
    let mut report = Report::vacant(rt.alloc(), 1)?;
    let reporter = Reporter::new(stops_past);
    record(&recorder, &mut writer, false, 5);
    record(&recorder, &mut writer, true, 5);
    record(&recorder, &mut writer, false, 5);
    let seat = close_interval(&rt, &recorder, seat, &mut report);
    assert_eq!(rt; report.interval, 0);
    assert_eq!(rt; reporter.judge(&report, 2), Verdict::Go);
    assert_eq!(rt; reporter.judge(&report, 1), Verdict::Stop);
    record(&recorder, &mut writer, false, 5);
    record(&recorder, &mut writer, false, 5);
    record(&recorder, &mut writer, false, 5);
    let seat = close_interval(&rt, &recorder, seat, &mut report);
    assert_eq!(rt; report.interval, 1);
    assert_eq!(rt; reporter.judge(&report, 2), Verdict::Stop);
    assert_eq!(rt; reporter.judge(&report, u64::MAX), Verdict::Go);
    assert_eq!(rt; seat.interval(), 2);
    Ok(())
}

#[test]
fn a_hook_may_be_a_closure(rt: HostRuntime) -> Result<(), Fail> {
    let report = Report::vacant(rt.alloc(), 3)?;
    let reporter = Reporter::new(
        |report: &Report, limit: u64| -> Verdict
            requires { IsInBounds report.now.rows }
            ensures { (result ≡ Verdict.Stop) ↔ (limit < errors_of report.now) }
        { stops_past(report, limit) },
    );
    assert_eq!(rt; reporter.judge(&report, 0), Verdict::Go);
    Ok(())
}
