// All workers are taken in, in the order of their numbers.

ghost use Rattle.std.specs.Prelude.{◌≡◌, ◌<◌, ◌≤◌, ◌++◌, [], true, length, map, vec_capacity};
ghost use Rattle.std.specs.List.{range_with_len};
ghost use Rattle.element_tree.specs.Names.{labels_of};
ghost use Rattle.critical_section.specs.Book.{IsFirst};
ghost use Rattle.critical_section.specs.SectionSeats.{view_of, IsSeatOf};
ghost use Rattle.phaser_core.specs.Views.{AllJoined};
ghost use Rattle.phaser_words.specs.RecorderKinds.{lists_of};
ghost use Rattle.recorder_core.specs.RecorderSeats.{reports, numbers_of, IsReporter};
ghost use Rattle.run_engine.specs.Asked.{options_of};
ghost use Rattle.run_engine.specs.Followed.{AllFollow};
ghost use Rattle.run_engine.specs.JobsRan.{AllAmong};
ghost use Rattle.run_engine.specs.Joins.{joined_of, numbers_in, trace_of, OnlyJoined, AllDone, AllEnd, AllLabelled};
ghost use Rattle.phaser_core.specs.Keeps.{AllKeep};
ghost use Rattle.run_engine.specs.Marks.{AllMarked};
ghost use Rattle.thread_machine.specs.Paired.{pairs_of};
ghost use Rattle.run_engine.specs.SectionsRun.{sections_of_all, AllRise, AllLeave, HasTaken};

use crate::ask::RunAsk;
use crate::job::Job;
use critical_section::{SectionSeat, Sections};
use jm_base::{Items, Outside};
use outside_world::World;
use recorder_core::{Recorder, ReporterSeat};
use thread_machine::TraceItem;

// Closes each worker's outside, joins its writer and keeps its trace, in `traces`, which has room for them.
fn join_each<'p, 's, W: World>(
    recorder: &Recorder,
    ask: &RunAsk<'p>,
    seat: &mut ReporterSeat,
    sections: &Sections,
    first: &mut SectionSeat,
    world: &mut W,
    jobs: Vec<Job<'p, 's, W::Out>>,
    traces: &mut Vec<Items<TraceItem>>,
    count: u16,
)
    requires seat { IsReporter recorder.now seat.old }
    requires jobs { AllDone W.Out.account recorder.now ask.now.plan.now (options_of ask.now) (W.identity world.old) (W.tells world.old) count jobs.items }
    requires room { (traces.old.items ≡ []) × (length jobs.items ≤ vec_capacity traces.old) }
    requires seats { AllAmong sections.now jobs.items }
    requires first { IsSeatOf sections.now first.old × IsFirst (view_of first.old) }
    ensures taken { HasTaken sections.now (view_of first.old) (sections_of_all traces.new.items) first.new }
    ensures rising { AllRise traces.new.items }
    ensures sections { AllLeave traces.new.items }
    ensures seat { IsReporter recorder.now seat.new }
    ensures only { OnlyJoined (reports seat.old) (reports seat.new) }
    ensures joined { (reports seat.new).joined ≡ (reports seat.old).joined ++ map joined_of jobs.entry.items }
    ensures traces { traces.new.items ≡ map trace_of jobs.entry.items }
    ensures labels { AllLabelled (length (labels_of ask.now.plan.now.elements)) traces.new.items }
    ensures follows { W.tells world.old ≡ true → AllFollow ask.now.plan.now (options_of ask.now) (W.told world.new) traces.new.items }
    ensures closed { W.closed world.new ≡ W.closed world.old ++ range_with_len 0 (length jobs.entry.items) }
    ensures same { (W.identity world.new ≡ W.identity world.old) × (W.tells world.new ≡ W.tells world.old) × (W.opened world.new ≡ W.opened world.old) }
{
    for job in jobs {
        let Job {
            number,
            worker,
            out,
            seat: gone,
            section,
            ..
        } = job;
        world.close(number, out);
        recorder.join_writer(seat, gone);
        sections.join_seat(first, section);
        let pushed = traces.push(Items::of(worker.into_trace()));
        if pushed.is_err() {
            unreachable!();
        }
    }
}

/// Takes in all workers: closes their outsides, joins their writers and keeps their traces, in the order of their numbers.
/// It takes no memory: `traces` has room for them.
pub fn join_all<'p, 's, W: World>(
    recorder: &Recorder,
    ask: &RunAsk<'p>,
    seat: &mut ReporterSeat,
    sections: &Sections,
    first: &mut SectionSeat,
    world: &mut W,
    jobs: Vec<Job<'p, 's, W::Out>>,
    traces: &mut Vec<Items<TraceItem>>,
    count: u16,
)
    requires seat { IsReporter recorder.now seat.old }
    requires first { (reports seat.old).joined ≡ [] }
    requires count { (length jobs.items ≡ count) × (0 < count) }
    requires jobs { AllDone W.Out.account recorder.now ask.now.plan.now (options_of ask.now) (W.identity world.old) (W.tells world.old) count jobs.items }
    requires room { (traces.old.items ≡ []) × (count ≤ vec_capacity traces.old) }
    requires seats { AllAmong sections.now jobs.items }
    requires makes { IsSeatOf sections.now first.old × IsFirst (view_of first.old) }
    ensures taken { HasTaken sections.now (view_of first.old) (sections_of_all traces.new.items) first.new }
    ensures rising { AllRise traces.new.items }
    ensures sections { AllLeave traces.new.items }
    ensures seat { IsReporter recorder.now seat.new }
    ensures only { OnlyJoined (reports seat.old) (reports seat.new) }
    ensures joined { AllJoined (reports seat.new) }
    ensures numbers { numbers_in (reports seat.new).joined ≡ range_with_len 0 count }
    ensures lists { lists_of (reports seat.new).joined ≡ pairs_of traces.new.items }
    ensures keep { AllKeep (numbers_of recorder.now).labels (numbers_of recorder.now).budget (pairs_of traces.new.items) }
    ensures ends { (length traces.new.items ≡ count) × AllEnd traces.new.items }
    ensures marks { AllMarked (reports seat.new).joined traces.new.items }
    ensures labels { AllLabelled (length (labels_of ask.now.plan.now.elements)) traces.new.items }
    ensures follows { W.tells world.old ≡ true → AllFollow ask.now.plan.now (options_of ask.now) (W.told world.new) traces.new.items }
    ensures closed { W.closed world.new ≡ W.closed world.old ++ range_with_len 0 count }
    ensures same { (W.identity world.new ≡ W.identity world.old) × (W.tells world.new ≡ W.tells world.old) × (W.opened world.new ≡ W.opened world.old) }
{
    join_each(
        recorder, ask, seat, sections, first, world, jobs, traces, count,
    );
}
