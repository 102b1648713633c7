// A run on threads: each core of the region has a worker in a thread of its own.
ghost use Rattle.std.specs.Prelude.{◌≡◌, ◌⊎◌, ℕ, ◌≤◌, [], List, Some, None, true, false, OnOk, OnErr, IfOk, IfErr};
ghost use Rattle.pm_region.specs.Split.{Attached, IsNotOpened};
ghost use Rattle.flatstore_commands.specs.Ends.{AnswersNothing, CountsFaults, sink_use, source_use};
ghost use Rattle.flatstore_commands.specs.Attaching.{AttachesToSplit};
ghost use Rattle.flatstore_commands.specs.Finished.{finishes_of, finishes_from};
ghost use Rattle.flatstore_commands.specs.Ordering.{is_of_region, is_quiet};
ghost use Rattle.flatstore_commands.specs.Promise.{IsInput};
ghost use Rattle.flatstore_commands.specs.Played.{StandsWhole, is_ended};
ghost use Rattle.flatstore_commands.specs.ThreadPlays.{PlayedApart, IsNotRun, why_of, status_for, has_begun, ran_as, is_placed};
ghost use Rattle.flatstore_commands.specs.ThreadRuns.{RunsOnThreads};
ghost use Rattle.flatstore_commands.specs.declared.report.Status.TheVariants as statuses;
ghost use Rattle.flatstore_commands.specs.declared.run_threads.NotRun.TheVariants as not_run;

use crate::finishes::Finishes;
use crate::replay::{is_ended, leave, prepared, report_on, status_of};
use crate::report::{CommandReport, Status};
use core_worker::Gate;
use engine_core::run_outcome::End;
use fs_text::{Sink, Source};
use pm_region::{AttachError, ReadRegion, SplitRegion};
use std::alloc::Global;
use std::sync::Wait;
use std::thread::Threads;
use std::time::Clock;
use thread_engine::requests::TraceRequests;
use thread_engine::run_apart::RunOutcome;
use thread_engine::run_notes::RunNotes;
use thread_engine::run_to_sink::{SinkRun, run_to_sink};
use thread_engine::text_outlet::Unwritten;
use thread_engine::watch::Watch;

/// Why no core ran.
#[derive(Clone, Copy, Debug, PartialEq, Eq)]
pub enum NotRun {
    /// The work before the run ended with this status, or there was no memory for the run.
    Refused(Status),
    /// A split of the region failed.
    Unsplit,
}

impl From<Status> for NotRun {
    ghost from_gives = { λ status e. e ≡ not_run.Refused status };

    fn from(status: Status) -> Self {
        NotRun::Refused(status)
    }
}

impl From<AttachError> for NotRun {
    ghost from_gives = { λ error e. e ≡ why_of error };

    fn from(error: AttachError) -> Self {
        match error {
            AttachError::RegionFault => NotRun::Unsplit,
            AttachError::Memory => NotRun::Refused(Status::Memory),
        }
    }
}

impl NotRun {
    /// The report of a call in which no core ran.
    pub fn report(self, alloc: Global) -> CommandReport
        ensures status { result.status ≡ status_for self }
        ensures finishes { finishes_of result.finishes ≡ [] }
        ensures refusals { result.refusals.items ≡ [] }
        ensures attached { result.attached ≡ true }
        ensures began { result.began ≡ has_begun self }
        ensures complete { result.complete ≡ false }
        ensures in_place { result.in_place ≡ false }
    {
        match self {
            NotRun::Refused(status) => CommandReport::of(alloc, status, true),
            NotRun::Unsplit => {
                let mut report = CommandReport::of(alloc, Status::RegionFault, true);
                report.began = true;
                report
            }
        }
    }
}

/// Reads the input and runs the cores over its requests, on a region that was attached, and writes the replies of each
/// window behind it. Where it answers an `Err`, no core worked: the region is as it was, but for its counts, and the sink
/// is untouched.
fn run_cores<
    T: Threads + Wait + Clock + Sync,
    S: Source,
    O: Sink,
    R: SplitRegion + ReadRegion,
    G: Gate + Sync,
    W: Watch,
>(
    rt: &T,
    alloc: Global,
    source: &mut S,
    sink: &mut O,
    region: &mut R,
    gate: &G,
    watch: &mut W,
) -> Result<SinkRun, NotRun>
    requires open { S.ended source.old ≡ false }
    requires whole { StandsWhole (R.state region.old) }
    ensures played { IfOk result (PlayedApart (R.state region.old) (R.word region.old)
        (G.may_refuse gate.now)
        (R.state region.new)
        (source_use S.coming S.fault_count source.old source.new)
        (sink_use O.taken O.flushed O.fault_count sink.old sink.new)) }
    ensures refused { IfErr result (IsNotRun (R.state region.old) (R.word region.old)
        (R.state region.new)
        (source_use S.coming S.fault_count source.old source.new)) }
    ensures unwritten { OnErr result (sink.new ≡ sink.old) }
    ensures opens { IsNotOpened (R.state region.old) (R.state region.new) }
    // A region that breaks a rule goes before the source.
    ensures unread { IfErr result (λ why. is_of_region (status_for why) ≡ true
        → source.new ≡ source.old) }
{
    let (recovered, input) = prepared(alloc, source, region)?;
    let mut requests = TraceRequests::of(input);
    let ran = run_to_sink(
        rt,
        alloc,
        region,
        sink,
        recovered,
        &mut requests,
        gate,
        watch,
    )?;
    Ok(ran)
}

// The status of a run by its end, and why a window's text is not out.
fn run_status(end: End, unwritten: Option<Unwritten>) -> Status
    ensures { result ≡ ran_as end unwritten }
{
    match unwritten {
        None => status_of(end, false),
        Some(Unwritten::Astray) => Status::RegionFault,
        Some(Unwritten::SinkFault) => status_of(end, true),
        Some(Unwritten::Memory) => Status::Memory,
    }
}

// Whether the region was found in its place before the last window was written.
fn was_placed(end: End, unwritten: Option<Unwritten>) -> bool
    ensures { result ≡ is_placed end unwritten }
{
    match unwritten {
        Some(Unwritten::Astray) => false,
        None | Some(Unwritten::SinkFault | Unwritten::Memory) => is_ended(end),
    }
}

/// The report on a run on threads.
pub fn run_report(outcome: RunOutcome, status: Status, in_place: bool) -> CommandReport
    ensures status { result.status ≡ status }
    ensures finishes { finishes_of result.finishes
        ≡ finishes_from 0 outcome.notes.finished.items outcome.stamp }
    ensures refusals { result.refusals.items ≡ outcome.notes.refusals.items }
    ensures attached { result.attached ≡ true }
    ensures began { result.began ≡ true }
    ensures complete { result.complete ≡ is_ended outcome.end }
    ensures in_place { result.in_place ≡ in_place }
{
    let RunOutcome {
        notes,
        stamp,
        end,
        workers,
    } = outcome;
    leave(workers);
    let RunNotes { finished, refusals } = notes;
    let finishes = Finishes::Alike { finished, stamp };
    report_on(finishes, refusals, end, status, in_place)
}

// The report on what the cores did.
fn report_of(ran: SinkRun) -> CommandReport
    ensures status { result.status ≡ ran_as ran.outcome.end ran.unwritten }
    ensures finishes { finishes_of result.finishes
        ≡ finishes_from 0 ran.outcome.notes.finished.items ran.outcome.stamp }
    ensures refusals { result.refusals.items ≡ ran.outcome.notes.refusals.items }
    ensures attached { result.attached ≡ true }
    ensures began { result.began ≡ true }
    ensures complete { result.complete ≡ is_ended ran.outcome.end }
    ensures in_place { result.in_place ≡ is_placed ran.outcome.end ran.unwritten }
{
    let status = run_status(ran.outcome.end, ran.unwritten);
    let in_place = was_placed(ran.outcome.end, ran.unwritten);
    run_report(ran.outcome, status, in_place)
}

/// Attaches the region, reads the input, and runs a worker for each core in a thread of its own, window by window. The
/// replies of a window are written behind it, in the order of the requests, once the region is found in its place.
pub fn run_region<
    T: Threads + Wait + Clock + Sync,
    S: Source,
    O: Sink,
    R: SplitRegion + ReadRegion,
    G: Gate + Sync,
    W: Watch,
>(
    rt: &T,
    alloc: Global,
    source: &mut S,
    sink: &mut O,
    region: &mut R,
    gate: &G,
    watch: &mut W,
) -> CommandReport
    requires open { S.ended source.old ≡ false }
    ensures attaches { AttachesToSplit (R.state region.old) (R.state region.new)
        (R.found region.old) result }

    // The headline.
    ensures run { result.attached ≡ true → (input : List ℕ) × (cores : ℕ)
        × IsInput (S.coming source.old) input
        × RunsOnThreads (R.state region.old) (R.state region.new) (R.found region.old)
        (source_use S.coming S.fault_count source.old source.new)
        (G.may_refuse gate.now) cores input
        (sink_use O.taken O.flushed O.fault_count sink.old sink.new) result }
    ensures faults { CountsFaults (R.state region.old) (R.state region.new)
        (source_use S.coming S.fault_count source.old source.new)
        (sink_use O.taken O.flushed O.fault_count sink.old sink.new) result.status }
    ensures no_usage { result.status ≡ statuses.Usage → ⊥ }

    // Nothing is written where no core worked: the run did not begin, or the region could not be split.
    ensures unbegun_unwritten { result.began ≡ false → sink.new ≡ sink.old }
    ensures unsplit_unwritten { result.status ≡ statuses.RegionFault → result.complete ≡ false
        → sink.new ≡ sink.old }
    ensures unattached { result.attached ≡ false → result.complete ≡ false }
    ensures unbegun { result.began ≡ false → AnswersNothing result }
    ensures unattached_unbegun { result.attached ≡ false → result.began ≡ false }

    // Nothing is lost or changed by a refusal.
    ensures unread { is_of_region result.status ≡ true → source.new ≡ source.old }
    ensures unattached_unread { result.attached ≡ false → source.new ≡ source.old }
    ensures sink_untouched { is_quiet result.status ≡ true → sink.new ≡ sink.old }
    ensures quiet_unbegun { is_quiet result.status ≡ true → result.began ≡ false }
    ensures region_untouched { is_quiet result.status ≡ true → result.attached ≡ true
        → Attached (R.state region.old) (R.state region.new) (R.state region.new).frame.bytes
        (R.found region.old) }
{
    match region.attach(alloc) {
        Err(AttachError::RegionFault) => CommandReport::of(alloc, Status::RegionFault, false),
        Err(AttachError::Memory) => CommandReport::of(alloc, Status::Memory, false),
        Ok(()) => match run_cores(rt, alloc, source, sink, region, gate, watch) {
            Err(why) => why.report(alloc),
            Ok(ran) => report_of(ran),
        },
    }
}
