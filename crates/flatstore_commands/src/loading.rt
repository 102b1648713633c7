// A load: requests that are made, each core with a worker in a thread of its own, and the tally of their replies.
ghost use Rattle.std.specs.Prelude.{◌≡◌, List, [], true, false, IfOk, IfErr};
ghost use Rattle.fs_model.specs.declared.model.Reply.{Reply};
ghost use Rattle.pm_region.specs.State.{Faulted, Rose};
ghost use Rattle.pm_region.specs.Split.{Attached, IsNotOpened, words_in};
ghost use Rattle.fs_text.specs.Output.{tally_text};
ghost use Rattle.fs_text.specs.Streams.{Takes, TakesPrefix};
ghost use Rattle.load_tally.specs.Tallied.{tally_of};
ghost use Rattle.flatstore_commands.specs.Attaching.{Asks};
ghost use Rattle.flatstore_commands.specs.Ends.{AnswersNothing, sink_use};
ghost use Rattle.flatstore_commands.specs.Finished.{finishes_of, finishes_from};
ghost use Rattle.flatstore_commands.specs.Loads.{AttachesToLoad, LoadsOnThreads};
ghost use Rattle.flatstore_commands.specs.LoadPlays.{Loaded, IsNotLoaded, HasShownTally, HasTallied};
ghost use Rattle.flatstore_commands.specs.Ordering.{is_quiet};
ghost use Rattle.flatstore_commands.specs.Played.{StandsWhole, HasWritten, is_ended};
ghost use Rattle.flatstore_commands.specs.declared.report.Status.TheVariants as statuses;

use crate::load_size::LoadSize;
use crate::replay::{is_ended, recovered, status_of};
use crate::report::{CommandReport, Status};
use crate::run_threads::{NotRun, run_report};
use crate::showing::live_pairs;
use core_worker::Gate;
use engine_core::run_outcome::End;
use fs_text::{LoadTally, OutError, Sink, write_tally};
use load_run::{LoadRun, run_load};
use load_tally::add_pairs;
use pm_region::{AttachError, ReadRegion, RegionFault, SplitRegion};
use std::alloc::Global;
use std::sync::Wait;
use std::thread::Threads;
use std::time::Clock;
use thread_engine::watch::Watch;

/// Runs the cores over the requests of a load, on a region that was attached. Where it answers an `Err`, no core worked:
/// the region is as it was, but for its counts.
fn load_cores<
    T: Threads + Wait + Clock + Sync,
    R: SplitRegion + ReadRegion,
    G: Gate + Sync,
    W: Watch,
>(
    rt: &T,
    alloc: Global,
    region: &mut R,
    size: LoadSize,
    gate: &G,
    watch: &mut W,
) -> Result<LoadRun, NotRun>
    requires whole { StandsWhole (R.state region.old) }
    ensures loaded { IfOk result (Loaded (R.state region.old) (R.word region.old)
        (G.may_refuse gate.now) size.start size.count
        (R.state region.new)) }
    ensures refused { IfErr result (IsNotLoaded (R.state region.old) (R.word region.old)
        (R.state region.new)) }
    ensures opens { IsNotOpened (R.state region.old) (R.state region.new) }
{
    let recovered = recovered(alloc, region)?;
    let ran = run_load(
        rt, alloc, region, recovered, size.start, size.count, gate, watch,
    )?;
    Ok(ran)
}

// Writes a tally behind a run that came to its end.
fn write_counts<O: Sink>(alloc: Global, sink: &mut O, end: End, tally: &LoadTally) -> Status
    requires { is_ended end ≡ true }
    ensures written { HasWritten
        (Takes (O.taken sink.old) (O.taken sink.new) (tally_text tally.now))
        (TakesPrefix (O.taken sink.old) (O.taken sink.new) (tally_text tally.now)) end
        (sink_use O.taken O.flushed O.fault_count sink.old sink.new) result }
    ensures loud { is_quiet result ≡ false }
{
    match write_tally(alloc, sink, tally) {
        Err(OutError::Memory) => Status::Memory,
        Err(OutError::SinkFault) => status_of(end, true),
        Ok(()) => status_of(end, false),
    }
}

// Writes the tally of these replies, with the live pairs of the words that the region reads.
fn show_tally<O: Sink, R: SplitRegion + ReadRegion>(
    alloc: Global,
    sink: &mut O,
    region: &R,
    end: End,
    tally: LoadTally,
) -> Status
    requires ended { is_ended end ≡ true }
    requires first { (R.state region.now).frame.first ≡ 0 }
    requires words { (R.state region.now).frame.words ≡ words_in (R.state region.now).frame.bytes }
    ensures shown { (replies : List Reply) → tally ≡ tally_of replies []
        → HasShownTally (R.state region.now).frame.bytes (R.word region.now) replies end
        (sink_use O.taken O.flushed O.fault_count sink.old sink.new) result }
    ensures untouched { is_quiet result ≡ true → sink.new ≡ sink.old }
{
    let pairs = match live_pairs(alloc, region) {
        Err(status) => return status,
        Ok(pairs) => pairs,
    };
    let mut tally = tally;
    add_pairs(&mut tally, &pairs);
    write_counts(alloc, sink, end, &tally)
}

// Asks the region whether it is still in its place, where every request was answered, and writes the tally only if it is.
// Reports in any case.
fn write_load<O: Sink, R: SplitRegion + ReadRegion>(
    alloc: Global,
    sink: &mut O,
    region: &mut R,
    ran: LoadRun,
) -> CommandReport
    requires first { (R.state region.old).frame.first ≡ 0 }
    requires words { (R.state region.old).frame.words ≡ words_in (R.state region.old).frame.bytes }
    ensures finishes { finishes_of result.finishes
        ≡ finishes_from 0 ran.outcome.notes.finished.items ran.outcome.stamp }
    ensures refusals { result.refusals.items ≡ ran.outcome.notes.refusals.items }
    ensures attached { result.attached ≡ true }
    ensures began { result.began ≡ true }
    ensures complete { result.complete ≡ is_ended ran.outcome.end }
    ensures asked { result.in_place ≡ true → result.complete ≡ true }
    ensures asks { Asks result.complete result.in_place (R.state region.old) (R.state region.new) }
    ensures tallied { (replies : List Reply)
        → (is_ended ran.outcome.end ≡ true → ran.tally ≡ tally_of replies [])
        → HasTallied (R.state region.new).frame.bytes (R.word region.new) replies ran.outcome.end
        (sink_use O.taken O.flushed O.fault_count sink.old sink.new) result.in_place result.status }
    ensures untouched { result.in_place ≡ false → sink.new ≡ sink.old }
    ensures quiet { is_quiet result.status ≡ true → sink.new ≡ sink.old }
{
    let LoadRun { outcome, tally } = ran;
    if !is_ended(outcome.end) {
        return run_report(outcome, Status::Memory, false);
    }
    match region.revalidate() {
        Err(RegionFault) => run_report(outcome, Status::RegionFault, false),
        Ok(()) => {
            let status = show_tally(alloc, sink, &*region, outcome.end, tally);
            run_report(outcome, status, true)
        }
    }
}

/// Attaches the region, and runs a worker for each core in a thread of its own over requests that are made window by
/// window. The tally of their replies is written behind the run, with the live pairs that the region has then, once the
/// region is found in its place.
pub fn load_region<
    T: Threads + Wait + Clock + Sync,
    O: Sink,
    R: SplitRegion + ReadRegion,
    G: Gate + Sync,
    W: Watch,
>(
    rt: &T,
    alloc: Global,
    sink: &mut O,
    region: &mut R,
    size: LoadSize,
    gate: &G,
    watch: &mut W,
) -> CommandReport
    ensures attaches { AttachesToLoad (R.state region.old) (R.state region.new)
        (R.found region.old) result }

    // The headline.
    ensures load { result.attached ≡ true
        → LoadsOnThreads (R.state region.old) (R.state region.new) (R.found region.old)
        (R.word region.new) (G.may_refuse gate.now) size.start size.count
        (sink_use O.taken O.flushed O.fault_count sink.old sink.new) result }
    ensures no_usage { result.status ≡ statuses.Usage → ⊥ }
    ensures no_source_fault { result.status ≡ statuses.SourceFault → ⊥ }
    ensures sink_fault { result.status ≡ statuses.SinkFault
        → Rose (O.fault_count sink.old) (O.fault_count sink.new) }
    ensures region_fault { result.status ≡ statuses.RegionFault
        → Faulted (R.state region.old) (R.state region.new) }

    // Nothing is written where the run didn't come to its end, or the region was out of its place behind it.
    ensures incomplete { result.complete ≡ false → sink.new ≡ sink.old }
    ensures out_of_place { result.in_place ≡ false → sink.new ≡ sink.old }
    ensures unattached { result.attached ≡ false → result.complete ≡ false }
    ensures unbegun { result.began ≡ false → AnswersNothing result }
    ensures unattached_unbegun { result.attached ≡ false → result.began ≡ false }

    // Nothing is lost or changed by a refusal.
    ensures sink_untouched { is_quiet result.status ≡ true → sink.new ≡ sink.old }
    ensures region_untouched { result.began ≡ false → result.attached ≡ true
        → Attached (R.state region.old) (R.state region.new) (R.state region.new).frame.bytes
        (R.found region.old) }
{
    match region.attach(alloc) {
        Err(AttachError::RegionFault) => CommandReport::of(alloc, Status::RegionFault, false),
        Err(AttachError::Memory) => CommandReport::of(alloc, Status::Memory, false),
        Ok(()) => match load_cores(rt, alloc, region, size, gate, watch) {
            Err(why) => why.report(alloc),
            Ok(ran) => {
                watch.pauses();
                write_load(alloc, sink, region, ran)
            }
        },
    }
}
