// The replies of the input are judged.
ghost use Rattle.std.specs.Prelude.{◌≡◌, ◌≤◌, ℕ, true, false, IfOk, IfErr};
ghost use Rattle.pm_region.specs.Split.{Attached};
ghost use Rattle.engine_core.specs.RunStarts.{StandsAsFound};
ghost use Rattle.headline.specs.Headline.{cells_of};
ghost use Rattle.run_audit.specs.FirstFault.{Judges, cells_in};
ghost use Rattle.run_audit.specs.VerdictText.{verdict_text};
ghost use Rattle.store_image.specs.Listing.{ListsCells};
ghost use Rattle.flatstore_commands.specs.Audits.{Audits, IsJudged, IsUnjudged, IsReadAudit, IsUnreadAudit};
ghost use Rattle.flatstore_commands.specs.Ends.{CountsFaults, ReportsNothing, sink_use, source_use};
ghost use Rattle.flatstore_commands.specs.Ordering.{is_of_region, is_quiet};
ghost use Rattle.flatstore_commands.specs.Played.{StandsWhole};
ghost use Rattle.flatstore_commands.specs.Shows.{HasShown};
ghost use Rattle.flatstore_commands.specs.declared.report.Status.TheVariants as statuses;

use crate::finishes::Finishes;
use crate::replay::{recovered, unread};
use crate::report::{CommandReport, Status};
use crate::workers::Workers;
use fs_model::Memory;
use fs_text::{OutError, Sink, Source};
use pm_region::{AttachError, ReadRegion, Snapshot, SplitRegion};
use recover::{Recovered, pairs};
use run_audit::{AuditInput, StartCell, Verdict, audit, read_audit, write_verdict};
use std::alloc::Global;
use std::thread::Threads;

/// The live pairs of the words that a region reads, of which this was recovered.
fn start_cells<R: SplitRegion + ReadRegion>(
    alloc: Global,
    region: &R,
    recovered: &Recovered,
) -> Result<Vec<StartCell>, Memory>
    requires { StandsAsFound (R.state region.now) (R.word region.now) recovered.now }
    ensures { IfOk result (λ cells. ListsCells (cells_of (R.word region.now)) cells.items) }
{
    let view = Snapshot::of(region);
    let cells = pairs(alloc, &view, recovered)?;
    Ok(cells)
}

/// Reads the input of an audit to its end, for a region of so many cores.
fn read<S: Source>(alloc: Global, source: &mut S, cores: u32) -> Result<AuditInput, Status>
    requires open { S.ended source.old ≡ false }
    ensures ok { IfOk result (IsReadAudit
        (source_use S.coming S.fault_count source.old source.new) cores) }
    ensures err { IfErr result (IsUnreadAudit
        (source_use S.coming S.fault_count source.old source.new) cores) }
{
    match read_audit(alloc, source, cores) {
        Ok(input) => Ok(input),
        Err(error) => Err(unread(error)),
    }
}

/// The verdict on the replies of an input, from these cells on.
fn verdict_on<T: Threads + Sync>(
    rt: &T,
    alloc: Global,
    start: &Vec<StartCell>,
    input: &AuditInput,
    workers: u32,
) -> Result<Verdict, Memory>
    requires some { 1 ≤ workers }
    requires few { workers ≤ 16 }
    ensures { IfOk result (Judges (cells_in start.now.items) input.now.trace.items
        input.now.replies.items) }
{
    audit(rt, alloc, start, &input.trace, &input.replies, workers)
}

/// The verdict on the replies of the input, from the live pairs of a region of which this was recovered, or the status
/// where there is none.
fn judged_from<T: Threads + Sync, S: Source, R: SplitRegion + ReadRegion>(
    rt: &T,
    alloc: Global,
    source: &mut S,
    region: &R,
    recovered: &Recovered,
    workers: u32,
) -> Result<Verdict, Status>
    requires open { S.ended source.old ≡ false }
    requires stands { StandsAsFound (R.state region.now) (R.word region.now) recovered.now }
    requires some { 1 ≤ workers }
    requires few { workers ≤ 16 }
    ensures judged { IfOk result (IsJudged (R.state region.now) (R.word region.now)
        (source_use S.coming S.fault_count source.old source.new)) }
    ensures refused { IfErr result (IsUnjudged (R.state region.now) (R.word region.now)
        (source_use S.coming S.fault_count source.old source.new)) }
    ensures unread { IfErr result (λ status. is_of_region status ≡ false) }
{
    let start = match start_cells(alloc, region, recovered) {
        Ok(start) => start,
        Err(Memory) => return Err(Status::Memory),
    };
    match read(alloc, source, recovered.layout.cores()) {
        Err(status) => Err(status),
        Ok(input) => match verdict_on(rt, alloc, &start, &input, workers) {
            Ok(verdict) => Ok(verdict),
            Err(Memory) => Err(Status::Memory),
        },
    }
}

/// The same of an attached region.
fn judged<T: Threads + Sync, S: Source, R: SplitRegion + ReadRegion>(
    rt: &T,
    alloc: Global,
    source: &mut S,
    region: &R,
    workers: u32,
) -> Result<Verdict, Status>
    requires open { S.ended source.old ≡ false }
    requires whole { StandsWhole (R.state region.now) }
    requires some { 1 ≤ workers }
    requires few { workers ≤ 16 }
    ensures judged { IfOk result (IsJudged (R.state region.now) (R.word region.now)
        (source_use S.coming S.fault_count source.old source.new)) }
    ensures refused { IfErr result (IsUnjudged (R.state region.now) (R.word region.now)
        (source_use S.coming S.fault_count source.old source.new)) }
    // A region that breaks a rule goes before the source.
    ensures unread { IfErr result (λ status. is_of_region status ≡ true → source.new ≡ source.old) }
{
    match recovered(alloc, region) {
        Err(status) => Err(status),
        Ok(recovered) => judged_from(rt, alloc, source, region, &recovered, workers),
    }
}

/// Writes the verdict, and reports.
fn write_audit<O: Sink>(alloc: Global, sink: &mut O, verdict: Verdict) -> CommandReport
    ensures written { HasShown (verdict_text verdict)
        (sink_use O.taken O.flushed O.fault_count sink.old sink.new) result.status }
    ensures attached { result.attached ≡ true }
    ensures complete { result.complete ≡ true }
    ensures nothing { ReportsNothing result }
{
    let status = match write_verdict(alloc, sink, verdict) {
        Ok(()) => Status::Done,
        Err(OutError::SinkFault) => Status::SinkFault,
        Err(OutError::Memory) => Status::Memory,
    };
    CommandReport {
        status,
        finishes: Finishes::none(alloc),
        refusals: Vec::new(alloc),
        attached: true,
        began: false,
        complete: true,
        in_place: false,
    }
}

/// Attaches the region, reads a trace and replies, and writes whether these are lawful for it, from the region's live
/// pairs on. The region isn't written.
pub fn audit_region<T: Threads + Sync, S: Source, O: Sink, R: SplitRegion + ReadRegion>(
    rt: &T,
    alloc: Global,
    source: &mut S,
    sink: &mut O,
    region: &mut R,
    workers: Workers,
) -> CommandReport
    requires open { S.ended source.old ≡ false }
    ensures promise { Audits (R.state region.old) (R.state region.new) (R.found region.old)
        (R.word region.new)
        (source_use S.coming S.fault_count source.old source.new)
        (sink_use O.taken O.flushed O.fault_count sink.old sink.new) result }
    ensures faults { CountsFaults (R.state region.old) (R.state region.new)
        (source_use S.coming S.fault_count source.old source.new)
        (sink_use O.taken O.flushed O.fault_count sink.old sink.new) result.status }
    ensures no_usage { result.status ≡ statuses.Usage → ⊥ }
    ensures nothing { ReportsNothing result }
    ensures incomplete { result.complete ≡ false → sink.new ≡ sink.old }
    ensures unattached { result.attached ≡ false → result.complete ≡ false }
    ensures unread { is_of_region result.status ≡ true → source.new ≡ source.old }
    ensures unattached_unread { result.attached ≡ false → source.new ≡ source.old }
    ensures sink_untouched { is_quiet result.status ≡ true → sink.new ≡ sink.old }
    ensures region_untouched { result.attached ≡ true → Attached (R.state region.old)
        (R.state region.new) (R.state region.new).frame.bytes (R.found region.old) }
{
    match region.attach(alloc) {
        Err(AttachError::RegionFault) => CommandReport::of(alloc, Status::RegionFault, false),
        Err(AttachError::Memory) => CommandReport::of(alloc, Status::Memory, false),
        Ok(()) => match judged(rt, alloc, source, region, workers.count) {
            Err(status) => CommandReport::of(alloc, status, true),
            Ok(verdict) => write_audit(alloc, sink, verdict),
        },
    }
}
