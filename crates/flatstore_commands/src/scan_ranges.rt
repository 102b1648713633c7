// The queries of the input are answered.
ghost use Rattle.std.specs.Prelude.{◌≡◌, ◌⊎◌, ℕ, ◌≤◌, List, true, false, OnOk, OnErr, IfOk, IfErr, IsErrOf};
ghost use Rattle.fs_model.specs.declared.model.Pair.{Pair};
ghost use Rattle.pm_region.specs.Split.{Attached};
ghost use Rattle.pm_region.specs.State.{IsTelling, Rose};
ghost use Rattle.pm_region.specs.Words.{lasts};
ghost use Rattle.fs_text.specs.Streams.{Takes, TakesPrefix};
ghost use Rattle.range_scan.specs.LiveKeys.{AreLiveKeys};
ghost use Rattle.range_scan.specs.Starts.{AreStartsIn};
ghost use Rattle.flatstore_commands.specs.Ends.{CountsFaults, ReportsNothing, sink_use, source_use};
ghost use Rattle.flatstore_commands.specs.Ordering.{is_of_region, is_quiet};
ghost use Rattle.flatstore_commands.specs.Played.{StandsWhole};
ghost use Rattle.engine_core.specs.RunStarts.{StandsAsFound};
ghost use Rattle.flatstore_commands.specs.Asking.{AreAsked, AreUnread, IsReadyFor, IsUnasked, ListsLive};
ghost use Rattle.flatstore_commands.specs.Scans.{answer_text, answers_text, Scans};
ghost use Rattle.flatstore_commands.specs.Shows.{HasShown};
ghost use Rattle.flatstore_commands.specs.declared.report.Status.TheVariants as statuses;

use crate::finishes::Finishes;
use crate::replay::{recovered, unread};
use crate::report::{CommandReport, Status};
use fs_text::{OutError, Sink, Source};
use pm_region::{AttachError, ReadRegion, Region, Snapshot, SplitRegion};
use query_text::{Queries, Query, read_queries, write_count, write_page};
use range_scan::Directory;
use recover::{CoreStart, Recovered};
use std::alloc::Global;

/// What the queries of an input are answered from.
#[derive(Drop)]
pub struct Scan {
    /// What the words of the region say.
    pub recovered: Recovered,
    /// Its live keys.
    pub directory: Directory,
    /// All of them keep the rules.
    pub queries: Queries,
}

/// Reads the input to its end, and gives its queries.
fn read<S: Source>(alloc: Global, source: &mut S) -> Result<Queries, Status>
    requires open { S.ended source.old ≡ false }
    ensures ok { IfOk result (AreAsked (source_use S.coming S.fault_count source.old source.new)) }
    ensures err { IfErr result (AreUnread (source_use S.coming S.fault_count source.old
        source.new)) }
{
    match read_queries(alloc, source) {
        Ok(queries) => Ok(queries),
        Err(error) => Err(unread(error)),
    }
}

/// What a scan is answered from, of a region that was attached: what its words say, the queries of the input, and then
/// the directory of its live keys.
fn prepared<S: Source, R: SplitRegion + ReadRegion>(
    alloc: Global,
    source: &mut S,
    region: &R,
) -> Result<Scan, Status>
    requires open { S.ended source.old ≡ false }
    requires whole { StandsWhole (R.state region.now) }
    ensures ready { IfOk result (IsReadyFor (R.state region.now) (R.word region.now)
        (source_use S.coming S.fault_count source.old source.new)) }
    ensures refused { IfErr result (IsUnasked (R.state region.now)
        (source_use S.coming S.fault_count source.old source.new)) }
    // A region that breaks a rule goes before the source.
    ensures unread { IfErr result (λ status. is_of_region status ≡ true → source.new ≡ source.old) }
{
    let recovered = match recovered(alloc, region) {
        Ok(recovered) => recovered,
        Err(status) => return Err(status),
    };
    let queries = match read(alloc, source) {
        Ok(queries) => queries,
        Err(status) => return Err(status),
    };
    match Directory::build(alloc, &recovered.starts) {
        Err(_) => Err(Status::Memory),
        Ok(directory) => Ok(Scan {
            recovered,
            directory,
            queries,
        }),
    }
}

/// Writes the answer to a query.
fn answer<R: Region, O: Sink>(
    alloc: Global,
    region: &R,
    sink: &mut O,
    starts: &[CoreStart],
    directory: &Directory,
    query: &Query,
) -> Result<(), OutError>
    requires telling { IsTelling (R.state region.now) }
    requires keys { AreLiveKeys starts.now directory.now }
    requires starts { AreStartsIn (R.state region.now) starts.now }
    ensures ok { (pairs : List Pair) → ListsLive (lasts (R.state region.now)) directory.now pairs
        → OnOk result (Takes (O.taken sink.old) (O.taken sink.new)
        (answer_text pairs query.now)) }
    ensures err { (pairs : List Pair) → ListsLive (lasts (R.state region.now)) directory.now pairs
        → OnErr result (TakesPrefix (O.taken sink.old) (O.taken sink.new)
        (answer_text pairs query.now)) }
    ensures cause { IsErrOf result OutError.SinkFault
        → Rose (O.fault_count sink.old) (O.fault_count sink.new) }
    ensures count { O.fault_count sink.old ≤ O.fault_count sink.new }
{
    match *query {
        Query::Count { lo, hi } => write_count(alloc, sink, directory.count(lo, hi)),
        Query::Range { lo, hi, limit } => {
            match directory.page(alloc, region, starts, lo, hi, limit) {
                Err(_) => Err(OutError::Memory),
                Ok(page) => write_page(alloc, sink, &page.pairs, page.more),
            }
        }
    }
}

/// Writes the answers to queries in order, each before the next is computed.
fn answer_all<R: Region, O: Sink>(
    alloc: Global,
    region: &R,
    sink: &mut O,
    starts: &[CoreStart],
    directory: &Directory,
    queries: &[Query],
) -> Result<(), OutError>
    requires telling { IsTelling (R.state region.now) }
    requires keys { AreLiveKeys starts.now directory.now }
    requires starts { AreStartsIn (R.state region.now) starts.now }
    ensures ok { (pairs : List Pair) → ListsLive (lasts (R.state region.now)) directory.now pairs
        → OnOk result (Takes (O.taken sink.old) (O.taken sink.new)
        (answers_text pairs queries.now)) }
    ensures flushed { OnOk result (O.flushed sink.new ≡ true) }
    ensures err { (pairs : List Pair) → ListsLive (lasts (R.state region.now)) directory.now pairs
        → OnErr result (TakesPrefix (O.taken sink.old) (O.taken sink.new)
        (answers_text pairs queries.now)) }
    ensures cause { IsErrOf result OutError.SinkFault
        → Rose (O.fault_count sink.old) (O.fault_count sink.new) }
    ensures count { O.fault_count sink.old ≤ O.fault_count sink.new }
{
    for query in queries {
        answer(alloc, region, sink, starts, directory, query)?;
    }
    sink.flush()?;
    Ok(())
}

/// Writes the answers over the words that a region reads, and reports.
fn write_answers<R: ReadRegion, O: Sink>(
    alloc: Global,
    region: &R,
    sink: &mut O,
    scan: &Scan,
) -> CommandReport
    requires keys { AreLiveKeys scan.now.recovered.starts.items scan.now.directory }
    requires stands { StandsAsFound (R.state region.now) (R.word region.now) scan.now.recovered }
    ensures written { (pairs : List Pair)
        → ListsLive (R.word region.now) scan.now.directory pairs
        → HasShown (answers_text pairs scan.now.queries)
        (sink_use O.taken O.flushed O.fault_count sink.old sink.new) result.status }
    ensures attached { result.attached ≡ true }
    ensures complete { result.complete ≡ true }
    ensures nothing { ReportsNothing result }
{
    let view = Snapshot::of(region);
    let starts = scan.recovered.starts.as_slice();
    let queries = scan.queries.queries();
    let status = match answer_all(alloc, &view, sink, starts, &scan.directory, queries) {
        Ok(()) => Status::Done,
        Err(OutError::SinkFault) => Status::SinkFault,
        Err(OutError::Memory) => Status::Memory,
    };
    CommandReport {
        status,
        finishes: Finishes::none(alloc),
        refusals: Vec::new(alloc),
        attached: true,
        began: false,
        complete: true,
        in_place: false,
    }
}

/// Attaches the region, reads the input, and answers its queries in order over the live pairs. All queries are read and
/// judged before the first answer, and each answer is written before the next is computed. The region isn't written.
pub fn scan_region<S: Source, O: Sink, R: SplitRegion + ReadRegion>(
    alloc: Global,
    source: &mut S,
    sink: &mut O,
    region: &mut R,
) -> CommandReport
    requires open { S.ended source.old ≡ false }
    ensures promise { Scans (R.state region.old) (R.state region.new) (R.found region.old)
        (R.word region.new)
        (source_use S.coming S.fault_count source.old source.new)
        (sink_use O.taken O.flushed O.fault_count sink.old sink.new) result }
    ensures faults { CountsFaults (R.state region.old) (R.state region.new)
        (source_use S.coming S.fault_count source.old source.new)
        (sink_use O.taken O.flushed O.fault_count sink.old sink.new) result.status }
    ensures no_usage { result.status ≡ statuses.Usage → ⊥ }
    ensures nothing { ReportsNothing result }

    // Nothing is written where the queries were not judged.
    ensures incomplete { result.complete ≡ false → sink.new ≡ sink.old }
    ensures unattached { result.attached ≡ false → result.complete ≡ false }

    // Nothing is lost or changed by a refusal.
    ensures unread { is_of_region result.status ≡ true → source.new ≡ source.old }
    ensures unattached_unread { result.attached ≡ false → source.new ≡ source.old }
    ensures sink_untouched { is_quiet result.status ≡ true → sink.new ≡ sink.old }
    ensures region_untouched { is_quiet result.status ≡ true → result.attached ≡ true
        → Attached (R.state region.old) (R.state region.new) (R.state region.new).frame.bytes
        (R.found region.old) }
{
    match region.attach(alloc) {
        Err(AttachError::RegionFault) => CommandReport::of(alloc, Status::RegionFault, false),
        Err(AttachError::Memory) => CommandReport::of(alloc, Status::Memory, false),
        Ok(()) => match prepared(alloc, source, region) {
            Err(status) => CommandReport::of(alloc, status, true),
            Ok(scan) => write_answers(alloc, region, sink, &scan),
        },
    }
}
