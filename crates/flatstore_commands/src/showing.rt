// What the words of a region say is written: its live pairs, or the entries of its logs.
ghost use Rattle.std.specs.Prelude.{◌≡◌, ◌≤◌, true, false, OnOk, OnErr, IfOk, IfErr, IsErrOf};
ghost use Rattle.pm_region.specs.State.{Faulted, Rose};
ghost use Rattle.pm_region.specs.Split.{words_in};
ghost use Rattle.chunk_map.specs.Layouts.{layout_of};
ghost use Rattle.store_image.specs.Listing.{ListsCells};
ghost use Rattle.store_image.specs.Parts.{all_entries};
ghost use Rattle.store_image.specs.Soundness.{IsSound};
ghost use Rattle.headline.specs.Headline.{cells_of};
ghost use Rattle.fs_text.specs.Streams.{Takes, TakesPrefix};
ghost use Rattle.flatstore_commands.specs.Ends.{ReportsNothing, sink_use};
ghost use Rattle.flatstore_commands.specs.ShownTexts.{IsTextOf, text_of};
ghost use Rattle.flatstore_commands.specs.Shows.{HasShown, IsUnlisted, Shows};
ghost use Rattle.flatstore_commands.specs.Ordering.{is_quiet};
ghost use Rattle.flatstore_commands.specs.declared.report.Status.TheVariants as statuses;

use crate::finishes::Finishes;
use crate::report::{CommandReport, Status};
use fs_model::Pair;
use fs_text::{OutError, Sink, write_entries, write_pairs};
use pm_region::{AttachError, ReadRegion, Snapshot, SplitRegion};
use recover::RecoverError;
use std::alloc::Global;
use store_image::PlacedEntry;

/// What a call shows of a region.
#[derive(Clone, Copy, Debug, PartialEq, Eq)]
pub enum Showing {
    /// Its live pairs, by rising key.
    Pairs,
    /// The entries of its logs by core, chunk and place, as they stand there: superseded ones and copies too.
    Entries,
}

/// What there is of it to show.
#[derive(Drop)]
enum Items {
    Pairs(Vec<Pair>),
    Entries(Vec<PlacedEntry>),
}

/// The live pairs of the words that an attached region reads, by rising key, or the status where there are none.
pub fn live_pairs<R: SplitRegion + ReadRegion>(
    alloc: Global,
    region: &R,
) -> Result<Vec<Pair>, Status>
    requires first { (R.state region.now).frame.first ≡ 0 }
    requires words { (R.state region.now).frame.words ≡ words_in (R.state region.now).frame.bytes }
    ensures ok { IfOk result (λ pairs. IsSound (R.state region.now).frame.bytes (R.word region.now)
        × ListsCells (cells_of (R.word region.now)) pairs.items) }
    ensures err { IfErr result (IsUnlisted (R.state region.now).frame.bytes (R.word region.now)) }
{
    let view = Snapshot::of(region);
    match recover::live_pairs(alloc, &view, region.bytes()) {
        Err(RecoverError::Memory) => Err(Status::Memory),
        Err(RecoverError::Fault(fault)) => Err(Status::of_fault(fault)),
        Ok(pairs) => Ok(pairs),
    }
}

/// The entries that the words of an attached region spell, by core, chunk and place, or the status where there are none.
fn placed_entries<R: SplitRegion + ReadRegion>(
    alloc: Global,
    region: &R,
) -> Result<Vec<PlacedEntry>, Status>
    requires first { (R.state region.now).frame.first ≡ 0 }
    requires words { (R.state region.now).frame.words ≡ words_in (R.state region.now).frame.bytes }
    ensures ok { IfOk result (λ entries.
        IsSound (R.state region.now).frame.bytes (R.word region.now)
        × (entries.items ≡ all_entries (layout_of (R.word region.now)) (R.word region.now))) }
    ensures err { IfErr result (IsUnlisted (R.state region.now).frame.bytes (R.word region.now)) }
{
    let view = Snapshot::of(region);
    match recover::log_entries(alloc, &view, region.bytes()) {
        Err(RecoverError::Memory) => Err(Status::Memory),
        Err(RecoverError::Fault(fault)) => Err(Status::of_fault(fault)),
        Ok(entries) => Ok(entries),
    }
}

/// What there is to show of an attached region, or the status where there is nothing.
fn items_of<R: SplitRegion + ReadRegion>(
    alloc: Global,
    region: &R,
    what: Showing,
) -> Result<Items, Status>
    requires first { (R.state region.now).frame.first ≡ 0 }
    requires words { (R.state region.now).frame.words ≡ words_in (R.state region.now).frame.bytes }
    ensures ok { IfOk result (λ items. IsSound (R.state region.now).frame.bytes (R.word region.now)
        × IsTextOf what (R.word region.now) (text_of items)) }
    ensures err { IfErr result (IsUnlisted (R.state region.now).frame.bytes (R.word region.now)) }
{
    match what {
        Showing::Pairs => match live_pairs(alloc, region) {
            Ok(pairs) => Ok(Items::Pairs(pairs)),
            Err(status) => Err(status),
        },
        Showing::Entries => match placed_entries(alloc, region) {
            Ok(entries) => Ok(Items::Entries(entries)),
            Err(status) => Err(status),
        },
    }
}

/// Writes a line for each item, and flushes the sink.
fn write_items<O: Sink>(alloc: Global, sink: &mut O, items: &Items) -> Result<(), OutError>
    ensures ok { OnOk result (Takes (O.taken sink.old) (O.taken sink.new) (text_of items.now)) }
    ensures flushed { OnOk result (O.flushed sink.new ≡ true) }
    ensures err { OnErr result (TakesPrefix (O.taken sink.old) (O.taken sink.new)
        (text_of items.now)) }
    ensures cause { IsErrOf result OutError.SinkFault
        → Rose (O.fault_count sink.old) (O.fault_count sink.new) }
    ensures count { O.fault_count sink.old ≤ O.fault_count sink.new }
{
    match items {
        Items::Pairs(pairs) => write_pairs(alloc, sink, pairs.as_slice()),
        Items::Entries(entries) => write_entries(alloc, sink, entries.as_slice()),
    }
}

/// Writes the items, and reports.
fn show_items<O: Sink>(alloc: Global, sink: &mut O, items: &Items) -> CommandReport
    ensures written { HasShown (text_of items.now)
        (sink_use O.taken O.flushed O.fault_count sink.old sink.new) result.status }
    ensures attached { result.attached ≡ true }
    ensures complete { result.complete ≡ true }
    ensures nothing { ReportsNothing result }
{
    let status = match write_items(alloc, sink, items) {
        Ok(()) => Status::Done,
        Err(OutError::SinkFault) => Status::SinkFault,
        Err(OutError::Memory) => Status::Memory,
    };
    CommandReport {
        status,
        finishes: Finishes::none(alloc),
        refusals: Vec::new(alloc),
        attached: true,
        began: false,
        complete: true,
        in_place: false,
    }
}

/// Attaches the region, and writes what is asked for of it. Of a region that breaks a rule nothing is shown.
pub fn show_region<O: Sink, R: SplitRegion + ReadRegion>(
    alloc: Global,
    sink: &mut O,
    region: &mut R,
    what: Showing,
) -> CommandReport
    ensures promise { Shows (IsTextOf what (R.word region.new))
        (R.state region.old) (R.state region.new) (R.found region.old) (R.word region.new)
        (sink_use O.taken O.flushed O.fault_count sink.old sink.new) result }
    ensures no_usage { result.status ≡ statuses.Usage → ⊥ }
    ensures no_source_fault { result.status ≡ statuses.SourceFault → ⊥ }
    ensures sink_fault { result.status ≡ statuses.SinkFault
        → Rose (O.fault_count sink.old) (O.fault_count sink.new) }
    ensures region_fault { result.status ≡ statuses.RegionFault
        → Faulted (R.state region.old) (R.state region.new) }
    ensures incomplete { result.complete ≡ false → sink.new ≡ sink.old }
    ensures unattached { result.attached ≡ false → result.complete ≡ false }
    ensures nothing { ReportsNothing result }
    ensures sink_untouched { is_quiet result.status ≡ true → sink.new ≡ sink.old }
{
    match region.attach(alloc) {
        Err(AttachError::RegionFault) => CommandReport::of(alloc, Status::RegionFault, false),
        Err(AttachError::Memory) => CommandReport::of(alloc, Status::Memory, false),
        Ok(()) => match items_of(alloc, region, what) {
            Err(status) => CommandReport::of(alloc, status, true),
            Ok(items) => show_items(alloc, sink, &items),
        },
    }
}
