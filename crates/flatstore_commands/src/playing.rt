// The lines of the input are run on the region.
ghost use Rattle.std.specs.Prelude.{◌≡◌, ◌⊎◌, ℕ, ◌≤◌, List, Some, None, true, false, OnOk, OnErr, IfOk};
ghost use Rattle.pm_region.specs.Split.{Attached};
ghost use Rattle.flatstore_commands.specs.Ends.{AnswersNothing, CountsFaults, sink_use, source_use};
ghost use Rattle.flatstore_commands.specs.Attaching.{AttachesToRun};
ghost use Rattle.flatstore_commands.specs.Ordering.{is_of_region, is_quiet};
ghost use Rattle.flatstore_commands.specs.Promise.{IsInput, Replays};
ghost use Rattle.flatstore_commands.specs.declared.report.Status.TheVariants as statuses;

use crate::replay::{leave, replay, write_outcome};
use crate::report::{CommandReport, Status};
use fs_text::{Sink, Source};
use pm_region::{AttachError, ReadRegion, SplitRegion};
use std::alloc::Global;

/// Attaches the region, reads the input, runs its lines, and writes the replies in the order of the requests once all
/// are answered and the region is found in its place.
pub fn replay_region<S: Source, O: Sink, R: SplitRegion + ReadRegion>(
    alloc: Global,
    source: &mut S,
    sink: &mut O,
    region: &mut R,
) -> CommandReport
    requires open { S.ended source.old ≡ false }
    ensures attaches { AttachesToRun (R.state region.old) (R.state region.new)
        (R.found region.old) result }

    // The headline.
    ensures replay { result.attached ≡ true
        → (input : List ℕ) × (cores : ℕ) × IsInput (S.coming source.old) input
        × Replays (R.state region.old) (R.state region.new) (R.found region.old)
        (source_use S.coming S.fault_count source.old source.new) cores input
        (sink_use O.taken O.flushed O.fault_count sink.old sink.new) result }
    ensures faults { CountsFaults (R.state region.old) (R.state region.new)
        (source_use S.coming S.fault_count source.old source.new)
        (sink_use O.taken O.flushed O.fault_count sink.old sink.new) result.status }
    ensures no_usage { result.status ≡ statuses.Usage → ⊥ }

    // Nothing is written where the run didn't come to its end, or the region was out of its place behind it.
    ensures incomplete { result.complete ≡ false → sink.new ≡ sink.old }
    ensures out_of_place { result.in_place ≡ false → sink.new ≡ sink.old }
    ensures unattached { result.attached ≡ false → result.complete ≡ false }
    ensures unbegun { result.began ≡ false → AnswersNothing result }
    ensures unattached_unbegun { result.attached ≡ false → result.began ≡ false }

    // Nothing is lost or changed by a refusal.
    ensures unread { is_of_region result.status ≡ true → source.new ≡ source.old }
    ensures unattached_unread { result.attached ≡ false → source.new ≡ source.old }
    ensures sink_untouched { is_quiet result.status ≡ true → sink.new ≡ sink.old }
    ensures quiet_unbegun { is_quiet result.status ≡ true → result.began ≡ false }
    ensures region_untouched { is_quiet result.status ≡ true → result.attached ≡ true
        → Attached (R.state region.old) (R.state region.new) (R.state region.new).frame.bytes
        (R.found region.old) }
{
    match region.attach(alloc) {
        Err(AttachError::RegionFault) => CommandReport::of(alloc, Status::RegionFault, false),
        Err(AttachError::Memory) => CommandReport::of(alloc, Status::Memory, false),
        Ok(()) => match replay(alloc, source, region) {
            Err(status) => CommandReport::of(alloc, status, true),
            Ok((outcome, workers)) => {
                leave(workers);
                write_outcome(alloc, sink, region, outcome)
            }
        },
    }
}
