// A region is made in place of whatever is there.
ghost use Rattle.std.specs.Prelude.{◌≡◌, true, false};
ghost use Rattle.pm_region.specs.State.{Faulted};
ghost use Rattle.flatstore_commands.specs.Ends.{ReportsNothing};
ghost use Rattle.flatstore_commands.specs.Formats.{Formats};
ghost use Rattle.flatstore_commands.specs.Ordering.{is_quiet};
ghost use Rattle.flatstore_commands.specs.declared.report.Status.TheVariants as statuses;

use crate::report::{CommandReport, Status};
use chunk_map::{Layout, write_superblock};
use pm_region::{AttachError, SplitRegion, WORD_BYTES};
use std::alloc::Global;

/// Creates the region of a layout, all zero, and writes its superblock. Until its last fence the region has no magic
/// word that is certain, so a crash leaves a region that is refused, or the empty one.
pub fn format_region<R: SplitRegion>(alloc: Global, region: &mut R, layout: Layout) -> CommandReport
    ensures promise { Formats (R.state region.old) (R.state region.new) layout result }
    ensures region_fault { result.status ≡ statuses.RegionFault
        → Faulted (R.state region.old) (R.state region.new) }
    ensures loud { is_quiet result.status ≡ false }
    ensures incomplete { result.complete ≡ false }
    ensures nothing { ReportsNothing result }
{
    match region.create(alloc, layout.total_bytes() / WORD_BYTES) {
        Err(AttachError::RegionFault) => CommandReport::of(alloc, Status::RegionFault, false),
        Err(AttachError::Memory) => CommandReport::of(alloc, Status::Memory, false),
        Ok(()) => match write_superblock(region, &layout) {
            Err(_) => CommandReport::of(alloc, Status::RegionFault, true),
            Ok(()) => CommandReport::of(alloc, Status::Done, true),
        },
    }
}
