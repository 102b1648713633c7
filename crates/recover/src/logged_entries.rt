// The entries of a region's logs, without what its cores begin with.
ghost use Rattle.std.specs.Prelude.{◌≡◌, ◌/◌};
ghost use Rattle.pm_region.specs.declared.region_sizes.TheConstants.{WORD_BYTES};
ghost use Rattle.pm_region.specs.State.{IsTelling};
ghost use Rattle.pm_region.specs.Words.{lasts};
ghost use Rattle.chunk_map.specs.Checked.{IsLength};
ghost use Rattle.recover.specs.Regions.{Covers};
ghost use Rattle.recover.specs.Logged.{Logs, ListsLogs};

use crate::gather_region::gather;
use crate::judge_winners::sound_entries;
use crate::reading::read_entries;
use crate::types::RecoverError;
use chunk_map::{Layout, read_superblock};
use pm_region::Region;
use std::alloc::Global;
use store_image::PlacedEntry;

/// The entries of a region of this layout, or the first broken one of rules 4 to 11.
fn logged<R: Region>(
    alloc: Global,
    region: &R,
    layout: &Layout,
) -> Result<Vec<PlacedEntry>, RecoverError>
    requires covers { Covers (R.state region.now).frame layout.now }
    ensures { IsTelling (R.state region.now)
        → Logs layout.now (lasts (R.state region.now)) result }
{
    sound_entries(alloc, region, layout)?;
    let found = gather(alloc, region, layout)?;
    read_entries(alloc, region, layout, &found)
}

/// All entries that stand in the logs of a region of so many bytes, by core, chunk and place, superseded ones and
/// copies too, or the first broken rule. The rules are tested first, so each log is read once more than for
/// `first_fault`. It writes nothing.
pub fn log_entries<R: Region>(
    alloc: Global,
    region: &R,
    bytes: u64,
) -> Result<Vec<PlacedEntry>, RecoverError>
    requires first { (R.state region.now).frame.first ≡ 0 }
    requires words { IsLength bytes → (R.state region.now).frame.words ≡ bytes / WORD_BYTES }
    ensures { IsTelling (R.state region.now) → ListsLogs bytes (lasts (R.state region.now)) result }
{
    let layout = read_superblock(region, bytes)?;
    logged(alloc, region, &layout)
}
