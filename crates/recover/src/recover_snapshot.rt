// Recovery of a region that needs to tell nothing.
ghost use Rattle.std.specs.Prelude.{◌≡◌, ℕ, ◌/◌, IfOk};
ghost use Rattle.pm_region.specs.declared.region_sizes.TheConstants.{WORD_BYTES};
ghost use Rattle.pm_region.specs.State.{IsTelling};
ghost use Rattle.pm_region.specs.Words.{lasts};
ghost use Rattle.chunk_map.specs.Checked.{IsLength};
ghost use Rattle.recover.specs.Regions.{IsCertain};
ghost use Rattle.recover.specs.Recovering.{IsMade, Recovers, AllStand};
ghost use Rattle.recover.specs.Reading.{AllLie};

use crate::recover_region::recover;
use crate::types::{RecoverError, Recovered};
use pm_region::{ReadRegion, Snapshot};
use std::alloc::Global;

/// What the cores of a region of so many bytes begin with, or the first broken rule, by the words that the region
/// reads, also where it tells nothing of its contents. It writes nothing.
pub fn recover_read<R: ReadRegion>(
    alloc: Global,
    region: &R,
    bytes: u64,
) -> Result<Recovered, RecoverError>
    requires first { (R.state region.now).frame.first ≡ 0 }
    requires words { IsLength bytes → (R.state region.now).frame.words ≡ bytes / WORD_BYTES }
    ensures made { IfOk result (IsMade bytes) }
    // By the words that the region reads.
    ensures read { Recovers bytes (R.word region.now) result }
    // Those are the ones that it tells, where it tells.
    ensures told { IsTelling (R.state region.now)
        → Recovers bytes (lasts (R.state region.now)) result }
    // Where each word that is told is certain, each log stands in the region; so it does where nothing is told.
    ensures stands { IsCertain (R.state region.now) → IfOk result (AllStand (R.state region.now)) }
    ensures lies { IfOk result (AllLie (R.state region.now).frame) }
{
    recover(alloc, &Snapshot::of(region), bytes)
}
