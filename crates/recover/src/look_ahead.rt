// The first words of the next entries are loaded side by side.
ghost use Rattle.std.specs.Prelude.{◌≡◌, ◌/◌, false, IsOk};
ghost use Rattle.pm_region.specs.State.{IsTelling};
ghost use Rattle.pm_region.specs.Words.{lasts};
ghost use Rattle.recover.specs.Regions.{Covers};
ghost use Rattle.recover.specs.FoundEntries.{Stands, AreFound};

use crate::found_entries::Found;
use crate::reading::gone_fault;
use crate::types::RecoverError;
use chunk_map::Layout;
use log_entry::version_of;
use pm_region::{Region, WORD_BYTES};

/// So many entries are looked at at once. What is loaded for them stays near the processor until they are read.
const AHEAD: usize = 64;

/// Whether no entry of the version can stand where one was found, by the first word there.
fn is_gone<R: Region>(region: &R, layout: &Layout, found: &Found) -> bool
    requires covers { Covers (R.state region.now).frame layout.now }
    ensures { IsTelling (R.state region.now)
        → Stands layout.now (lasts (R.state region.now)) found.now → result ≡ false }
{
    let at = found.at as u64;
    at >= layout.total_bytes() / WORD_BYTES || version_of(region.load(at)) != found.version
}

/// Looks at some entries from a place on, unless that was done up to behind it, and gives the place up to which it was
/// done. Entries that are in the order of their names stand anywhere in the region, so that a load of one has to wait for
/// memory. Here the loads of many don't wait for each other, and what reads the entries afterwards finds them near. One
/// that stands there no more is answered as damage.
pub fn look_ahead<R: Region>(
    region: &R,
    layout: &Layout,
    sorted: &[Found],
    at: usize,
    looked: usize,
) -> Result<usize, RecoverError>
    requires covers { Covers (R.state region.now).frame layout.now }
    ensures { IsTelling (R.state region.now)
        → AreFound layout.now (lasts (R.state region.now)) sorted.now → IsOk result }
{
    if at < looked {
        return Ok(looked);
    }
    let end = sorted.len().min(at.saturating_add(AHEAD));
    for i in at..end {
        if is_gone(region, layout, &sorted[i]) {
            return Err(gone_fault(layout, &sorted[i]).into());
        }
    }
    Ok(end)
}
