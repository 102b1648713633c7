// What of a chunk is still to be copied.
ghost use Rattle.std.specs.Prelude.{◌≡◌, ◌≢◌, ◌+◌, ◌-◌, ◌^◌, ◌≤◌, ◌<◌, true, is_some, Some, if◌then◌else◌};
ghost use Rattle.pm_region.specs.State.{IsTelling};
ghost use Rattle.core_log.specs.Log.{StandsIn, tail_of, tail_in};
ghost use Rattle.log_standing.specs.NameCounts.{wants};
ghost use Rattle.log_cleaner.specs.Copying.{IsUpToDate, to_copy};

use crate::reading_start::begin_at;
use crate::types::Victim;
use core_log::{CoreLog, Peek};
use log_standing::Standing;
use pm_region::Region;

// With an entry more, where it is still to be copied.
pub(crate) fn with_entry(so_far: Victim, standing: &Standing, found: Peek) -> Victim
    requires entries { so_far.entries + 1 < 2 ^ 64 }
    requires words { so_far.words + (found.next - found.place) < 2 ^ 64 }
    requires size { found.place ≤ found.next }
    ensures { result ≡ (if wants standing.now found.name.key found.name.version then record so_far
        { entries = so_far.entries + 1; words = so_far.words + (found.next - found.place) }
        else so_far) }
{
    if standing.wants(found.name) {
        return Victim {
            chunk: so_far.chunk,
            entries: so_far.entries + 1,
            words: so_far.words + (found.next - found.place),
        };
    }
    so_far
}

/// What of a chunk of the log is still to be copied: its entries that were not told dead and have no copy in
/// another chunk, each place of equal ones. It takes no memory, and does not read again what a cleaning has read.
pub fn to_copy<R: Region>(region: &R, log: &CoreLog, standing: &Standing, chunk: u32) -> Victim
    requires stands { StandsIn (R.state region.now) log.now }
    requires has { is_some (tail_of log.now.chunks chunk) ≡ true }
    requires standing { IsTelling (R.state region.now) → IsUpToDate (R.state region.now) log.now
        standing.now }
    ensures told { IsTelling (R.state region.now) → result ≡ to_copy (R.state region.now) log.now
        standing.now chunk }
    ensures chunk { result.chunk ≡ chunk }
    ensures entries { result.entries ≤ tail_in log.now chunk }
    ensures words { result.words ≤ tail_in log.now chunk }
{
    let mut so_far = Victim {
        chunk,
        entries: 0,
        words: 0,
    };
    let mut place = begin_at(log, standing, chunk);
    while let Some(found) = log.peek(region, chunk, place) {
        so_far = with_entry(so_far, standing, found);
        place = found.next;
    }
    so_far
}
