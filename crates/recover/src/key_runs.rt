// The entries of one key in a list by names.
ghost use Rattle.std.specs.Prelude.{◌≡◌, ◌<◌, ◌==◌, length, slice_index_or, if◌then◌else◌};
ghost use Rattle.recover.specs.declared.found_entries.Found.{Found};
ghost use Rattle.recover.specs.FoundEntries.{AreInOrder};
ghost use Rattle.recover.specs.KeyRuns.{IsRun};

use crate::found_entries::Found;

/// Where a key's entries end in a list by names, and which of them wins the key.
#[derive(Clone, Copy)]
pub struct KeyRun {
    /// The first entry of the key's greatest version.
    pub winner: usize,
    /// The place behind the key's last entry.
    pub end: usize,
}

/// The place of the newer one of two entries of a key, the second no older. Of one version it is the first.
fn newer(sorted: &[Found], winner: usize, at: usize) -> usize
    requires winner { winner < length sorted.now }
    requires at { at < length sorted.now }
    ensures { (d : Found) → result ≡ (if (slice_index_or sorted.now at d).version
        == (slice_index_or sorted.now winner d).version then winner else at) }
{
    if sorted[at].version == sorted[winner].version {
        winner
    } else {
        at
    }
}

/// The entries of the key that stands at a place, from there on.
pub fn key_run(sorted: &[Found], at: usize) -> KeyRun
    requires order { AreInOrder sorted.now }
    requires at { at < length sorted.now }
    ensures { IsRun sorted.now at result }
{
    let mut winner = at;
    for i in at + 1..sorted.len() {
        if sorted[i].key != sorted[at].key {
            return KeyRun { winner, end: i };
        }
        winner = newer(sorted, winner, i);
    }
    KeyRun {
        winner,
        end: sorted.len(),
    }
}
