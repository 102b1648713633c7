// Which entries of a key are dead.
ghost use Rattle.std.specs.Prelude.{◌≡◌};
ghost use Rattle.core_index.specs.Records.{dies_in};
ghost use Rattle.core_index.specs.Slots.{alive_in};

use crate::entries::Entries;
use fs_model::Version;

/// Whether a version is dead, by the last version and whether that was a delete.
pub fn is_dead(last: Version, deleted: bool, standing: &Entries, version: Version) -> bool
    ensures { result ≡ dies_in last deleted standing.now.items version }
{
    version < last || (version == last && deleted && standing.stands_alone(version))
}

/// The home of the last version's entry, where it stands and is not dead.
pub fn alive_in(last: Version, deleted: bool, standing: &Entries) -> Option<u32>
    ensures { result ≡ alive_in last deleted standing.now.items }
{
    if is_dead(last, deleted, standing, last) {
        return None;
    }
    match standing.find(last) {
        None => None,
        Some(entry) => Some(entry.home),
    }
}
