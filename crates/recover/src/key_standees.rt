// The entries of one key that stand in the logs.
ghost use Rattle.std.specs.Prelude.{◌≡◌, map, IfOk};
ghost use Rattle.chunk_map.specs.Layouts.{IsLayout};
ghost use Rattle.recover.specs.Standing.{standee_at};

use crate::found_entries::{Found, core_of};
use chunk_map::Layout;
use core_index::Standee;
use fs_model::Memory;

/// Puts the entries of a key into a list, in place of what it has: each version with the core in whose part it stands.
/// After a crash in the midst of cleaning one may stand twice.
pub fn list_standees(
    layout: &Layout,
    run: &[Found],
    standing: &mut Vec<Standee>,
) -> Result<(), Memory>
    requires { IsLayout layout.now }
    ensures { IfOk result (λ _. standing.new.items ≡ map (standee_at layout.now) run.now) }
{
    standing.clear();
    for found in run {
        standing.push(Standee {
            version: found.version,
            home: core_of(layout, found.at),
        })?;
    }
    Ok(())
}
