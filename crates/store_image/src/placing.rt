// Entries with the places at which they were found.
ghost use Rattle.std.specs.Prelude.{◌≡◌, ◌++◌, map, IfOk};
ghost use Rattle.log_entry.specs.Batches.{scan_of};
ghost use Rattle.store_image.specs.Scanned.{name_at};
ghost use Rattle.store_image.specs.Parts.{placed_in_chunk};

use crate::scanning::AtPlace;
use crate::types::PlacedEntry;
use fs_model::Memory;
use log_entry::entry::Read;
use log_entry::entry_reading::read_entry;
use std::alloc::Global;

/// Appends the entries of a chunk with their places: those that a scan of its payload found, each as it is read there.
pub fn place_entries(
    alloc: Global,
    payload: &[u64],
    part: u32,
    chunk: u32,
    found: &[AtPlace],
    entries: &mut Vec<PlacedEntry>,
) -> Result<(), Memory>
    requires { found.now ≡ map name_at (scan_of payload.now).entries }
    ensures { IfOk result (λ _. entries.new.items
        ≡ entries.old.items ++ placed_in_chunk part chunk (scan_of payload.now).entries) }
{
    for x in found {
        if let Read::Entry { entry, length: _ } = read_entry(alloc, payload, x.place)? {
            entries.push(PlacedEntry {
                core: part,
                chunk,
                place: x.place,
                entry,
            })?;
        }
    }
    Ok(())
}
