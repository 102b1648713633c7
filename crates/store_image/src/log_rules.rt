// The rules that what stands in a log may break.
ghost use Rattle.std.specs.Prelude.{◌≡◌, ◌≤◌};
ghost use Rattle.std.specs.List.{list_all};
ghost use Rattle.log_entry.specs.Batches.{Scan};
ghost use Rattle.chunk_map.specs.Layouts.{is_of_group};
ghost use Rattle.store_image.specs.Scanned.{IsScan};
ghost use Rattle.store_image.specs.Soundness.{rule_of};

use crate::geometry::is_of_group;
use crate::scanning::{AtPlace, Scanned};
use chunk_map::layouts::Geometry;

fn in_group(layout: &Geometry, part: u32, entries: &[AtPlace]) -> bool
    requires cores { 1 ≤ layout.now.cores }
    requires group { 1 ≤ layout.now.group }
    ensures { result ≡ list_all (λ x. is_of_group layout.now part x.name.key) entries.now }
{
    for x in entries {
        if !is_of_group(layout, part, x.name.key) {
            return false;
        }
    }
    true
}

/// The first of rules 6 and 7 that a log of the part breaks, by what stands in its payload.
pub fn log_rule(layout: &Geometry, part: u32, scanned: &Scanned) -> Option<u32>
    requires cores { 1 ≤ layout.now.cores }
    requires group { 1 ≤ layout.now.group }
    ensures { (found : Scan) → IsScan scanned.now found → result ≡ rule_of layout.now part found }
{
    if !in_group(layout, part, &scanned.entries) {
        return Some(7);
    }
    if scanned.whole { None } else { Some(6) }
}
