// Whose a key is, and which blocks hold a value.
ghost use Rattle.std.specs.Prelude.{◌≡◌, ◌<◌, ◌≤◌};
ghost use Rattle.chunk_map.specs.Layouts.{owner, is_of_group, has_class};

use chunk_map::layout_sizes::{GREATEST_CLASS, SHORTEST_IN_BLOCK, UNIT_BYTES};
use chunk_map::layouts::Geometry;
use pm_region::WORD_BYTES;

/// The core whose part holds a key's value.
pub fn owner(layout: &Geometry, key: u64) -> u32
    requires { 1 ≤ layout.now.cores }
    ensures value { result ≡ owner layout.now key }
    ensures low { result < layout.now.cores }
{
    (key % layout.cores as u64) as u32
}

/// Whether a core of the part's group owns the key.
pub fn is_of_group(layout: &Geometry, part: u32, key: u64) -> bool
    requires cores { 1 ≤ layout.now.cores }
    requires group { 1 ≤ layout.now.group }
    ensures { result ≡ is_of_group layout.now part key }
{
    owner(layout, key) / layout.group == part / layout.group
}

/// Whether a value of this length in bytes gets a block of this class.
pub fn has_class(length: u64, class: u32) -> bool
    requires { class ≤ GREATEST_CLASS }
    ensures { result ≡ has_class length class }
{
    let block = UNIT_BYTES << class;
    length >= SHORTEST_IN_BLOCK
        && length <= block
        && length + WORD_BYTES <= block
        && (class == 1 || block / 2 < length + WORD_BYTES)
}
