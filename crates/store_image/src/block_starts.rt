// Where a block may begin in a chunk.
ghost use Rattle.std.specs.Prelude.{◌≡◌, ◌≤◌};
ghost use Rattle.store_image.specs.Parts.{is_start};

use chunk_map::layout_sizes::{GREATEST_CLASS, UNIT_BYTES};
use chunk_map::layouts::Geometry;

/// Whether a block of a class begins at a unit of a chunk and lies in it wholly. A unit has 256 bytes.
pub fn is_start(layout: &Geometry, class: u32, unit: u64) -> bool
    requires { class ≤ GREATEST_CLASS }
    ensures { result ≡ is_start layout.now class unit }
{
    let size = 1u64 << class;
    let units = layout.chunk_bytes / UNIT_BYTES;
    unit >= 1 && (unit - 1) % size == 0 && size <= units && unit <= units - size
}
