// Where the chunks of an image lie.
ghost use Rattle.std.specs.Prelude.{◌≡◌, ◌+◌, ◌/◌, ◌<◌, ◌≤◌, None};
ghost use Rattle.chunk_map.specs.Layouts.{layout_rule, chunk_first, chunk_words, total_bytes, total_words};

use chunk_map::layout_sizes::{SUPERBLOCK_BYTES, SUPERBLOCK_WORDS};
use chunk_map::layouts::Geometry;
use pm_region::WORD_BYTES;

/// The number of a chunk's first word.
pub fn chunk_first(layout: &Geometry, part: u32, chunk: u32) -> usize
    requires layout { layout_rule layout.now ≡ None }
    requires part { part < layout.now.cores }
    requires chunk { chunk < layout.now.chunks }
    ensures value { result ≡ chunk_first layout.now part chunk }
    ensures within { result + chunk_words layout.now ≤ total_words layout.now }
{
    let number = part as usize * layout.chunks as usize + chunk as usize;
    SUPERBLOCK_WORDS as usize + number * (layout.chunk_bytes / WORD_BYTES) as usize
}

/// How many bytes a region of this layout has.
pub fn total_bytes(layout: &Geometry) -> u64
    requires { layout_rule layout.now ≡ None }
    ensures { result ≡ total_bytes layout.now }
{
    SUPERBLOCK_BYTES + layout.cores as u64 * layout.chunks as u64 * layout.chunk_bytes
}
