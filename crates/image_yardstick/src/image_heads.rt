// Reading the heads of chunks in a list of words.
ghost use Rattle.std.specs.Prelude.{◌≡◌, ℕ, ◌+◌, ◌≤◌, length};
ghost use Rattle.chunk_map.specs.Layouts.{head_at};
ghost use Rattle.image_yardstick.specs.Images.{image_of};

use chunk_map::heads::{Head, head_by};
use chunk_map::layout_sizes::{HEAD_WORDS, UNIT_BYTES};
use chunk_map::layouts::Geometry;

/// The head at a word, or the rule that it breaks.
pub fn head_at(geometry: &Geometry, words: &[u64], at: usize) -> Result<Head, u32>
    requires within { at + HEAD_WORDS ≤ length words.now }
    requires size { UNIT_BYTES ≤ geometry.now.chunk_bytes }
    ensures { result ≡ head_at geometry.now (image_of words.now) at }
{
    head_by(geometry, words[at], words[at + 1])
}
