// The superblock of an image.
ghost use Rattle.std.specs.Prelude.{◌≡◌, ◌%◌, ◌/◌, ◌≤◌, length, MatchOption, MatchResult, IfOk, Some, None, is_none, false};
ghost use Rattle.chunk_map.specs.Layouts.{layout_rule, layout_of, superblock_rule, total_bytes};
ghost use Rattle.image_yardstick.specs.Images.{image_of};

use crate::image_places::total_bytes;
use chunk_map::layout_sizes::{
    FORMAT, MAGIC, MOST_CHUNKS, MOST_CORES, MOST_GROUP, SUPERBLOCK_BYTES,
};
use chunk_map::layouts::{Geometry, layout_rule};
use pm_region::{MOST_BYTES, WORD_BYTES};

/// The layout in the superblock, where words 2 to 5 keep the rules of a layout.
pub fn layout_at(words: &[u64]) -> Option<Geometry>
    requires { 6 ≤ length words.now }
    ensures { MatchOption result (is_none (layout_rule (layout_of (image_of words.now))) ≡ false)
        (λ l. (l ≡ layout_of (image_of words.now)) × (layout_rule l ≡ None)) }
{
    let cores = words[2];
    let group = words[3];
    let chunks = words[4];
    let chunk_bytes = words[5];
    if layout_rule(cores, group, chunks, chunk_bytes).is_some() {
        return None;
    }
    if cores > MOST_CORES || group > MOST_GROUP || chunks > MOST_CHUNKS {
        return None;
    }
    Some(Geometry {
        cores: cores as u32,
        group: group as u32,
        chunks: chunks as u32,
        chunk_bytes,
    })
}

/// The layout in the superblock of an image, or the first rule of 1 to 3 that it breaks. `bytes` is the
/// image's length; the words must be as many where that length is possible at all.
///
/// 1. The length is a multiple of 8, from 4,096 to 268,439,552 bytes.
/// 2. Word 0 is the magic and word 1 the format, 1.
/// 3. Words 2 to 5 are a layout, and the length is that layout's.
pub fn read_layout(words: &[u64], bytes: u64) -> Result<Geometry, u32>
    requires { bytes % WORD_BYTES ≡ 0 → SUPERBLOCK_BYTES ≤ bytes → bytes ≤ MOST_BYTES
        → length words.now ≡ bytes / WORD_BYTES }
    ensures rule { MatchResult result (λ l. superblock_rule bytes (image_of words.now) ≡ None)
        (λ rule. superblock_rule bytes (image_of words.now) ≡ Some rule) }
    ensures layout { IfOk result (λ l. (l ≡ layout_of (image_of words.now))
        × (layout_rule l ≡ None) × (length words.now ≡ total_bytes l / WORD_BYTES)) }
{
    if !(bytes % WORD_BYTES == 0 && bytes >= SUPERBLOCK_BYTES && bytes <= MOST_BYTES) {
        return Err(1);
    }
    if !(words[0] == MAGIC && words[1] == FORMAT) {
        return Err(2);
    }
    match layout_at(words) {
        None => Err(3),
        Some(layout) => {
            if bytes == total_bytes(&layout) {
                Ok(layout)
            } else {
                Err(3)
            }
        }
    }
}
