// Entries by their names and the words at which they begin.
ghost use Rattle.std.specs.Prelude.{◌≡◌, ◌-◌, ◌*◌, ◌/◌, ◌<◌, true};
ghost use Rattle.chunk_map.specs.Layouts.{chunk_words};
ghost use Rattle.recover.specs.FoundEntries.{core_at, chunk_there, place_there};

use chunk_map::Layout;
use chunk_map::layout_sizes::{HEAD_WORDS, SUPERBLOCK_WORDS};
use fs_model::{Key, Version};
use pm_region::WORD_BYTES;

/// An entry by its name, and where it stands. Its body stays in the region.
#[derive(Clone, Copy)]
pub struct Found {
    /// With `version` the name.
    pub key: Key,
    /// Which change of the key it is, counted from 1.
    pub version: Version,
    /// The entry's first word, counted from the region's first. All parts together have less than 2^26 words.
    pub at: u32,
}

/// The number of the chunk in which a word lies, of all chunks of the region.
fn chunk_number(layout: &Layout, at: u32) -> u64
    ensures { result ≡ (at - SUPERBLOCK_WORDS) / chunk_words layout.now }
{
    let geometry = layout.geometry();
    (at as u64).saturating_sub(SUPERBLOCK_WORDS) / (geometry.chunk_bytes / WORD_BYTES)
}

// Whether a word lies in front of the second part. No division is needed to tell that, and a division takes long: in a
// region of one core none is made.
fn is_in_first(layout: &Layout, at: u32) -> bool
    ensures { result ≡ true → at - SUPERBLOCK_WORDS < chunk_words layout.now * layout.now.chunks }
{
    let geometry = layout.geometry();
    let words = geometry.chunk_bytes / WORD_BYTES;
    (at as u64).saturating_sub(SUPERBLOCK_WORDS) < words.saturating_mul(geometry.chunks as u64)
}

/// The core in whose part a word lies.
#[tactic(auto, unfolding(crate::specs::FoundEntries::core_at))]
pub fn core_of(layout: &Layout, at: u32) -> u32
    ensures { result ≡ core_at layout.now at }
{
    if is_in_first(layout, at) {
        return 0;
    }
    let geometry = layout.geometry();
    (chunk_number(layout, at) / geometry.chunks as u64) as u32
}

/// The chunk of the part in which a word lies.
#[tactic(auto, unfolding(crate::specs::FoundEntries::chunk_there))]
pub fn chunk_of(layout: &Layout, at: u32) -> u32
    ensures { result ≡ chunk_there layout.now at }
{
    let geometry = layout.geometry();
    (chunk_number(layout, at) % geometry.chunks as u64) as u32
}

/// The place of a word in its chunk's payload.
#[tactic(auto, unfolding(crate::specs::FoundEntries::place_there))]
pub fn place_of(layout: &Layout, at: u32) -> u64
    ensures { result ≡ place_there layout.now at }
{
    let geometry = layout.geometry();
    let words = geometry.chunk_bytes / WORD_BYTES;
    ((at as u64).saturating_sub(SUPERBLOCK_WORDS) % words).saturating_sub(HEAD_WORDS)
}
