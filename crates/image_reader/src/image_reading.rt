// What the bytes of a region say.
ghost use Rattle.std.specs.Prelude.{◌≡◌, ◌%◌, ◌/◌, ◌≤◌, length, slice_index, IfOk};
ghost use Rattle.image_reader.specs.Shown.{ShowsBytes, ShowsWords};

use crate::image_bytes::words_of;
use chunk_map::layout_sizes::SUPERBLOCK_BYTES;
use fs_model::{Memory, Pair};
use image_yardstick::image_superblock::read_layout;
use image_yardstick::{first_fault, recovered_cells};
use pm_region::MOST_BYTES;
use std::alloc::Global;
use store_image::Fault;

/// What an image says.
#[derive(Drop)]
pub enum ImageContents {
    /// It is not sound, and this is the first rule that it breaks.
    Faulty(Fault),
    /// It is sound, and these are its live pairs by rising key.
    Sound(Vec<Pair>),
}

// What an image of these words says, where there are as many as the length asks.
fn read_words(alloc: Global, words: &[u64], bytes: u64) -> Result<ImageContents, Memory>
    requires { bytes % 8 ≡ 0 → SUPERBLOCK_BYTES ≤ bytes → bytes ≤ MOST_BYTES
        → length words.now ≡ bytes / 8 }
    ensures { IfOk result (λ found. ShowsWords found bytes (λ w. slice_index words.now w)) }
{
    match read_layout(words, bytes) {
        Err(rule) => Ok(ImageContents::Faulty(Fault::NotARegion { rule })),
        Ok(_) => match first_fault(alloc, words, bytes)? {
            Some(fault) => Ok(ImageContents::Faulty(fault)),
            None => Ok(ImageContents::Sound(recovered_cells(alloc, words)?)),
        },
    }
}

/// What the bytes of a region say: the first rule of soundness that they break, or the live pairs.
pub fn read_image(alloc: Global, bytes: &[u8]) -> Result<ImageContents, Memory>
    ensures { IfOk result (λ found. ShowsBytes found bytes.now) }
{
    let words = words_of(alloc, bytes)?;
    let found = read_words(alloc, &words, bytes.len() as u64)?;
    Ok(found)
}
