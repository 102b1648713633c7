// The first broken rule of an image.
ghost use Rattle.std.specs.Prelude.{◌≡◌, ◌%◌, ◌/◌, ◌≤◌, length, IfOk, None, ◌↔◌};
ghost use Rattle.chunk_map.specs.Layouts.{layout_rule, total_words};
ghost use Rattle.store_image.specs.Soundness.{damage, first_fault};
ghost use Rattle.store_image.specs.Facts.{IsStore};
ghost use Rattle.image_yardstick.specs.Images.{image_of};

use crate::entry_rules::{block_fault, clash_fault};
use crate::gather_image::gather;
use crate::image_superblock::read_layout;
use chunk_map::layout_sizes::SUPERBLOCK_BYTES;
use chunk_map::layouts::Geometry;
use fs_model::Memory;
use pm_region::{MOST_BYTES, WORD_BYTES};
use std::alloc::Global;
use store_image::Fault;

/// The first broken one of rules 4 to 11.
fn damage(alloc: Global, layout: &Geometry, words: &[u64]) -> Result<Option<Fault>, Memory>
    requires layout { layout_rule layout.now ≡ None }
    requires words { length words.now ≡ total_words layout.now }
    ensures { IfOk result (λ f. f ≡ damage layout.now (image_of words.now)) }
{
    let gathered = gather(alloc, layout, words)?;
    if gathered.fault.is_some() {
        return Ok(gathered.fault);
    }
    let clash = clash_fault(&gathered.entries);
    if clash.is_some() {
        return Ok(clash);
    }
    let fault = block_fault(alloc, layout, words, &gathered.entries)?;
    Ok(fault)
}

/// The first rule of soundness that an image breaks, or none where it is sound. `words` are the image's
/// words and `bytes` its length in bytes; there must be as many words where that length is possible at all.
///
/// Rules 1 to 3 are tested first. Then 4 to 7 by part and chunk, then 8 over all entries by part, chunk and
/// place, then 9 to 11 by rising key.
pub fn first_fault(alloc: Global, words: &[u64], bytes: u64) -> Result<Option<Fault>, Memory>
    requires { bytes % WORD_BYTES ≡ 0 → SUPERBLOCK_BYTES ≤ bytes → bytes ≤ MOST_BYTES
        → length words.now ≡ bytes / WORD_BYTES }
    ensures first { IfOk result (λ f. f ≡ first_fault bytes (image_of words.now)) }
    ensures sound { IfOk result (λ f. (f ≡ None) ↔ IsStore bytes (image_of words.now)) }
{
    match read_layout(words, bytes) {
        Err(rule) => Ok(Some(Fault::NotARegion { rule })),
        Ok(layout) => {
            let fault = damage(alloc, &layout, words)?;
            Ok(fault)
        }
    }
}
