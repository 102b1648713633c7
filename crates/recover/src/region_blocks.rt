// The value blocks of a region.
ghost use Rattle.std.specs.Prelude.{◌≡◌, ◌+◌, ◌*◌, ◌/◌, ◌^◌, ◌<◌, ◌≤◌, IfOk, IfSome, Some, None};
ghost use Rattle.pm_region.specs.State.{IsTelling};
ghost use Rattle.pm_region.specs.Words.{lasts};
ghost use Rattle.chunk_map.specs.Layouts.{total_words};
ghost use Rattle.store_image.specs.Parts.{block_class, value_in_block};
ghost use Rattle.recover.specs.Regions.{Covers};

use chunk_map::layout_sizes::{
    FIRST_UNIT, GREATEST_CLASS, SUPERBLOCK_WORDS, UNIT_BYTES, UNIT_WORDS,
};
use chunk_map::{Head, Layout, read_head};
use fs_model::{Memory, Value};
use lazy_alloc::value_in;
use pm_region::{Region, WORD_BYTES};
use std::alloc::Global;
use store_image::block_starts::is_start;

/// The class of the block that begins at a pointer, where a block of the part does. A pointer is the number
/// of the block's first byte in the region divided by 256.
pub fn block_class<R: Region>(region: &R, layout: &Layout, part: u32, pointer: u64) -> Option<u32>
    requires covers { Covers (R.state region.now).frame layout.now }
    requires part { part < layout.now.cores }
    ensures told { IsTelling (R.state region.now) → result
        ≡ block_class layout.now (lasts (R.state region.now)) part pointer }
    ensures small { IfSome result (λ class. class ≤ GREATEST_CLASS) }
    ensures within { IfSome result (λ class. UNIT_WORDS * pointer + UNIT_WORDS * 2 ^ class
        ≤ total_words layout.now) }
{
    if pointer < FIRST_UNIT {
        return None;
    }
    let geometry = layout.geometry();
    let units = geometry.chunk_bytes / UNIT_BYTES;
    let chunk = (pointer - FIRST_UNIT) / units;
    if chunk / geometry.chunks as u64 != part as u64 {
        return None;
    }
    let at = SUPERBLOCK_WORDS + chunk * (geometry.chunk_bytes / WORD_BYTES);
    match read_head(region, layout, at) {
        Ok(Head::Data { class }) => {
            if is_start(&geometry, class, (pointer - FIRST_UNIT) % units) {
                Some(class)
            } else {
                None
            }
        }
        _ => None,
    }
}

/// What the block of a part at a pointer holds: none where no block of the part begins there, or where its
/// first word is no length of its class.
pub fn value_in_block<R: Region>(
    alloc: Global,
    region: &R,
    layout: &Layout,
    part: u32,
    pointer: u64,
) -> Result<Option<Value>, Memory>
    requires covers { Covers (R.state region.now).frame layout.now }
    requires part { part < layout.now.cores }
    ensures { IfOk result (λ v. IsTelling (R.state region.now)
        → v ≡ value_in_block layout.now (lasts (R.state region.now)) part pointer) }
{
    match block_class(region, layout, part, pointer) {
        None => Ok(None),
        Some(class) => value_in(alloc, region, pointer, class),
    }
}
