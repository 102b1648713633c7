// The value blocks of an image.
ghost use Rattle.std.specs.Prelude.{◌≡◌, ◌+◌, ◌*◌, ◌/◌, ◌^◌, ◌<◌, ◌≤◌, length, IfOk, IfSome, Some, None};
ghost use Rattle.chunk_map.specs.Layouts.{layout_rule, total_words};
ghost use Rattle.store_image.specs.Parts.{block_class, value_by_class, value_in_block};
ghost use Rattle.image_yardstick.specs.Images.{image_of};

use crate::image_heads::head_at;
use chunk_map::heads::Head;
use chunk_map::layout_sizes::{
    FIRST_UNIT, GREATEST_CLASS, SUPERBLOCK_WORDS, UNIT_BYTES, UNIT_WORDS,
};
use chunk_map::layouts::Geometry;
use fs_model::{Memory, Value};
use log_entry::packing::{unpack, words_for};
use pm_region::WORD_BYTES;
use std::alloc::Global;
use store_image::block_starts::is_start;
use store_image::geometry::has_class;

/// The class of the block that begins at a pointer, where a block of the part does. A pointer is the
/// number of the block's first byte in the region divided by 256.
pub fn block_class(layout: &Geometry, words: &[u64], part: u32, pointer: u64) -> Option<u32>
    requires layout { layout_rule layout.now ≡ None }
    requires words { length words.now ≡ total_words layout.now }
    requires part { part < layout.now.cores }
    ensures value { result ≡ block_class layout.now (image_of words.now) part pointer }
    ensures small { IfSome result (λ class. class ≤ GREATEST_CLASS) }
    ensures within { IfSome result (λ class. UNIT_WORDS * pointer + UNIT_WORDS * 2 ^ class
        ≤ total_words layout.now) }
{
    if pointer < FIRST_UNIT {
        return None;
    }
    let units = layout.chunk_bytes / UNIT_BYTES;
    let chunk = (pointer - FIRST_UNIT) / units;
    if chunk / layout.chunks as u64 != part as u64 {
        return None;
    }
    let at = SUPERBLOCK_WORDS as usize
        + chunk as usize * (layout.chunk_bytes / WORD_BYTES) as usize;
    match head_at(layout, words, at) {
        Ok(Head::Data { class }) => {
            if is_start(layout, class, (pointer - FIRST_UNIT) % units) {
                Some(class)
            } else {
                None
            }
        }
        _ => None,
    }
}

/// The bytes of the value in a block of this class, where the block's first word is a length of the class.
fn value_in(alloc: Global, words: &[u64], pointer: u64, class: u32) -> Result<Option<Value>, Memory>
    requires class { class ≤ GREATEST_CLASS }
    requires within { UNIT_WORDS * pointer + UNIT_WORDS * 2 ^ class ≤ length words.now }
    requires small { length words.now < 2 ^ 32 }
    ensures { IfOk result (λ v. v ≡ value_by_class (image_of words.now) pointer (Some class)) }
{
    let at = UNIT_WORDS as usize * pointer as usize;
    let length = words[at];
    if !has_class(length, class) {
        return Ok(None);
    }
    let count = words_for(length) as usize;
    let mut bytes = unpack(alloc, &words[at + 1..at + 1 + count])?;
    bytes.truncate(length as usize);
    Ok(Some(Value::of(bytes)))
}

/// What the block of a part at a pointer holds: none where no block of the part begins there, or where its
/// first word is no length of its class.
pub fn value_in_block(
    alloc: Global,
    layout: &Geometry,
    words: &[u64],
    part: u32,
    pointer: u64,
) -> Result<Option<Value>, Memory>
    requires layout { layout_rule layout.now ≡ None }
    requires words { length words.now ≡ total_words layout.now }
    requires part { part < layout.now.cores }
    ensures { IfOk result (λ v. v ≡ value_in_block layout.now (image_of words.now) part pointer) }
{
    match block_class(layout, words, part, pointer) {
        None => Ok(None),
        Some(class) => value_in(alloc, words, pointer, class),
    }
}
