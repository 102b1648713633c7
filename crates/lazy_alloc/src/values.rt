// Values in blocks.
ghost use Rattle.std.specs.Prelude.{◌≡◌, ◌+◌, ◌*◌, ◌^◌, ◌≤◌, IfOk, Some};
ghost use Rattle.pm_region.specs.State.{IsTelling};
ghost use Rattle.pm_region.specs.Words.{lasts};
ghost use Rattle.store_image.specs.Parts.{value_by_class};

use chunk_map::layout_sizes::{GREATEST_CLASS, UNIT_WORDS};
use chunk_map::words::load_words;
use fs_model::{Memory, Value};
use log_entry::packing::{unpack, words_for};
use pm_region::Region;
use std::alloc::Global;
use store_image::geometry::has_class;

/// The value in the block of this class at a pointer, where the block's first word is a length of the class. A block
/// whose words have numbers past 64 bits is not read, and answered as want of memory. (No device has one.)
pub fn value_in<R: Region>(
    alloc: Global,
    region: &R,
    pointer: u64,
    class: u32,
) -> Result<Option<Value>, Memory>
    requires class { class ≤ GREATEST_CLASS }
    requires low { (R.state region.now).frame.first ≤ UNIT_WORDS * pointer }
    requires high { UNIT_WORDS * pointer + UNIT_WORDS * 2 ^ class ≤ (R.state region.now).frame.first
        + (R.state region.now).frame.words }
    ensures { IfOk result (λ v. IsTelling (R.state region.now)
        → v ≡ value_by_class (lasts (R.state region.now)) pointer (Some class)) }
{
    if pointer >= (1 << 59) - (1 << class) {
        return Err(Memory);
    }
    let at = UNIT_WORDS * pointer;
    let length = region.load(at);
    if !has_class(length, class) {
        return Ok(None);
    }
    let words = load_words(alloc, region, at + 1, words_for(length))?;
    let mut bytes = unpack(alloc, &words)?;
    bytes.truncate(length as usize);
    Ok(Some(Value::of(bytes)))
}
