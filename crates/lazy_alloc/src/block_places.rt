// Where the blocks of a part lie, and where their bits do. A pointer counts units of 256 bytes.
ghost use Rattle.std.specs.Prelude.{◌≡◌, ◌+◌, ◌-◌, ◌*◌, ◌/◌, ◌%◌, ◌^◌, ◌<◌, ◌≤◌, ◌==◌, ◌&&◌, nat_le, length, Some, None, if◌then◌else◌};
ghost use Rattle.chunk_map.specs.Layouts.{is_class};
ghost use Rattle.store_image.specs.Parts.{chunk_units, chunk_at, unit_at, is_start};
ghost use Rattle.lazy_alloc.specs.Sets.{blocks_in};
ghost use Rattle.lazy_alloc.specs.Form.{room_words, chunk_in, bit_of, is_full};

use crate::bits::{WORD_BITS, first_unset};
use chunk_map::Layout;
use chunk_map::layout_sizes::{FIRST_UNIT, GREATEST_CLASS, UNIT_BYTES};

/// How many units a chunk has.
pub fn units(layout: &Layout) -> u64
    ensures value { result ≡ chunk_units layout.now }
    ensures low { 16 ≤ result }
    ensures high { result ≤ 16384 }
{
    layout.geometry().chunk_bytes / UNIT_BYTES
}

/// How many words of bits each chunk has.
pub fn room(layout: &Layout) -> u64
    ensures value { result ≡ room_words layout.now }
    ensures high { result ≤ 128 }
{
    units(layout).div_ceil(128)
}

/// How many blocks of a class a chunk holds.
pub fn blocks_in(layout: &Layout, class: u32) -> u64
    requires { class ≤ GREATEST_CLASS }
    ensures value { result ≡ blocks_in layout.now class }
    ensures fits { result * 2 ^ class + 1 ≤ chunk_units layout.now }
    ensures small { result ≤ 16384 }
{
    (units(layout) - 1) / (1 << class)
}

/// Whether a pointer is one into the part.
pub fn is_in_part(layout: &Layout, part: u32, pointer: u64) -> bool
    ensures { result ≡ (nat_le FIRST_UNIT pointer
        && chunk_at layout.now pointer / layout.now.chunks ==
        part) }
{
    pointer >= FIRST_UNIT
        && (pointer - FIRST_UNIT) / units(layout) / layout.geometry().chunks as u64 == part as u64
}

/// The chunk in which a pointer lies, in its part.
pub fn chunk_in(layout: &Layout, pointer: u64) -> u32
    requires { FIRST_UNIT ≤ pointer }
    ensures value { result ≡ chunk_in layout.now pointer }
    ensures within { result < layout.now.chunks }
{
    ((pointer - FIRST_UNIT) / units(layout) % layout.geometry().chunks as u64) as u32
}

/// Whether a block of a class begins at a pointer, where its chunk is cut into such blocks.
pub fn is_start(layout: &Layout, class: u32, pointer: u64) -> bool
    requires low { FIRST_UNIT ≤ pointer }
    requires class { class ≤ GREATEST_CLASS }
    ensures { result ≡ is_start layout.now class (unit_at layout.now pointer) }
{
    store_image::block_starts::is_start(
        &layout.geometry(),
        class,
        (pointer - FIRST_UNIT) % units(layout),
    )
}

/// The bit of the block of a class at a pointer.
pub fn bit_of(layout: &Layout, pointer: u64, class: u32) -> u64
    requires low { FIRST_UNIT ≤ pointer }
    requires start { 1 ≤ unit_at layout.now pointer }
    requires class { class ≤ GREATEST_CLASS }
    ensures { result ≡ bit_of layout.now pointer class }
{
    let unit = (pointer - FIRST_UNIT) % units(layout);
    WORD_BITS * (chunk_in(layout, pointer) as u64 * room(layout)) + (unit - 1) / (1 << class)
}

/// The pointer of a chunk's first block.
pub fn first_block(layout: &Layout, part: u32, chunk: u32) -> u64
    requires part { part < layout.now.cores }
    requires chunk { chunk < layout.now.chunks }
    ensures value { result ≡ FIRST_UNIT
        + (part * layout.now.chunks + chunk) * chunk_units layout.now + 1 }
    ensures small { result < 2 ^ 32 }
{
    let number = part as u64 * layout.geometry().chunks as u64 + chunk as u64;
    FIRST_UNIT + number * units(layout) + 1
}

/// The pointer of a block of a class, counted from the chunk's first one.
pub fn block_at(layout: &Layout, part: u32, chunk: u32, class: u32, block: u64) -> u64
    requires part { part < layout.now.cores }
    requires chunk { chunk < layout.now.chunks }
    requires class { class ≤ GREATEST_CLASS }
    requires fits { block * 2 ^ class < chunk_units layout.now }
    ensures { result ≡ FIRST_UNIT + (part * layout.now.chunks + chunk) * chunk_units layout.now
        + (1 + block * 2 ^ class) }
{
    // A chunk has few units, which bounds the product.
    let _units = units(layout);
    first_block(layout, part, chunk) + block * (1 << class)
}

/// Whether all blocks of a chunk are allocated, by its bits, if they are of this class.
pub fn is_full(layout: &Layout, bits: &[u64], chunk: u32, class: u32) -> bool
    requires chunk { chunk < layout.now.chunks }
    requires bits { length bits.now ≡ layout.now.chunks * room_words layout.now }
    requires low { 1 ≤ class }
    requires high { class ≤ GREATEST_CLASS }
    ensures { result ≡ is_full layout.now bits.now chunk class }
{
    let from = chunk as u64 * room(layout);
    match first_unset(bits, from, blocks_in(layout, class)) {
        None => true,
        Some(_) => false,
    }
}
