// What a value needs: lines of the log, and a block.
ghost use Rattle.std.specs.Prelude.{◌≡◌, ◌+◌, ◌-◌, ◌/◌, ◌≤◌, ◌<◌, ◌^◌, length};
ghost use Rattle.std.specs.List.{AllByRecursion};
ghost use Rattle.chunk_map.specs.Layouts.{IsLayout, longest_value};
ghost use Rattle.core_room.specs.Lengths.{lines_needed, class_for, lines_to_copy};

use chunk_map::Layout;
use chunk_map::layout_sizes::{LEAST_BLOCKS, LONGEST_VALUE, SHORTEST_IN_BLOCK};
use lazy_alloc::class_of;
use log_entry::MOST_ENTRIES;
use pm_region::{LINE_WORDS, WORD_BYTES};

/// The bytes of a value are counted.
pub fn byte_count(value: &[u8]) -> u64
    ensures count { result ≡ length value.now }
    ensures bytes { AllByRecursion (λ b. b < 256) value.now }
    ensures long { result < 2 ^ 63 }
{
    value.len() as u64
}

/// The bytes of the longest value that a block of the layout holds.
pub fn longest_value(layout: &Layout) -> u64
    ensures value { result ≡ longest_value layout.now }
    ensures small { result ≤ LONGEST_VALUE }
    ensures rules { IsLayout layout.now }
{
    let numbers = layout.geometry();
    numbers.chunk_bytes / LEAST_BLOCKS - WORD_BYTES
}

/// The lines of the log that a put of so many bytes takes.
pub fn lines_needed(length: u64) -> u64
    requires { length < 2 ^ 63 }
    ensures { result ≡ lines_needed length }
{
    if length >= SHORTEST_IN_BLOCK {
        1
    } else {
        (2 + length.div_ceil(WORD_BYTES)).div_ceil(LINE_WORDS)
    }
}

/// The class of the block that a value of this length gets, or 0 where it stands beside its key.
pub fn class_or_zero(length: u64) -> u32
    requires { length ≤ LONGEST_VALUE }
    ensures { result ≡ class_for length }
{
    if length >= SHORTEST_IN_BLOCK {
        class_of(length)
    } else {
        0
    }
}

/// The lines of the log that so many entries with so many words take at most, copied 64 to a batch.
pub fn lines_to_copy(entries: u64, words: u64) -> u64
    requires entries { entries < 2 ^ 63 }
    requires words { words < 2 ^ 63 }
    ensures { result ≡ lines_to_copy entries words }
{
    words.div_ceil(LINE_WORDS) + entries.div_ceil(u64::from(MOST_ENTRIES))
}
