// Bytes as words, the lowest byte of a word first.
ghost use Rattle.std.specs.Prelude.{◌≡◌, ◌≢◌, ◌⊎◌, ℕ, ◌+◌, ◌*◌, ◌/◌, ◌%◌, ◌≤◌, ◌<◌, ◌^◌, length, slice_index, IfOk};
ghost use Rattle.pm_region.specs.Bytes.{AreWords, word_at};
ghost use Rattle.pm_region.specs.Split.{words_in};

use crate::region_sizes::{MOST_BYTES, WORD_BYTES};
use byteorder::{ByteOrder, LittleEndian};
use std::alloc::{AllocError, Global};
use std::simd::{u8x8, u64x1};

/// How many words a region of so many bytes has.
pub fn word_count(bytes: u64) -> u64
    ensures { result ≡ words_in bytes }
{
    if bytes <= MOST_BYTES {
        bytes / WORD_BYTES
    } else {
        0
    }
}

/// The words of a region with these bytes.
pub fn words_of(alloc: Global, bytes: &[u8]) -> Result<Vec<u64>, AllocError>
    ensures { IfOk result (λ words. AreWords bytes.now words.items (words_in (length bytes.now))) }
{
    let count = word_count(bytes.len() as u64) as usize;
    let mut words = Vec::with_capacity(alloc, count)?;
    for k in 0..count {
        words.push(LittleEndian::read_u64(&bytes[WORD_BYTES as usize * k..]))?;
    }
    Ok(words)
}

/// The word at a place. It is one load of the processor, where eight bytes one by one are some eighty instructions.
pub fn word(bytes: &[u8], place: u64) -> u64
    requires { WORD_BYTES * place + WORD_BYTES ≤ length bytes.now }
    ensures { result ≡ word_at bytes.now place }
{
    let low = (WORD_BYTES * place) as usize;
    u64x1::from_le_bytes(u8x8::from_slice(&bytes[low..])).to_array()[0]
}

/// Stores a word.
pub fn set_word(bytes: &mut [u8], place: u64, value: u64)
    requires { WORD_BYTES * place + WORD_BYTES ≤ length bytes.old }
    ensures this { word_at bytes.new place ≡ value }
    ensures others { (k : ℕ) → k ≢ place → word_at bytes.new k ≡ word_at bytes.old k }
{
    let low = (WORD_BYTES * place) as usize;
    LittleEndian::write_u64(&mut bytes[low..low + WORD_BYTES as usize], value);
}

/// Stores words, one behind the other, from a place on.
pub fn set_words(bytes: &mut [u8], first: u64, words: &[u8])
    requires whole { length words.now % WORD_BYTES ≡ 0 }
    requires within { WORD_BYTES * first + length words.now ≤ length bytes.old }
    ensures inner { (k : ℕ) → WORD_BYTES * k < length words.now → word_at bytes.new (first + k)
        ≡ word_at words.now k }
    ensures outer { (k : ℕ) → (k < first) ⊎ (first + length words.now / WORD_BYTES ≤ k)
        → word_at bytes.new k ≡ word_at bytes.old k }
{
    let low = (WORD_BYTES * first) as usize;
    bytes[low..low + words.len()].copy_from_slice(words);
}
