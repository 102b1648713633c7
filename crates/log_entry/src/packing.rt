// Bytes in words, and back.
ghost use Rattle.std.specs.Prelude.{◌≡◌, ◌+◌, ◌-◌, ◌^◌, ◌<◌, IfOk, OnOk, take, drop, slice_index};
ghost use Rattle.std.specs.Int.{w64, from_le_bytes};
ghost use Rattle.log_entry.specs.Words.{words_for, unpacked};

use fs_model::Memory;
use pm_region::WORD_BYTES;
use std::alloc::Global;

/// How many words so many bytes take.
pub fn words_for(bytes: u64) -> u64
    requires { bytes + (WORD_BYTES - 1) < 2 ^ 64 }
    ensures { result ≡ words_for bytes }
{
    bytes.div_ceil(WORD_BYTES)
}

fn byte_at(bytes: &[u8], at: usize) -> u8
    ensures { result ≡ slice_index bytes.now at }
{
    if at < bytes.len() { bytes[at] } else { 0 }
}

/// The word of eight bytes from a place on, the first in its lowest byte, with zeros past the end.
/// `at` counts bytes.
pub fn word_at(bytes: &[u8], at: usize) -> u64
    requires { at < 2 ^ 63 }
    ensures { result ≡ from_le_bytes w64 (take WORD_BYTES (drop at bytes.now)) }
{
    u64::from_le_bytes([
        byte_at(bytes, at),
        byte_at(bytes, at + 1),
        byte_at(bytes, at + 2),
        byte_at(bytes, at + 3),
        byte_at(bytes, at + 4),
        byte_at(bytes, at + 5),
        byte_at(bytes, at + 6),
        byte_at(bytes, at + 7),
    ])
}

/// Puts the bytes of words into a list, the lowest byte of each first, in place of what it has. Its room stays.
pub fn unpack_into(words: &[u64], bytes: &mut Vec<u8>) -> Result<(), Memory>
    ensures { OnOk result (bytes.new.items ≡ unpacked words.now) }
{
    bytes.clear();
    bytes.reserve(words.len() * WORD_BYTES as usize)?;
    for word in words {
        bytes.extend_from_slice(&word.to_le_bytes())?;
    }
    Ok(())
}

/// The bytes of words, the lowest byte of each first.
pub fn unpack(alloc: Global, words: &[u64]) -> Result<Vec<u8>, Memory>
    ensures { IfOk result (λ v. v.items ≡ unpacked words.now) }
{
    let mut bytes = Vec::new(alloc);
    unpack_into(words, &mut bytes)?;
    Ok(bytes)
}
