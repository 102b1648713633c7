// Bytes as words, the lowest byte of a word first.
ghost use Rattle.std.specs.Prelude.{◌≡◌, length, IfOk};
ghost use Rattle.pm_region.specs.Bytes.{AreWords};
ghost use Rattle.pm_region.specs.Split.{words_in};

use byteorder::{ByteOrder, LittleEndian};
use fs_model::Memory;
use pm_region::{MOST_BYTES, WORD_BYTES};
use std::alloc::Global;

/// The words of a region with these bytes. Bytes behind the last whole word are left out, and a region that is too
/// long has no words.
pub fn words_of(alloc: Global, bytes: &[u8]) -> Result<Vec<u64>, Memory>
    ensures { IfOk result (λ words. AreWords bytes.now words.items (words_in (length bytes.now))) }
{
    let count = if bytes.len() as u64 <= MOST_BYTES {
        bytes.len() / WORD_BYTES as usize
    } else {
        0
    };
    let mut words = Vec::with_capacity(alloc, count)?;
    for k in 0..count {
        words.push(LittleEndian::read_u64(&bytes[8 * k..]))?;
    }
    Ok(words)
}
