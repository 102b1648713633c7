// A whole source.
ghost use Rattle.std.specs.Prelude.{◌≡◌, ◌≢◌, ◌+◌, ◌<◌, ◌≤◌, false, length, take, drop, IfOk, OnOk, OnErr, IsErrOf};
ghost use Rattle.fs_model.specs.Counts.{Rose};
ghost use Rattle.fs_text.specs.Streams.{Gives, IsAtEnd};

use crate::source::{Source, SourceFault};
use std::alloc::{AllocError, Global};
use thiserror::Error;

/// The bytes that are made room for at first, and at most at a time.
const FIRST_ROOM: usize = 65_536;

const MOST_ROOM: usize = 1_048_576;

/// Why a source gives no bytes.
#[derive(Clone, Copy, Debug, PartialEq, Eq, Error)]
pub enum ReadError {
    /// It failed.
    #[error("the source failed")]
    SourceFault,
    /// No memory.
    #[error("out of memory")]
    Memory,
}

impl From<SourceFault> for ReadError {
    ghost use Rattle.fs_text.specs.declared.read_source.ReadError.TheVariants as errors;

    ghost from_gives = { λ _ e. e ≡ errors.SourceFault };

    fn from(_: SourceFault) -> ReadError {
        ReadError::SourceFault
    }
}

impl From<AllocError> for ReadError {
    ghost use Rattle.fs_text.specs.declared.read_source.ReadError.TheVariants as errors;

    ghost from_gives = { λ _ e. e ≡ errors.Memory };

    fn from(_: AllocError) -> ReadError {
        ReadError::Memory
    }
}

// Makes room behind the filled front of the buffer, which the vector's capacity grows for by its own rule: so a whole source
// takes time by its length. A long one gets it piece by piece, since room has to be filled before it is read into.
fn make_room(bytes: &mut Vec<u8>, filled: usize, most: usize) -> Result<(), AllocError>
    requires within { filled ≤ length bytes.old.items }
    requires room { filled < most }
    requires most { length bytes.old.items ≤ most }
    ensures kept { OnOk result (take filled bytes.new.items ≡ take filled bytes.old.items) }
    ensures room { OnOk result (filled < length bytes.new.items) }
    ensures most { OnOk result (length bytes.new.items ≤ most) }
{
    if filled < bytes.len() {
        return Ok(());
    }
    let longer = filled + filled.max(FIRST_ROOM).min(MOST_ROOM);
    bytes.resize(longer.min(most), 0)
}

// Reads once into the buffer behind its filled front, and answers how many bytes came.
fn read_behind<S: Source>(
    source: &mut S,
    bytes: &mut Vec<u8>,
    filled: usize,
) -> Result<usize, SourceFault>
    requires open { S.ended source.old ≡ false }
    requires room { filled < length bytes.old.items }
    ensures size { length bytes.new.items ≡ length bytes.old.items }
    ensures within { IfOk result (λ n. filled + n ≤ length bytes.old.items) }
    ensures kept { take filled bytes.new.items ≡ take filled bytes.old.items }
    ensures gives { IfOk result (λ n. Gives (S.coming source.old) (S.coming source.new)
        (take n (drop filled bytes.new.items))) }
    ensures end { IfOk result (λ n. n ≡ 0 → IsAtEnd (S.coming source.new)) }
    ensures goes_on { IfOk result (λ n. n ≢ 0 → S.ended source.new ≡ false) }
    ensures cause { OnErr result (Rose (S.fault_count source.old) (S.fault_count source.new)) }
    ensures count { S.fault_count source.old ≤ S.fault_count source.new }
{
    source.read(&mut bytes[filled..])
}

/// The bytes of a source up to its end, or the first `most` of them.
pub fn read_all<S: Source>(alloc: Global, source: &mut S, most: usize) -> Result<Vec<u8>, ReadError>
    requires open { S.ended source.old ≡ false }
    ensures gives { IfOk result (λ bytes. Gives (S.coming source.old) (S.coming source.new)
        bytes.items) }
    ensures most { IfOk result (λ bytes. length bytes.items ≤ most) }
    ensures end { IfOk result (λ bytes. length bytes.items < most → IsAtEnd (S.coming source.new)) }
    ensures cause { IsErrOf result ReadError.SourceFault
        → Rose (S.fault_count source.old) (S.fault_count source.new) }
    ensures count { S.fault_count source.old ≤ S.fault_count source.new }
{
    let mut bytes = Vec::new(alloc);
    let mut filled = 0;
    while filled < most {
        make_room(&mut bytes, filled, most)?;
        let count = read_behind(source, &mut bytes, filled)?;
        if count == 0 {
            bytes.truncate(filled);
            return Ok(bytes);
        }
        filled += count;
    }
    Ok(bytes)
}
