// The chunks of a log with their tails, as a rising list.
ghost use Rattle.std.specs.List.{AllByRecursion};
ghost use Rattle.std.specs.Prelude.{IfOk, ◌≡◌, ℕ, ◌+◌, ◌-◌, ◌<◌, ◌≤◌, length, Some, None, is_some, true, vec_len, vec_capacity};
ghost use Rattle.chunk_map.specs.Layouts.{IsLayout};
ghost use Rattle.core_log.specs.Log.{tail_of, with_tail, without, IsRising, IsChunkOf};
ghost use Rattle.core_log.specs.Fresh.{HasEachOnce, IsEmptiest, all_set, emptiest};
ghost use Rattle.core_log.specs.Places.{place_of};

use crate::types::LogChunk;
use chunk_map::layouts::Layout;
use fs_model::Memory;
use std::alloc::Global;

/// The tail of a chunk, where the list has it.
pub fn tail_of(chunks: &[LogChunk], chunk: u32) -> Option<u64>
    ensures { result ≡ tail_of chunks.now chunk }
{
    for c in chunks {
        if c.chunk == chunk {
            return Some(c.tail);
        }
    }
    None
}

// The index of the first chunk that is not below this one.
fn place_of(chunks: &[LogChunk], chunk: u32) -> usize
    ensures place { result ≡ place_of chunks.now chunk }
    ensures within { result ≤ length chunks.now }
{
    for (i, c) in chunks.iter().enumerate() {
        if chunk <= c.chunk {
            return i;
        }
    }
    chunks.len()
}

/// Gives a chunk a tail. A chunk that the list lacks needs a reserved place.
pub fn set_tail(chunks: &mut Vec<LogChunk>, chunk: u32, tail: u64)
    requires { vec_len chunks.old < vec_capacity chunks.old }
    ensures items { chunks.new.items ≡ with_tail chunks.old.items chunk tail }
    ensures capacity { vec_capacity chunks.new ≡ vec_capacity chunks.old }
{
    let at = place_of(chunks, chunk);
    let new = LogChunk { chunk, tail };
    if at < chunks.len() && chunks[at].chunk == chunk {
        chunks[at] = new;
    } else {
        chunks.insert(at, new).unwrap();
    }
}

/// Takes a chunk out.
pub fn take_out(chunks: &mut Vec<LogChunk>, chunk: u32)
    ensures items { is_some (tail_of chunks.old.items chunk) ≡ true → IsRising 0 chunks.old.items
        → chunks.new.items ≡ without chunks.old.items chunk }
    ensures capacity { vec_capacity chunks.old ≤ vec_capacity chunks.new }
{
    let at = place_of(chunks, chunk);
    if at < chunks.len() {
        let _ = chunks.remove(at);
    }
}

/// The chunks by rising number, in a list with a place more than the part has chunks: so there is always a
/// place for one more.
pub fn sorted(alloc: Global, layout: Layout, chunks: &[LogChunk]) -> Result<Vec<LogChunk>, Memory>
    requires each { AllByRecursion (IsChunkOf layout) chunks.now }
    requires once { HasEachOnce chunks.now }
    ensures rising { IfOk result (λ kept. IsRising 0 kept.items) }
    ensures each { IfOk result (λ kept. AllByRecursion (IsChunkOf layout) kept.items) }
    ensures tails { IfOk result (λ kept. (j : ℕ) → tail_of kept.items j ≡ tail_of chunks.now j) }
    ensures places { IfOk result (λ kept. layout.chunks < vec_capacity kept) }
{
    let mut kept = Vec::with_capacity(alloc, layout.chunks() as usize + 1)?;
    for c in chunks {
        set_tail(&mut kept, c.chunk, c.tail);
    }
    Ok(kept)
}

/// The number of the chunk with the least tail, the lowest among equals.
pub fn emptiest(chunks: &[LogChunk]) -> Option<u32>
    requires { IsRising 0 chunks.now }
    ensures { IsEmptiest chunks.now result }
{
    if chunks.is_empty() {
        return None;
    }
    let mut best = chunks[0];
    for c in chunks {
        if c.tail < best.tail {
            best = *c;
        }
    }
    Some(best.chunk)
}
