// The heads of chunks.
ghost use Rattle.std.specs.Prelude.{◌≡◌, ℕ, ◌+◌, ◌-◌, ◌*◌, ◌/◌, ◌^◌, ◌<◌, ◌≤◌, ◌==◌};
ghost use Rattle.chunk_map.specs.Layouts.{is_class, head_by, payload_words};

use crate::layout_sizes::{CLASS_FACTOR, DATA_KIND, FREE_KIND, HEAD_WORDS, LOG_KIND, UNIT_BYTES};
use crate::layouts::Geometry;
use pm_region::{LINE_WORDS, WORD_BYTES};

/// What a chunk is.
#[derive(Clone, Copy)]
pub enum Head {
    /// Neither: what its payload has says nothing.
    Free,
    /// A log. The first `tail` words of the payload hold batches.
    Log { tail: u64 },
    /// Blocks of one class.
    Data { class: u32 },
}

/// The head of a chunk breaks a rule: 4, the kind is none; 5, the tail of a Log is no multiple of 8 or does
/// not lie in the payload.
#[derive(Clone, Copy, Debug, PartialEq, Eq)]
pub struct BadHead {
    /// 4 or 5.
    pub rule: u32,
}

fn is_class(chunk_bytes: u64, class: u64) -> bool
    ensures { result ≡ is_class
        (record { cores = 0; group = 0; chunks = 0; chunk_bytes = chunk_bytes }) class }
{
    match class {
        1 => 2048 <= chunk_bytes,
        2 => 4096 <= chunk_bytes,
        3 => 8192 <= chunk_bytes,
        4 => 16384 <= chunk_bytes,
        5 => 32768 <= chunk_bytes,
        6 => 65536 <= chunk_bytes,
        7 => 131072 <= chunk_bytes,
        8 => 262144 <= chunk_bytes,
        9 => 524288 <= chunk_bytes,
        10 => 1048576 <= chunk_bytes,
        11 => 2097152 <= chunk_bytes,
        12 => 4194304 <= chunk_bytes,
        _ => false,
    }
}

/// The head that a kind word and a tail word are, or the rule that they break.
pub fn head_by(geometry: &Geometry, kind: u64, tail: u64) -> Result<Head, u32>
    requires size { UNIT_BYTES ≤ geometry.now.chunk_bytes }
    ensures { result ≡ head_by geometry.now kind tail }
{
    if kind == FREE_KIND {
        return Ok(Head::Free);
    }
    if kind == LOG_KIND {
        if tail % LINE_WORDS == 0 && tail <= geometry.chunk_bytes / WORD_BYTES - HEAD_WORDS {
            return Ok(Head::Log { tail });
        }
        return Err(5);
    }
    if kind % CLASS_FACTOR == DATA_KIND && is_class(geometry.chunk_bytes, kind / CLASS_FACTOR) {
        return Ok(Head::Data {
            class: (kind / CLASS_FACTOR) as u32,
        });
    }
    Err(4)
}
