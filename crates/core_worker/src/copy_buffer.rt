// The room in which a cleaning keeps its next batch of copies.
ghost use Rattle.std.specs.Prelude.{◌≤◌};
ghost use Rattle.log_entry.specs.declared.entry_limits.TheConstants.{MOST_BATCH_WORDS};

use fs_model::Memory;
use log_entry::{MOST_BATCH_WORDS, WordBuffer};
use std::alloc::Global;

/// Room for the words of the longest batch of copies, so that copying takes no memory.
#[derive(Drop)]
pub struct CopyBuffer {
    pub(crate) words: WordBuffer,
    ghost room: { MOST_BATCH_WORDS ≤ words.room },
}

impl CopyBuffer {
    /// Reserves room for as many words as a batch has at most.
    pub fn open(alloc: Global) -> Result<CopyBuffer, Memory> {
        let words = WordBuffer::with_room(alloc, MOST_BATCH_WORDS)?;
        Ok(CopyBuffer { words })
    }
}
