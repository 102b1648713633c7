// The room in which a leader keeps what it takes.
ghost use Rattle.std.specs.Prelude.{◌≡◌, ◌≤◌, [], vec_capacity};
ghost use Rattle.log_entry.specs.declared.entry_limits.TheConstants.{MOST_ENTRIES, MOST_BATCH_WORDS};

use crate::taken::Taken;
use fs_model::Memory;
use log_entry::{MOST_BATCH_WORDS, MOST_ENTRIES, WordBuffer};
use std::alloc::Global;

/// Room for the changes of one batch and for the words of their entries. A leader takes it over and gives it back
/// when the batch is done, so that leading takes no memory.
#[derive(Drop)]
pub struct BatchBuffer {
    pub(crate) taken: Vec<Taken>,
    pub(crate) words: WordBuffer,
    ghost places: { MOST_ENTRIES ≤ vec_capacity taken },
    ghost room: { MOST_BATCH_WORDS ≤ words.room },
    ghost empty: { taken.items ≡ [] },
    ghost blank: { words.words ≡ [] },
}

impl BatchBuffer {
    /// Reserves room for as many changes as a batch has at most, and for their words.
    pub fn open(alloc: Global) -> Result<BatchBuffer, Memory> {
        let taken = Vec::with_capacity(alloc, MOST_ENTRIES as usize)?;
        let words = WordBuffer::with_room(alloc, MOST_BATCH_WORDS)?;
        Ok(BatchBuffer { taken, words })
    }
}
