// What callers of a log hand in and get back.
use log_entry::{Entry, EntryName};

/// A chunk of a log, by its number in the part. Of its payload the words before `tail` hold batches.
#[derive(Clone, Copy, Debug, PartialEq, Eq)]
pub struct LogChunk {
    /// Counted from 0.
    pub chunk: u32,
    /// In words, a multiple of 8, counted from the payload's first.
    pub tail: u64,
}

/// Where a batch was put: the chunk by its number in the part, and the word of its payload.
#[derive(Clone, Copy, Debug, PartialEq, Eq)]
pub struct Placed {
    /// Counted from 0.
    pub chunk: u32,
    /// The batch's first word, a multiple of 8, counted from the payload's first.
    pub place: u64,
}

/// An entry of a chunk, with its place and the place behind it: words of the payload.
#[derive(Drop)]
pub struct WalkStep {
    /// As its words spell it.
    pub entry: Entry,
    /// The entry's first word, counted from the payload's first.
    pub place: u64,
    /// The first word behind the entry: where the next step begins to look.
    pub next: u64,
}

/// The same without the body. `at` is the entry's first word, as a word number of the region.
#[derive(Clone, Copy, Debug, PartialEq, Eq)]
pub struct Peek {
    /// Read from the entry's first two words.
    pub name: EntryName,
    /// Counted from the payload's first word.
    pub place: u64,
    /// The first word behind the entry.
    pub next: u64,
    /// Counted from the start of the region.
    pub at: u64,
}

/// The room of a part, in lines and chunks.
#[derive(Clone, Copy, Debug, PartialEq, Eq)]
pub struct Room {
    /// Free lines of the open chunk.
    pub open_lines: u64,
    /// Free chunks of the part.
    pub free_chunks: u32,
    /// Lines that are promised to entries which are not appended yet.
    pub pledged_lines: u64,
    /// Lines of a whole chunk's payload.
    pub payload_lines: u64,
}
