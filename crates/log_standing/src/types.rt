// What is kept of a name and of a chunk.

/// Of a name that stands in the log: in how many chunks, and whether it was told dead.
#[derive(Clone, Copy, Debug, PartialEq, Eq)]
pub struct Copies {
    /// At least 1.
    pub count: u64,
    /// The name's owner told it.
    pub dead: bool,
    /// Where a search found its entry.
    pub spot: Spot,
}

/// Where a search for a chunk to clean found an entry: in which chunk, and how many words it takes there. Of no words
/// where none has found it.
#[derive(Clone, Copy, Debug, PartialEq, Eq)]
pub struct Spot {
    /// By its number in the part.
    pub chunk: u8,
    /// Without the end of a line behind a batch.
    pub words: u8,
}

/// No search has found the entry.
pub const NOWHERE: Spot = Spot { chunk: 0, words: 0 };

/// A place of a chunk before which no entry is still to be copied. The place is a word of the chunk's payload.
#[derive(Clone, Copy, Debug, PartialEq, Eq)]
pub struct Settled {
    /// By its number in the part.
    pub chunk: u32,
    /// Counted from the payload's first word.
    pub place: u64,
}

/// So many entries, with so many words in all.
#[derive(Clone, Copy, Debug, PartialEq, Eq)]
pub struct Amount {
    /// How many.
    pub entries: u64,
    /// What they take in a log, without the end of a line behind a batch.
    pub words: u64,
}
