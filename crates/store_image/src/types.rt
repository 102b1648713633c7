// Placed entries and faults.
use log_entry::entry::Entry;

/// An entry with its place.
#[derive(Drop)]
pub struct PlacedEntry {
    /// The core whose part it stands in.
    pub core: u32,
    /// The chunk of the part, counted from 0.
    pub chunk: u32,
    /// The entry's first word, counted from the payload's first.
    pub place: u64,
    /// What stands there.
    pub entry: Entry,
}

/// The first broken rule of an image.
#[derive(Clone, Copy, Debug, PartialEq, Eq)]
pub enum Fault {
    /// One of rules 1 to 3, on the superblock.
    NotARegion { rule: u32 },
    /// One of rules 4 to 11, and where it is broken.
    Damaged { part: u32, chunk: u32, rule: u32 },
}
