// What callers of a cleaning hand in and get back.
use log_entry::EntryName;

/// A chunk, and how many entries with how many words are still to be copied out of it.
#[derive(Clone, Copy, Debug, PartialEq, Eq)]
pub struct Victim {
    /// By its number in the part.
    pub chunk: u32,
    /// Perhaps more than there are, never fewer.
    pub entries: u64,
    /// Perhaps more than there are, never fewer.
    pub words: u64,
}

/// A chunk that is Free now, and the names that vanished with it.
#[derive(Drop)]
pub struct Cleared {
    /// By its number in the part.
    pub chunk: u32,
    /// Each once.
    pub gone: Vec<EntryName>,
}
