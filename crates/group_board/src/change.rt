// A change of a key, as members hand it to each other.
use log_entry::entry::Entry;

/// An entry on its way between cores.
#[derive(Drop)]
pub struct Change {
    /// As it is to stand in a log.
    pub entry: Entry,
    /// The member in whose log the entry is certain. None before that.
    pub home: Option<u32>,
}
