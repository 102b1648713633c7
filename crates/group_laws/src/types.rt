// What stands in the slots, in the mailboxes' words and in the views of a group.
use fs_model::model::Value;
use log_entry::entry::Entry;

/// A slot of a member's pool.
#[derive(Drop)]
pub enum Slot {
    /// Its owner may post there.
    Empty,
    /// The owner offers this entry to whoever leads.
    Posted(Entry),
    /// A leader has the entry.
    Taken,
    /// The entry is certain in the log of this member.
    Done(Entry, u32),
    /// The leader that took the entry could not write it.
    Failed(Entry),
}

/// An entry that its owner posted and did not finish.
#[derive(Drop)]
pub struct Pending {
    /// The key's next version, and what it would leave.
    pub entry: Entry,
    /// The slot in which it stands. None once it came back as failed.
    pub slot: Option<u32>,
}

/// The value that a block must hold, and whose it is.
#[derive(Drop)]
pub struct Block {
    /// The key of the live value or of the pending change.
    pub key: u64,
    /// The whole value. The block has its length before it.
    pub bytes: Value,
}

/// What the word of a slot tells of it.
#[derive(Clone, Copy, Debug, PartialEq, Eq)]
pub enum SlotWord {
    /// Its owner may post there.
    Empty,
    /// With the number of words of its entry.
    Posted(u64),
    /// A leader has the entry; which one, the word does not tell.
    Taken,
    /// With the number of the member in whose log the entry is certain.
    Done(u32),
    /// The entry could not be written.
    Failed,
}

/// What a member found in one load.
#[derive(Clone, Copy, Debug, PartialEq, Eq)]
pub enum Seen {
    /// The slot of a member, both by number.
    Slot(u32, u32, SlotWord),
    /// The mailbox from one member to another, and whether it was full.
    Mail(u32, u32, bool),
    /// The member that held the lock.
    Holder(u32),
}
