// The steps that were made on a board, as data of which no value is made. Contracts read it as the state that the
// steps lead to.
use group_laws::types::Seen;
use log_entry::entry::{Entry, EntryName};
use std::collections::LinkedList;

/// What a member did. Slots and mailboxes by their numbers.
pub enum Act {
    /// With the bytes behind the entry's pointer, and the stamp at which the member's region stood.
    Post(u32, Entry, LinkedList<u8>, u64),
    /// The lock was free, and the member has it.
    Lock,
    /// A load, or a try of the lock that found a holder.
    Found(Seen),
    /// As the leader, out of the slot of a member, both by number.
    Take(u32, u32, Entry),
    /// The lock was given back.
    Unlock,
    /// All that was in flight is certain in the own log. With the stamp at which the member's region stood.
    Commit(u64),
    /// A change that is certain was given back to the slot of a member, both by number.
    Mark(u32, u32, Entry),
    /// A change that could not be written was given back to the slot of a member, both by number.
    Fail(u32, u32, Entry),
    /// Of a slot that was Done, with the home.
    Finish(u32, Entry, u32),
    /// Of a slot that was Failed.
    GiveUp(u32, Entry),
    /// Of an own slot that was still Posted, by a member that leads.
    Withdraw(u32, Entry),
    /// Of dead names of the own log: they may vanish from then on. With the stamp at which the member's region stood.
    Doom(LinkedList<EntryName>, u64),
    /// Of doomed names that vanished. With the stamp at which the member's region stood.
    Retire(LinkedList<EntryName>, u64),
    /// With the dead names and the gone ones.
    Send(u32, LinkedList<EntryName>, LinkedList<EntryName>),
    /// With the member that sent, and the dead names and the gone ones that lay in the mailbox.
    Receive(u32, LinkedList<EntryName>, LinkedList<EntryName>),
}

/// One step.
pub struct Note {
    /// By its number in the group.
    pub member: u32,
    /// What the member did.
    pub act: Act,
}

/// The number of the group in its layout, the words of the image on which it opened, and the steps since then, the
/// newest first.
pub struct BoardJournal {
    /// Counted from 0.
    pub group: u32,
    /// All words of the region, from its first on.
    pub words: LinkedList<u64>,
    /// The newest first.
    pub notes: LinkedList<Note>,
}
