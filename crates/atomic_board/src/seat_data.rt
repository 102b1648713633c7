// What a seat of the table knows, as data of which no value is made. Contracts read it as the view to which a member's
// deeds lead.
use group_laws::types::Seen;
use log_entry::entry::{Entry, EntryName};
use std::collections::LinkedList;

/// What a member did, as far as its own view tells. Slots and mailboxes by their numbers.
pub enum Deed {
    /// With the bytes behind the entry's pointer, and the stamp at which the member's region stood.
    Post(u32, Entry, LinkedList<u8>, u64),
    /// The lock was free, and the member has it.
    Lock,
    /// A load, or a try of the lock that found a holder.
    Found(Seen),
    /// As the leader, out of the slot of a member, both by number.
    Take(u32, u32, Entry),
    /// The lock was given back.
    Unlock,
    /// All that was in flight is certain in the own log. With the stamp at which the member's region stood.
    Commit(u64),
    /// A change that is certain was given back to the slot of a member, both by number.
    Mark(u32, u32),
    /// A change that could not be written was given back to the slot of a member, both by number.
    Fail(u32, u32),
    /// Of an own slot that was Done, with the home.
    Finish(u32, Entry, u32),
    /// Of an own slot that was Failed.
    GiveUp(u32, Entry),
    /// Of an own slot that was still Posted, by a member that leads.
    Withdraw(u32, Entry),
    /// Of dead names of the own log: they may vanish from then on. With the stamp at which the member's region stood.
    Doom(LinkedList<EntryName>, u64),
    /// Of doomed names that vanished. With the stamp at which the member's region stood.
    Retire(LinkedList<EntryName>, u64),
    /// With the dead names and the gone ones.
    Send(u32, LinkedList<EntryName>, LinkedList<EntryName>),
    /// With the member that sent, and the dead names and the gone ones that lay in the mailbox.
    Receive(u32, LinkedList<EntryName>, LinkedList<EntryName>),
}

/// The number of the group in its layout, and the words of the image on which it opened.
pub struct Origin {
    /// Counted from 0.
    pub group: u32,
    /// All words of the region, from its first on.
    pub words: LinkedList<u64>,
}

/// The slot of a mailbox that a member has in hand, by its place, with the dead names and the gone ones that lie there.
pub struct MailHold {
    /// Eight times the sender's number and the receiver's: the number among the mailboxes, and not among all slots of
    /// the table.
    pub place: u64,
    /// Names whose owner tells the receiver that they are dead. None where the mailbox was empty.
    pub dead: LinkedList<EntryName>,
    /// Names that vanished from the sender's log. None where the mailbox was empty.
    pub gone: LinkedList<EntryName>,
}

/// Whether a member took its Empty slots out, and which mailbox's slot it has in hand.
pub struct Holding {
    /// False until the first load of the seat, by which it takes them out; then true.
    pub settled: bool,
    /// Only between the load and the store of one call at a mailbox.
    pub hand: Option<MailHold>,
}

/// The first seat has the store: how many seats were split off, and what the members did whose seats came back. Each
/// other seat has its member, and the deeds of it, the newest first.
pub enum SeatData {
    /// The count, what the group opened on, and by member the deeds of the seats that came back.
    Store(u64, Origin, LinkedList<(u64, LinkedList<Deed>)>),
    /// The member, what it has in hand, what the group opened on, and its deeds.
    Own(u64, Holding, Origin, LinkedList<Deed>),
    /// A seat that came back: its deeds are with the store.
    Spent,
}
