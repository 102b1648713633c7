// The state of a group as plain data.
ghost use Rattle.std.specs.Prelude.{◌≡◌, length};

use chunk_map::layouts::Layout;
use fs_model::model::{Key, Value, Version};
use group_board::Notices;
use group_laws::types::{Block, Pending, Seen, Slot};
use log_entry::entry::{Entry, EntryName};
use std::collections::BTreeMap;

/// What one member of a group knows and promised.
#[derive(Drop)]
pub struct MemberView {
    /// The entries that are certain in the own log.
    pub kept: Vec<Entry>,
    /// Those that were taken and not committed.
    pub flying: Vec<Entry>,
    /// The changes that were taken and not given back, by the owner's number and slot.
    pub taken: BTreeMap<(u32, u32), Entry>,
    /// Whether a write of the own log failed.
    pub broken: bool,
    /// Whether this member has the lock.
    pub holds: bool,
    /// What was loaded since the last other step.
    pub looked: Vec<Seen>,
    /// Of each own key the version of the last finished change.
    pub last: BTreeMap<Key, Version>,
    /// Of each own key that is live, the value.
    pub cell: BTreeMap<Key, Value>,
    /// Of each own key the posted change that isn't finished.
    pub pending: BTreeMap<Key, Pending>,
    /// The entries of own keys that may stand in a log, by key and version, each with its home.
    pub present: BTreeMap<(Key, Version), u32>,
    /// Those of them whose home knows that they are dead.
    pub told: Vec<EntryName>,
    /// The entries of the own log that were told dead.
    pub dead: Vec<EntryName>,
    /// Those of them that may vanish.
    pub doomed: Vec<EntryName>,
    /// Those that vanished and aren't reported to their owner yet.
    pub leaving: Vec<EntryName>,
    /// What each other member was last told.
    pub mailed: BTreeMap<u32, Notices>,
    /// The blocks of the own part that must hold a value, by pointer.
    pub blocks: BTreeMap<u64, Block>,
    /// All entries that were posted, in order.
    pub posted: Vec<Entry>,
    /// All entries that were taken, in order.
    pub took: Vec<Entry>,
}

/// The state of a group: its place in a layout, the lock, the slots and the mailboxes, and one view for each
/// member.
#[derive(Drop)]
pub struct GroupState {
    /// That of the region: it says which keys are whose.
    pub layout: Layout,
    /// The number of the group in the layout.
    pub group: u32,
    /// Who has the lock.
    pub holder: Option<u32>,
    /// The slots by member and number. One that isn't here is empty.
    pub slots: BTreeMap<(u32, u32), Slot>,
    /// The full mailboxes by sender and receiver.
    pub mail: BTreeMap<(u32, u32), Notices>,
    /// The views by member, one for each.
    pub views: Vec<MemberView>,
    ghost whole: { length views.items ≡ layout.group },
}
