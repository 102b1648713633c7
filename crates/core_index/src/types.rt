// What goes into an index and what comes out of it.
use crate::entry_list::EntryList;
use fs_model::{Key, Value, Version};
use log_entry::Body;

/// An entry that stands in a log. `home` is the core in whose log it stands.
#[derive(Clone, Copy, Debug, PartialEq, Eq)]
pub struct Standee {
    /// Which change of its key it is, counted from 1.
    pub version: Version,
    /// By its number in the region, from 0.
    pub home: u32,
}

/// What is known of a key at the start: its last version, what that left, and its entries in all logs.
#[derive(Drop)]
pub struct Record {
    /// Whose record it is.
    pub key: Key,
    /// That of the last change, also where it was a delete.
    pub version: Version,
    /// A value, or the first unit of its block, or a tombstone.
    pub body: Body,
    /// In any order. Of two of one version the first counts.
    pub standing: Vec<Standee>,
}

/// What a key has.
#[derive(Debug, Drop)]
pub enum Look<'a> {
    /// The key has no record.
    Unknown,
    /// Its last change was a delete.
    Deleted,
    /// Its value, which is kept beside the key.
    Embedded(&'a [u8]),
    /// The block of its value, by the block's first byte in the region divided by 256.
    Block(u64),
}

/// The key was changed as often as versions go.
#[derive(Clone, Copy, Debug, PartialEq, Eq)]
pub struct Spent {
    /// The key's last version: 1,048,574 at least.
    pub last: Version,
}

/// An entry that stands in a log, and whether its death was told to its home.
#[derive(Clone, Copy)]
pub struct StandingEntry {
    /// Which change of its key it is, counted from 1.
    pub version: Version,
    /// The core in whose log it stands, by its number in the region.
    pub home: u32,
    /// Of its death.
    pub told: bool,
}

/// A place in a key's list. Its entry is gone once it stands in no log, and leaves the list when that is closed up.
#[derive(Clone, Copy)]
pub struct Marked {
    /// What it was, also where it is gone.
    pub entry: StandingEntry,
    /// It stands in no log.
    pub gone: bool,
}

/// Two places for entries of one key.
#[derive(Clone, Copy)]
pub struct Pair {
    /// Its version is below that of the second.
    pub first: Option<StandingEntry>,
    /// Either may be free.
    pub second: Option<StandingEntry>,
}

/// Whether a place has an entry, and whether the death of that was told.
#[derive(Clone, Copy)]
pub enum Presence {
    /// It has none.
    Free,
    /// It stands, and its death was not told.
    Untold,
    /// It stands, and its death was told.
    Told,
}

/// As many entries of a key stand in place.
pub const IN_PLACE: u32 = 2;

/// The entries of a key that stand in a log, with room for so many more. It takes 24 bytes, so a place is parted: what
/// it has, and the name of that.
#[derive(Drop)]
pub enum Held {
    /// In place.
    Few {
        first: Presence,
        second: Presence,
        room: u32,
        first_name: Standee,
        second_name: Standee,
    },
    /// More of them, or with more room.
    Many {
        room: u32,
        list: Box<EntryList>,
    },
}

/// The last change of a key, where it has a record. It takes 32 bytes, with the version in what a `Body` leaves free.
#[derive(Drop)]
pub enum Head {
    /// The key has no record.
    Absent,
    /// A value in a block.
    Block { version: Version, pointer: u64 },
    /// A value beside the key.
    Embedded { version: Version, value: Value },
    /// A delete.
    Deleted { version: Version },
}

/// What a finished change did: the block of the value before it, the entry that died by it, and for how many names no
/// room is kept any more.
#[derive(Clone, Copy)]
pub struct ChangeEffect {
    /// The block's first byte in the region divided by 256.
    pub replaced: Option<u64>,
    /// None where none died.
    pub dead: Option<Standee>,
    /// Besides that of the entry that died.
    pub spared: u64,
}

/// What came of an entry that is gone: another one that died by it, and for how many names no room is kept any more.
#[derive(Clone, Copy)]
pub struct GoneEffect {
    /// None where none died.
    pub dead: Option<Standee>,
    /// Besides that of the entry that died.
    pub spared: u64,
}

/// So many names may be noted because of one change: those of the entry before it and of its own.
pub const NAMES_OF_CHANGE: u64 = 2;

/// A key is parted in two halves by this. Pointers and places of values that are kept in half a word are below it.
pub const SHARE: u64 = 4_294_967_296;

/// So many places of a list of the start, from the last one on, are looked at before all are searched.
pub const NEAR: usize = 8;

/// What became of an entry in a list of tombstones.
#[derive(Clone, Copy)]
pub enum Fate {
    /// It stands, and its death was not told.
    Untold,
    /// It stands, and its death was told.
    Told,
    /// It stands in no log.
    Gone,
    /// The key has its record in the map by now, or none at all.
    Moved,
}

/// A key with an entry of the start: the one that deleted it, or in another list an older one. It takes twelve bytes, so
/// the key is in two halves, and the entry's version and home share three bytes.
#[derive(Clone, Copy)]
pub struct Tombstone {
    /// The key divided by 2^32.
    pub high: u32,
    /// The rest.
    pub low: u32,
    /// The lower half of the entry's version.
    pub version_low: u16,
    /// The rest of the version, and the core in whose log the entry stands.
    pub version_and_home: u8,
    /// What became of the entry since.
    pub fate: Fate,
}

/// Where the value of a key is: in a block, or so many bytes from a start on among the bytes of all values.
#[derive(Clone, Copy)]
pub enum ValuePlace {
    /// The block's first byte in the region divided by 256.
    InBlock(u32),
    /// The place of the first byte among those of all values, and how many bytes.
    Beside(u32, u8),
}

/// What became of the entry of a value that a key had at the start.
#[derive(Clone, Copy)]
pub enum LiveFate {
    /// It stands.
    Stands,
    /// It stands in no log.
    Gone,
    /// The key has its record in the map by now, or none at all.
    Moved,
}

/// A key that had a value at the start, with the entry of that value. It takes 24 bytes beside the value's own.
#[derive(Clone, Copy)]
pub struct LiveKey {
    /// The key divided by 2^32.
    pub high: u32,
    /// The rest.
    pub low: u32,
    /// The lower half of the entry's version.
    pub version_low: u16,
    /// The rest of the version, and the core in whose log the entry stands.
    pub version_and_home: u8,
    /// What became of the entry since.
    pub fate: LiveFate,
    /// Where the value is.
    pub held: ValuePlace,
}
