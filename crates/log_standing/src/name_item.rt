// A name in 16 bytes.
ghost use Rattle.std.specs.Prelude.{◌≡◌, ◌<◌, ◌≤◌, Some, IfSome, IsSome};
ghost use Rattle.log_standing.specs.NameItems.{rank_of, copies_of, is_item, IsItemOf};

use crate::types::{Copies, Spot};
use fs_model::{Key, Version};
use log_entry::EntryName;
use std::mem::size_of;

/// A greater count stands in the map.
pub const MOST_IN_ITEM: u64 = 255;
/// So many numbers a version may have.
pub const VERSIONS: u128 = 4294967296;
/// Each chunk of a log has a lower number.
pub const CHUNK_NUMBERS: u32 = 64;

/// A name with what it has: in how many chunks it stands, and whether it was told dead. One in no chunk is gone. While
/// a log's names are noted `chunk` is the chunk of an entry, and afterwards it is the last one that was counted, or the one
/// in which a search found the name's entry, with so many words.
#[derive(Clone, Copy)]
pub struct NameItem {
    /// With `version` the name.
    pub key: Key,
    /// Which change of the key it is, counted from 1.
    pub version: Version,
    /// In how many chunks.
    pub count: u8,
    /// By its number in the part.
    pub chunk: u8,
    /// None where no search has found the entry.
    pub words: u8,
    /// The owner told it.
    pub dead: bool,
}

const _: () = prove!(size_of::<NameItem>() == 16);

/// Where a name comes among all: by key, then by version.
pub fn rank_of(key: Key, version: Version) -> u128
    ensures { result ≡ rank_of key version }
{
    key as u128 * VERSIONS + version as u128
}

/// Whether two items have one name.
pub fn is_same_name(item: NameItem, other: NameItem) -> bool
    ensures { result ≡ is_item other.key other.version item }
{
    item.key == other.key && item.version == other.version
}

/// What an item's name has.
pub fn copies_of(item: NameItem) -> Option<Copies>
    ensures copies { result ≡ copies_of item }
    ensures small { IfSome result (λ c. c.count ≤ MOST_IN_ITEM) }
{
    if item.count == 0 {
        return None;
    }
    Some(Copies {
        count: item.count as u64,
        dead: item.dead,
        spot: Spot {
            chunk: item.chunk,
            words: item.words,
        },
    })
}

/// The item of a name with these copies, where they fit in.
pub fn item_of(name: EntryName, copies: Copies) -> Option<NameItem>
    ensures item { IfSome result (λ x. IsItemOf x name.key name.version (Some copies)) }
    ensures fits { 0 < copies.count → copies.count ≤ MOST_IN_ITEM → IsSome result }
{
    if copies.count == 0 || copies.count > MOST_IN_ITEM {
        return None;
    }
    Some(NameItem {
        key: name.key,
        version: name.version,
        count: copies.count as u8,
        chunk: copies.spot.chunk,
        words: copies.spot.words,
        dead: copies.dead,
    })
}
