// The map of keys beside the keys that are as they were at the start. What the map has of a key counts.
ghost use Rattle.std.specs.Prelude.{◌≡◌, ◌≢◌, ℕ, ◌+◌, ◌<◌, ◌≤◌, true, false, Some, IsTrue, IfOk, IfSome, OnOk, OnErr, option_map};
ghost use Rattle.log_entry.specs.declared.entry.EntryName.{EntryName};
ghost use Rattle.core_index.specs.Records.{Awaits, opened_with, without, is_forgettable};
ghost use Rattle.core_index.specs.Slots.{count_dead};
ghost use Rattle.core_index.specs.Starts.{IsAhead};
ghost use Rattle.core_index.specs.Index.{Admits, Changes, DeadOrAhead, LessRoom, SameRoom, room_at, IsCompact, IsCompactLive, ToldAt, all_places, all_mortal, all_untold, known_at};

use crate::slot_map::{
    SlotMap, forget_there, give_back_at, gone_at, has, replace_at, reserve_at, take_back, tell_at,
};
use crate::start_keys::StartKeys;
use crate::tombstones::tombstone_of;
use crate::types::{GoneEffect, LiveKey, NAMES_OF_CHANGE, Standee, Tombstone};
use fs_model::{Key, Memory, Version};
use log_entry::{Body, EntryName};
use std::alloc::Global;

/// A copy of a body.
pub fn copy_of(alloc: Global, body: &Body) -> Result<Body, Memory>
    ensures { IfOk result (λ copy. copy ≡ body.now) }
{
    match body {
        Body::Tombstone => Ok(Body::Tombstone),
        Body::Pointer(pointer) => Ok(Body::Pointer(*pointer)),
        Body::Embedded(value) => Ok(Body::Embedded(value.copy(alloc)?)),
    }
}

/// What is known of a key at the start, where it fits into the list of deleted keys.
pub fn compact(
    slots: &SlotMap,
    start: &StartKeys,
    key: Key,
    version: Version,
    body: &Body,
    standing: &[Standee],
) -> Option<Tombstone>
    ensures { IfSome result (IsCompact slots.now.entries start.now key version
        (opened_with version body.now standing.now)) }
{
    // The search in the map comes last, since it takes longest.
    let tombstone = tombstone_of(key, version, body, standing);
    if tombstone.is_none() || !start.lone.live.is_below(key) || !start.lone.deleted.is_below(key) {
        return None;
    }
    if !start.older.is_below(key) || has(slots, key) {
        return None;
    }
    tombstone
}

/// The same, where it fits into the list of keys with a value.
pub fn compact_live(
    slots: &SlotMap,
    start: &StartKeys,
    key: Key,
    version: Version,
    body: &Body,
    standing: &[Standee],
) -> Option<LiveKey>
    ensures { IfSome result (IsCompactLive slots.now.entries start.now key body.now
        (opened_with version body.now standing.now)) }
{
    let live = start.lone.live.fit(key, version, body, standing);
    if live.is_none() || !start.older.is_below(key) || has(slots, key) {
        return None;
    }
    live
}

/// Makes room for one more change of a key. It is in the map then.
pub fn admit_at(
    alloc: Global,
    slots: &mut SlotMap,
    start: &mut StartKeys,
    key: Key,
) -> Result<(), Memory>
    ensures ok { OnOk result (Admits slots.old.entries slots.new.entries start.old
        start.new key) }
    ensures err { OnErr result (slots.new.entries ≡ slots.old.entries) }
    ensures err_left { OnErr result (start.new ≡ start.old) }
{
    if reserve_at(alloc, slots, key)? {
        return Ok(());
    }
    match start.slot(alloc, key) {
        Ok(None) => Ok(()),
        Ok(Some(slot)) => {
            replace_at(slots, key, slot);
            start.clear(key);
            Ok(())
        }
        Err(_) => {
            take_back(slots, key);
            Err(Memory)
        }
    }
}

/// Tells a home of a dead entry, where it waits to be told.
pub fn tell_in(slots: &mut SlotMap, start: &mut StartKeys, name: EntryName, home: u32) -> bool
    ensures told { result ≡ true → ToldAt (all_places slots.old.entries start.old)
        (all_places slots.new.entries start.new) home name }
    ensures mortal { result ≡ true → all_mortal slots.new.entries ≤ all_mortal slots.old.entries }
    ensures ahead { (h : ℕ) (n : EntryName) → IsAhead start.old h n → IsAhead start.new h n }
    ensures none { result ≡ false → ¬ Awaits
        (known_at (all_places slots.old.entries start.old) name.key) home name.version }
    ensures unchanged { result ≡ false → slots.new.entries ≡ slots.old.entries }
    ensures unchanged_left { result ≡ false → start.new ≡ start.old }
{
    match tell_at(slots, name, home) {
        Some(told) => told,
        None => start.tell(name, home),
    }
}

/// Takes an entry out of those that stand. Gives the entry that died by it.
pub fn gone_in(slots: &mut SlotMap, start: &mut StartKeys, name: EntryName) -> GoneEffect
    ensures gone { Changes (all_places slots.old.entries start.old)
        (all_places slots.new.entries start.new) name.key (option_map (without name.version)
        (known_at (all_places slots.old.entries start.old) name.key)) }
    ensures room { SameRoom (all_places slots.old.entries start.old)
        (all_places slots.new.entries start.new) }
    ensures dead { DeadOrAhead start.new name.key
        (known_at (all_places slots.old.entries start.old) name.key)
        (known_at (all_places slots.new.entries start.new) name.key) result.dead }
    ensures mortal { all_mortal slots.new.entries + count_dead result.dead + result.spared
        ≡ all_mortal slots.old.entries }
    ensures untold { all_untold (all_places slots.new.entries start.new)
        ≤ all_untold (all_places slots.old.entries start.old) }
    ensures ahead { (h : ℕ) (n : EntryName) → IsAhead start.old h n → IsAhead start.new h n }
{
    match gone_at(slots, name) {
        Some(gone) => gone,
        None => {
            start.gone(name);
            GoneEffect {
                dead: None,
                spared: 0,
            }
        }
    }
}

/// Takes out the record of a key that is deleted and of which nothing stands.
pub fn forget_in(slots: &mut SlotMap, start: &mut StartKeys, key: Key)
    requires { IsTrue (is_forgettable (known_at (all_places slots.old.entries start.old)
        key)) }
    ensures change { Changes (all_places slots.old.entries start.old)
        (all_places slots.new.entries start.new) key None }
    ensures room { SameRoom (all_places slots.old.entries start.old)
        (all_places slots.new.entries start.new) }
    ensures mortal { all_mortal slots.new.entries ≤ all_mortal slots.old.entries }
    ensures untold { all_untold (all_places slots.new.entries start.new)
        ≤ all_untold (all_places slots.old.entries start.old) }
    ensures ahead { (h : ℕ) (n : EntryName) → IsAhead start.old h n → IsAhead start.new h n }
{
    forget_there(slots, key);
    start.clear(key);
}

/// Gives back the room for one change of a key of the map. Nothing is kept of a key that has neither room nor a record.
pub fn give_back_in(slots: &mut SlotMap, start: &mut StartKeys, key: Key)
    requires { 0 < room_at slots.old.entries key }
    ensures less { LessRoom (all_places slots.old.entries start.old)
        (all_places slots.new.entries start.new) key }
    ensures mortal { all_mortal slots.new.entries + NAMES_OF_CHANGE
        ≤ all_mortal slots.old.entries }
    ensures ahead { (h : ℕ) (n : EntryName) → IsAhead start.old h n → IsAhead start.new h n }
{
    give_back_at(slots, key);
    start.clear(key);
}
