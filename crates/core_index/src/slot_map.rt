// The slots of the keys in one map, and changes of one of them.
ghost use Rattle.std.specs.Prelude.{nat_eq, ◌≡◌, ◌+◌, ◌-◌, ◌<◌, ◌≤◌, true, false, IsTrue, IfOk, IfSome, IfNone, OnOk, OnErr, Some, None, [], option_map, option_copied, is_some};
ghost use Rattle.core_index.specs.Records.{Awaits, settled, last_of, block_of, is_forgettable};
ghost use Rattle.core_index.specs.Slots.{mortal, count_dead, is_bare, OnlyDead};
ghost use Rattle.std.specs.BTreeMap.{insert_entry, is_at};
ghost use Rattle.std.specs.HashMap.{IsUnique};
ghost use Rattle.std.specs.List.Sorted.{IsPermutation, IsStrictlySortedBy};
ghost use Rattle.std.specs.Map.{keys_of, remove_entry};
ghost use Rattle.std.specs.Ordering.{nat_cmp};
ghost use Rattle.core_index.specs.Index.{live_names, Step, ToldAt, known_at, room_at, mortal_in, all_mortal, place_at, gone_place, Forgets, GivesBack};

use crate::key_slot::KeySlot;
use crate::types::{ChangeEffect, GoneEffect};
use fs_model::{Key, Memory, Version};
use log_entry::{Body, EntryName};
use std::alloc::Global;
use std::collections::HashMap;
use std::marker::Model;

/// The slots by key, in a map of std that finds a key by its hash: it keeps keys and slots densely, each list in a vector.
#[derive(Drop)]
pub struct SlotMap {
    slots: HashMap<Key, KeySlot>,
}

impl Model for SlotMap {
    ghost use Rattle.core_index.specs.Slabs.{Slab, by_key};

    ghost Value = { Slab };

    ghost view = { λ a. record { entries = by_key a.slots.entries } };
}

// The live keys with their versions, in the order in which the map keeps them.
fn names_in(alloc: Global, slots: &HashMap<Key, KeySlot>) -> Result<Vec<EntryName>, Memory>
    ensures names { IfOk result (λ names. names.items ≡ live_names slots.now.entries) }
    ensures unique { IfOk result (λ _. IsUnique nat_eq slots.now) }
{
    let mut names = Vec::new(alloc);
    for (key, slot) in slots.iter() {
        if let Some(version) = slot.live_version() {
            names.push(EntryName { key: *key, version })?;
        }
    }
    Ok(names)
}

impl SlotMap {
    /// No keys.
    pub fn empty(alloc: Global) -> SlotMap
        ensures { result.entries ≡ [] }
    {
        SlotMap {
            slots: HashMap::new(alloc),
        }
    }

    /// The slot of a key.
    pub fn get(&self, key: Key) -> Option<&KeySlot>
        ensures value { option_copied result ≡ place_at self.now.entries key }
        ensures within { IfSome result (λ _. is_some (place_at self.now.entries key) ≡ true) }
    {
        self.slots.get(&key)
    }

    /// The live keys with their versions, in no order.
    pub fn live_names(&self, alloc: Global) -> Result<Vec<EntryName>, Memory>
        ensures names { IfOk result (λ names. IsPermutation (live_names self.now.entries)
            names.items) }
        ensures ordered { IfOk result (λ _. IsStrictlySortedBy nat_cmp
            (keys_of self.now.entries)) }
    {
        names_in(alloc, &self.slots)
    }

    // Takes the slot of a key out.
    fn remove(&mut self, key: Key)
        ensures step { Step self.old.entries self.new.entries key None }
        ensures entries { self.new.entries
            ≡ remove_entry (is_at (nat_cmp key)) self.old.entries }
    {
        let _ = self.slots.remove(&key);
    }
}

/// Whether the map has a place for a key.
pub fn has(slots: &SlotMap, key: Key) -> bool
    ensures { result ≡ is_some (place_at slots.now.entries key) }
{
    slots.get(key).is_some()
}

/// Records a finished change of a key that has room for it.
pub fn settle_at(
    slots: &mut SlotMap,
    key: Key,
    version: Version,
    body: Body,
    home: u32,
) -> ChangeEffect
    requires room { 0 < room_at slots.old.entries key }
    requires next { version ≡ last_of (known_at slots.old.entries key) + 1 }
    ensures step { Step slots.old.entries slots.new.entries key
        (Some (record {
          known = Some (settled (known_at slots.old.entries key) version body home);
          room = room_at slots.old.entries key - 1;
        })) }
    ensures replaced { result.replaced ≡ block_of (known_at slots.old.entries key) }
    ensures dead { OnlyDead (known_at slots.old.entries key)
        (known_at slots.new.entries key) result.dead }
    ensures mortal { mortal_in (place_at slots.new.entries key) + count_dead result.dead
        + result.spared ≡ mortal_in (place_at slots.old.entries key) }
{
    let Some(slot) = slots.slots.get_mut(&key) else {
        return ChangeEffect {
            replaced: None,
            dead: None,
            spared: 0,
        };
    };
    slot.settle(version, body, home)
}

/// Makes room for one more change of a key, as it is in the map. Says whether the map had a place for it. Else it has one
/// now, with no record, which `take_back` takes out again.
pub fn reserve_at(alloc: Global, slots: &mut SlotMap, key: Key) -> Result<bool, Memory>
    ensures there { IfOk result (λ there. there ≡ is_some (place_at slots.old.entries key)) }
    ensures step { OnOk result (Step slots.old.entries slots.new.entries key
        (Some (record {
          known = known_at slots.old.entries key;
          room = room_at slots.old.entries key + 1;
        }))) }
    ensures added { IfOk result (λ there. there ≡ false → slots.new.entries
        ≡ insert_entry nat_cmp slots.old.entries key (record { known = None; room = 1 })) }
    ensures err { OnErr result (slots.new.entries ≡ slots.old.entries) }
{
    let Some(slot) = slots.slots.get_mut(&key) else {
        enter_at(slots, key, KeySlot::with_room())?;
        return Ok(false);
    };
    slot.reserve(alloc)?;
    Ok(true)
}

/// Takes the place of a key out again.
pub fn take_back(slots: &mut SlotMap, key: Key)
    ensures { slots.new.entries ≡ remove_entry (is_at (nat_cmp key)) slots.old.entries }
{
    slots.remove(key);
}

/// Gives a key that has a place this slot.
pub fn replace_at(slots: &mut SlotMap, key: Key, slot: KeySlot)
    requires { is_some (place_at slots.old.entries key) ≡ true }
    ensures { Step slots.old.entries slots.new.entries key (Some slot) }
{
    let Some(place) = slots.slots.get_mut(&key) else {
        return;
    };
    *place = slot;
}

/// Gives a key this slot.
pub fn enter_at(slots: &mut SlotMap, key: Key, slot: KeySlot) -> Result<(), Memory>
    ensures ok { OnOk result (Step slots.old.entries slots.new.entries key (Some slot)) }
    ensures entered { OnOk result (slots.new.entries
        ≡ insert_entry nat_cmp slots.old.entries key slot) }
    ensures err { OnErr result (slots.new.entries ≡ slots.old.entries) }
{
    match slots.slots.insert(key, slot) {
        Ok(_) => Ok(()),
        Err(_) => Err(Memory),
    }
}

/// Tells a home of a dead entry, where it waits to be told. Nothing where the map has no place for the key.
pub fn tell_at(slots: &mut SlotMap, name: EntryName, home: u32) -> Option<bool>
    ensures there { IfSome result (λ _. is_some (place_at slots.old.entries name.key) ≡ true) }
    ensures told { IfSome result (λ told. told ≡ true
        → ToldAt slots.old.entries slots.new.entries home name) }
    ensures mortal { IfSome result (λ told. told ≡ true
        → all_mortal slots.new.entries ≤ all_mortal slots.old.entries) }
    ensures none { IfSome result (λ told. told ≡ false
        → ¬ Awaits (known_at slots.old.entries name.key) home name.version) }
    ensures unchanged { IfSome result (λ told. told ≡ false
        → slots.new.entries ≡ slots.old.entries) }
    ensures missing { IfNone result (place_at slots.old.entries name.key ≡ None) }
    ensures missed { IfNone result (slots.new.entries ≡ slots.old.entries) }
{
    let Some(slot) = slots.slots.get_mut(&name.key) else {
        return None;
    };
    Some(slot.tell(name.version, home))
}

/// Takes an entry out of those that stand. Gives the entry that died by it; nothing where the map has no place for the
/// key.
pub fn gone_at(slots: &mut SlotMap, name: EntryName) -> Option<GoneEffect>
    ensures there { IfSome result (λ _. is_some (place_at slots.old.entries name.key) ≡ true) }
    ensures step { IfSome result (λ _. Step slots.old.entries slots.new.entries name.key
        (option_map (gone_place name.version) (place_at slots.old.entries name.key))) }
    ensures dead { IfSome result (λ gone. OnlyDead (known_at slots.old.entries name.key)
        (known_at slots.new.entries name.key) gone.dead) }
    ensures mortal { IfSome result (λ gone. mortal_in (place_at slots.new.entries name.key)
        + count_dead gone.dead + gone.spared ≡ mortal_in (place_at slots.old.entries name.key)) }
    ensures missing { IfNone result (place_at slots.old.entries name.key ≡ None) }
    ensures missed { IfNone result (slots.new.entries ≡ slots.old.entries) }
{
    let Some(slot) = slots.slots.get_mut(&name.key) else {
        return None;
    };
    Some(slot.gone(name.version))
}

// Takes a record out, and gives the room that stays.
fn clear_at(slots: &mut SlotMap, key: Key) -> u64
    requires { IsTrue (is_forgettable (known_at slots.old.entries key)) }
    ensures step { Step slots.old.entries slots.new.entries key
        (Some (record { known = None; room = room_at slots.old.entries key })) }
    ensures room { result ≡ room_at slots.old.entries key }
{
    let Some(slot) = slots.slots.get_mut(&key) else {
        return 0;
    };
    slot.forget();
    slot.room()
}

// Takes a record out. Its place goes too, where there is no room to keep.
fn forget_at(slots: &mut SlotMap, key: Key)
    requires { IsTrue (is_forgettable (known_at slots.old.entries key)) }
    ensures { Forgets slots.old.entries slots.new.entries key }
{
    let room = clear_at(slots, key);
    if room == 0 {
        slots.remove(key);
    }
}

// Takes the room for one change of a key. Gives whether nothing is left of the key.
fn lower_at(slots: &mut SlotMap, key: Key) -> bool
    requires { 0 < room_at slots.old.entries key }
    ensures step { Step slots.old.entries slots.new.entries key
        (Some (record {
          known = known_at slots.old.entries key;
          room = room_at slots.old.entries key - 1;
        })) }
    ensures bare { result ≡ is_bare (record {
      known = known_at slots.old.entries key;
      room = room_at slots.old.entries key - 1;
    }) }
{
    let Some(slot) = slots.slots.get_mut(&key) else {
        return false;
    };
    slot.give_back();
    slot.is_bare()
}

/// Gives back the room for one change of a key. Its place goes too, where nothing is left of it.
pub fn give_back_at(slots: &mut SlotMap, key: Key)
    requires { 0 < room_at slots.old.entries key }
    ensures gives { GivesBack slots.old.entries slots.new.entries key }
    ensures nothing { known_at slots.old.entries key ≡ None → room_at slots.old.entries key ≡ 1
        → place_at slots.new.entries key ≡ None }
{
    let bare = lower_at(slots, key);
    if bare {
        slots.remove(key);
    }
}

/// The same where the map may have no place for the key.
pub fn forget_there(slots: &mut SlotMap, key: Key)
    requires { is_some (place_at slots.old.entries key) ≡ true
        → IsTrue (is_forgettable (known_at slots.old.entries key)) }
    ensures { Forgets slots.old.entries slots.new.entries key }
{
    if has(slots, key) {
        forget_at(slots, key);
    }
}
