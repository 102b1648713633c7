// The keys that are as they were at the start, each with the entry of its last version.
ghost use Rattle.std.specs.Prelude.{◌≡◌, ◌≢◌, ℕ, ◌+◌, ◌≤◌, ◌++◌, [], Some, None, option_map, true, false, IfOk, IfSome, IfNone, OnOk, OnErr};
ghost use Rattle.log_entry.specs.declared.entry.EntryName.{EntryName};
ghost use Rattle.core_index.specs.Index.{all_untold, known_at, place_at, untold_by, ToldAt, TurnsAt, LoneTurns};
ghost use Rattle.core_index.specs.Records.{Awaits, Shows, without, last_of, is_dead_in, is_forgettable};
ghost use Rattle.core_index.specs.Lones.{lones, LoneAhead};
ghost use Rattle.core_index.specs.Lives.{live_key, live_place, bytes_in, AllLess, IsWithin};

use crate::key_slot::KeySlot;
use crate::live_list::{LiveList, last_of};
use crate::tombstones::Tombstones;
use crate::types::{LiveKey, Look};
use fs_model::{Key, Memory, Version};
use log_entry::{Body, EntryName};
use std::alloc::Global;

/// The keys that are as they were at the start, each with the entry of its last version: those with a value, and
/// those that were deleted. What the first list has of a key counts. Only the calls that add a key and `slot` take
/// memory.
#[derive(Drop)]
pub struct LoneKeys {
    /// Those with a value.
    pub live: LiveList,
    /// Those that were deleted.
    pub deleted: Tombstones,
}

impl LoneKeys {
    /// No keys.
    pub fn empty(alloc: Global) -> LoneKeys
        ensures { lones result ≡ [] }
    {
        LoneKeys {
            live: LiveList::empty(alloc),
            deleted: Tombstones::empty(alloc),
        }
    }

    /// Adds a key with a value that is above all others of this kind.
    pub fn add_live(&mut self, live: LiveKey, body: &Body) -> Result<(), Memory>
        requires above { AllLess self.old.live.items (live_key live) }
        requires within { IsWithin (self.old.live.bytes ++ bytes_in body.now) live.held }
        ensures ok { OnOk result (TurnsAt (lones self.old) (lones self.new) (live_key live)
            (Some (live_place (self.old.live.bytes ++ bytes_in body.now) live))) }
        ensures err { OnErr result (lones self.new ≡ lones self.old) }
        ensures deleted { self.new.deleted ≡ self.old.deleted }
    {
        self.live.push(live, body)
    }

    /// The last version of a key, or 0 where it is not among these.
    pub fn last(&self, key: Key) -> Version
        ensures { result ≡ last_of (known_at (lones self.now) key) }
    {
        match self.live.find(key) {
            None => self.deleted.last(key),
            Some(live) => last_of(&live),
        }
    }

    /// What a key has.
    pub fn look(&self, key: Key) -> Look<'_>
        ensures { Shows (known_at (lones self.now) key) result }
    {
        match self.live.find(key) {
            None => self.deleted.look(key),
            Some(live) => self.live.look(&live),
        }
    }

    /// Whether a key of these is deleted and nothing of it stands.
    pub fn is_forgettable(&self, key: Key) -> bool
        ensures { result ≡ is_forgettable (known_at (lones self.now) key) }
    {
        match self.live.find(key) {
            None => self.deleted.is_forgettable(key),
            Some(_) => false,
        }
    }

    /// Whether an entry of this name stands and is dead.
    pub fn is_dead(&self, name: EntryName) -> bool
        ensures { result ≡ is_dead_in (known_at (lones self.now) name.key) name.version }
    {
        // Few entries are dead at the start, so the longer list is looked at for these alone.
        if !self.deleted.is_dead(name) {
            return false;
        }
        match self.live.find(name.key) {
            None => true,
            Some(_) => false,
        }
    }

    /// What there is of a key, with room for one change; nothing where it is not among these.
    pub fn slot(&self, alloc: Global, key: Key) -> Result<Option<KeySlot>, Memory>
        ensures slot { IfOk result (λ found. IfSome found (λ slot. slot ≡ record {
          known = known_at (lones self.now) key;
          room = 1;
        })) }
        ensures none { IfOk result (λ found. IfNone found (known_at (lones self.now) key
            ≡ None)) }
    {
        if let Some(live) = self.live.find(key) {
            return Ok(Some(self.live.slot(alloc, &live)?));
        }
        let Some(tombstone) = self.deleted.find(key) else {
            return Ok(None);
        };
        Ok(Some(KeySlot::of_tombstone(&tombstone)))
    }

    /// Tells a home of a dead entry, where it waits to be told.
    pub fn tell(&mut self, name: EntryName, home: u32) -> bool
        ensures told { result ≡ true → ToldAt (lones self.old) (lones self.new) home name }
        ensures none { result ≡ false → ¬ Awaits (known_at (lones self.old) name.key) home
            name.version }
        ensures unchanged { result ≡ false → self.new ≡ self.old }
        ensures ahead { (h : ℕ) (n : EntryName) → LoneAhead self.old h n → LoneAhead self.new h n }
    {
        match self.live.find(name.key) {
            None => self.deleted.tell(name, home),
            Some(_) => false,
        }
    }

    /// Takes an entry out of those that stand.
    pub fn gone(&mut self, name: EntryName)
        ensures gone { LoneTurns self.old self.new name.key
            (option_map (without name.version) (known_at (lones self.old) name.key)) }
        ensures untold { all_untold (lones self.new) ≤ all_untold (lones self.old) }
        ensures none { (home v : ℕ) → Awaits (known_at (lones self.new) name.key) home v
            → Awaits (known_at (lones self.old) name.key) home v }
    {
        match self.live.find(name.key) {
            None => self.deleted.gone(name),
            Some(_) => self.live.gone(name),
        }
    }

    /// Takes the record of a key out.
    pub fn clear(&mut self, key: Key)
        ensures turns { LoneTurns self.old self.new key None }
        ensures untold { all_untold (lones self.new)
            + untold_by (known_at (lones self.old) key) ≤ all_untold (lones self.old) }
    {
        self.live.clear(key);
        self.deleted.clear(key);
    }
}
