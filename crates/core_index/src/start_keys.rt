// The keys that are as they were at the start, of each the entry of its last version and one older entry at most.
ghost use Rattle.std.specs.Prelude.{◌≡◌, ◌≢◌, ◌⊎◌, ℕ, ◌+◌, ◌<◌, ◌≤◌, ◌++◌, ◌∷◌, [], Some, None, option_map, true, false, IfOk, IfSome, IfNone, OnOk, OnErr, length};
ghost use Rattle.log_entry.specs.declared.entry.EntryName.{EntryName};
ghost use Rattle.core_index.specs.Index.{all_untold, known_at, place_at, untold_by, to_ask, ToldAt, StartTurns, LoneAdded, OlderAdded, Stays};
ghost use Rattle.core_index.specs.Noted.{name_with};
ghost use Rattle.core_index.specs.Records.{Awaits, Shows, without, last_of, is_dead_in, is_forgettable};
ghost use Rattle.core_index.specs.Slots.{lone_deaths};
ghost use Rattle.core_index.specs.Lones.{lones};
ghost use Rattle.core_index.specs.Starts.{started, is_older, IsTwin, IsLone, IsAhead};
ghost use Rattle.core_index.specs.Tombs.{tomb_home, key_of, name_of, place_of, AreLess, Rising};
ghost use Rattle.core_index.specs.Lives.{live_key, live_place, placed_lives, bytes_in, AllLess, IsWithin};

use crate::key_slot::KeySlot;
use crate::lone_keys::LoneKeys;
use crate::tombstone_list::TombstoneList;
use crate::tombstones::{Tombstones, awaits, is_standing, standing_entry, version_of};
use crate::types::{Fate, LiveKey, Look, Tombstone};
use fs_model::{Key, Memory, Version};
use log_entry::{Body, EntryName};
use std::alloc::Global;

/// The keys that are as they were at the start. Only the calls that add a key and `slot` take memory.
#[derive(Drop)]
pub struct StartKeys {
    /// Each with the entry of its last version.
    pub lone: LoneKeys,
    /// An older entry of some of them, which is dead since the start.
    pub older: Tombstones,
    /// Deleted keys whose older entry is gone. There is room for each.
    pub late: TombstoneList,
}

impl StartKeys {
    /// No keys.
    pub fn empty(alloc: Global) -> StartKeys
        ensures { started result ≡ [] }
    {
        StartKeys {
            lone: LoneKeys::empty(alloc),
            older: Tombstones::empty(alloc),
            late: TombstoneList::empty(alloc),
        }
    }

    // The older entry of a key, where it stands.
    fn older_of(&self, key: Key) -> Option<Tombstone>
        ensures twin { IfSome result (IsTwin self.now key) }
        ensures lone { IfNone result (IsLone self.now key) }
        ensures rising { Rising self.now.older.items }
    {
        let Some(older) = self.older.find(key) else {
            return None;
        };
        if !is_standing(&older) || version_of(&older) >= self.lone.last(key) {
            return None;
        }
        Some(older)
    }

    /// Adds a deleted key that is above all others.
    pub fn add_deleted(&mut self, tombstone: Tombstone) -> Result<(), Memory>
        requires apart { place_at (placed_lives self.old.lone.live) (key_of tombstone) ≡ None }
        requires above { AreLess self.old.lone.deleted.items (key_of tombstone) }
        requires home { tomb_home tombstone < 16 }
        ensures ok { OnOk result (LoneAdded self.old self.new (key_of tombstone)
            (place_of tombstone)) }
        ensures err { OnErr result (self.new ≡ self.old) }
    {
        self.lone.deleted.push(tombstone)
    }

    /// Adds a key with a value that is above all others of this kind.
    pub fn add_live(&mut self, live: LiveKey, body: &Body) -> Result<(), Memory>
        requires above { AllLess self.old.lone.live.items (live_key live) }
        requires within { IsWithin (self.old.lone.live.bytes ++ bytes_in body.now) live.held }
        ensures ok { OnOk result (LoneAdded self.old self.new (live_key live)
            (live_place (self.old.lone.live.bytes ++ bytes_in body.now) live)) }
        ensures err { OnErr result (Stays self.old self.new) }
    {
        self.lone.add_live(live, body)
    }

    /// Adds an older entry of a key that is here, above all others that have one.
    pub fn add_older(&mut self, older: Tombstone) -> Result<(), Memory>
        requires above { AreLess self.old.older.items (key_of older) }
        requires home { tomb_home older < 16 }
        requires stands { is_older older (known_at (lones self.old.lone) (key_of older)) ≡ true }
        ensures ok { OnOk result (OlderAdded self.old self.new older) }
        ensures err { OnErr result (self.new ≡ self.old) }
    {
        self.late.reserve(self.older.len().saturating_add(1))?;
        self.older.push(older)
    }

    /// The last version of a key, or 0 where it is not among these.
    pub fn last(&self, key: Key) -> Version
        ensures { result ≡ last_of (known_at (started self.now) key) }
    {
        self.lone.last(key)
    }

    /// What a key has.
    pub fn look(&self, key: Key) -> Look<'_>
        ensures { Shows (known_at (started self.now) key) result }
    {
        self.lone.look(key)
    }

    /// Whether a key of these is deleted and nothing of it stands.
    pub fn is_forgettable(&self, key: Key) -> bool
        ensures { result ≡ is_forgettable (known_at (started self.now) key) }
    {
        match self.older_of(key) {
            None => self.lone.is_forgettable(key),
            Some(_) => false,
        }
    }

    /// Whether an entry of this name stands and is dead.
    pub fn is_dead(&self, name: EntryName) -> bool
        ensures { result ≡ is_dead_in (known_at (started self.now) name.key) name.version }
    {
        match self.older_of(name.key) {
            None => self.lone.is_dead(name),
            Some(older) => version_of(&older) == name.version,
        }
    }

    /// For how many entries of a key a name may have to be noted once it is in the map, without a change to come.
    pub fn lone_deaths(&self, key: Key) -> u64
        ensures deaths { lone_deaths (known_at (started self.now) key) ≤ result }
        ensures few { result ≤ 1 }
    {
        let Some(_) = self.older_of(key) else {
            return 0;
        };
        match self.lone.look(key) {
            Look::Deleted => 1,
            _ => 0,
        }
    }

    /// What there is of a key, with room for one change; nothing where it is not among these.
    pub fn slot(&self, alloc: Global, key: Key) -> Result<Option<KeySlot>, Memory>
        ensures slot { IfOk result (λ found. IfSome found (λ slot. slot ≡ record {
          known = known_at (started self.now) key;
          room = 1;
        })) }
        ensures none { IfOk result (λ found. IfNone found (known_at (started self.now) key
            ≡ None)) }
    {
        let Some(slot) = self.lone.slot(alloc, key)? else {
            return Ok(None);
        };
        match self.older_of(key) {
            None => Ok(Some(slot)),
            Some(older) => Ok(Some(slot.beside(alloc, standing_entry(&older))?)),
        }
    }

    /// Tells a home of a dead entry, where it waits to be told.
    pub fn tell(&mut self, name: EntryName, home: u32) -> bool
        ensures told { result ≡ true → ToldAt (started self.old) (started self.new) home name }
        ensures none { result ≡ false → ¬ Awaits (known_at (started self.old) name.key) home
            name.version }
        ensures unchanged { result ≡ false → self.new ≡ self.old }
        ensures ahead { (h : ℕ) (n : EntryName) → IsAhead self.old h n → IsAhead self.new h n }
    {
        match self.older_of(name.key) {
            None => self.lone.tell(name, home),
            Some(older) => {
                if !awaits(&older, name.version, home) {
                    return false;
                }
                self.older.set(name.key, Fate::Told);
                true
            }
        }
    }

    /// Takes an entry out of those that stand.
    pub fn gone(&mut self, name: EntryName)
        ensures gone { StartTurns self.old self.new name.key
            (option_map (without name.version) (known_at (started self.old) name.key)) }
        ensures untold { all_untold (started self.new) ≤ all_untold (started self.old) }
        ensures waits { (home v : ℕ) → Awaits (known_at (started self.new) name.key) home v
            → Awaits (known_at (started self.old) name.key) home v
            ⊎ IsAhead self.new home (name_with name.key v) }
    {
        let Some(older) = self.older_of(name.key) else {
            self.lone.gone(name);
            return;
        };
        if version_of(&older) != name.version {
            self.lone.gone(name);
            return;
        }
        self.older.set(name.key, Fate::Gone);
        self.stands_alone(name.key);
    }

    // Of a key whose older entry is gone the home of the other one is to be asked about it, where the key was deleted. Where
    // there is no room for it, every home is asked about all deleted keys again.
    fn stands_alone(&mut self, key: Key)
        ensures lones { lones self.new.lone ≡ lones self.old.lone }
        ensures older { self.new.older ≡ self.old.older }
        ensures ahead { (h : ℕ) (n : EntryName) → IsAhead self.old h n → IsAhead self.new h n }
        ensures own { (home v : ℕ) → Awaits (known_at (lones self.old.lone) key) home v
            → IsAhead self.new home (name_with key v) }
    {
        let Some(tombstone) = self.lone.deleted.find(key) else {
            return;
        };
        match self.late.push(tombstone) {
            Ok(()) => {}
            Err(_) => self.lone.deleted.rewind(),
        }
    }

    /// Takes the record of a key out.
    pub fn clear(&mut self, key: Key)
        ensures turns { StartTurns self.old self.new key None }
        ensures untold { all_untold (started self.new)
            + untold_by (known_at (started self.old) key) ≤ all_untold (started self.old) }
    {
        self.lone.clear(key);
    }

    /// The next dead entry that this home was not asked about.
    pub fn pass(&mut self, home: u32) -> Option<Tombstone>
        ensures none { IfNone result ((n : EntryName) → ¬ IsAhead self.old home n) }
        ensures unchanged { IfNone result (self.new ≡ self.old) }
        ensures others { IfSome result (λ t. (h : ℕ) (n : EntryName) → IsAhead self.old h n
            → ((h ≡ home) × (n ≡ name_of t) × (tomb_home t ≡ home))
            ⊎ IsAhead self.new h n) }
        ensures same { started self.new ≡ started self.old }
        ensures more { IfSome result (λ _. to_ask self.new home + 1 ≡ to_ask self.old home) }
    {
        match self.lone.deleted.pass(home) {
            Some(tombstone) => Some(tombstone),
            None => match self.late.pass(home) {
                Some(tombstone) => Some(tombstone),
                None => self.older.pass(home),
            },
        }
    }
}
