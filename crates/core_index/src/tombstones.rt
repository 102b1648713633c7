// Entries of keys of the start in twelve bytes each: those that deleted a key, or older ones.
ghost use Rattle.std.specs.Prelude.{◌≡◌, ◌≢◌, ◌⊎◌, ℕ, ◌+◌, ◌<◌, ◌≤◌, ◌++◌, ◌∷◌, [], Some, None, option_map, true, false, is_some, IfSome, IfNone, OnOk, OnErr, length};
ghost use Rattle.std.specs.Bool.{Decides};
ghost use Rattle.log_entry.specs.declared.entry.EntryName.{EntryName};
ghost use Rattle.core_index.specs.Index.{all_untold, known_at, place_at, untold_of, ToldAt, Turns};
ghost use Rattle.core_index.specs.Records.{untold, Awaits, Shows, without, opened_with, last_of, is_dead_in, is_forgettable};
ghost use Rattle.core_index.specs.declared.types.Tombstone.{Tombstone};
ghost use Rattle.core_index.specs.Tombs.{tomb_home, tomb_version, key_of, name_of, left_of, standing_left, tomb_places, found_at, fated, AreLess, Rising, StandsAs, passed_at, Ahead};

use crate::short_names::{self, short_of};
use crate::tombstone_list::{TombstoneList, are_less};
use crate::types::{Fate, Look, SHARE, Standee, StandingEntry, Tombstone};
use fs_model::{Key, Memory, Version};
use log_entry::{Body, EntryName};
use std::alloc::Global;
use std::marker::Model;

/// Keys of the start by rising key, each with the entry that deleted it, or with an older entry. Only `push` takes
/// memory.
#[derive(Drop)]
pub struct Tombstones {
    list: TombstoneList,
}

impl Model for Tombstones {
    ghost use Rattle.core_index.specs.Tombs.{Tombs, Rising};

    ghost Value = { Tombs };

    ghost view = { λ a. a.list };

    ghost invariant = { λ a. Rising a.list.items };
}

/// Whose entry it is.
pub fn key_of(tombstone: &Tombstone) -> Key
    ensures { result ≡ key_of tombstone.now }
{
    u64::from(tombstone.high) * SHARE + u64::from(tombstone.low)
}

/// The version of the entry.
pub fn version_of(tombstone: &Tombstone) -> Version
    ensures { result ≡ tomb_version tombstone.now }
{
    short_names::version_of(tombstone.version_low, tombstone.version_and_home)
}

/// The core in whose log it stands, by its number in the region.
pub fn home_of(tombstone: &Tombstone) -> u32
    ensures { result ≡ tomb_home tombstone.now }
{
    short_names::home_of(tombstone.version_and_home)
}

/// The name of the entry that deleted the key.
pub fn name_of(tombstone: &Tombstone) -> EntryName
    ensures { result ≡ name_of tombstone.now }
{
    EntryName {
        key: key_of(tombstone),
        version: version_of(tombstone),
    }
}

/// What is known of a key, where it is of this kind and fits.
pub fn tombstone_of(
    key: Key,
    version: Version,
    body: &Body,
    standing: &[Standee],
) -> Option<Tombstone>
    ensures key { IfSome result (λ t. key_of t ≡ key) }
    ensures home { IfSome result (λ t. tomb_home t < 16) }
    ensures left { IfSome result (λ t. left_of t
        ≡ Some (opened_with version body.now standing.now)) }
    ensures name { IfSome result (λ t. tomb_version t ≡ version) }
{
    let Body::Tombstone = body else {
        return None;
    };
    let [only] = standing else {
        return None;
    };
    if only.version != version {
        return None;
    }
    let (version_low, version_and_home) = short_of(version, only.home)?;
    Some(Tombstone {
        high: (key / SHARE) as u32,
        low: (key % SHARE) as u32,
        version_low,
        version_and_home,
        fate: Fate::Untold,
    })
}

/// An older entry of a key, where it fits.
pub fn older_entry(key: Key, older: &Standee) -> Option<Tombstone>
    ensures key { IfSome result (λ t. key_of t ≡ key) }
    ensures home { IfSome result (λ t. tomb_home t < 16) }
    ensures version { IfSome result (λ t. tomb_version t ≡ older.now.version) }
    ensures standing { IfSome result (λ t. standing_left t ≡ Some (untold older.now)) }
{
    let (version_low, version_and_home) = short_of(older.version, older.home)?;
    Some(Tombstone {
        high: (key / SHARE) as u32,
        low: (key % SHARE) as u32,
        version_low,
        version_and_home,
        fate: Fate::Untold,
    })
}

fn last_of(tombstone: &Tombstone) -> Version
    ensures { result ≡ last_of (left_of tombstone.now) }
{
    match tombstone.fate {
        Fate::Moved => 0,
        _ => version_of(tombstone),
    }
}

fn is_gone(tombstone: &Tombstone) -> bool
    ensures { result ≡ is_forgettable (left_of tombstone.now) }
{
    match tombstone.fate {
        Fate::Gone => true,
        _ => false,
    }
}

// Whether its entry has this version, and stands: it is dead then.
fn is_dead(tombstone: &Tombstone, version: Version) -> bool
    ensures dead { result ≡ is_dead_in (left_of tombstone.now) version }
    ensures found { result ≡ true → StandsAs version tombstone.now }
    ensures none { result ≡ false → option_map (without version) (left_of tombstone.now)
        ≡ left_of tombstone.now }
{
    match tombstone.fate {
        Fate::Untold | Fate::Told => version_of(tombstone) == version,
        _ => false,
    }
}

/// Whether the entry stands.
pub fn is_standing(tombstone: &Tombstone) -> bool
    ensures { result ≡ is_some (standing_left tombstone.now) }
{
    match tombstone.fate {
        Fate::Untold | Fate::Told => true,
        _ => false,
    }
}

/// The entry, as it stands among those of its key.
pub fn standing_entry(tombstone: &Tombstone) -> StandingEntry
    ensures { IfSome (standing_left tombstone.now) (λ s. result ≡ s) }
{
    StandingEntry {
        version: version_of(tombstone),
        home: home_of(tombstone),
        told: match tombstone.fate {
            Fate::Told => true,
            _ => false,
        },
    }
}

/// Whether its entry has this version and home, and its death was not told.
pub fn awaits(tombstone: &Tombstone, version: Version, home: u32) -> bool
    ensures { Decides result (Awaits (left_of tombstone.now) home version) }
{
    match tombstone.fate {
        Fate::Untold => { version_of(tombstone) == version && home_of(tombstone) == home }
        _ => false,
    }
}

impl Tombstones {
    /// No keys.
    pub fn empty(alloc: Global) -> Tombstones
        ensures { result.items ≡ [] }
    {
        Tombstones {
            list: TombstoneList::empty(alloc),
        }
    }

    /// Whether a key is above all of these.
    pub fn is_below(&self, key: Key) -> bool
        ensures { result ≡ true → AreLess self.now.items key }
    {
        are_less(self.list.items(), key)
    }

    /// How many.
    pub fn len(&self) -> usize
        ensures { result ≡ length self.now.items }
    {
        self.list.items().len()
    }

    /// Each home is asked about all of them again.
    pub fn rewind(&mut self)
        ensures items { self.new.items ≡ self.old.items }
        ensures ahead { (h : ℕ) (n : EntryName) → Ahead self.old h n → Ahead self.new h n }
        ensures own { (k : ℕ) (t : Tombstone) → found_at self.old.items k ≡ Some t
            → Ahead self.new (tomb_home t) (name_of t) }
    {
        self.list.rewind();
    }

    /// Adds a key that is above all others.
    pub fn push(&mut self, tombstone: Tombstone) -> Result<(), Memory>
        requires above { AreLess self.old.items (key_of tombstone) }
        requires home { tomb_home tombstone < 16 }
        ensures ok { OnOk result (self.new ≡ record {
          items = self.old.items ++ tombstone ∷ [];
          passed = self.old.passed;
        }) }
        ensures room { (h : ℕ) → passed_at self.old h ≤ length self.old.items }
        ensures err { OnErr result (self.new ≡ self.old) }
    {
        self.list.push(tombstone)
    }

    /// What there is of a key.
    pub fn find(&self, key: Key) -> Option<Tombstone>
        ensures found { result ≡ found_at self.now.items key }
        ensures home { IfSome result (λ t. tomb_home t < 16) }
        ensures rising { Rising self.now.items }
    {
        let Some(spot) = self.list.spot(key) else {
            return None;
        };
        Some(self.list.items()[spot])
    }

    /// The last version of a key, or 0 where its record is not here.
    pub fn last(&self, key: Key) -> Version
        ensures { result ≡ last_of (known_at (tomb_places self.now.items) key) }
    {
        match self.find(key) {
            None => 0,
            Some(tombstone) => last_of(&tombstone),
        }
    }

    /// What a key has: it was deleted, or its record is not here.
    pub fn look(&self, key: Key) -> Look<'_>
        ensures { Shows (known_at (tomb_places self.now.items) key) result }
    {
        match self.find(key) {
            None => Look::Unknown,
            Some(tombstone) => match tombstone.fate {
                Fate::Moved => Look::Unknown,
                _ => Look::Deleted,
            },
        }
    }

    /// Whether a key of these has no entry that stands.
    pub fn is_forgettable(&self, key: Key) -> bool
        ensures { result ≡ is_forgettable (known_at (tomb_places self.now.items) key) }
    {
        match self.find(key) {
            None => false,
            Some(tombstone) => is_gone(&tombstone),
        }
    }

    /// Whether an entry of this name stands and is dead.
    pub fn is_dead(&self, name: EntryName) -> bool
        ensures { result ≡ is_dead_in (known_at (tomb_places self.now.items) name.key)
            name.version }
    {
        match self.find(name.key) {
            None => false,
            Some(tombstone) => is_dead(&tombstone, name.version),
        }
    }

    /// Gives the entry of a key another fate.
    pub fn set(&mut self, key: Key, fate: Fate)
        ensures { self.new ≡ record {
          items = fated self.old.items key fate;
          passed = self.old.passed;
        } }
    {
        let Some(spot) = self.list.spot(key) else {
            return;
        };
        self.list.turn(spot, fate);
    }

    /// Tells a home of a dead entry, where it waits to be told.
    pub fn tell(&mut self, name: EntryName, home: u32) -> bool
        ensures told { result ≡ true → ToldAt (tomb_places self.old.items)
            (tomb_places self.new.items) home name }
        ensures none { result ≡ false
            → ¬ Awaits (known_at (tomb_places self.old.items) name.key) home name.version }
        ensures unchanged { result ≡ false → self.new ≡ self.old }
        ensures ahead { (h : ℕ) (n : EntryName) → Ahead self.old h n → Ahead self.new h n }
    {
        let Some(tombstone) = self.find(name.key) else {
            return false;
        };
        if !awaits(&tombstone, name.version, home) {
            return false;
        }
        self.set(name.key, Fate::Told);
        true
    }

    /// Takes an entry out of those that stand.
    pub fn gone(&mut self, name: EntryName)
        ensures gone { Turns self.old self.new name.key
            (option_map (without name.version) (known_at (tomb_places self.old.items) name.key)) }
        ensures untold { all_untold (tomb_places self.new.items)
            ≤ all_untold (tomb_places self.old.items) }
        ensures none { (home v : ℕ) → Awaits (known_at (tomb_places self.new.items) name.key) home v
            → Awaits (known_at (tomb_places self.old.items) name.key) home v }
    {
        let Some(tombstone) = self.find(name.key) else {
            return;
        };
        if is_dead(&tombstone, name.version) {
            self.set(name.key, Fate::Gone);
        }
    }

    /// Takes the record of a key out.
    pub fn clear(&mut self, key: Key)
        ensures turns { Turns self.old self.new key None }
        ensures untold { all_untold (tomb_places self.new.items)
            + untold_of (place_at (tomb_places self.old.items) key)
            ≡ all_untold (tomb_places self.old.items) }
    {
        self.set(key, Fate::Moved);
    }
    /// The next key that this home was not asked about.
    pub fn pass(&mut self, home: u32) -> Option<Tombstone>
        ensures none { IfNone result ((n : EntryName) → ¬ Ahead self.old home n) }
        ensures unchanged { IfNone result (self.new ≡ self.old) }
        ensures others { IfSome result (λ t. (h : ℕ) (n : EntryName) → Ahead self.old h n
            → ((h ≡ home) × (n ≡ name_of t) × (tomb_home t ≡ home))
            ⊎ Ahead self.new h n) }
        ensures items { self.new.items ≡ self.old.items }
        ensures more { IfSome result (λ _. (passed_at self.old home < length self.old.items)
            × (passed_at self.new home ≡ passed_at self.old home + 1)) }
    {
        self.list.pass(home)
    }
}
