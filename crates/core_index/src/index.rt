// The index: the map of keys, and the names that homes are to be told.
ghost use Rattle.std.specs.Prelude.{◌≡◌, ◌≢◌, ◌⊎◌, ◌↔◌, ℕ, ◌+◌, ◌^◌, ◌<◌, ◌≤◌, true, false, IsTrue, Some, None, option_map, map, OnOk, OnErr, IfOk, IfErr, IfSome, IfNone};
ghost use Rattle.std.specs.List.{AllByRecursion, Contains};
ghost use Rattle.std.specs.List.Sorted.{IsStrictlyIncreasing};
ghost use Rattle.log_entry.specs.declared.entry.EntryName.{EntryName};
ghost use Rattle.core_index.specs.Records.{Awaits, Shows, opened, opened_with, settled, without, last_of, block_of, is_dead_in, is_forgettable, live_version};
ghost use Rattle.core_index.specs.Noted.{name_with};
ghost use Rattle.core_index.specs.Index.{known_at, room_at, Changes, LessRoom, SameRoom, Tells, HasNoneAbove, EntersAs, all_untold, opened_in};

use crate::compact::{admit_at, copy_of, forget_in, give_back_in, gone_in};
use crate::death_notes::{next_dead, note_dead};
use crate::death_notices::DeathNotices;
use crate::entering::enter_start;
use crate::key_slot::KeySlot;
use crate::live_keys::live_in;
use crate::slot_map::{SlotMap, enter_at, settle_at};
use crate::start_keys::StartKeys;
use crate::types::{Look, NAMES_OF_CHANGE, Record, Spent, Standee};
use fs_model::{Key, Memory, Version};
use log_entry::{Body, Entry, EntryName, LAST_PUT_VERSION};
use std::alloc::Global;
use std::marker::Model;

/// The keys of one core: for each its last version, the value or block that this left, and the entries that
/// stand in a log. A key without a record has last version 0. A key of the start with the entry of its last version
/// takes twelve bytes until it is changed where it was deleted, and 24 beside its value else; with one older entry
/// twelve more.
#[derive(Drop)]
pub struct CoreIndex {
    slots: SlotMap,
    start: StartKeys,
    notices: DeathNotices,
}

impl Model for CoreIndex {
    ghost use Rattle.std.specs.Prelude.{List, ℕ};
    ghost use Rattle.core_index.specs.Slots.{Place};

    ghost Value = { List (ℕ × Place) };

    ghost use Rattle.core_index.specs.Index.{IsIndex, all_places};

    ghost view = { λ a. all_places a.slots.entries a.start };

    ghost invariant = { λ a. IsIndex a.slots.entries a.start a.notices };
}

impl CoreIndex {
    /// The index of these records. No death was told yet, and there is no room for changes. Where a key or,
    /// in a record, a version stands twice, the first one counts.
    pub fn open(alloc: Global, records: Vec<Record>) -> Result<CoreIndex, Memory>
        requires { AllByRecursion HasNoneAbove records.items }
        ensures records { IfOk result (λ index. (k : ℕ)
            → known_at index k ≡ opened_in records.items k) }
        ensures room { IfOk result (λ index. (k : ℕ) → room_at index k ≡ 0) }
    {
        let mut index = CoreIndex::empty(alloc)?;
        let mut left = records;
        while let Some(record) = left.pop() {
            let Record {
                key,
                version,
                body,
                standing,
            } = record;
            index.enter_known(alloc, key, version, body, &standing)?;
        }
        Ok(index)
    }

    /// An index without keys, and without room for changes.
    pub fn empty(alloc: Global) -> Result<CoreIndex, Memory>
        ensures known { IfOk result (λ index. (k : ℕ) → known_at index k ≡ None) }
        ensures room { IfOk result (λ index. (k : ℕ) → room_at index k ≡ 0) }
    {
        Ok(CoreIndex {
            slots: SlotMap::empty(alloc),
            start: StartKeys::empty(alloc),
            notices: DeathNotices::open(alloc)?,
        })
    }

    /// Puts in what is known of a key at the start, in place of anything that it has. No death was told yet, and where
    /// a version stands twice, the first one counts. Keys that come in rising order and of which the last version
    /// stands, and one older one at most, take twelve bytes where they were deleted, 24 beside their value else, and
    /// twelve more for the older one.
    pub fn enter(
        &mut self,
        alloc: Global,
        key: Key,
        version: Version,
        body: &Body,
        standing: &[Standee],
    ) -> Result<(), Memory>
        requires below { AllByRecursion (λ s. s.version ≤ version) standing.now }
        ensures { OnOk result (EntersAs self.old self.new key
            (opened_with version body.now standing.now)) }
    {
        if enter_start(&self.slots, &mut self.start, key, version, body, standing)? {
            return Ok(());
        }
        let copy = copy_of(alloc, body)?;
        self.enter_known(alloc, key, version, copy, standing)
    }

    // Puts what is known of a key into the map, in place of anything that it has.
    fn enter_known(
        &mut self,
        alloc: Global,
        key: Key,
        version: Version,
        body: Body,
        standing: &[Standee],
    ) -> Result<(), Memory>
        requires { AllByRecursion (λ s. s.version ≤ version) standing.now }
        ensures { OnOk result (EntersAs self.old self.new key
            (opened_with version body standing.now)) }
    {
        let slot = KeySlot::of(alloc, version, body, standing)?;
        self.notices.reserve(slot.names())?;
        slot.note_dead(key, &mut self.notices);
        enter_at(&mut self.slots, key, slot)?;
        self.start.clear(key);
        Ok(())
    }

    /// Makes room for one more `settle` of the key.
    pub fn admit(&mut self, alloc: Global, key: Key) -> Result<(), Memory>
        ensures ok { OnOk result (room_at self.new key ≡ room_at self.old key + 1) }
        ensures others { (j : ℕ) → j ≢ key → room_at self.new j ≡ room_at self.old j }
        ensures records { (j : ℕ) → known_at self.new j ≡ known_at self.old j }
        ensures untold { all_untold self.new ≤ all_untold self.old }
        ensures err { OnErr result (self.new ≡ self.old) }
    {
        let more = self.start.lone_deaths(key);
        self.notices.reserve(NAMES_OF_CHANGE + more)?;
        admit_at(alloc, &mut self.slots, &mut self.start, key)
    }

    /// Gives back the room for one `settle` of the key, where there is any. Nothing is kept of a key that has neither
    /// room nor a record.
    pub fn give_back(&mut self, key: Key)
        ensures { LessRoom self.old self.new key }
    {
        if self.room(key) > 0 {
            give_back_in(&mut self.slots, &mut self.start, key);
            self.notices.give_back(NAMES_OF_CHANGE);
        }
    }

    /// For how many changes of the key there is room.
    pub fn room(&self, key: Key) -> u64
        ensures { result ≡ room_at self.now key }
    {
        match self.slots.get(key) {
            None => 0,
            Some(slot) => slot.room(),
        }
    }

    /// What the key has.
    pub fn look(&self, key: Key) -> Look<'_>
        ensures { Shows (known_at self.now key) result }
    {
        match self.slots.get(key) {
            None => self.start.look(key),
            Some(slot) => slot.look(),
        }
    }

    fn last(&self, key: Key) -> Version
        ensures { result ≡ last_of (known_at self.now key) }
    {
        match self.slots.get(key) {
            None => self.start.last(key),
            Some(slot) => slot.last(),
        }
    }

    /// The number of the key's next change. A put finds none left exactly from last version 1,048,574 on. A
    /// delete is asked for only where a number is left, as there always is for a key with a value.
    pub fn next_version(&self, key: Key, delete: bool) -> Result<Version, Spent>
        requires { delete ≡ true → last_of (known_at self.now key) + 1 < 2 ^ 32 }
        ensures next { IfOk result (λ version. version ≡ last_of (known_at self.now key) + 1) }
        ensures left { OnOk result ((delete ≡ true)
            ⊎ (last_of (known_at self.now key) < LAST_PUT_VERSION)) }
        ensures last { IfErr result (λ spent. spent.last ≡ last_of (known_at self.now key)) }
        ensures spent { OnErr result ((delete ≡ false)
            × (LAST_PUT_VERSION ≤ last_of (known_at self.now key))) }
    {
        let last = self.last(key);
        if !delete && last >= LAST_PUT_VERSION {
            return Err(Spent { last });
        }
        Ok(last + 1)
    }

    /// Records a finished change whose entry stands in the log of `home`, and gives the block of the value
    /// before it. It takes no memory, as `admit` made room for it.
    pub fn settle(&mut self, entry: Entry, home: u32) -> Option<u64>
        requires room { 0 < room_at self.old entry.key }
        requires next { entry.version ≡ last_of (known_at self.old entry.key) + 1 }
        ensures settled { Changes self.old self.new entry.key
            (Some (settled (known_at self.old entry.key) entry.version entry.body home)) }
        ensures replaced { result ≡ block_of (known_at self.old entry.key) }
        ensures untold { all_untold self.new ≡ all_untold self.old + 1 }
        ensures room { room_at self.new entry.key + 1 ≡ room_at self.old entry.key }
        ensures others { (j : ℕ) → j ≢ entry.key → room_at self.new j ≡ room_at self.old j }
    {
        let Entry { key, version, body } = entry;
        let settled = settle_at(&mut self.slots, key, version, body, home);
        note_dead(&mut self.notices, key, settled.dead);
        self.notices.give_back(settled.spared);
        settled.replaced
    }

    /// The next dead entry that this home is to be told; none exactly where nothing is left to tell it.
    pub fn next_notice(&mut self, home: u32) -> Option<EntryName>
        ensures told { IfSome result (λ name. Tells self.old self.new home name) }
        ensures fewer { IfSome result (λ _. all_untold self.new + 1 ≡ all_untold self.old) }
        ensures none { IfNone result ((name : EntryName)
            → ¬ Awaits (known_at self.old name.key) home name.version) }
        ensures unchanged { IfNone result (self.new ≡ self.old) }
    {
        next_dead(&mut self.slots, &mut self.start, &mut self.notices, home)
    }

    /// Takes an entry out of those that stand: it is in no log any more.
    pub fn gone(&mut self, name: EntryName)
        ensures gone { Changes self.old self.new name.key
            (option_map (without name.version) (known_at self.old name.key)) }
        ensures untold { all_untold self.new ≤ all_untold self.old }
        ensures room { SameRoom self.old self.new }
    {
        let gone = gone_in(&mut self.slots, &mut self.start, name);
        note_dead(&mut self.notices, name.key, gone.dead);
        self.notices.give_back(gone.spared);
    }

    /// Whether the key has a record, is deleted, and has no standing entry.
    pub fn forgettable(&self, key: Key) -> bool
        ensures { result ≡ is_forgettable (known_at self.now key) }
    {
        match self.slots.get(key) {
            None => self.start.is_forgettable(key),
            Some(slot) => slot.is_forgettable(),
        }
    }

    /// Whether an entry of this name stands and is dead.
    pub fn is_dead(&self, name: EntryName) -> bool
        ensures { result ≡ is_dead_in (known_at self.now name.key) name.version }
    {
        match self.slots.get(name.key) {
            None => self.start.is_dead(name),
            Some(slot) => slot.is_dead(name.version),
        }
    }

    /// Takes the record of such a key out: its versions start at 1 again. Room that `admit` made stays.
    pub fn forget(&mut self, key: Key)
        requires { IsTrue (is_forgettable (known_at self.old key)) }
        ensures forgotten { Changes self.old self.new key None }
        ensures untold { all_untold self.new ≤ all_untold self.old }
        ensures room { SameRoom self.old self.new }
    {
        forget_in(&mut self.slots, &mut self.start, key);
    }

    /// The live keys with their versions, by rising key.
    pub fn live(&self, alloc: Global) -> Result<Vec<EntryName>, Memory>
        ensures rising { IfOk result (λ names. IsStrictlyIncreasing
            (map (λ n. n.key) names.items)) }
        ensures each { IfOk result (λ names. (k v : ℕ) → Contains names.items (name_with k v)
            ↔ (live_version (known_at self.now k) ≡ Some v)) }
    {
        live_in(alloc, &self.slots, &self.start)
    }
}
