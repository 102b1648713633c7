// What the index keeps of one key.
ghost use Rattle.std.specs.Prelude.{◌≡◌, ◌+◌, ◌-◌, ◌<◌, ◌≤◌, ◌∷◌, ℕ, Some, None, [], true, false, option_map, length, IfOk, IfSome, OnOk, OnErr, IsTrue};
ghost use Rattle.std.specs.Bool.{Decides};
ghost use Rattle.std.specs.List.{AllByRecursion};
ghost use Rattle.log_entry.specs.declared.entry.EntryName.{EntryName};
ghost use Rattle.core_index.specs.Marks.{kept};
ghost use Rattle.core_index.specs.Noted.{Noted, NotedIfDead, count_dead_in, deaths_of, name_with};
ghost use Rattle.core_index.specs.Records.{Awaits, KeyRecord, list_of, dies_of, is_dead_in, is_deleted, standing_of, Shows, settled, opened_with, told_in, without, last_of, block_of, is_forgettable, live_version};
ghost use Rattle.core_index.specs.Pairs.{in_pair};
ghost use Rattle.core_index.specs.Starts.{joined, OfLast};
ghost use Rattle.core_index.specs.Tombs.{left_of, standing_left};
ghost use Rattle.core_index.specs.Slots.{alive_at, change_in, mortal, lone_deaths, count_dead, dead_by, died, is_bare, OnlyDead, TellsOne};

use crate::dead_entries::{alive_in, is_dead};
use crate::death_notices::DeathNotices;
use crate::entries::Entries;
use crate::tombstones::{home_of, version_of};
use crate::types::{
    ChangeEffect, Fate, GoneEffect, Head, Look, Marked, NAMES_OF_CHANGE, Pair, Standee,
    StandingEntry, Tombstone,
};
use fs_model::{Key, Memory, Version};
use log_entry::{Body, EntryName};
use std::alloc::Global;
use std::marker::Model;

/// A key's record, where it has one, and room for so many changes to come. It takes 56 bytes. No call but `of` and
/// `reserve` takes memory.
#[derive(Drop)]
pub struct KeySlot {
    head: Head,
    standing: Entries,
}

impl Model for KeySlot {
    ghost use Rattle.core_index.specs.Slots.{Place, known_with, change_in, IsSlot};

    ghost Value = { Place };

    ghost view = { λ a. record {
      known = known_with (change_in a.head) a.standing.items;
      room = a.standing.room;
    } };

    ghost invariant = { λ a. IsSlot (change_in a.head) a.standing };
}

impl KeySlot {
    /// No record, and room for one change.
    pub fn with_room() -> KeySlot
        ensures { result ≡ record { known = None; room = 1 } }
    {
        KeySlot {
            head: Head::Absent,
            standing: Entries::of_one(None),
        }
    }

    /// A record at the start, with no room.
    pub fn of(
        alloc: Global,
        version: Version,
        body: Body,
        standing: &[Standee],
    ) -> Result<KeySlot, Memory>
        requires { AllByRecursion (λ s. s.version ≤ version) standing.now }
        ensures { IfOk result (λ slot. slot ≡ record {
          known = Some (opened_with version body standing.now);
          room = 0;
        }) }
    {
        Ok(KeySlot {
            standing: Entries::of(alloc, standing, version)?,
            head: head_of(version, body),
        })
    }

    /// A record of which one entry stands at most, and room for one change.
    pub fn of_one(version: Version, body: Body, only: Option<StandingEntry>) -> KeySlot
        requires { AllByRecursion (λ s. s.version ≤ version) (list_of only) }
        ensures { result ≡ record {
          known = Some (record { version = version; body = body; standing = list_of only });
          room = 1;
        } }
    {
        KeySlot {
            head: head_of(version, body),
            standing: Entries::of_one(only),
        }
    }

    /// What there is of a key that was deleted before the start, and room for one change.
    pub fn of_tombstone(tombstone: &Tombstone) -> KeySlot
        ensures { result ≡ record { known = left_of tombstone.now; room = 1 } }
    {
        match tombstone.fate {
            Fate::Moved => KeySlot::with_room(),
            _ => KeySlot::of_one(
                version_of(tombstone),
                Body::Tombstone,
                standing_of(tombstone),
            ),
        }
    }

    /// The same with an older entry beside the one that stands at most, and room for one change.
    pub fn beside(self, alloc: Global, older: StandingEntry) -> Result<KeySlot, Memory>
        requires room { self.room ≡ 1 }
        requires lone { OfLast self.known }
        requires below { older.version < last_of self.known }
        ensures { IfOk result (λ slot. slot ≡ record {
          known = option_map (joined (older ∷ [])) self.known;
          room = 1;
        }) }
    {
        let only = self.standing.find(self.last());
        let KeySlot { head, .. } = self;
        Ok(KeySlot {
            standing: Entries::of_two(alloc, older, only)?,
            head,
        })
    }

    /// Makes room for one more change.
    pub fn reserve(&mut self, alloc: Global) -> Result<(), Memory>
        ensures ok { OnOk result (self.new ≡ record {
          known = self.old.known;
          room = self.old.room + 1;
        }) }
        ensures err { OnErr result (self.new ≡ self.old) }
    {
        self.standing.reserve(alloc)
    }

    /// The last version, or 0 where there is no record.
    pub fn last(&self) -> Version
        ensures { result ≡ last_of self.now.known }
    {
        match &self.head {
            Head::Absent => 0,
            Head::Block { version, .. } => *version,
            Head::Embedded { version, .. } => *version,
            Head::Deleted { version } => *version,
        }
    }

    // Whether the last change was a delete.
    fn is_deleted(&self) -> bool
        ensures { result ≡ is_deleted self.now.known }
    {
        matches!(&self.head, Head::Deleted { .. })
    }

    // The block of the value.
    fn block(&self) -> Option<u64>
        ensures { result ≡ block_of self.now.known }
    {
        match &self.head {
            Head::Block { pointer, .. } => Some(*pointer),
            _ => None,
        }
    }

    // Whether a version that stands is dead.
    fn dies(&self, version: Version) -> bool
        ensures { result ≡ dies_of self.now.known version }
    {
        is_dead(self.last(), self.is_deleted(), &self.standing, version)
    }

    /// Whether a version stands and is dead.
    pub fn is_dead(&self, version: Version) -> bool
        ensures { result ≡ is_dead_in self.now.known version }
    {
        self.standing.find(version).is_some() && self.dies(version)
    }

    /// Whether the key is deleted and nothing of it stands.
    pub fn is_forgettable(&self) -> bool
        ensures { result ≡ is_forgettable self.now.known }
    {
        self.is_deleted() && self.standing.len() == 0
    }

    // The home of the last version's entry, where it stands and is not dead.
    fn alive(&self) -> Option<u32>
        ensures { result ≡ alive_at self.now.known }
    {
        alive_in(self.last(), self.is_deleted(), &self.standing)
    }

    // Whether an entry may die without a change.
    fn lone_deaths(&self) -> u64
        ensures { result ≡ lone_deaths self.now.known }
    {
        match (self.is_deleted(), self.alive()) {
            (true, Some(_)) => 1,
            _ => 0,
        }
    }

    /// Records a finished change.
    pub fn settle(&mut self, version: Version, body: Body, home: u32) -> ChangeEffect
        requires room { 0 < self.old.room }
        requires next { version ≡ last_of self.old.known + 1 }
        ensures settled { self.new ≡ record {
          known = Some
              (settled self.old.known version body home);
          room = self.old.room - 1;
        } }
        ensures replaced { result.replaced ≡ block_of self.old.known }
        ensures dead { OnlyDead self.old.known self.new.known result.dead }
        ensures mortal { mortal self.new + count_dead result.dead + result.spared
            ≡ mortal self.old }
    {
        let replaced = self.block();
        let last = self.last();
        let before = self.alive();
        let lone = self.lone_deaths();
        self.change(version, body, home);
        let dead = dead_by(Standee { version, home }, last, before, self.alive());
        let needed = self.lone_deaths() + count_dead(dead);
        ChangeEffect {
            replaced,
            dead,
            spared: NAMES_OF_CHANGE + lone - needed,
        }
    }

    // The same of the record alone.
    fn change(&mut self, version: Version, body: Body, home: u32)
        requires room { 0 < self.old.room }
        requires next { version ≡ last_of self.old.known + 1 }
        ensures settled { self.new ≡ record {
          known = Some
              (settled self.old.known version body home);
          room = self.old.room - 1;
        } }
        ensures dead { OnlyDead self.old.known self.new.known (dead_by version home
            (last_of self.old.known) (alive_at self.old.known) (alive_at self.new.known)) }
    {
        self.standing.push(version, home);
        self.head = head_of(version, body);
    }

    // Whether an entry is dead and waits to be told to its home.
    fn awaits(&self, version: Version, home: u32) -> bool
        ensures { Decides result (Awaits self.now.known home version) }
    {
        match self.standing.find(version) {
            None => false,
            Some(entry) => entry.home == home && !entry.told && self.dies(version),
        }
    }

    /// Tells a home of a dead entry, where it waits to be told.
    pub fn tell(&mut self, version: Version, home: u32) -> bool
        ensures told { result ≡ true → TellsOne self.old self.new home version }
        ensures none { result ≡ false → ¬ Awaits self.old.known home version }
        ensures unchanged { result ≡ false → self.new ≡ self.old }
        ensures mortal { mortal self.new ≤ mortal self.old }
    {
        if !self.awaits(version, home) {
            return false;
        }
        self.standing.tell(version);
        true
    }

    /// Takes an entry out of those that stand. Gives the entry that died by it.
    pub fn gone(&mut self, version: Version) -> GoneEffect
        ensures gone { self.new ≡ record {
          known = option_map (without version) self.old.known;
          room = self.old.room;
        } }
        ensures dead { OnlyDead self.old.known self.new.known result.dead }
        ensures mortal { mortal self.new + count_dead result.dead + result.spared
            ≡ mortal self.old }
    {
        let last = self.last();
        let before = self.alive();
        let lone = self.lone_deaths();
        self.standing.take_out(version);
        let dead = died(version, last, before, self.alive());
        let needed = self.lone_deaths() + count_dead(dead);
        GoneEffect {
            dead,
            spared: lone - needed,
        }
    }

    /// Notes each entry that is dead and was not told.
    pub fn note_dead(&self, key: Key, notices: &mut DeathNotices)
        requires { deaths_of self.now.known ≤ notices.old.spare }
        ensures noted { (v h : ℕ) → Awaits self.now.known h v
            → Noted notices.new h (name_with key v) }
        ensures kept { (h : ℕ) (n : EntryName) → Noted notices.old h n → Noted notices.new h n }
        ensures spare { notices.old.spare ≤ notices.new.spare + deaths_of self.now.known }
    {
        let (pair, marks) = self.standing.parts();
        self.note(pair.first, key, notices);
        self.note(pair.second, key, notices);
        self.note_marks(marks, key, notices);
    }

    /// Takes out the record of a key that is deleted and of which nothing stands.
    pub fn forget(&mut self)
        requires { IsTrue (is_forgettable self.old.known) }
        ensures { self.new ≡ record { known = None; room = self.old.room } }
    {
        self.head = Head::Absent;
        self.standing.clear();
    }

    /// For how many entries a name is noted, or may have to be without a change to come.
    pub fn names(&self) -> u64
        ensures { deaths_of self.now.known + lone_deaths self.now.known ≤ result }
    {
        // The entry of a value that is alive dies by a change to come alone.
        match (self.alive(), self.live_version()) {
            (Some(_), Some(_)) => self.len() - 1,
            _ => self.len(),
        }
    }

    // How many entries stand.
    fn len(&self) -> u64
        ensures { result ≡ length (standing_of self.now.known) }
    {
        self.standing.len()
    }

    /// Gives back the room for one change.
    pub fn give_back(&mut self)
        requires { 0 < self.old.room }
        ensures { self.new ≡ record { known = self.old.known; room = self.old.room - 1 } }
    {
        self.standing.give_back();
    }

    /// Whether there is neither a record nor room.
    pub fn is_bare(&self) -> bool
        ensures { result ≡ is_bare self.now }
    {
        self.room() == 0 && matches!(&self.head, Head::Absent)
    }

    /// How many changes there is room for.
    pub fn room(&self) -> u64
        ensures { result ≡ self.now.room }
    {
        u64::from(self.standing.room())
    }

    /// The last version, where the key has a value.
    pub fn live_version(&self) -> Option<Version>
        ensures { result ≡ live_version self.now.known }
    {
        match &self.head {
            Head::Block { version, .. } => Some(*version),
            Head::Embedded { version, .. } => Some(*version),
            _ => None,
        }
    }

    /// What the key has.
    pub fn look(&self) -> Look<'_>
        ensures { Shows self.now.known result }
    {
        match &self.head {
            Head::Absent => Look::Unknown,
            Head::Deleted { .. } => Look::Deleted,
            Head::Block { pointer, .. } => Look::Block(*pointer),
            Head::Embedded { value, .. } => Look::Embedded(value.bytes()),
        }
    }

    // Notes an entry, where it is dead.
    fn note(&self, entry: Option<StandingEntry>, key: Key, notices: &mut DeathNotices)
        requires { count_dead_in self.now.known (list_of entry) ≤ notices.old.spare }
        ensures noted { AllByRecursion (NotedIfDead notices.new key self.now.known)
            (list_of entry) }
        ensures kept { (h : ℕ) (n : EntryName) → Noted notices.old h n → Noted notices.new h n }
        ensures spare { notices.old.spare ≤ notices.new.spare
            + count_dead_in self.now.known (list_of entry) }
    {
        let Some(entry) = entry else {
            return;
        };
        if self.dies(entry.version) {
            let name = EntryName {
                key,
                version: entry.version,
            };
            notices.push(entry.home, name);
        }
    }

    // Notes each of these entries that is dead.
    fn note_marks(&self, marks: &[Marked], key: Key, notices: &mut DeathNotices)
        requires { count_dead_in self.now.known (kept marks.now) ≤ notices.old.spare }
        ensures noted { AllByRecursion (NotedIfDead notices.new key self.now.known)
            (kept marks.now) }
        ensures kept { (h : ℕ) (n : EntryName) → Noted notices.old h n → Noted notices.new h n }
        ensures spare { notices.old.spare ≤ notices.new.spare
            + count_dead_in self.now.known (kept marks.now) }
    {
        for mark in marks {
            self.note(entry_of(mark), key, notices);
        }
    }
}

// The entry of a place, where it stands.
fn entry_of(mark: &Marked) -> Option<StandingEntry>
    ensures { list_of result ≡ kept (mark.now ∷ []) }
{
    if mark.gone { None } else { Some(mark.entry) }
}

// The last change with what it left.
fn head_of(version: Version, body: Body) -> Head
    ensures { change_in result ≡ Some (record { version = version; body = body }) }
{
    match body {
        Body::Tombstone => Head::Deleted { version },
        Body::Pointer(pointer) => Head::Block { version, pointer },
        Body::Embedded(value) => Head::Embedded { version, value },
    }
}

// The entry of such a key, where it stands.
fn standing_of(tombstone: &Tombstone) -> Option<StandingEntry>
    ensures { result ≡ standing_left tombstone.now }
{
    let told = match tombstone.fate {
        Fate::Untold => false,
        Fate::Told => true,
        _ => return None,
    };
    Some(StandingEntry {
        version: version_of(tombstone),
        home: home_of(tombstone),
        told,
    })
}

// What dies by a finished change: its own entry at once, or the one that was alive.
fn dead_by(own: Standee, last: Version, before: Option<u32>, after: Option<u32>) -> Option<Standee>
    ensures { result ≡ dead_by own.version own.home last before after }
{
    match (before, after) {
        (_, None) => Some(own),
        (None, Some(_)) => None,
        (Some(home), Some(_)) => Some(Standee {
            version: last,
            home,
        }),
    }
}

fn count_dead(dead: Option<Standee>) -> u64
    ensures { result ≡ count_dead dead }
{
    match dead {
        None => 0,
        Some(_) => 1,
    }
}

// The entry of the last version, where it was alive and is no more, and is not the one that went.
fn died(version: Version, last: Version, before: Option<u32>, after: Option<u32>) -> Option<Standee>
    ensures { result ≡ died version last before after }
{
    match (before, after) {
        (Some(home), None) if version != last => Some(Standee {
            version: last,
            home,
        }),
        _ => None,
    }
}
