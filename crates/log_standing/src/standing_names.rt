// Which entries stand in the own log.
ghost use Rattle.std.specs.Prelude.{◌≡◌, ◌⊎◌, ℕ, ◌+◌, ◌-◌, ◌^◌, ◌<◌, ◌≤◌, ◌==◌, nat_eq, true, false, Some, None, option_map, is_some, IsSome, IsOk, OnOk, OnErr, IfOk, length, if◌then◌else◌};
ghost use Rattle.log_standing.specs.NameCounts.{name_eq, copies_at, count_of, is_told, count_in, wants, living, one_more, one_fewer, killed, times_in, tally_without, found_at, floor_at, LowersFloors, Changes, SameCopies};
ghost use Rattle.log_standing.specs.NameItems.{copies_among, AreSmall};

use crate::floors::Floors;
use crate::logged_names::{LoggedNames, one_more};
use crate::name_item::{CHUNK_NUMBERS, MOST_IN_ITEM};
use crate::name_table::NameTable;
use crate::tally::Tally;
use crate::types::{Amount, Copies, Settled, Spot};
use fs_model::Memory;
use log_entry::EntryName;
use std::alloc::Global;
use std::marker::Model;

/// Which entries stand in a core's log, by their names: each in how many chunks, and whether it was told dead.
/// Equal entries in one chunk are one copy. A cleaning asks it what is still needed.
#[derive(Drop)]
pub struct Standing {
    names: LoggedNames,
    // No name has more copies.
    most: u64,
    // How many places are reserved.
    room: u64,
    settled: Option<Settled>,
    // What is left of the chunk that is copied.
    tally: Option<Tally>,
    // How much of each chunk is still to be copied at least.
    floors: Floors,
}

impl Model for Standing {
    ghost use Rattle.log_standing.specs.NameCounts.{StandingState, IsStanding};

    ghost Value = { StandingState };

    ghost view = { λ a. record {
      entries = a.names.entries;
      room = a.room;
      settled = a.settled;
      tally = a.tally;
      floors = a.floors;
    } };

    ghost invariant = { λ a. IsStanding a.names.entries a.names.spare a.most a.room };
}

impl Standing {
    // The names of a table.
    pub(crate) fn of(alloc: Global, table: NameTable) -> Standing
        requires { AreSmall table }
        ensures copies { (k v : ℕ) → copies_at result k v ≡ copies_among table k v }
        ensures settled { result.settled ≡ None }
        ensures floors { (j : ℕ) → floor_at result j ≡ None }
    {
        Standing {
            names: LoggedNames::of(alloc, table),
            most: MOST_IN_ITEM,
            room: 0,
            settled: None,
            tally: None,
            floors: Floors::none(),
        }
    }

    /// These names, each in as many copies as it stands in the list. None was told dead, and no place is reserved.
    pub fn open(alloc: Global, names: &[EntryName]) -> Result<Standing, Memory>
        ensures names { IfOk result (λ s. (k v : ℕ)
            → copies_at s k v ≡ living (times_in names.now k v)) }
        ensures settled { IfOk result (λ s. s.settled ≡ None) }
    {
        let mut standing = Standing::of(alloc, NameTable::new(alloc));
        for name in names {
            standing.reserve(1)?;
            standing.add(*name);
        }
        Ok(standing)
    }

    /// Makes the number of reserved places at least this one. Each name that stands has a copy.
    pub fn reserve(&mut self, more: u64) -> Result<(), Memory>
        ensures copies { SameCopies self.old self.new }
        ensures count { length self.new.entries ≡ length self.old.entries }
        ensures standing { (k v : ℕ) → is_some (copies_at self.new k v) ≡ true
            → 0 < count_of self.new k v }
        ensures ok { OnOk result (more ≤ self.new.room) }
        ensures room { self.old.room ≤ self.new.room }
        ensures err { OnErr result (self.new.room ≡ self.old.room) }
        ensures settled { self.new.settled ≡ self.old.settled }
        ensures tally { self.new.tally ≡ self.old.tally }
        ensures floors { self.new.floors ≡ self.old.floors }
    {
        if more <= self.room {
            return Ok(());
        }
        if self.most.checked_add(more).is_none() {
            return Err(Memory);
        }
        self.names.reserve(more)?;
        self.room = more;
        Ok(())
    }

    /// One copy more of a name. It takes a reserved place, and no memory.
    pub fn add(&mut self, name: EntryName)
        requires { 0 < self.old.room }
        ensures added { Changes self.old self.new name.key name.version
            (Some (one_more (copies_at self.old name.key name.version))) }
        ensures count { length self.new.entries ≤ length self.old.entries + 1 }
        ensures room { self.new.room + 1 ≡ self.old.room }
        ensures settled { self.new.settled ≡ self.old.settled }
        ensures tally { self.new.tally ≡ self.old.tally }
        ensures floors { self.new.floors ≡ self.old.floors }
    {
        self.names.add(name);
        self.most += 1;
        self.room -= 1;
    }

    // Counts a name no more among what is left to be copied, where it is wanted. Gives what it has.
    fn want_no_more(&mut self, name: EntryName) -> Option<Copies>
        ensures copies { result ≡ copies_at self.old name.key name.version }
        ensures tally { self.new ≡ record self.old {
          tally = tally_without self.old name.key name.version;
          floors = self.new.floors;
        } }
        ensures floors { LowersFloors self.old self.new name.key name.version }
    {
        let copies = self.names.get(name)?;
        if copies.count != 1 || copies.dead {
            return Some(copies);
        }
        self.floors.lower(copies.spot);
        if let Some(tally) = &mut self.tally {
            tally.lower(name);
        }
        Some(copies)
    }

    /// Notes that a name was told dead. One that does not stand is passed over.
    pub fn kill(&mut self, name: EntryName)
        ensures killed { Changes self.old self.new name.key name.version
            (option_map killed (copies_at self.old name.key name.version)) }
        ensures count { length self.new.entries ≡ length self.old.entries }
        ensures room { self.new.room ≡ self.old.room }
        ensures settled { self.new.settled ≡ self.old.settled }
        ensures tally { self.new.tally ≡ tally_without self.old name.key name.version }
        ensures floors { LowersFloors self.old self.new name.key name.version }
    {
        if let Some(copies) = self.want_no_more(name) {
            self.names.set(
                name,
                Copies {
                    dead: true,
                    ..copies
                },
            );
        }
    }

    /// Whether a name that stands was told dead.
    pub fn is_dead(&self, name: EntryName) -> bool
        ensures { result ≡ is_told self.now name.key name.version }
    {
        match self.names.get(name) {
            Some(copies) => copies.dead,
            None => false,
        }
    }

    /// In how many copies a name stands.
    pub fn copies(&self, name: EntryName) -> u64
        ensures { result ≡ count_of self.now name.key name.version }
    {
        match self.names.get(name) {
            Some(copies) => copies.count,
            None => 0,
        }
    }

    /// Whether a name was not told dead and stands in one chunk alone: such an entry is to be copied before
    /// its chunk is cleared.
    pub fn wants(&self, name: EntryName) -> bool
        ensures { result ≡ wants self.now name.key name.version }
    {
        match self.names.get(name) {
            Some(copies) => copies.count == 1 && !copies.dead,
            None => false,
        }
    }

    /// How many places are reserved.
    pub fn room(&self) -> u64
        ensures { result ≡ self.now.room }
    {
        self.room
    }

    /// Up to where a cleaning has read a chunk.
    pub fn settled(&self) -> Option<Settled>
        ensures { result ≡ self.now.settled }
    {
        self.settled
    }

    /// Notes up to where a cleaning has read a chunk: no entry before that place is still to be copied.
    pub fn settle(&mut self, settled: Option<Settled>)
        ensures copies { SameCopies self.old self.new }
        ensures count { self.new.entries ≡ self.old.entries }
        ensures room { self.new.room ≡ self.old.room }
        ensures settled { self.new.settled ≡ settled }
        ensures tally { self.new.tally ≡ self.old.tally }
        ensures floors { self.new.floors ≡ self.old.floors }
    {
        self.settled = settled;
    }

    /// Forgets what was noted for the cleaning of a chunk: how far it has read, and what is left.
    pub fn forget(&mut self, chunk: u32)
        ensures copies { SameCopies self.old self.new }
        ensures count { self.new.entries ≡ self.old.entries }
        ensures room { self.new.room ≡ self.old.room }
        ensures settled { self.new.settled ≡ None }
        ensures tally { self.new.tally ≡ None }
        ensures floors { (j : ℕ) → floor_at self.new j ≡ (if chunk == j then None
            else floor_at self.old j) }
    {
        self.settled = None;
        self.tally = None;
        self.floors.forget(chunk);
    }

    /// Counts what is left of a chunk from now on; of none where there is no tally.
    pub fn count(&mut self, tally: Option<Tally>)
        ensures { self.new ≡ record self.old { tally = tally } }
    {
        self.tally = tally;
    }

    /// What is left of the chunk that is counted.
    pub fn left(&self) -> Option<Amount>
        ensures { result ≡ option_map (λ t. t.left) self.now.tally }
    {
        match &self.tally {
            Some(tally) => Some(tally.left()),
            None => None,
        }
    }

    /// What a name has; none where it does not stand.
    pub fn find(&self, name: EntryName) -> Option<Copies>
        ensures { result ≡ copies_at self.now name.key name.version }
    {
        self.names.get(name)
    }

    /// Notes where a search found the entry of a name that stands.
    pub fn note_spot(&mut self, name: EntryName, spot: Spot)
        ensures noted { Changes self.old self.new name.key name.version
            (option_map (found_at spot) (copies_at self.old name.key name.version)) }
        ensures count { length self.new.entries ≡ length self.old.entries }
        ensures rest { self.new ≡ record self.old { entries = self.new.entries } }
    {
        if let Some(copies) = self.names.get(name) {
            self.names.set(name, Copies { spot, ..copies });
        }
    }

    /// How much of a chunk is still to be copied at least; none where no search has counted it.
    pub fn floor(&self, chunk: u32) -> Option<Amount>
        ensures { result ≡ floor_at self.now chunk }
    {
        self.floors.get(chunk)
    }

    /// Notes what a search has counted of a chunk. It falls with each name that was found there, once that is wanted no
    /// more.
    pub fn note_floor(&mut self, chunk: u32, amount: Option<Amount>)
        requires { chunk < CHUNK_NUMBERS }
        ensures rest { self.new ≡ record self.old { floors = self.new.floors } }
        ensures floors { (j : ℕ) → floor_at self.new j ≡ (if chunk == j then amount
            else floor_at self.old j) }
    {
        self.floors.set(chunk, amount);
    }

    /// A second copy of a name that has one. It takes no place.
    pub fn add_second(&mut self, name: EntryName)
        requires { count_of self.old name.key name.version ≡ 1 }
        ensures added { Changes self.old self.new name.key name.version
            (Some (one_more (copies_at self.old name.key name.version))) }
        ensures count { length self.new.entries ≡ length self.old.entries }
        ensures room { self.new.room ≡ self.old.room }
        ensures settled { self.new.settled ≡ self.old.settled }
        ensures tally { self.new.tally ≡ tally_without self.old name.key name.version }
        ensures floors { LowersFloors self.old self.new name.key name.version }
    {
        let copies = one_more(self.want_no_more(name));
        self.names.set(name, copies);
    }

    /// Takes out a copy of a name that stands, and says whether it was the last one. What was told of a name goes
    /// with its last copy. Where another copy is left, it may have to be copied: so no chunk is settled any more.
    pub fn drop_copy(&mut self, name: EntryName) -> bool
        requires { 0 < count_of self.old name.key name.version }
        ensures last { result ≡ (count_of self.old name.key name.version == 1) }
        ensures one { result ≡ true → Changes self.old self.new name.key name.version None }
        ensures more { result ≡ false → Changes self.old self.new name.key name.version
            (option_map one_fewer (copies_at self.old name.key name.version)) }
        ensures count { length self.new.entries + (if result then 1 else 0)
            ≡ length self.old.entries }
        ensures room { self.new.room ≡ self.old.room }
        ensures settled { self.new.settled ≡ (if result then self.old.settled else None) }
        ensures floors { self.new.floors ≡ self.old.floors }
    {
        let Some(copies) = self.names.get(name) else {
            return false;
        };
        if copies.count == 1 {
            self.names.take(name);
            return true;
        }
        self.names.set(
            name,
            Copies {
                count: copies.count - 1,
                ..copies
            },
        );
        self.settled = None;
        false
    }
}
