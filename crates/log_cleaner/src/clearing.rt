// A chunk of the log is given up: what vanishes with it.
ghost use Rattle.std.specs.Prelude.{◌≡◌, ◌≢◌, ℕ, ◌+◌, ◌-◌, ◌==◌, ◌≤◌, ◌<◌, true, Some, None, OnOk, OnErr, is_some, [], ◌∷◌, ◌++◌, length, IfOk, vec_len, vec_capacity, if◌then◌else◌};
ghost use Rattle.pm_region.specs.State.{IsTelling, Faulted};
ghost use Rattle.core_log.specs.Log.{StandsIn, tail_of};
ghost use Rattle.core_log.specs.Walking.{entries_in};
ghost use Rattle.log_standing.specs.NameCounts.{is_told, count_of, times_in, copies_at, Changes};
ghost use Rattle.log_cleaner.specs.Dropping.{lowered, lone_in, Drops};
ghost use Rattle.log_cleaner.specs.Copying.{IsUpToDate};
ghost use Rattle.log_cleaner.specs.ImagesBeside.{AgreesIn, GivesUp};
ghost use Rattle.log_cleaner.specs.Clearing.{ClearingState, IsFresh, is_doomed, AreLone, AreNoted, IsGathered, IsReady, HasCleared, NotesNew};

use crate::types::{Cleared, Victim};
use core_log::CoreLog;
use fs_model::Memory;
use log_entry::EntryName;
use log_standing::Standing;
use pm_region::{Region, RegionFault};
use std::alloc::Global;
use std::marker::Model;

/// How many entries a chunk has.
pub(crate) fn entry_count<R: Region>(region: &R, log: &CoreLog, chunk: u32) -> u64
    requires stands { StandsIn (R.state region.now) log.now }
    requires has { is_some (tail_of log.now.chunks chunk) ≡ true }
    ensures { IsTelling (R.state region.now)
        → result ≡ length (entries_in (R.state region.now) log.now chunk) }
{
    let mut count = 0;
    let mut place = 0;
    while let Some(found) = log.peek(region, chunk, place) {
        count += 1;
        place = found.next;
    }
    count
}

// Appends a name to a list that has room, where it is to stand there.
fn push_if(names: &mut Vec<EntryName>, name: EntryName, yes: bool)
    requires { vec_len names.old < vec_capacity names.old }
    ensures items { names.new.items ≡ (if yes then names.old.items ++ name ∷ []
        else names.old.items) }
    ensures capacity { vec_capacity names.old ≤ vec_capacity names.new }
{
    if yes {
        names.push(name).unwrap();
    }
}

// Takes out a copy of a name, where it stands.
fn drop_one(standing: &mut Standing, name: EntryName)
    ensures lowered { Changes standing.old standing.new name.key name.version
        (lowered (copies_at standing.old name.key name.version)) }
    ensures count { length standing.new.entries
        + (if count_of standing.old name.key name.version == 1 then 1 else 0)
        ≤ length standing.old.entries }
    ensures room { standing.new.room ≡ standing.old.room }
    ensures floors { standing.new.floors ≡ standing.old.floors }
{
    if standing.copies(name) > 0 {
        let _ = standing.drop_copy(name);
    }
}

// The same for each name of a list that has each once.
fn drop_all(standing: &mut Standing, names: &[EntryName])
    requires { (k v : ℕ) → times_in names.now k v ≤ 1 }
    ensures drops { Drops standing.old standing.new names.now }
    ensures count { length standing.new.entries + lone_in standing.old names.now
        ≤ length standing.old.entries }
    ensures room { standing.new.room ≡ standing.old.room }
    ensures floors { standing.new.floors ≡ standing.old.floors }
{
    for name in names {
        drop_one(standing, *name);
    }
}

/// A chunk that is being given up: the names of its entries, each once, and those that vanish with it.
#[derive(Drop)]
pub struct Clearing {
    chunk: u32,
    // The names that were noted.
    seen: Standing,
    names: Vec<EntryName>,
    doomed: Vec<EntryName>,
}

impl Model for Clearing {
    ghost use Rattle.std.specs.Prelude.{vec_capacity};
    ghost use Rattle.log_cleaner.specs.Clearing.{ClearingState, IsClearing};

    ghost Value = { ClearingState };

    ghost view = { λ a. record {
      chunk = a.chunk;
      names = a.names.items;
      doomed = a.doomed.items;
      room = a.seen.room;
    } };

    ghost invariant = { λ a. IsClearing a.seen a.names.items a.doomed.items (vec_capacity a.names)
        (vec_capacity a.doomed) };
}

impl Clearing {
    /// Begins to give up a victim's chunk. It takes memory for the names of its entries, so that no later call
    /// takes any.
    pub fn begin<R: Region>(
        alloc: Global,
        region: &R,
        log: &CoreLog,
        victim: &Victim,
    ) -> Result<Clearing, Memory>
        requires stands { StandsIn (R.state region.now) log.now }
        requires has { is_some (tail_of log.now.chunks victim.now.chunk) ≡ true }
        ensures chunk { IfOk result (λ c. c.chunk ≡ victim.now.chunk) }
        ensures fresh { IfOk result IsFresh }
        ensures room { IfOk result (λ c. IsTelling (R.state region.now)
            → length (entries_in (R.state region.now) log.now victim.now.chunk) ≤ c.room) }
    {
        let count = entry_count(region, log, victim.chunk);
        let mut seen = Standing::open(alloc, &[])?;
        seen.reserve(count)?;
        let names = Vec::with_capacity(alloc, seen.room() as usize)?;
        let doomed = Vec::with_capacity(alloc, seen.room() as usize)?;
        Ok(Clearing {
            chunk: victim.chunk,
            seen,
            names,
            doomed,
        })
    }

    // Notes a name of the chunk, once.
    fn note(&mut self, standing: &Standing, name: EntryName)
        ensures chunk { self.new.chunk ≡ self.old.chunk }
        ensures again { 0 < times_in self.old.names name.key name.version → self.new ≡ self.old }
        ensures first { times_in self.old.names name.key name.version ≡ 0 → 0 < self.old.room
            → NotesNew standing.now self.old self.new name }
        ensures full { self.old.room ≡ 0 → self.new ≡ self.old }
    {
        if self.seen.copies(name) > 0 || self.seen.room() == 0 {
            return;
        }
        let doomed = standing.is_dead(name) && standing.copies(name) == 1;
        self.seen.add(name);
        push_if(&mut self.names, name, true);
        push_if(&mut self.doomed, name, doomed);
    }

    fn chunk(&self) -> u32
        ensures { result ≡ self.now.chunk }
    {
        self.chunk
    }

    // Notes the names of a chunk's entries.
    fn note_all<R: Region>(&mut self, region: &R, log: &CoreLog, standing: &Standing, chunk: u32)
        requires stands { StandsIn (R.state region.now) log.now }
        requires has { is_some (tail_of log.now.chunks chunk) ≡ true }
        requires fresh { IsFresh self.old }
        requires room { IsTelling (R.state region.now)
            → length (entries_in (R.state region.now) log.now chunk) ≤ self.old.room }
        ensures gathered { IsTelling (R.state region.now)
            → IsGathered standing.now (entries_in (R.state region.now) log.now chunk) self.new }
        ensures lone { AreLone standing.now self.new.doomed }
        ensures noted { AreNoted self.new }
        ensures few { length self.new.doomed ≤ self.old.room }
        ensures chunk { self.new.chunk ≡ self.old.chunk }
    {
        let mut place = 0;
        while let Some(found) = log.peek(region, chunk, place) {
            self.note(standing, found.name);
            place = found.next;
        }
    }

    /// Notes the names of the chunk's entries, and those of them that were told dead and stand in no other
    /// chunk. Nothing of the chunk is left to be copied.
    pub fn gather<R: Region>(&mut self, region: &R, log: &CoreLog, standing: &Standing)
        requires stands { StandsIn (R.state region.now) log.now }
        requires has { is_some (tail_of log.now.chunks self.old.chunk) ≡ true }
        requires fresh { IsFresh self.old }
        requires room { IsTelling (R.state region.now)
            → length (entries_in (R.state region.now) log.now self.old.chunk) ≤ self.old.room }
        ensures gathered { IsTelling (R.state region.now)
            → IsGathered standing.now (entries_in (R.state region.now) log.now self.old.chunk)
            self.new }
        // Whatever the region tells.
        ensures lone { AreLone standing.now self.new.doomed }
        ensures noted { AreNoted self.new }
        ensures few { length self.new.doomed ≤ self.old.room }
        ensures chunk { self.new.chunk ≡ self.old.chunk }
    {
        let chunk = self.chunk();
        self.note_all(region, log, standing, chunk);
    }

    /// For how many names of the chunk there is room.
    pub fn room(&self) -> u64
        ensures { result ≡ self.now.room }
    {
        self.seen.room()
    }

    /// The names that vanish with the chunk.
    pub fn doomed_of(&self) -> &[EntryName]
        ensures { result.now ≡ self.now.doomed }
    {
        self.doomed.as_slice()
    }

    /// Makes the chunk Free, by one fence. The names of its entries have one copy less each. At every moment an
    /// image of the part has the entries from before, but perhaps those that vanish; and no other entry.
    pub fn clear<R: Region>(
        self,
        region: &mut R,
        log: &mut CoreLog,
        standing: &mut Standing,
    ) -> Result<Cleared, RegionFault>
        requires stands { StandsIn (R.state region.old) log.old }
        requires has { is_some (tail_of log.old.chunks self.chunk) ≡ true }
        requires closed { log.old.opened ≢ Some self.chunk }
        requires ready { IsTelling (R.state region.old)
            → IsReady (R.state region.old) log.old standing.old self }
        requires standing { IsTelling (R.state region.old) → IsUpToDate (R.state region.old) log.old
            standing.old }
        requires agrees { IsTelling (R.state region.old) → AgreesIn (R.state region.old) log.old }
        ensures moments { GivesUp (R.state region.old) (R.state region.new) log.old self.chunk
            self.doomed }
        ensures ok { OnOk result (HasCleared (R.state region.old) (R.state region.new) log.old
            log.new
            standing.old standing.new self) }
        ensures kept { OnErr result ((log.new ≡ log.old) × (standing.new ≡ standing.old)) }
        ensures read { OnOk result (standing.new.settled ≡ None) }
        ensures counted { OnOk result (standing.new.tally ≡ None) }
        ensures count { OnOk result (length standing.new.entries
            + lone_in standing.old self.names ≤ length standing.old.entries) }
        ensures room { OnOk result (standing.new.room ≡ standing.old.room) }
        ensures chunk { IfOk result (λ cleared. cleared.chunk ≡ self.chunk) }
        ensures gone { IfOk result (λ cleared. cleared.gone.items ≡ self.doomed) }
        ensures cause { OnErr result (Faulted (R.state region.old) (R.state region.new)) }
    {
        let Clearing {
            chunk,
            seen: _,
            names,
            doomed,
        } = self;
        log.retire(region, chunk)?;
        drop_all(standing, &names);
        standing.forget(chunk);
        Ok(Cleared {
            chunk,
            gone: doomed,
        })
    }
}
