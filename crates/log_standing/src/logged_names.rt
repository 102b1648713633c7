// The names of a log: those that were found at the start in a sorted table, and later ones in a map.
ghost use Rattle.std.specs.Prelude.{◌≡◌, ℕ, ◌+◌, ◌^◌, ◌<◌, ◌≤◌, max, Some, None, IsSome, OnOk, length, if◌then◌else◌};
ghost use Rattle.std.specs.HashMap.{get, spare};
ghost use Rattle.log_standing.specs.NameCounts.{name_eq, count_in, one_more};
ghost use Rattle.log_standing.specs.NameItems.{copies_among, one_of, Recounts, Writes};

use crate::name_table::NameTable;
use crate::types::{Copies, NOWHERE};
use fs_model::{Key, Memory, Version};
use log_entry::EntryName;
use std::alloc::Global;
use std::collections::HashMap;
use std::marker::Model;

/// The names that stand: those of a table, which was made at the start, and those that came later, in a map. A name of
/// the table that comes back stands there again, so none is in both.
#[derive(Drop)]
pub struct LoggedNames {
    table: NameTable,
    later: HashMap<(Key, Version), Copies>,
}

impl Model for LoggedNames {
    ghost use Rattle.std.specs.HashMap.{spare};
    ghost use Rattle.std.specs.Prelude.{◌++◌};
    ghost use Rattle.log_standing.specs.TwoParts.{NamesState, AreApart};

    ghost Value = { NamesState };

    ghost view = { λ a. record { entries = a.table ++ a.later.entries; spare = spare a.later } };

    ghost invariant = { λ a. AreApart a.table a.later.entries };
}

/// One copy more.
pub fn one_more(copies: Option<Copies>) -> Copies
    requires { count_in copies + 1 < 2 ^ 64 }
    ensures { result ≡ one_more copies }
{
    match copies {
        Some(copies) => Copies {
            count: copies.count + 1,
            ..copies
        },
        None => Copies {
            count: 1,
            dead: false,
            spot: NOWHERE,
        },
    }
}

// What a name of the map has.
fn copies_in(names: &HashMap<(Key, Version), Copies>, name: EntryName) -> Option<Copies>
    ensures { result ≡ get name_eq names.now (name.key, name.version) }
{
    names.get(&(name.key, name.version)).copied()
}

// Writes what a name of the map has.
fn set_in(names: &mut HashMap<(Key, Version), Copies>, name: EntryName, copies: Copies)
    ensures set { IsSome (get name_eq names.old (name.key, name.version)) → (q : ℕ × ℕ)
        → get name_eq names.new q ≡ (if name_eq (name.key, name.version) q then Some copies
        else get name_eq names.old q) }
    ensures count { length names.new.entries ≡ length names.old.entries }
    ensures spare { spare names.new ≡ spare names.old }
{
    if let Some(place) = names.get_mut(&(name.key, name.version)) {
        *place = copies;
    }
}

// Enters a name into the map. There is a place for it.
fn put_in(names: &mut HashMap<(Key, Version), Copies>, name: EntryName, copies: Copies)
    requires { 0 < spare names.old }
    ensures put { (q : ℕ × ℕ) → get name_eq names.new q ≡ (if name_eq (name.key, name.version) q
        then Some copies else get name_eq names.old q) }
    ensures count { length names.new.entries
        + one_of (get name_eq names.old (name.key, name.version)) ≡ length names.old.entries + 1 }
    ensures spare { spare names.old ≤ spare names.new + 1 }
{
    let put: Result<_, _> = names.insert((name.key, name.version), copies);
    let _ = put.unwrap();
}

// One copy more of a name of the map, in which there is a place for it. A name rarely stands there already.
fn add_in(names: &mut HashMap<(Key, Version), Copies>, name: EntryName)
    requires room { 0 < spare names.old }
    requires fits { count_in (get name_eq names.old (name.key, name.version)) + 1 < 2 ^ 64 }
    ensures added { (q : ℕ × ℕ) → get name_eq names.new q ≡ (if name_eq (name.key, name.version) q
        then Some (one_more (get name_eq names.old (name.key, name.version)))
        else get name_eq names.old q) }
    ensures count { length names.new.entries
        + one_of (get name_eq names.old (name.key, name.version)) ≡ length names.old.entries + 1 }
    ensures spare { spare names.old ≤ spare names.new + 1 }
{
    let put: Result<_, _> = names.insert((name.key, name.version), one_more(None));
    if let Some(copies) = put.unwrap() {
        set_in(names, name, one_more(Some(copies)));
    }
}

// Takes a name out of the map.
fn take_in(names: &mut HashMap<(Key, Version), Copies>, name: EntryName)
    ensures taken { (q : ℕ × ℕ) → get name_eq names.new q ≡ (if name_eq (name.key, name.version) q
        then None else get name_eq names.old q) }
    ensures count { length names.new.entries
        + one_of (get name_eq names.old (name.key, name.version)) ≡ length names.old.entries }
    ensures spare { spare names.old ≤ spare names.new }
{
    let _ = names.remove(&(name.key, name.version));
}

impl LoggedNames {
    /// The names of a table.
    pub fn of(alloc: Global, table: NameTable) -> LoggedNames
        ensures { (k v : ℕ) → copies_among result.entries k v ≡ copies_among table k v }
    {
        LoggedNames {
            table,
            later: HashMap::new(alloc),
        }
    }

    /// What a name has.
    pub fn get(&self, name: EntryName) -> Option<Copies>
        ensures { result ≡ copies_among self.now.entries name.key name.version }
    {
        match self.table.get(name) {
            Some(copies) => Some(copies),
            None => copies_in(&self.later, name),
        }
    }

    /// Makes room for so many more names.
    pub fn reserve(&mut self, more: u64) -> Result<(), Memory>
        ensures copies { (k v : ℕ) → copies_among self.new.entries k v
            ≡ copies_among self.old.entries k v }
        ensures count { length self.new.entries ≡ length self.old.entries }
        ensures ok { OnOk result (more ≤ self.new.spare) }
        ensures spare { self.old.spare ≤ self.new.spare }
    {
        self.later.reserve(more as usize)?;
        Ok(())
    }

    /// Writes what a name has that stands. The count is no greater than before.
    pub fn set(&mut self, name: EntryName, copies: Copies)
        requires stands { IsSome (copies_among self.old.entries name.key name.version) }
        requires some { 0 < copies.count }
        requires fits { copies.count ≤ max 2
            (count_in (copies_among self.old.entries name.key name.version)) }
        ensures set { Writes self.old.entries self.new.entries name.key name.version (Some copies) }
        ensures count { Recounts self.old.entries self.new.entries name.key name.version (Some copies) }
        ensures spare { self.new.spare ≡ self.old.spare }
    {
        if self.table.get(name).is_some() {
            let _ = self.table.put(name, copies);
        } else {
            set_in(&mut self.later, name, copies);
        }
    }

    /// Writes what a name has, whether or not it stands. There is a place for it.
    pub fn put(&mut self, name: EntryName, copies: Copies)
        requires { 0 < self.old.spare }
        ensures put { Writes self.old.entries self.new.entries name.key name.version (Some copies) }
        ensures count { Recounts self.old.entries self.new.entries name.key name.version (Some copies) }
        ensures spare { self.old.spare ≤ self.new.spare + 1 }
    {
        if copies_in(&self.later, name).is_none() && self.table.put(name, copies) {
            return;
        }
        self.table.take(name);
        put_in(&mut self.later, name, copies);
    }

    /// One copy more of a name. There is a place for it.
    pub fn add(&mut self, name: EntryName)
        requires room { 0 < self.old.spare }
        requires fits { count_in (copies_among self.old.entries name.key name.version) + 1 < 2 ^ 64 }
        ensures added { Writes self.old.entries self.new.entries name.key name.version
            (Some (one_more (copies_among self.old.entries name.key name.version))) }
        ensures count { Recounts self.old.entries self.new.entries name.key name.version
            (Some (one_more (copies_among self.old.entries name.key name.version))) }
        ensures spare { self.old.spare ≤ self.new.spare + 1 }
    {
        match self.table.get(name) {
            Some(copies) => self.put(name, one_more(Some(copies))),
            None => add_in(&mut self.later, name),
        }
    }

    /// Takes a name out.
    pub fn take(&mut self, name: EntryName)
        ensures taken { Writes self.old.entries self.new.entries name.key name.version None }
        ensures count { Recounts self.old.entries self.new.entries name.key name.version None }
        ensures spare { self.old.spare ≤ self.new.spare }
    {
        self.table.take(name);
        take_in(&mut self.later, name);
    }
}
