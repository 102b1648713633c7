// The names that were found at the start, in one sorted list.
ghost use Rattle.std.specs.Prelude.{◌≡◌, ℕ, ◌<◌, ◌≤◌, [], map, Bool, true, false, Some, None, List, IfSome, IfNone, IsSome, if◌then◌else◌};
ghost use Rattle.std.specs.List.{All};
ghost use Rattle.core_log.specs.declared.types.LogChunk.{LogChunk};
ghost use Rattle.log_standing.specs.NameCounts.{count_in, told_in};
ghost use Rattle.log_standing.specs.Killing.{Answers, dead_by, all_dead, KillsAmong, SameCounts};
ghost use Rattle.log_standing.specs.NameItems.{Rises, IsPlace, IsAbsent, Fits, AreIn, copies_among, chunks_noted, AreSmall, Recounts, Writes};

use crate::merging::merge;
use crate::name_item::{MOST_IN_ITEM, NameItem, copies_of, item_of, rank_of};
use crate::types::Copies;
use log_entry::EntryName;
use std::alloc::Global;
use std::marker::Model;

// So many places from the last one on are looked at before all are searched.
const NEAR: usize = 8;

/// The names that stood at the start, by rising rank, each once. One that is gone keeps its place. Names are often asked
/// for by rising rank: so each is looked for first at the place of the last one that was written, and behind it.
#[derive(Drop)]
pub struct NameTable {
    items: Vec<NameItem>,
    // A place that lies elsewhere costs time alone.
    near: usize,
}

impl Model for NameTable {
    ghost use Rattle.std.specs.Prelude.{ℕ, List};
    ghost use Rattle.log_standing.specs.declared.types.Copies.{Copies};

    ghost Value = { List ((ℕ × ℕ) × Copies) };

    ghost use Rattle.log_standing.specs.NameItems.{live, Rises};

    ghost view = { λ a. live a.items.items };

    ghost invariant = { λ a. Rises a.items.items };
}

// Where a name is, if it is at this place or shortly behind it.
fn place_near(items: &[NameItem], near: usize, name: EntryName) -> Option<usize>
    ensures { IfSome result (IsPlace items.now name.key name.version) }
{
    let end = items.len().min(near.saturating_add(NEAR));
    for at in near..end {
        let item = items[at];
        if item.key > name.key {
            return None;
        }
        if item.key == name.key && item.version == name.version {
            return Some(at);
        }
    }
    None
}

// Where a name is among all.
fn place_among(items: &[NameItem], name: EntryName) -> Option<usize>
    requires { Rises items.now }
    ensures found { IfSome result (IsPlace items.now name.key name.version) }
    ensures absent { IfNone result (IsAbsent items.now name.key name.version) }
{
    let rank = rank_of(name.key, name.version);
    let at = items.partition_point(|x| rank_of(x.key, x.version) < rank);
    if at >= items.len() {
        return None;
    }
    let found = items[at];
    if found.key != name.key || found.version != name.version {
        return None;
    }
    Some(at)
}

// Where a name is, which is looked for near this place first.
fn place_of(items: &[NameItem], near: usize, name: EntryName) -> Option<usize>
    requires { Rises items.now }
    ensures found { IfSome result (IsPlace items.now name.key name.version) }
    ensures absent { IfNone result (IsAbsent items.now name.key name.version) }
{
    match place_near(items, near, name) {
        Some(place) => Some(place),
        None => place_among(items, name),
    }
}

// Tells the items dead of whose names a test says so.
fn kill_items<F: Fn(EntryName) -> bool>(items: &mut Vec<NameItem>, dead: F)
    requires { F.IsAlwaysCallable dead }
    ensures rises { Rises items.old.items → Rises items.new.items }
    ensures killed { (f : ℕ → ℕ → Bool) → Answers (F.post dead) f
        → items.new.items ≡ map (dead_by f) items.old.items }
    ensures same { map all_dead items.new.items ≡ map all_dead items.old.items }
{
    for i in 0..items.len() {
        let name = EntryName {
            key: items[i].key,
            version: items[i].version,
        };
        items[i].dead = items[i].dead | dead(name);
    }
}

impl NameTable {
    /// No names.
    pub fn new(alloc: Global) -> NameTable
        ensures { result ≡ [] }
    {
        NameTable {
            items: Vec::new(alloc),
            near: 0,
        }
    }

    /// The names of these items, each in as many copies as it has chunks.
    pub fn of(items: Vec<NameItem>) -> NameTable
        requires { All Fits items.items }
        ensures counts { (cs : List LogChunk) → AreIn cs items.items → (k v : ℕ)
            → count_in (copies_among result k v) ≡ chunks_noted cs items.items k v }
        ensures untold { (k v : ℕ) → told_in (copies_among result k v) ≡ false }
        ensures small { AreSmall result }
    {
        let mut items = items;
        items.sort_unstable_by_key(|x| (x.key, x.version, x.chunk));
        merge(&mut items);
        items.shrink_to_fit();
        NameTable { items, near: 0 }
    }

    /// What a name has.
    pub fn get(&self, name: EntryName) -> Option<Copies>
        ensures copies { result ≡ copies_among self.now name.key name.version }
        ensures small { IfSome result (λ c. c.count ≤ MOST_IN_ITEM) }
    {
        match place_of(&self.items, self.near, name) {
            Some(place) => copies_of(self.items[place]),
            None => None,
        }
    }

    /// Writes what a name has, where it has a place and its count fits in. Says whether it did.
    pub fn put(&mut self, name: EntryName, copies: Copies) -> bool
        ensures put { result ≡ true → Writes self.old self.new name.key name.version (Some copies) }
        ensures count { result ≡ true
            → Recounts self.old self.new name.key name.version (Some copies) }
        ensures same { result ≡ false → self.new ≡ self.old }
        ensures fits { 0 < copies.count → copies.count ≤ MOST_IN_ITEM
            → IsSome (copies_among self.old name.key name.version) → result ≡ true }
    {
        let Some(place) = place_of(&self.items, self.near, name) else {
            return false;
        };
        let Some(item) = item_of(name, copies) else {
            return false;
        };
        self.items[place] = item;
        self.near = place;
        true
    }

    /// Takes a name out. It keeps its place.
    pub fn take(&mut self, name: EntryName)
        ensures taken { Writes self.old self.new name.key name.version None }
        ensures count { Recounts self.old self.new name.key name.version None }
    {
        let Some(place) = place_of(&self.items, self.near, name) else {
            return;
        };
        self.items[place].count = 0;
        self.near = place;
    }

    /// Tells the names dead of which a test says so.
    pub fn kill_where<F: Fn(EntryName) -> bool>(&mut self, dead: F)
        requires { F.IsAlwaysCallable dead }
        ensures killed { (f : ℕ → ℕ → Bool) → Answers (F.post dead) f
            → KillsAmong self.old self.new f }
        ensures counts { SameCounts self.old self.new }
    {
        kill_items(&mut self.items, dead);
    }
}
