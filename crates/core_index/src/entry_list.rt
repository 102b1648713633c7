// Entries of one key by rising version, as many as there are.
ghost use Rattle.std.specs.Prelude.{◌≡◌, ◌+◌, ◌^◌, ◌<◌, ◌≤◌, ◌++◌, ◌∷◌, [], ℕ, map, false, true, Some, None, IfOk, IfSome, IfNone, OnOk, length};
ghost use Rattle.std.specs.List.{AllByRecursion};
ghost use Rattle.std.specs.BTreeMap.{IsOrdered};
ghost use Rattle.std.specs.Ordering.{nat_cmp};
ghost use Rattle.std.specs.Vec.{vec_capacity};
ghost use Rattle.core_index.specs.Records.{list_of, standing_at, standing_with, stands_alone, with_told, others, homes_of, by_version};
ghost use Rattle.core_index.specs.Marks.{kept, mark_of, Rises, IsPlace, IsAbsent, AreMarks, marked, marked_as, Keeps};
ghost use Rattle.core_index.specs.Pairs.{in_pair, top_of, IsRising};

use crate::types::{IN_PLACE, Marked, Pair, Standee, StandingEntry};
use fs_model::{Memory, Version};
use std::alloc::Global;
use std::collections::BTreeMap;
use std::marker::Model;

/// The entries of a key that stand in a log, by rising version. One that is gone keeps its place until the list is
/// closed up, so that taking one out moves no other. `left` counts those that stand, and no version is above `top`.
/// Only `of`, `of_pair` and `reserve` take memory.
#[derive(Drop)]
pub struct EntryList {
    marks: Vec<Marked>,
    left: u64,
    top: Version,
}

impl Model for EntryList {
    ghost use Rattle.std.specs.Prelude.{length, ◌-◌};
    ghost use Rattle.std.specs.Vec.{vec_capacity};
    ghost use Rattle.core_index.specs.Marks.{Marks, AreMarks, kept};

    ghost Value = { Marks };

    ghost view = { λ a. record {
      items = kept a.marks.items;
      room = vec_capacity a.marks - length a.marks.items;
      top = a.top;
    } };

    ghost invariant = { λ a. AreMarks a.marks.items a.left a.top };
}

// Where a version is.
fn place_of(marks: &[Marked], version: Version) -> Option<usize>
    requires { Rises marks.now }
    ensures found { IfSome result (IsPlace marks.now version) }
    ensures absent { IfNone result (IsAbsent marks.now version) }
{
    let at = marks.partition_point(|m| m.entry.version < version);
    if at >= marks.len() {
        return None;
    }
    if marks[at].entry.version != version {
        return None;
    }
    Some(at)
}

// The homes by version. Where a version is listed twice, the first one counts.
fn homes_of(alloc: Global, standees: &[Standee]) -> Result<BTreeMap<Version, u32>, Memory>
    ensures homes { IfOk result (λ homes. homes.entries ≡ homes_of standees.now) }
    ensures ordered { IfOk result (λ homes. IsOrdered nat_cmp homes) }
{
    let mut homes = BTreeMap::new(alloc);
    let mut left = standees.len();
    while left > 0 {
        left -= 1;
        let Standee { version, home } = standees[left];
        let _ = homes.insert(version, home)?;
    }
    Ok(homes)
}

// An entry for each of these homes, of which none was told.
fn marks_of(alloc: Global, homes: &BTreeMap<Version, u32>) -> Result<Vec<Marked>, Memory>
    ensures { IfOk result (λ marks. marks.items ≡ map mark_of homes.now.entries) }
{
    let mut marks = Vec::with_capacity(alloc, homes.len())?;
    for (version, home) in homes.iter() {
        marks.push(marked(*version, *home))?;
    }
    Ok(marks)
}

// Adds an entry, where there is one.
fn add(marks: &mut Vec<Marked>, entry: Option<StandingEntry>) -> Result<(), Memory>
    ensures { OnOk result (marks.new.items ≡ marks.old.items ++ map marked_as (list_of entry)) }
{
    if let Some(entry) = entry {
        marks.push(Marked { entry, gone: false })?;
    }
    Ok(())
}

// Two entries at most, in a list with a capacity for so many more.
fn marks_of_pair(alloc: Global, pair: Pair, room: usize) -> Result<Vec<Marked>, Memory>
    requires { room < 2 ^ 32 }
    ensures { IfOk result (λ marks. marks.items ≡ map marked_as (in_pair pair)) }
{
    let mut marks = Vec::with_capacity(alloc, room + IN_PLACE as usize)?;
    add(&mut marks, pair.first)?;
    add(&mut marks, pair.second)?;
    Ok(marks)
}

fn marked(version: Version, home: u32) -> Marked
    ensures { result ≡ marked version home }
{
    Marked {
        entry: StandingEntry {
            version,
            home,
            told: false,
        },
        gone: false,
    }
}

// Takes out the places of entries that are gone, where there is no place for so many more, and a quarter or more of all
// places are of such entries.
fn close_up(marks: &mut Vec<Marked>, left: u64, room: usize)
    ensures marks { (n top : ℕ) → AreMarks marks.old.items n top → AreMarks marks.new.items n top }
    ensures kept { kept marks.new.items ≡ kept marks.old.items }
    ensures length { length marks.new.items ≤ length marks.old.items }
    ensures capacity { vec_capacity marks.new ≡ vec_capacity marks.old }
{
    let places = marks.len();
    let most_left = places - places.div_ceil(4);
    if room <= marks.capacity() - places || left > most_left as u64 {
        return;
    }
    marks.retain(|m| !m.gone);
}

impl EntryList {
    /// The entries of a start, of which none is above `top`.
    pub fn of(alloc: Global, standees: &[Standee], top: Version) -> Result<EntryList, Memory>
        requires { AllByRecursion (λ s. s.version ≤ top) standees.now }
        ensures items { IfOk result (λ list. list.items ≡ by_version standees.now) }
        ensures top { IfOk result (λ list. list.top ≡ top) }
    {
        let homes = homes_of(alloc, standees)?;
        let marks = marks_of(alloc, &homes)?;
        Ok(EntryList {
            left: marks.len() as u64,
            marks,
            top,
        })
    }

    /// Two entries at most, the first below the second, and room for so many more.
    pub fn of_pair(alloc: Global, pair: Pair, room: u32) -> Result<EntryList, Memory>
        requires { IsRising pair }
        ensures items { IfOk result (λ list. list.items ≡ in_pair pair) }
        ensures top { IfOk result (λ list. list.top ≡ top_of pair) }
        ensures room { IfOk result (λ list. room ≤ list.room) }
    {
        let mut marks = marks_of_pair(alloc, pair, room as usize)?;
        marks.reserve(room as usize)?;
        Ok(EntryList {
            left: marks.len() as u64,
            marks,
            top: pair.top(),
        })
    }

    /// Makes room for so many more: by closing up, where a quarter of the places or more are of entries that are gone, and
    /// by more places only where that isn't enough.
    pub fn reserve(&mut self, room: u64) -> Result<(), Memory>
        ensures ok { OnOk result (room ≤ self.new.room) }
        ensures keeps { Keeps self.old self.new }
    {
        close_up(&mut self.marks, self.left, room as usize);
        self.marks.reserve(room as usize)?;
        Ok(())
    }

    /// How many stand.
    pub fn len(&self) -> u64
        ensures { result ≡ length self.now.items }
    {
        self.left
    }

    /// The entry of a version, where it stands.
    pub fn find(&self, version: Version) -> Option<StandingEntry>
        ensures { result ≡ standing_at self.now.items version }
    {
        let Some(place) = place_of(&self.marks, version) else {
            return None;
        };
        let found = self.marks[place];
        if found.gone { None } else { Some(found.entry) }
    }

    /// Whether no other version stands.
    pub fn stands_alone(&self, version: Version) -> bool
        ensures { result ≡ stands_alone self.now.items version }
    {
        self.left == 0 || (self.left == 1 && self.find(version).is_some())
    }

    /// Adds an entry of a later version.
    pub fn push(&mut self, version: Version, home: u32)
        requires later { self.old.top < version }
        requires room { 0 < self.old.room }
        ensures items { self.new.items ≡ self.old.items ++ standing_with version home false ∷ [] }
        ensures top { self.new.top ≡ version }
        ensures room { self.old.room ≤ self.new.room + 1 }
    {
        self.marks.push(marked(version, home)).unwrap();
        self.left += 1;
        self.top = version;
    }

    /// Notes that the death of a version was told.
    pub fn tell(&mut self, version: Version)
        ensures items { self.new.items ≡ with_told self.old.items version }
        ensures top { self.new.top ≡ self.old.top }
        ensures room { self.new.room ≡ self.old.room }
    {
        let Some(place) = place_of(&self.marks, version) else {
            return;
        };
        self.marks[place].entry.told = true;
    }

    /// Takes a version out.
    pub fn take_out(&mut self, version: Version)
        ensures items { self.new.items ≡ others version self.old.items }
        ensures top { self.new.top ≡ self.old.top }
        ensures room { self.new.room ≡ self.old.room }
    {
        let Some(place) = place_of(&self.marks, version) else {
            return;
        };
        if self.marks[place].gone {
            return;
        }
        self.marks[place].gone = true;
        self.left -= 1;
    }

    /// Takes all out.
    pub fn clear(&mut self)
        ensures items { self.new.items ≡ [] }
        ensures top { self.new.top ≡ 0 }
        ensures room { self.old.room ≤ self.new.room }
    {
        self.marks.clear();
        self.left = 0;
        self.top = 0;
    }

    /// The places.
    pub fn marks(&self) -> &[Marked]
        ensures { kept result.now ≡ self.now.items }
    {
        &self.marks
    }
}
