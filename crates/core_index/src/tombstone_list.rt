// Entries of keys of the start, of which each home is told what it was not told yet.
ghost use Rattle.std.specs.Prelude.{◌≡◌, ◌≢◌, ◌⊎◌, ℕ, ◌+◌, ◌<◌, ◌≤◌, ◌++◌, ◌∷◌, [], Some, true, IfSome, IfNone, OnOk, OnErr, length, slice_index_or, slice_set};
ghost use Rattle.std.specs.List.{AllByRecursion};
ghost use Rattle.log_entry.specs.declared.entry.EntryName.{EntryName};
ghost use Rattle.core_index.specs.declared.types.Tombstone.{Tombstone};
ghost use Rattle.core_index.specs.Tombs.{tomb_home, key_of, name_of, found_at, with_fate, AreLess, Rising, IsFirst, IsSpot, IsMissing, passed_at, Ahead};

use crate::short_names::HOMES;
use crate::tombstones::key_of;
use crate::types::{Fate, NEAR, Tombstone};
use fs_model::{Key, Memory};
use std::alloc::Global;
use std::cell::Cell;
use std::marker::Model;

/// Entries of keys in the order in which they came. For each home the first `passed` of them need not be looked at to
/// tell it of a death. Only `reserve` and `push` take memory.
#[derive(Drop)]
pub struct TombstoneList {
    items: Vec<Tombstone>,
    passed: [usize; 16],
    // Keys are often asked for by rising key, so each is looked for first where the last one was. A place that lies
    // elsewhere costs time alone.
    near: Cell<usize>,
}

impl Model for TombstoneList {
    ghost use Rattle.core_index.specs.Tombs.{Tombs, AreListed};

    ghost Value = { Tombs };

    ghost view = { λ a. record { items = a.items.items; passed = a.passed } };

    ghost invariant = { λ a. AreListed a.items.items a.passed };
}

/// Whether a key is above all of these.
pub fn are_less(items: &[Tombstone], key: Key) -> bool
    requires { Rising items.now }
    ensures { result ≡ true → AreLess items.now key }
{
    match items.last() {
        None => true,
        Some(last) => key_of(last) < key,
    }
}

// This place, if the key there is the first one that is not below this one.
fn first_at(items: &[Tombstone], at: usize, key: Key) -> Option<usize>
    requires rising { Rising items.now }
    requires within { at < length items.now }
    ensures { IfSome result (IsFirst items.now key) }
{
    if key_of(&items[at]) < key {
        return None;
    }
    if at == 0 {
        return Some(at);
    }
    if key_of(&items[at - 1]) >= key {
        return None;
    }
    Some(at)
}

// Where the first key is that is not below this one, if it is at this place or shortly behind it.
fn first_near(items: &[Tombstone], near: usize, key: Key) -> Option<usize>
    requires { Rising items.now }
    ensures { IfSome result (IsFirst items.now key) }
{
    let end = items.len().min(near.saturating_add(NEAR));
    for at in near..end {
        if key <= key_of(&items[at]) {
            return first_at(items, at, key);
        }
    }
    None
}

// Where the first key is, among all, that is not below this one.
fn first_among(items: &[Tombstone], key: Key) -> Option<usize>
    requires { Rising items.now }
    ensures found { IfSome result (IsFirst items.now key) }
    ensures missing { IfNone result (IsMissing items.now key) }
{
    let at = items.partition_point(|t| key_of(t) < key);
    if at >= items.len() {
        return None;
    }
    Some(at)
}

// The same, which is looked for near this place first. Of keys that come by rising key the last one tells that they are
// nowhere.
fn first_of(items: &[Tombstone], near: usize, key: Key) -> Option<usize>
    requires { Rising items.now }
    ensures found { IfSome result (IsFirst items.now key) }
    ensures missing { IfNone result (IsMissing items.now key) }
{
    if are_less(items, key) {
        return None;
    }
    match first_near(items, near, key) {
        None => first_among(items, key),
        found => found,
    }
}

impl TombstoneList {
    /// No keys.
    pub fn empty(alloc: Global) -> TombstoneList
        ensures { result.items ≡ [] }
    {
        TombstoneList {
            items: Vec::new(alloc),
            passed: [0; 16],
            near: Cell::new(0),
        }
    }

    /// All of them.
    pub fn items(&self) -> &[Tombstone]
        ensures items { result.now ≡ self.now.items }
        ensures homes { AllByRecursion (λ t. tomb_home t < 16) result.now }
    {
        &self.items
    }

    /// Makes room for so many keys together.
    pub fn reserve(&mut self, count: usize) -> Result<(), Memory>
        ensures { self.new ≡ self.old }
    {
        let more = count.saturating_sub(self.items.len());
        self.items.reserve(more)?;
        Ok(())
    }

    /// Adds a key. It takes no memory where there is room.
    pub fn push(&mut self, tombstone: Tombstone) -> Result<(), Memory>
        requires home { tomb_home tombstone < 16 }
        ensures ok { OnOk result (self.new ≡ record {
          items = self.old.items ++ tombstone ∷ [];
          passed = self.old.passed;
        }) }
        ensures room { (h : ℕ) → passed_at self.old h ≤ length self.old.items }
        ensures err { OnErr result (self.new ≡ self.old) }
    {
        self.items.push(tombstone)?;
        Ok(())
    }

    /// Where a key is, in a list by rising key.
    pub fn spot(&self, key: Key) -> Option<usize>
        requires { Rising self.now.items }
        ensures spot { IfSome result (IsSpot self.now.items key) }
        ensures missing { IfNone result (IsMissing self.now.items key) }
    {
        let Some(first) = first_of(&self.items, self.near.get(), key) else {
            return None;
        };
        self.near.set(first);
        if key_of(&self.items[first]) != key {
            return None;
        }
        Some(first)
    }

    /// Gives the entry in a place another fate.
    pub fn turn(&mut self, spot: usize, fate: Fate)
        requires { spot < length self.old.items }
        ensures { (d : Tombstone) → self.new ≡ record {
          items = slice_set self.old.items spot
              (with_fate fate (slice_index_or self.old.items spot d));
          passed = self.old.passed;
        } }
    {
        self.items[spot].fate = fate;
    }

    /// Each home is asked about all of them again.
    pub fn rewind(&mut self)
        ensures items { self.new.items ≡ self.old.items }
        ensures ahead { (h : ℕ) (n : EntryName) → Ahead self.old h n → Ahead self.new h n }
        ensures own { (k : ℕ) (t : Tombstone) → found_at self.old.items k ≡ Some t
            → Ahead self.new (tomb_home t) (name_of t) }
    {
        self.passed = [0; 16];
    }

    /// The next key that this home was not asked about.
    pub fn pass(&mut self, home: u32) -> Option<Tombstone>
        ensures none { IfNone result ((n : EntryName) → ¬ Ahead self.old home n) }
        ensures unchanged { IfNone result (self.new ≡ self.old) }
        ensures others { IfSome result (λ t. (h : ℕ) (n : EntryName) → Ahead self.old h n
            → ((h ≡ home) × (n ≡ name_of t) × (tomb_home t ≡ home))
            ⊎ Ahead self.new h n) }
        ensures items { self.new.items ≡ self.old.items }
        ensures more { IfSome result (λ _. (passed_at self.old home < length self.old.items)
            × (passed_at self.new home ≡ passed_at self.old home + 1)) }
    {
        let count = self.items.len();
        if home >= HOMES {
            return None;
        }
        let at = self.passed[home as usize];
        if at >= count {
            return None;
        }
        self.passed[home as usize] = at + 1;
        self.near.set(at);
        Some(self.items[at])
    }
}
