// What of one chunk is still to be copied, in numbers.
ghost use Rattle.std.specs.Prelude.{◌≡◌, ℕ, ◌+◌, ◌-◌, ◌^◌, ◌<◌, ◌≤◌, [], Some, None, IfOk, if◌then◌else◌};
ghost use Rattle.std.specs.HashMap.{get, spare};
ghost use Rattle.log_standing.specs.Names.{name_eq};
ghost use Rattle.log_standing.specs.Tallies.{amount_at, entries_held, words_held, less, more, less_by};

use crate::types::Amount;
use fs_model::{Key, Memory, Version};
use log_entry::EntryName;
use std::alloc::Global;
use std::collections::HashMap;
use std::marker::Model;

/// How much of one chunk is still to be copied, and how much each of its names has there. As names are told dead or get
/// a second copy, less is left, without another reading of the chunk.
#[derive(Drop)]
pub struct Tally {
    left: Amount,
    names: HashMap<(Key, Version), Amount>,
    // For so many more names there is room.
    room: u64,
}

impl Model for Tally {
    ghost use Rattle.std.specs.HashMap.{spare};
    ghost use Rattle.log_standing.specs.Tallies.{TallyState};

    ghost Value = { TallyState };

    ghost use Rattle.std.specs.Prelude.{◌≤◌};

    ghost view = { λ a. record { left = a.left; names = a.names.entries; room = a.room } };

    ghost invariant = { λ a. a.room ≤ spare a.names };
}

// Less by so much.
fn less_by(amount: Amount, by: Amount) -> Amount
    ensures { result ≡ less_by amount by }
{
    Amount {
        entries: amount.entries.saturating_sub(by.entries),
        words: amount.words.saturating_sub(by.words),
    }
}

// With one more entry.
fn more(amount: Option<Amount>, words: u64) -> Amount
    requires entries { entries_held amount + 1 < 2 ^ 64 }
    requires words { words_held amount + words < 2 ^ 64 }
    ensures { result ≡ more amount words }
{
    match amount {
        Some(amount) => Amount {
            entries: amount.entries + 1,
            words: amount.words + words,
        },
        None => Amount { entries: 1, words },
    }
}

// Enters what a name has. There is a place for it.
fn put_in(names: &mut HashMap<(Key, Version), Amount>, name: EntryName, amount: Amount)
    requires { 0 < spare names.old }
    ensures put { (q : ℕ × ℕ) → get name_eq names.new q ≡ (if name_eq (name.key, name.version) q
        then Some amount else get name_eq names.old q) }
    ensures spare { spare names.old ≤ spare names.new + 1 }
{
    let put: Result<_, _> = names.insert((name.key, name.version), amount);
    let _ = put.unwrap();
}

impl Tally {
    /// So much is left of a chunk of which no name was noted, with room for so many names.
    pub fn open(alloc: Global, left: Amount, names: u64) -> Result<Tally, Memory>
        ensures left { IfOk result (λ t. t.left ≡ left) }
        ensures names { IfOk result (λ t. t.names ≡ []) }
        ensures room { IfOk result (λ t. t.room ≡ names) }
    {
        let mut map = HashMap::new(alloc);
        map.reserve(names as usize)?;
        Ok(Tally {
            left,
            names: map,
            room: names,
        })
    }

    /// For how many more names there is room.
    pub fn room(&self) -> u64
        ensures { result ≡ self.now.room }
    {
        self.room
    }

    // What a name has in the chunk.
    fn get(&self, name: EntryName) -> Option<Amount>
        ensures { result ≡ amount_at self.now name.key name.version }
    {
        self.names.get(&(name.key, name.version)).copied()
    }

    /// Notes an entry of the chunk with so many words. What is left stays.
    pub fn note(&mut self, name: EntryName, words: u64)
        requires room { 0 < self.old.room }
        requires entries { entries_held (amount_at self.old name.key name.version) + 1 < 2 ^ 64 }
        requires words { words_held (amount_at self.old name.key name.version) + words < 2 ^ 64 }
        ensures noted { (k v : ℕ) → amount_at self.new k v
            ≡ (if name_eq (name.key, name.version) (k, v)
            then Some (more (amount_at self.old name.key name.version) words)
            else amount_at self.old k v) }
        ensures left { self.new.left ≡ self.old.left }
        ensures room { self.new.room + 1 ≡ self.old.room }
    {
        let amount = more(self.get(name), words);
        put_in(&mut self.names, name, amount);
        self.room -= 1;
    }

    /// Less is left by what a name has in the chunk.
    pub fn lower(&mut self, name: EntryName)
        ensures { self.new ≡ less name.key name.version self.old }
    {
        if let Some(amount) = self.get(name) {
            self.left = less_by(self.left, amount);
        }
    }

    /// How much is left.
    pub fn left(&self) -> Amount
        ensures { result ≡ self.now.left }
    {
        self.left
    }
}
