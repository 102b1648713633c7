// How much of each chunk is still to be copied at least.
ghost use Rattle.std.specs.Prelude.{◌≡◌, ℕ, ◌==◌, ◌<◌, None, IfSome, if◌then◌else◌};
ghost use Rattle.log_standing.specs.NameCounts.{floor_in, less_entry, Lowers};

use crate::name_item::CHUNK_NUMBERS;
use crate::types::{Amount, Spot};
use std::marker::Model;

/// How much of each chunk is still to be copied at least, by the chunk's number in the part; none of a chunk that no
/// search has counted.
#[derive(Drop)]
pub struct Floors {
    amounts: [Option<Amount>; 64],
}

impl Model for Floors {
    ghost use Rattle.std.specs.Prelude.{◌≡◌, Option, List, length};
    ghost use Rattle.log_standing.specs.declared.types.Amount.{Amount};

    ghost Value = { List (Option Amount) };

    ghost view = { λ a. a.amounts };

    ghost invariant = { λ a. length a.amounts ≡ 64 };
}

// Less by an entry of so many words.
fn less_entry(amount: Amount, words: u8) -> Amount
    ensures { result ≡ less_entry words amount }
{
    Amount {
        entries: amount.entries.saturating_sub(1),
        words: amount.words.saturating_sub(u64::from(words)),
    }
}

impl Floors {
    /// No chunk was counted.
    pub fn none() -> Floors
        ensures { (j : ℕ) → floor_in result j ≡ None }
    {
        Floors {
            amounts: [None; 64],
        }
    }

    /// How much is left of a chunk at least.
    pub fn get(&self, chunk: u32) -> Option<Amount>
        ensures floor { result ≡ floor_in self.now chunk }
        ensures within { IfSome result (λ _. chunk < CHUNK_NUMBERS) }
    {
        match self.amounts.get(chunk as usize) {
            Some(amount) => *amount,
            None => None,
        }
    }

    /// Notes how much is left of a chunk at least, where it was counted.
    pub fn set(&mut self, chunk: u32, amount: Option<Amount>)
        requires { chunk < CHUNK_NUMBERS }
        ensures { (j : ℕ) → floor_in self.new j ≡ (if chunk == j then amount
            else floor_in self.old j) }
    {
        self.amounts[chunk as usize] = amount;
    }

    /// Forgets what was counted of a chunk.
    pub fn forget(&mut self, chunk: u32)
        ensures { (j : ℕ) → floor_in self.new j ≡ (if chunk == j then None
            else floor_in self.old j) }
    {
        if self.get(chunk).is_some() {
            self.set(chunk, None);
        }
    }

    /// An entry that was found there is to be copied no more.
    pub fn lower(&mut self, spot: Spot)
        ensures { Lowers self.old self.new spot }
    {
        let chunk = u32::from(spot.chunk);
        if let Some(amount) = self.get(chunk) {
            self.set(chunk, Some(less_entry(amount, spot.words)));
        }
    }
}
