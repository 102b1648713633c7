// Pages of bytes, of which some are stored.
ghost use Rattle.std.specs.Prelude.{◌≡◌, ◌≢◌, ◌⊎◌, ℕ, ◌+◌, ◌-◌, ◌*◌, ◌/◌, ◌%◌, ◌^◌, ◌≤◌, ◌<◌, [], length, slice_index, true, false, vec_capacity, IfOk, IfSome};
ghost use Rattle.pm_region.specs.declared.region_sizes.TheConstants.{LINE_BYTES, WORD_BYTES};
ghost use Rattle.pm_region.specs.Bytes.{word_at};
ghost use Rattle.region_file.specs.declared.page_size.TheConstants.{PAGE, PAGE_WORDS};
ghost use Rattle.region_file.specs.Slots.{AreOrdered, ArePages, IsStoredWord, slot_at, page_byte};

use crate::byte_room::{put_behind, put_over};
use crate::page_size::{PAGE, PAGE_WORDS};
use pm_region::byte_words::{set_word, word};
use std::alloc::{AllocError, Global};

// How many zeros are given out at once.
const ZERO_COUNT: usize = 4_096;

static ZEROS: [u8; ZERO_COUNT] = [0; ZERO_COUNT];

/// Some zeros for the bytes from a place on, in one page. They end where a line does.
pub fn zeros_at(at: usize) -> &'static [u8]
    ensures some { 0 < length result.now }
    ensures page { at % PAGE + length result.now ≤ PAGE }
    ensures end { (at + length result.now) % LINE_BYTES ≡ 0 }
    ensures zeros { (j : ℕ) → slice_index result.now j ≡ 0 }
{
    &ZEROS[at % ZERO_COUNT..]
}

/// Pages by their number, of which some are stored, in room for all of them: so to store one takes no memory, and one
/// that isn't stored touches none. It has zeros.
#[derive(Drop)]
pub struct Pages {
    /// By a page's number: which of the stored ones it is, counted from 1. 0 is for one that isn't stored.
    pub slots: Vec<u32>,
    /// The stored pages, in the order in which they came.
    pub bytes: Vec<u8>,
    /// So many words from the first one on stand at their own place among the bytes, as all of a file that is read and has
    /// no page of zeros: they are found without a slot.
    ordered: u64,
    ghost kept: { ArePages slots.items bytes.items },
    ghost room: { PAGE * length slots.items ≤ vec_capacity bytes },
    ghost few: { length slots.items < 2 ^ 32 },
    ghost in_order: { AreOrdered slots.items ordered },
}

impl Pages {
    ghost use Rattle.region_file.specs.Pages.{stored_byte};

    /// None.
    pub fn no_pages(alloc: Global) -> Pages
        ensures { result.slots.items ≡ [] }
    {
        Pages {
            slots: Vec::new(alloc),
            bytes: Vec::new(alloc),
            ordered: 0,
        }
    }

    /// So many pages, none of which is stored.
    pub fn none(alloc: Global, count: u32) -> Result<Pages, AllocError>
        ensures count { IfOk result (λ p. length p.slots.items ≡ count) }
        ensures none { IfOk result (λ p. (k : ℕ) → slot_at p.slots.items k ≡ 0) }
    {
        let slots = vec![in alloc; 0u32; count as usize]?;
        let bytes = Vec::with_capacity(alloc, PAGE * count as usize)?;
        Ok(Pages {
            slots,
            bytes,
            ordered: 0,
        })
    }

    /// How many pages there are, stored or not.
    pub fn count(&self) -> u32
        ensures { result ≡ length self.now.slots.items }
    {
        self.slots.len() as u32
    }

    // Which of the stored pages the one with the byte at this place is, counted from 1.
    fn slot(&self, at: usize) -> usize
        ensures { result ≡ slot_at self.now.slots.items at }
    {
        match self.slots.get(at / PAGE) {
            Some(slot) => *slot as usize,
            None => 0,
        }
    }

    /// Whether the page with the byte at this place is stored.
    pub fn has(&self, at: usize) -> bool
        ensures yes { result ≡ true → 0 < slot_at self.now.slots.items at }
        ensures no { result ≡ false → slot_at self.now.slots.items at ≡ 0 }
    {
        self.slot(at) > 0
    }

    /// The word at a place, where its page is stored. A place counts words.
    #[inline(always)]
    pub fn word(&self, place: u64) -> Option<u64>
        ensures { IfSome result (IsStoredWord self.now.slots.items self.now.bytes.items place) }
    {
        if place < self.ordered {
            return Some(word(&self.bytes, place));
        }
        let slot = match self.slots.get((place / PAGE_WORDS) as usize) {
            Some(slot) => u64::from(*slot),
            None => 0,
        };
        if slot == 0 {
            return None;
        }
        Some(word(&self.bytes, PAGE_WORDS * (slot - 1) + place % PAGE_WORDS))
    }

    /// How many bytes are zeros from a place on, in a page that isn't stored; 0 in one that is.
    pub fn blank(&self, at: usize) -> usize
        ensures page { at % PAGE + result ≤ PAGE }
        ensures zeros { (j : ℕ) → j < result → stored_byte self.now (at + j) ≡ 0 }
    {
        if self.has(at) {
            return 0;
        }
        PAGE - at % PAGE
    }

    /// Bytes from a place on: to the end of its page, or some zeros of one that isn't stored. They end where a line does.
    pub fn rest(&self, at: usize) -> &[u8]
        requires { at + PAGE < 2 ^ 63 }
        ensures some { 0 < length result.now }
        ensures page { at % PAGE + length result.now ≤ PAGE }
        ensures end { (at + length result.now) % LINE_BYTES ≡ 0 }
        ensures bytes { (j : ℕ) → j < length result.now
            → slice_index result.now j ≡ stored_byte self.now (at + j) }
    {
        let slot = self.slot(at);
        if slot == 0 {
            return zeros_at(at);
        }
        &self.bytes[PAGE * (slot - 1) + at % PAGE..PAGE * slot]
    }

    /// Stores a page that isn't stored yet. It takes no memory.
    pub fn store(&mut self, page: usize, bytes: &[u8])
        requires within { page < length self.old.slots.items }
        requires none { slice_index self.old.slots.items page ≡ 0 }
        requires whole { length bytes.now ≡ PAGE }
        ensures count { length self.new.slots.items ≡ length self.old.slots.items }
        ensures stored { 0 < slice_index self.new.slots.items page }
        ensures this { (j : ℕ) → j < PAGE
            → page_byte self.new.slots.items self.new.bytes.items (PAGE * page + j)
            ≡ slice_index bytes.now j }
        ensures others { (k : ℕ) → k / PAGE ≢ page
            → slot_at self.new.slots.items k ≡ slot_at self.old.slots.items k }
        ensures other_bytes { (k : ℕ) → 0 < slot_at self.old.slots.items k
            → page_byte self.new.slots.items self.new.bytes.items k
            ≡ page_byte self.old.slots.items self.old.bytes.items k }
    {
        put_behind(&mut self.bytes, bytes);
        let slot = self.bytes.len() / PAGE;
        self.slots[page] = slot as u32;
        if slot == page + 1 && self.ordered == PAGE_WORDS * page as u64 {
            self.ordered += PAGE_WORDS;
        }
    }

    /// Stores a word in a page that is stored. A place counts words.
    pub fn set_word(&mut self, place: u64, value: u64)
        requires { 0 < slot_at self.old.slots.items (WORD_BYTES * place) }
        ensures slots { self.new.slots ≡ self.old.slots }
        ensures this { word_at self.new.bytes.items (PAGE_WORDS
            * (slot_at self.old.slots.items (WORD_BYTES * place) - 1) + place % PAGE_WORDS) ≡ value }
        ensures others { (k : ℕ) → k ≢ PAGE_WORDS * (slot_at self.old.slots.items (WORD_BYTES * place) - 1)
            + place % PAGE_WORDS → word_at self.new.bytes.items k ≡ word_at self.old.bytes.items k }
    {
        let slot = self.slots[(place / PAGE_WORDS) as usize];
        let at = PAGE_WORDS * u64::from(slot - 1) + place % PAGE_WORDS;
        set_word(&mut self.bytes, at, value);
    }

    /// Stores bytes from a place on in a page that is stored, as many as it has room for or less.
    pub fn put(&mut self, at: usize, bytes: &[u8])
        requires stored { 0 < slot_at self.old.slots.items at }
        requires within { at % PAGE + length bytes.now ≤ PAGE }
        ensures slots { self.new.slots ≡ self.old.slots }
        ensures this { (j : ℕ) → j < length bytes.now
            → page_byte self.new.slots.items self.new.bytes.items (at + j) ≡ slice_index bytes.now j }
        ensures others { (k : ℕ) → 0 < slot_at self.old.slots.items k → (k < at) ⊎ (at + length bytes.now ≤ k)
            → page_byte self.new.slots.items self.new.bytes.items k
            ≡ page_byte self.old.slots.items self.old.bytes.items k }
    {
        let slot = self.slots[at / PAGE] as usize;
        let low = PAGE * (slot - 1) + at % PAGE;
        put_over(&mut self.bytes, low, bytes);
    }
}
