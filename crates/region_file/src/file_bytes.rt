// The bytes of a file in memory.
ghost use Rattle.std.specs.Prelude.{◌≡◌, ◌≢◌, ◌⊎◌, ℕ, ◌+◌, ◌-◌, ◌*◌, ◌/◌, ◌%◌, ◌≤◌, ◌<◌, [], length, slice_index, replicate, IfOk};
ghost use Rattle.pm_region.specs.declared.region_sizes.TheConstants.{LINE_BYTES, MOST_BYTES, WORD_BYTES};
ghost use Rattle.pm_region.specs.Bytes.{word_at};
ghost use Rattle.region_file.specs.declared.page_size.TheConstants.{PAGE};
ghost use Rattle.region_file.specs.Pages.{Shares, shared_byte, items_in};

use crate::own_pages::{blank, make_own, own_or_under, stand_alone};
use crate::page_size::PAGE;
use crate::pages::Pages;
use crate::shared_bytes::SharedBytes;
use pm_region::WORD_BYTES;
use pm_region::byte_words::word;
use std::alloc::{AllocError, Global};
use std::marker::Model;
use std::mem;
use std::sync::Arc;

/// The bytes of a file, or of a piece of it. The pieces of a split share the region's, and each copies a page with its
/// first store in it, in the thread that stores, into room that it took before: so a split copies nothing, and no store
/// takes memory. A page that never held anything but zeros touches none. Contracts see the bytes.
#[derive(Drop)]
pub struct FileBytes {
    len: usize,
    // The pages that stand here.
    own: Pages,
    // What stands in the others, which have zeros where nothing is shared.
    base: Option<SharedBytes>,
}

impl Model for FileBytes {
    ghost use Rattle.region_file.specs.Pages.{FileItems, HasPages, items_in};

    ghost Value = { FileItems };

    ghost view = { λ b. record { items = items_in b.own b.base b.len } };

    ghost invariant = { λ b. HasPages b.own b.len };
}

impl FileBytes {
    /// No bytes.
    pub fn none(alloc: Global) -> FileBytes
        ensures { result.items ≡ [] }
    {
        FileBytes {
            len: 0,
            own: Pages::no_pages(alloc),
            base: None,
        }
    }

    /// So many zeros.
    pub fn zeros(alloc: Global, len: usize) -> Result<FileBytes, AllocError>
        requires { len ≤ MOST_BYTES }
        ensures { IfOk result (λ b. b.items ≡ replicate len 0) }
    {
        let own = Pages::none(alloc, len.div_ceil(PAGE) as u32)?;
        Ok(FileBytes {
            len,
            own,
            base: None,
        })
    }

    /// So many of the shared bytes.
    pub fn shared(alloc: Global, len: usize, base: SharedBytes) -> Result<FileBytes, AllocError>
        requires { len ≤ MOST_BYTES }
        ensures count { IfOk result (λ b. length b.items ≡ len) }
        ensures bytes { IfOk result (λ b. (k : ℕ) → k < len
            → slice_index b.items k ≡ shared_byte base k) }
    {
        let own = Pages::none(alloc, len.div_ceil(PAGE) as u32)?;
        Ok(FileBytes {
            len,
            own,
            base: Some(base),
        })
    }

    /// How many bytes there are.
    pub fn len(&self) -> usize
        ensures count { result ≡ length self.now.items }
        ensures low { result ≤ MOST_BYTES }
    {
        self.len
    }

    /// Some bytes from a place on, in one page. They end where a line does, or with the last byte.
    pub fn rest(&self, low: usize) -> &[u8]
        requires { low < length self.now.items }
        ensures some { 0 < length result.now }
        ensures within { low + length result.now ≤ length self.now.items }
        ensures page { low % PAGE + length result.now ≤ PAGE }
        ensures end { ((low + length result.now) % LINE_BYTES ≡ 0)
            ⊎ (low + length result.now ≡ length self.now.items) }
        ensures bytes { (j : ℕ) → j < length result.now
            → slice_index result.now j ≡ slice_index self.now.items (low + j) }
    {
        let most = (PAGE - low % PAGE).min(self.len - low);
        let part = own_or_under(&self.own, &self.base, low);
        &part[..most.min(part.len())]
    }

    /// How many bytes are zeros from a place on, as far as is told without a look at them: so none in a page that stands
    /// here or is shared.
    pub fn blank(&self, low: usize) -> usize
        requires { low < length self.now.items }
        ensures within { low + result ≤ length self.now.items }
        ensures zeros { (j : ℕ) → j < result → slice_index self.now.items (low + j) ≡ 0 }
    {
        blank(&self.own, &self.base, low).min(self.len - low)
    }

    /// The word at a place.
    pub fn word(&self, place: u64) -> u64
        requires { WORD_BYTES * place + WORD_BYTES ≤ length self.now.items }
        ensures { result ≡ word_at self.now.items place }
    {
        match self.own.word(place) {
            Some(word) => word,
            None => self.word_under(place),
        }
    }

    // Never inlined: of a region that was read from a file, no word stands under another but zeros.
    #[inline(never)]
    fn word_under(&self, place: u64) -> u64
        requires { WORD_BYTES * place + WORD_BYTES ≤ length self.now.items }
        ensures { result ≡ word_at self.now.items place }
    {
        let _ = &self.len;
        word(self.rest((WORD_BYTES * place) as usize), 0)
    }

    /// Stores a word.
    pub fn set_word(&mut self, place: u64, value: u64)
        requires whole { length self.old.items % WORD_BYTES ≡ 0 }
        requires within { WORD_BYTES * place + WORD_BYTES ≤ length self.old.items }
        ensures count { length self.new.items ≡ length self.old.items }
        ensures this { word_at self.new.items place ≡ value }
        ensures others { (k : ℕ) → k ≢ place → word_at self.new.items k ≡ word_at self.old.items k }
    {
        make_own(&mut self.own, &self.base, (WORD_BYTES * place) as usize);
        self.own.set_word(place, value);
    }

    /// Stores bytes from a place on. Where they are there already, no page is copied.
    pub fn put(&mut self, low: usize, bytes: &[u8])
        requires { low + length bytes.now ≤ length self.old.items }
        ensures count { length self.new.items ≡ length self.old.items }
        ensures inner { (j : ℕ) → j < length bytes.now
            → slice_index self.new.items (low + j) ≡ slice_index bytes.now j }
        ensures outer { (k : ℕ) → (k < low) ⊎ (low + length bytes.now ≤ k)
            → slice_index self.new.items k ≡ slice_index self.old.items k }
    {
        let _ = &self.len;
        let mut done = 0;
        while done < bytes.len() {
            done += self.put_some(low + done, &bytes[done..]);
        }
    }

    // Stores the first of these bytes, and says how many.
    fn put_some(&mut self, low: usize, bytes: &[u8]) -> usize
        requires some { 0 < length bytes.now }
        requires within { low + length bytes.now ≤ length self.old.items }
        ensures some { 0 < result }
        ensures within { result ≤ length bytes.now }
        ensures count { length self.new.items ≡ length self.old.items }
        ensures inner { (j : ℕ) → j < result
            → slice_index self.new.items (low + j) ≡ slice_index bytes.now j }
        ensures outer { (k : ℕ) → (k < low) ⊎ (low + result ≤ k)
            → slice_index self.new.items k ≡ slice_index self.old.items k }
    {
        let here = self.rest(low);
        let count = here.len().min(bytes.len());
        if here[..count] == bytes[..count] {
            return count;
        }
        if low % PAGE == 0 && bytes.len() >= PAGE && !self.own.has(low) {
            self.own.store(low / PAGE, &bytes[..PAGE]);
            return PAGE;
        }
        make_own(&mut self.own, &self.base, low);
        self.own.put(low, &bytes[..count]);
        count
    }

    /// Takes the bytes of a part back.
    pub fn take_part(&mut self, low: usize, part: &FileBytes)
        requires { low + length part.now.items ≤ length self.old.items }
        ensures count { length self.new.items ≡ length self.old.items }
        ensures inner { (j : ℕ) → j < length part.now.items
            → slice_index self.new.items (low + j) ≡ slice_index part.now.items j }
        ensures outer { (k : ℕ) → (k < low) ⊎ (low + length part.now.items ≤ k)
            → slice_index self.new.items k ≡ slice_index self.old.items k }
    {
        let _ = &self.len;
        let mut done = 0;
        while done < part.len {
            done += self.take_some(low + done, part, done);
        }
    }

    // Takes the bytes of a part back from one of its places on, and says how many.
    fn take_some(&mut self, low: usize, part: &FileBytes, from: usize) -> usize
        requires some { from < length part.now.items }
        requires within { low + (length part.now.items - from) ≤ length self.old.items }
        ensures some { 0 < result }
        ensures within { from + result ≤ length part.now.items }
        ensures count { length self.new.items ≡ length self.old.items }
        ensures inner { (j : ℕ) → j < result
            → slice_index self.new.items (low + j) ≡ slice_index part.now.items (from + j) }
        ensures outer { (k : ℕ) → (k < low) ⊎ (low + result ≤ k)
            → slice_index self.new.items k ≡ slice_index self.old.items k }
    {
        let zeros = part.blank(from).min(self.blank(low));
        if zeros > 0 {
            return zeros;
        }
        let bytes = part.rest(from);
        self.put(low, bytes);
        bytes.len()
    }

    /// Lets the bytes be shared without a copy.
    pub fn share(&mut self, alloc: Global) -> Result<SharedBytes, AllocError>
        ensures kept { self.new ≡ self.old }
        ensures shares { IfOk result (Shares self.old.items) }
    {
        stand_alone(&mut self.own, &self.base);
        let room = Pages::none(alloc, self.own.count())?;
        match Arc::new(alloc, mem::replace(&mut self.own, room)) {
            Ok(whole) => {
                let again = Arc::try_clone(&whole);
                self.base = Some(SharedBytes { whole, from: 0 });
                Ok(SharedBytes {
                    whole: again?,
                    from: 0,
                })
            }
            Err(failed) => {
                self.own = failed.value;
                Err(AllocError)
            }
        }
    }
}
