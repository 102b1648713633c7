// Bytes that have several owners.
ghost use Rattle.std.specs.Prelude.{◌≡◌, ℕ, ◌+◌, ◌*◌, ◌%◌, ◌≤◌, ◌<◌, length, slice_index, IfOk};
ghost use Rattle.pm_region.specs.declared.region_sizes.TheConstants.{LINE_BYTES, MOST_BYTES};

use crate::pages::Pages;
use std::alloc::AllocError;
use std::sync::Arc;

/// The bytes of pages from a line on, which none of their owners changes.
#[derive(Drop)]
pub struct SharedBytes {
    pub whole: Arc<Pages>,
    pub from: usize,
    ghost lined: { from % LINE_BYTES ≡ 0 },
    ghost low: { from ≤ MOST_BYTES },
}

impl SharedBytes {
    ghost use Rattle.region_file.specs.Pages.{shared_byte};

    /// The bytes from a place on, with one owner more. They are not copied.
    pub fn part(&self, from: usize) -> Result<SharedBytes, AllocError>
        requires lined { from % LINE_BYTES ≡ 0 }
        requires low { self.now.from + from ≤ MOST_BYTES }
        ensures { IfOk result (λ s. (k : ℕ) → shared_byte s k ≡ shared_byte self.now (from + k)) }
    {
        let whole = Arc::try_clone(&self.whole)?;
        Ok(SharedBytes {
            whole,
            from: self.from + from,
        })
    }

    /// How many bytes are zeros from a place on, as far as is told without a look at them.
    pub fn blank(&self, at: usize) -> usize
        requires { at ≤ 2 * MOST_BYTES }
        ensures { (j : ℕ) → j < result → shared_byte self.now (at + j) ≡ 0 }
    {
        self.whole.blank(self.from + at)
    }

    /// Some bytes from a place on, which end where a line does.
    pub fn rest(&self, at: usize) -> &[u8]
        requires { at ≤ 2 * MOST_BYTES }
        ensures some { 0 < length result.now }
        ensures end { (at + length result.now) % LINE_BYTES ≡ 0 }
        ensures bytes { (j : ℕ) → j < length result.now
            → slice_index result.now j ≡ shared_byte self.now (at + j) }
    {
        self.whole.rest(self.from + at)
    }
}
