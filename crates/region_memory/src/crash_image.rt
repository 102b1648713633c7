// The images that a crash may have left.
ghost use Rattle.std.specs.Prelude.{◌≡◌, ℕ, ◌+◌, ◌-◌, ◌%◌, ◌^◌, ◌≤◌, ◌<◌, length, slice_index, true, false, IfOk, OnOk};
ghost use Rattle.pm_region.specs.Cell.{Cell, certain, values};
ghost use Rattle.region_memory.specs.Image.{ArePicked};
ghost use Rattle.region_memory.specs.declared.crash_image.ImageError.TheVariants.{Memory};
ghost use Rattle.region_memory.specs.Journals.{act};

use crate::step::Step;
use crate::word_cells::cells_after;
use pm_region::LINE_WORDS;
use std::alloc::{AllocError, AllocFailed, Global};
use thiserror::Error;

/// Which value of each word's list an image has: the first, the last, or of word `w` the one numbered
/// `(w + n) mod length`.
#[derive(Clone, Copy, Debug, PartialEq, Eq)]
pub enum Pick {
    /// Of each word the first value, as if nothing had reached the device that is not certain.
    Oldest,
    /// Of each word the last value, as if all had reached it.
    Newest,
    /// The number `n`; `w` counts from the start of the region.
    Mixed(u64),
}

/// The values of a word: those before the mark, those from the mark on but for the last, and the last.
#[derive(Drop)]
pub struct CellData {
    /// The oldest first. A fence drops them.
    pub before: Vec<u64>,
    /// The oldest first.
    pub marked: Vec<u64>,
    /// What a load gives.
    pub last: u64,
}

impl CellData {
    ghost use Rattle.region_memory.specs.Image.{cell_of_data, picked};
    ghost use Rattle.region_memory.specs.CellLists.{HasOne};

    /// A word that has this value alone.
    pub fn new(alloc: Global, value: u64) -> CellData
        ensures { cell_of_data result ≡ certain value }
    {
        CellData {
            before: Vec::new(alloc),
            marked: Vec::new(alloc),
            last: value,
        }
    }

    /// Takes one step, as the cell of the word `w`.
    pub fn act(&mut self, step: Step, w: u64) -> Result<(), AllocError>
        ensures { OnOk result (cell_of_data self.new ≡ act step w (cell_of_data self.old)) }
    {
        match step {
            Step::Store { at, value } => {
                if at == w {
                    self.marked.push(self.last)?;
                    self.last = value;
                }
            }
            Step::Flush { line } => {
                if w / LINE_WORDS == line {
                    self.before.extend_from_slice(&self.marked)?;
                    self.marked.clear();
                }
            }
            Step::Fence { first, words } => {
                if first <= w && w - first < words {
                    self.before.clear();
                }
            }
            Step::Nothing => {}
        }
        Ok(())
    }

    /// Whether it has one value alone.
    pub fn has_one(&self) -> bool
        ensures yes { result ≡ true → HasOne (cell_of_data self.now) }
        ensures no { result ≡ false → HasOne (cell_of_data self.now) → ⊥ }
    {
        self.before.is_empty() && self.marked.is_empty()
    }

    /// The value at a place of the list, oldest first.
    pub fn value(&self, k: usize) -> u64
        requires { k < length (values (cell_of_data self.now)) }
        ensures { result ≡ slice_index (values (cell_of_data self.now)) k }
    {
        if k < self.before.len() {
            self.before[k]
        } else if k - self.before.len() < self.marked.len() {
            self.marked[k - self.before.len()]
        } else {
            self.last
        }
    }

    /// The value that an image has of the word `w`.
    pub fn pick(&self, pick: Pick, w: u64) -> u64
        ensures { result ≡ picked pick w (cell_of_data self.now) }
    {
        match pick {
            Pick::Oldest => self.value(0),
            Pick::Newest => self.last,
            Pick::Mixed(n) => {
                let length = self.before.len() as u128 + self.marked.len() as u128 + 1;
                let k = (w as u128 + n as u128) % length;
                self.value(k as usize)
            }
        }
    }
}

/// The words of the image that is picked after these steps, of words that were these at first, from `first` on.
pub fn pick_words(
    alloc: Global,
    first: u64,
    start: &[u64],
    steps: &[Step],
    pick: Pick,
) -> Result<Vec<u64>, AllocError>
    requires fits { first + length start.now < 2 ^ 64 }
    ensures { IfOk result (λ image. ArePicked first start.now steps.now pick image.items
        (length start.now)) }
{
    let cells = cells_after(alloc, first, start, steps)?;
    let mut image = Vec::with_capacity(alloc, start.len())?;
    for k in 0..start.len() {
        image.push(cells[k].pick(pick, first + k as u64))?;
    }
    Ok(image)
}

/// Why there is no image of a stamp.
#[derive(Clone, Copy, Debug, PartialEq, Eq, Error)]
pub enum ImageError {
    /// The region doesn't tell what a crash at that stamp may have left.
    #[error("the stamp is not told")]
    NotTold,
    /// There was none for the image.
    #[error("out of memory")]
    Memory,
}

impl From<AllocError> for ImageError {
    ghost from_gives = { λ _ e. e ≡ Memory };

    fn from(_: AllocError) -> Self {
        ImageError::Memory
    }
}

impl<T: Drop> From<AllocFailed<T>> for ImageError {
    ghost from_gives = { λ _ e. e ≡ Memory };

    fn from(_: AllocFailed<T>) -> Self {
        ImageError::Memory
    }
}
