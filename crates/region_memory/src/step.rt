// One step of a region.
ghost use Rattle.std.specs.Prelude.{◌≡◌, ℕ, ◌+◌, ◌*◌, ◌/◌, ◌^◌, ◌≤◌, ◌<◌, false, take, IfOk};
ghost use Rattle.pm_region.specs.Cell.{Cell};
ghost use Rattle.region_memory.specs.Journals.{act, SameWithin};

use pm_region::LINE_WORDS;
use std::alloc::{AllocError, Global};

/// One call of a region. A fence has the range of words that it covers, and one that failed is `Nothing`.
#[derive(Clone, Copy)]
pub enum Step {
    /// A value to a word, counted from the start of the region.
    Store { at: u64, value: u64 },
    /// Of a line, by its first word's number divided by 8.
    Flush { line: u64 },
    /// Of so many words from the first on.
    Fence { first: u64, words: u64 },
    /// No word changes, and the stamp rises.
    Nothing,
}

impl Step {
    /// Whether it may change the cell of a word from one to another.
    pub fn touches(&self, from: u64, end: u64) -> bool
        ensures { result ≡ false → (w : ℕ) (c : Cell) → from ≤ w → w < end → act self.now w c ≡ c }
    {
        match *self {
            Step::Store { at, .. } => from <= at && at < end,
            Step::Flush { line } => {
                let low = line.saturating_mul(LINE_WORDS);
                low < end && from < low.saturating_add(LINE_WORDS)
            }
            Step::Fence { first, words } => first < end && from < first.saturating_add(words),
            Step::Nothing => false,
        }
    }
}

/// The steps that touch the words from one to another.
pub fn touching_steps(
    alloc: Global,
    steps: &[Step],
    from: u64,
    end: u64,
) -> Result<Vec<Step>, AllocError>
    ensures { IfOk result (λ own. SameWithin from end own.items steps.now) }
{
    let mut own = Vec::new(alloc);
    for step in steps {
        if step.touches(from, end) {
            own.push(*step)?;
        }
    }
    Ok(own)
}
