// The words of a region or a piece, with all that was done to them.
ghost use Rattle.std.specs.Prelude.{◌≡◌, ◌⊎◌, ℕ, ◌+◌, ◌-◌, ◌*◌, ◌^◌, ◌≤◌, ◌<◌, List, [], ◌∷◌, length, drop, slice_index, true, IfOk, OnOk, OnErr};
ghost use Rattle.pm_region.specs.Cell.{Cell, certain, store_at, flush_line, fence_range, unchanged};
ghost use Rattle.pm_region.specs.State.{State, Frame, IsTelling, cell_now};
ghost use Rattle.region_memory.specs.Journals.{act, cell_after, IsComplete, Closed, Reopens, SameSteps};
ghost use Rattle.region_memory.specs.Histories.{Outside};

use crate::crash_image::{ImageError, Pick, pick_words};
use crate::region_journal::Journal;
use crate::step::Step;
use pm_region::LINE_WORDS;
use std::alloc::{AllocError, Global};

/// The words from `first` on, as they were and as they are, and the steps between.
#[derive(Drop)]
pub struct History {
    /// A word number, counted from the start of the region.
    pub first: u64,
    /// The words before the first step, each certain.
    pub start: Vec<u64>,
    /// The words as they were stored last.
    pub words: Vec<u64>,
    /// The steps between, as far as it has room for them.
    pub journal: Journal,
    ghost same_length: { length words.items ≡ length start.items },
    ghost matches: { IsComplete journal → (k : ℕ) → k < length words.items
        → slice_index words.items k ≡ (cell_after journal.steps.items (first + k)
        (certain (slice_index start.items k))).last },
    ghost fits: { first + length words.items < 2 ^ 64 },
    ghost wide: { (k : ℕ) → k < length words.items → slice_index words.items k < 2 ^ 64 },
    ghost inside: { (w : ℕ) (c : Cell) → Outside first (length words.items) w
        → cell_after (drop journal.base journal.steps.items) w c ≡ c },
}

#[tactic(auto, using(crate::proofs::OutsideCells::last_steps, crate::proofs::OutsideCells::outside_steps))]
impl History {
    ghost use Rattle.region_memory.specs.Moves.{Moves, IsFresh, IsPart, Absorbs, SaysAgain, IsUpToDate, history_state};

    /// The words, each certain, with room for so many steps.
    pub fn new(alloc: Global, words: &[u64], steps: u64) -> Result<History, AllocError>
        ensures { IfOk result (IsFresh 0 words.now words.now steps) }
    {
        let start = words.to_vec(alloc)?;
        let words = words.to_vec(alloc)?;
        let journal = Journal::new(alloc, steps)?;
        Ok(History {
            first: 0,
            start,
            words,
            journal,
        })
    }

    /// How many words.
    pub fn len(&self) -> u64
        ensures { result ≡ length self.now.words.items }
    {
        self.words.len() as u64
    }

    /// The word at an address, as it was stored last.
    pub fn load(&self, at: u64) -> u64
        requires low { self.now.first ≤ at }
        requires high { at < self.now.first + length self.now.words.items }
        ensures { (f : Frame) (n : ℕ) → IsTelling (history_state f n self.now)
            → result ≡ (cell_now (history_state f n self.now) at).last }
    {
        self.words[(at - self.first) as usize]
    }

    /// Stores a word, and notes the step.
    pub fn store(&mut self, at: u64, value: u64)
        requires low { self.old.first ≤ at }
        requires high { at < self.old.first + length self.old.words.items }
        ensures { Moves self.old self.new (store_at at value) }
    {
        self.words[(at - self.first) as usize] = value;
        self.journal.record(Step::Store { at, value });
    }

    // A step that stores nothing.
    fn pass(&mut self, step: Step)
        requires lasts { (w : ℕ) (c : Cell) → (act step w c).last ≡ c.last }
        requires inside { (w : ℕ) (c : Cell) → Outside self.old.first (length self.old.words.items)
            w → act step w c ≡ c }
        ensures { Moves self.old self.new (act step) }
    {
        self.journal.record(step);
    }

    /// Flushes a line, and notes the step.
    pub fn flush(&mut self, line: u64)
        requires low { self.old.first ≤ LINE_WORDS * line }
        requires high { LINE_WORDS * line + LINE_WORDS
            ≤ self.old.first + length self.old.words.items }
        ensures { Moves self.old self.new (flush_line line) }
    {
        self.pass(Step::Flush { line });
    }

    /// A fence over a range of these words.
    pub fn fence(&mut self, first: u64, words: u64)
        requires low { self.old.first ≤ first }
        requires high { first + words ≤ self.old.first + length self.old.words.items }
        ensures { Moves self.old self.new (fence_range first words) }
    {
        self.pass(Step::Fence { first, words });
    }

    /// A fence that failed.
    pub fn stand(&mut self)
        ensures { Moves self.old self.new unchanged }
    {
        self.pass(Step::Nothing);
    }

    /// The words as they are, each certain.
    pub fn restart(&mut self, alloc: Global) -> Result<(), AllocError>
        ensures ok { OnOk result (IsFresh self.old.first self.old.words.items self.old.words.items
            self.old.journal.limit self.new) }
        ensures err { OnErr result (self.new ≡ self.old) }
    {
        let start = self.words.as_slice().to_vec(alloc)?;
        let journal = Journal::new(alloc, self.journal.limit)?;
        self.start = start;
        self.journal = journal;
        Ok(())
    }

    /// Makes room for the steps of so many pieces.
    pub fn make_room(&mut self, pieces: u64) -> Result<(), AllocError>
        ensures same { SaysAgain self.old self.new }
        ensures journal { SameSteps self.old.journal self.new.journal }
        ensures shares { OnOk result (pieces < self.new.journal.shares) }
    {
        self.journal.make_room(pieces)
    }

    /// The part from one word to another, as it stands.
    pub fn part(&self, alloc: Global, from: u64, end: u64) -> Result<History, AllocError>
        requires low { self.now.first ≤ from }
        requires rising { from ≤ end }
        requires high { end ≤ self.now.first + length self.now.words.items }
        ensures { IfOk result (IsPart self.now from end) }
    {
        let low = (from - self.first) as usize;
        let high = (end - self.first) as usize;
        let start = self.start[low..high].to_vec(alloc)?;
        let words = self.words[low..high].to_vec(alloc)?;
        let journal = self.journal.go_on(alloc, from, end)?;
        Ok(History {
            first: from,
            start,
            words,
            journal,
        })
    }

    /// From here on it tells nothing, and takes pieces back.
    pub fn close(&mut self)
        ensures same { SaysAgain self.old self.new }
        ensures journal { Closed self.old.journal self.new.journal }
    {
        self.journal.close();
    }

    /// Takes the words of a piece and, if there is room, its steps.
    pub fn absorb(&mut self, piece: &History) -> bool
        requires closed { self.old.journal.since ≡ 2 ^ 64 - 1 }
        requires low { self.old.first ≤ piece.now.first }
        requires high { piece.now.first + length piece.now.words.items ≤ self.old.first + length
            self.old.words.items }
        ensures { Absorbs self.old self.new piece.now result }
    {
        let low = (piece.first - self.first) as usize;
        overwrite(&mut self.words, low, &piece.words);
        self.journal.append(&piece.journal)
    }

    /// A new moment after this stamp, which it tells if it knows all.
    pub fn reopen(&mut self, after: u64, complete: bool)
        requires { complete ≡ true → IsUpToDate self.old }
        ensures same { SaysAgain self.old self.new }
        ensures journal { Reopens self.old.journal self.new.journal after complete }
    {
        self.journal.reopen(after, complete);
    }
}

impl History {
    ghost use Rattle.std.specs.Prelude.{IsErrOf};
    ghost use Rattle.region_memory.specs.Moves.{IsImageAt, IsToldBy};

    /// Whether it tells what a crash at this stamp may have left.
    pub fn tells(&self, stamp: u64) -> bool
        ensures yes { result ≡ true → IsToldBy self.now.journal stamp }
        ensures no { IsToldBy self.now.journal stamp → result ≡ true }
    {
        let journal = &self.journal;
        journal.since <= stamp
            && stamp <= journal.stamp
            && stamp <= journal.limit
            && stamp < u64::MAX
    }

    /// The words of one image that a crash at this stamp may have left.
    pub fn image(&self, alloc: Global, stamp: u64, pick: Pick) -> Result<Vec<u64>, ImageError>
        ensures not_told { IsErrOf result ImageError.NotTold → IsToldBy self.now.journal stamp → ⊥ }
        ensures told { OnOk result (IsToldBy self.now.journal stamp) }
        ensures words { IfOk result (λ image. IsImageAt self.now stamp pick image.items) }
    {
        if !self.tells(stamp) {
            return Err(ImageError::NotTold);
        }
        let journal = &self.journal;
        let count = (journal.base + (stamp - journal.since)) as usize;
        let steps = &journal.steps[..count];
        let image = pick_words(alloc, self.first, &self.start, steps, pick)?;
        Ok(image)
    }
}

impl History {
    ghost use Rattle.region_memory.specs.Reads.{word_in};

    /// The word at an address, whether it tells or not.
    pub fn word(&self, at: u64) -> u64
        requires low { self.now.first ≤ at }
        requires high { at < self.now.first + length self.now.words.items }
        ensures { result ≡ word_in self.now at }
    {
        self.words[(at - self.first) as usize]
    }
}

// Writes over a part of the words.
fn overwrite(words: &mut Vec<u64>, low: usize, part: &[u64])
    requires { low + length part.now ≤ length words.old.items }
    ensures same_length { length words.new.items ≡ length words.old.items }
    ensures inner { (k : ℕ) → k < length part.now → slice_index words.new.items (low + k)
        ≡ slice_index part.now k }
    ensures outer { (k : ℕ) → (k < low) ⊎ (low + length part.now ≤ k)
        → slice_index words.new.items k ≡ slice_index words.old.items k }
{
    for (i, word) in part.iter().enumerate() {
        words[low + i] = *word;
    }
}
