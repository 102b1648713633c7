// What the two regions in memory have in common: all but their counts.
ghost use Rattle.std.specs.Prelude.{◌≡◌, ℕ, ◌+◌, ◌-◌, ◌*◌, ◌^◌, ◌≤◌, ◌<◌, List, [], true, false, length, slice_index, slice_index_or, IfOk, OnOk, OnErr, IsErrOf};
ghost use Rattle.pm_region.specs.Cell.{Cell, certain, store_at, flush_line, fence_range, unchanged};
ghost use Rattle.pm_region.specs.State.{State, Frame, IsTold, IsTelling, cell_now};
ghost use Rattle.pm_region.specs.Split.{words_in};
ghost use Rattle.pm_region.specs.Bytes.{word_at};

use crate::crash_image::{ImageError, Pick};
use crate::history::History;
use crate::memory_piece::MemoryPiece;
use crate::pieces::{latest_stamp, take_back};
use pm_region::byte_words::words_of;
use pm_region::{LINE_WORDS, MOST_WORDS, WORD_BYTES};
use std::alloc::{AllocError, Global};

/// Words in memory with their whole history, and how they are attached and split. `bytes` is the length of what an
/// attach finds, which need not be whole words; `opens` counts the calls of attach and create,
/// `validations` the answers of revalidate.
#[derive(Drop)]
pub struct Volume {
    /// The words, of an attach that is still to come too.
    pub history: History,
    /// The words are the whole ones of them.
    pub bytes: u64,
    /// Whether it was attached or created. Before that it has no words.
    pub attached: bool,
    /// Whether the pieces of a split have them now.
    pub parted: bool,
    /// The cuts of the last split, in words from the region's start.
    pub cuts: Vec<u64>,
    /// Answered or refused. A split does not count here.
    pub opens: u64,
    /// How often it was found in its place.
    pub validations: u64,
    ghost at_zero: { history.first ≡ 0 },
    ghost long: { length history.words.items ≡ words_in bytes },
    ghost shared: { parted ≡ true → length cuts.items ≤ history.journal.shares },
    ghost within: { (i : ℕ) → i < length cuts.items
        → slice_index cuts.items i ≤ length history.words.items },
}

impl Volume {
    ghost use Rattle.region_memory.specs.Volumes.{volume_state, volume_words, found_in, limit_of, VolumeMoves, VolumeAttached, VolumeStays, VolumeParted, VolumeJoined, CamePart, TakesPart, ComesAfter};
    ghost use Rattle.region_memory.specs.Image.{picked};

    /// A volume whose attach finds these bytes, with room for so many steps.
    pub fn new(alloc: Global, bytes: &[u8], steps: u64) -> Result<Volume, AllocError>
        ensures found { IfOk result (λ v. (w : ℕ) → w < words_in (length bytes.now)
            → found_in v w ≡ word_at bytes.now w) }
        ensures closed { IfOk result (λ v. volume_words v ≡ 0) }
        ensures bytes { IfOk result (λ v. v.bytes ≡ length bytes.now) }
        ensures limit { IfOk result (λ v. limit_of v ≡ steps) }
    {
        let words = words_of(alloc, bytes)?;
        let history = History::new(alloc, &words, steps)?;
        Ok(Volume {
            history,
            bytes: bytes.len() as u64,
            attached: false,
            parted: false,
            cuts: Vec::new(alloc),
            opens: 0,
            validations: 0,
        })
    }

    /// A volume, not attached yet, whose attach finds one of the images that a crash at this stamp may have left.
    pub fn image(&self, alloc: Global, stamp: u64, pick: Pick) -> Result<Volume, ImageError>
        ensures not_told { IsErrOf result ImageError.NotTold → (r n : ℕ)
            → IsTold (volume_state self.now r n) stamp → ⊥ }
        ensures told { OnOk result ((r n : ℕ) → IsTold (volume_state self.now r n) stamp) }
        ensures image { IfOk result (λ v. (r n w : ℕ) → w < words_in self.now.bytes
            → found_in v w ≡ picked pick w ((volume_state self.now r n).cells stamp w)) }
        ensures closed { IfOk result (λ v. volume_words v ≡ 0) }
        ensures bytes { IfOk result (λ v. v.bytes ≡ self.now.bytes) }
        ensures limit { IfOk result (λ v. limit_of v ≡ limit_of self.now) }
    {
        let words = self.history.image(alloc, stamp, pick)?;
        let history = History::new(alloc, &words, self.history.journal.limit)?;
        Ok(Volume {
            history,
            bytes: self.bytes,
            attached: false,
            parted: false,
            cuts: Vec::new(alloc),
            opens: 0,
            validations: 0,
        })
    }

    /// How many words there are now: none before an attach, and none while it is split.
    pub fn words(&self) -> u64
        ensures { result ≡ volume_words self.now }
    {
        if self.attached && !self.parted {
            self.history.len()
        } else {
            0
        }
    }

    /// The number of this moment.
    pub fn stamp(&self) -> u64
        ensures { (r n : ℕ) → result ≡ (volume_state self.now r n).stamp }
    {
        self.history.journal.stamp
    }

    /// The word at an address, as it was stored last.
    pub fn load(&self, at: u64) -> u64
        requires { at < volume_words self.now }
        ensures { (r n : ℕ) → IsTelling (volume_state self.now r n)
            → result ≡ (cell_now (volume_state self.now r n) at).last }
    {
        self.history.load(at)
    }

    /// Stores a word, and notes the step.
    pub fn store(&mut self, at: u64, value: u64)
        requires { at < volume_words self.old }
        ensures { VolumeMoves self.old self.new (store_at at value) }
    {
        self.history.store(at, value);
    }

    /// Flushes a line, and notes the step.
    pub fn flush(&mut self, line: u64)
        requires { LINE_WORDS * line + LINE_WORDS ≤ volume_words self.old }
        ensures { VolumeMoves self.old self.new (flush_line line) }
    {
        self.history.flush(line);
    }

    /// A fence of all words, which notes the step.
    pub fn fence(&mut self)
        ensures { VolumeMoves self.old self.new (fence_range 0 (volume_words self.old)) }
    {
        let words = self.words();
        self.history.fence(0, words);
    }

    /// A fence that failed.
    pub fn stand(&mut self)
        ensures { VolumeMoves self.old self.new unchanged }
    {
        self.history.stand();
    }

    /// Begins with the words that it finds, each certain.
    pub fn attach(&mut self, alloc: Global) -> Result<(), AllocError>
        ensures ok { OnOk result (VolumeAttached self.old self.new self.old.bytes
            (found_in self.old)) }
        ensures wide { OnOk result ((w : ℕ) → w < volume_words self.new
            → found_in self.old w < 2 ^ 64) }
        ensures err { OnErr result (self.new ≡ self.old) }
        ensures opens { self.new.opens ≡ self.old.opens }
        ensures validations { self.new.validations ≡ self.old.validations }
        ensures limit { limit_of self.new ≡ limit_of self.old }
    {
        self.history.restart(alloc)?;
        self.attached = true;
        self.parted = false;
        self.cuts.clear();
        Ok(())
    }

    /// Begins with so many zero words, each certain.
    pub fn create(&mut self, alloc: Global, words: u64) -> Result<(), AllocError>
        requires { words ≤ MOST_WORDS }
        ensures ok { OnOk result (VolumeAttached self.old self.new (WORD_BYTES * words) (λ w. 0)) }
        ensures err { OnErr result (self.new ≡ self.old) }
        ensures opens { self.new.opens ≡ self.old.opens }
        ensures validations { self.new.validations ≡ self.old.validations }
        ensures limit { limit_of self.new ≡ limit_of self.old }
    {
        let zeros = vec![in alloc; 0; words as usize]?;
        self.history = History::new(alloc, &zeros, self.history.journal.limit)?;
        self.bytes = WORD_BYTES * words;
        self.attached = true;
        self.parted = false;
        self.cuts.clear();
        Ok(())
    }

    /// Parts it at these cuts, with room for the steps of so many pieces.
    pub fn part(&mut self, pieces: u64, cuts: Vec<u64>) -> Result<(), AllocError>
        requires whole { self.old.parted ≡ false }
        requires count { length cuts.items ≤ pieces + 1 }
        requires within { (i : ℕ) → i < length cuts.items → slice_index cuts.items i
            ≤ volume_words self.old }
        ensures ok { OnOk result (VolumeParted self.old self.new cuts.items) }
        ensures err { OnErr result (VolumeStays self.old self.new) }
        ensures opens { self.new.opens ≡ self.old.opens }
        ensures validations { self.new.validations ≡ self.old.validations }
        ensures limit { limit_of self.new ≡ limit_of self.old }
    {
        self.history.make_room(pieces)?;
        self.parted = true;
        self.cuts = cuts;
        Ok(())
    }

    /// Takes its pieces back.
    pub fn join<P>(&mut self, pieces: &[MemoryPiece<P>])
        requires parted { self.old.parted ≡ true }
        requires count { length pieces.now ≡ length self.old.cuts.items - 1 }
        requires pieces { (i : ℕ) (p : _) → i < length pieces.now
            → CamePart self.old i (slice_index_or pieces.now i p).history }
        ensures whole { VolumeJoined self.old self.new }
        ensures pieces { (i : ℕ) (p : _) → i < length pieces.now
            → TakesPart self.new (slice_index_or pieces.now i p).history }
        ensures next { ComesAfter (λ p. p.history) self.old self.new pieces.now }
        ensures opens { self.new.opens ≡ self.old.opens }
        ensures validations { self.new.validations ≡ self.old.validations }
        ensures limit { limit_of self.new ≡ limit_of self.old }
    {
        let before = self.history.journal.is_complete();
        let latest = latest_stamp(pieces, self.history.journal.stamp);
        self.history.close();
        let complete = take_back(&mut self.history, pieces, before);
        self.history.reopen(latest, complete);
        self.attached = true;
        self.parted = false;
        self.cuts.clear();
    }
}

impl Volume {
    ghost use Rattle.region_memory.specs.Volumes.{volume_words};
    ghost use Rattle.region_memory.specs.Reads.{word_in};

    /// The word at an address, whether it tells or not.
    pub fn word(&self, at: u64) -> u64
        requires { at < volume_words self.now }
        ensures { result ≡ word_in self.now.history at }
    {
        self.history.word(at)
    }
}
