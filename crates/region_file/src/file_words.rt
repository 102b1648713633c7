// Words of a file, kept in memory.
ghost use Rattle.std.specs.Prelude.{◌≡◌, ℕ, ◌+◌, ◌-◌, ◌*◌, ◌/◌, ◌%◌, ◌≤◌, ◌<◌, length};
ghost use Rattle.pm_region.specs.declared.region_sizes.TheConstants.{LINE_WORDS, WORD_BYTES};
ghost use Rattle.pm_region.specs.Split.{words_in};

use crate::device::Device;
use crate::file_bytes::FileBytes;
use crate::line_runs::write_runs;
use crate::line_set::LineSet;
use crate::shared_bytes::SharedBytes;
use pm_region::byte_words::word_count;
use pm_region::{LINE_WORDS, MOST_BYTES, RegionFault, WORD_BYTES};
use std::alloc::{AllocError, Global};

/// Words by their place, as bytes with the lowest of each word first. `size` is how many bytes the file or the
/// piece has, which need not be whole words. `flushed` are the lines that the next fence writes, by their place: a line
/// that isn't whole is never among them.
#[derive(Drop)]
pub struct FileWords {
    /// In bytes.
    pub size: u64,
    /// Eight to a word; bytes of the file behind its last whole word are not here.
    pub bytes: FileBytes,
    /// Counted from the first line of these words.
    pub flushed: LineSet,
    ghost whole: { length bytes.items ≡ WORD_BYTES * words_in size },
    ghost lines: { length flushed.marks.items ≡ words_in size / LINE_WORDS },
}

impl FileWords {
    ghost use Rattle.std.specs.Prelude.{IfOk, OnOk, OnErr, false, true};
    ghost use Rattle.region_file.specs.Pages.{Shares};
    ghost use Rattle.region_file.specs.Filed.{IsStored, IsFlushed, IsKept, IsFenced, IsCutShort, IsPart, TakesPart, flushes, word_of};

    /// No words.
    pub fn none(alloc: Global) -> FileWords
        ensures size { result.size ≡ 0 }
        ensures none { (line : ℕ) → flushes result line ≡ false }
    {
        FileWords {
            size: 0,
            bytes: FileBytes::none(alloc),
            flushed: LineSet::none(alloc),
        }
    }

    /// These words, of a file or piece of so many bytes. It takes the room for every line once.
    pub fn new(alloc: Global, size: u64, bytes: FileBytes) -> Result<FileWords, AllocError>
        requires { length bytes.items ≡ WORD_BYTES * words_in size }
        ensures size { IfOk result (λ w. w.size ≡ size) }
        ensures bytes { IfOk result (λ w. w.bytes ≡ bytes) }
        ensures none { IfOk result (λ w. (line : ℕ) → flushes w line ≡ false) }
    {
        let flushed = LineSet::new(alloc, (word_count(size) / LINE_WORDS) as u32)?;
        Ok(FileWords {
            size,
            bytes,
            flushed,
        })
    }

    /// The word at a place.
    pub fn load(&self, place: u64) -> u64
        requires { place < words_in self.now.size }
        ensures { result ≡ word_of self.now place }
    {
        self.bytes.word(place)
    }

    /// Stores a word at a place, in memory alone.
    pub fn store(&mut self, place: u64, value: u64)
        requires { place < words_in self.old.size }
        ensures { IsStored self.old self.new place value }
    {
        self.bytes.set_word(place, value);
    }

    /// Remembers a line. It takes no memory.
    pub fn flush(&mut self, line: u64)
        requires { LINE_WORDS * line + LINE_WORDS ≤ words_in self.old.size }
        ensures { IsFlushed self.old self.new line }
    {
        self.flushed.insert(line as u32);
    }

    /// Whether nothing is flushed.
    pub fn is_clean(&self) -> bool
        ensures { result ≡ true → (line : ℕ) → flushes self.now line ≡ false }
    {
        self.flushed.lines.is_empty()
    }

    /// Writes the flushed lines to the file, where these words begin at the byte `start`, each run of neighbours at
    /// once, and syncs it. Where that fails they stay flushed.
    pub fn write_flushed(&mut self, device: &mut Device, start: u64) -> Result<(), RegionFault>
        requires { start ≤ MOST_BYTES }
        ensures ok { OnOk result (IsFenced self.old self.new start device.old.calls.made
            device.new.calls.made) }
        ensures err { OnErr result (IsKept self.old self.new) }
        ensures err_calls { OnErr result (IsCutShort self.new start device.old.calls.made
            device.new.calls.made) }
    {
        self.flushed.sort();
        write_runs(device, start, &self.flushed.lines, &self.bytes)?;
        device.sync()?;
        self.flushed.clear();
        Ok(())
    }

    /// Lets the words be shared without a copy.
    pub fn share(&mut self, alloc: Global) -> Result<SharedBytes, AllocError>
        ensures kept { self.new ≡ self.old }
        ensures shares { IfOk result (Shares self.old.bytes.items) }
    {
        self.bytes.share(alloc)
    }

    /// The words from one place to another, which are shared, with nothing flushed.
    pub fn part(
        &self,
        alloc: Global,
        shared: &SharedBytes,
        from: u64,
        end: u64,
    ) -> Result<FileWords, AllocError>
        requires shares { Shares self.now.bytes.items shared.now }
        requires whole { from % LINE_WORDS ≡ 0 }
        requires rising { from ≤ end }
        requires high { end ≤ words_in self.now.size }
        ensures { IfOk result (IsPart self.now from end) }
    {
        let base = shared.part((WORD_BYTES * from) as usize)?;
        let size = WORD_BYTES * (end - from);
        let bytes = FileBytes::shared(alloc, size as usize, base)?;
        let part = FileWords::new(alloc, size, bytes)?;
        Ok(part)
    }

    /// Takes the words of a part back that begins at the place `first`, with what is flushed of them.
    pub fn absorb(&mut self, part: &FileWords, first: u64)
        requires whole { first % LINE_WORDS ≡ 0 }
        requires within { first + words_in part.now.size ≤ words_in self.old.size }
        ensures { TakesPart self.old self.new part.now first }
    {
        self.bytes
            .take_part((WORD_BYTES * first) as usize, &part.bytes);
        self.flushed
            .insert_all(&part.flushed, (first / LINE_WORDS) as u32);
    }
}
