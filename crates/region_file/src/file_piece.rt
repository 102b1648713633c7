// A piece of a region in a file.
ghost use Rattle.std.specs.Prelude.{◌≡◌, ℕ, ◌+◌, ◌-◌, ◌*◌, ◌/◌, ◌%◌, ◌≤◌, ◌<◌, ◌∷◌, OnOk, OnErr};
ghost use Rattle.pm_region.specs.Cell.{store_at, flush_line, fence_range, unchanged};
ghost use Rattle.pm_region.specs.declared.region_sizes.TheConstants.{LINE_WORDS, MOST_WORDS};
ghost use Rattle.pm_region.specs.State.{Goes, InRange, LineInRange, IsTelling, cell_now, Faulted};

use crate::device::Device;
use crate::file_open::fence_sized;
use crate::file_words::FileWords;
use pm_region::byte_words::word_count;
use pm_region::{LINE_WORDS, ReadRegion, Region, RegionFault, WORD_BYTES};

/// A piece of a `FileRegion`, which has opened the file for itself. The region has the file's lock.
#[derive(Drop)]
pub struct FilePiece {
    pub(crate) first: u64,
    /// How many bytes the file had when it was attached.
    pub(crate) size: u64,
    pub(crate) words: FileWords,
    pub(crate) device: Device,
    pub(crate) since: u64,
    pub(crate) stamp: u64,
    pub(crate) faults: u64,
    ghost whole: { first % LINE_WORDS ≡ 0 },
    ghost low: { first ≤ MOST_WORDS },
}

impl Region for FilePiece {
    ghost use Rattle.region_file.specs.Files.{file_piece_state};
    ghost use Rattle.region_file.specs.Calls.{measured};
    ghost use Rattle.region_file.specs.Filed.{word_of, IsStored, IsFlushed, IsFenced, IsNotFenced, IsKept};

    ghost state = { file_piece_state };

    fn first(&self) -> u64 {
        self.first
    }

    fn words(&self) -> u64 {
        word_count(self.words.size)
    }

    fn load(&self, at: u64) -> u64
        requires { InRange (file_piece_state self.now).frame at }
        ensures told { IsTelling (file_piece_state self.now)
            → result ≡ (cell_now (file_piece_state self.now) at).last }
        ensures word { result ≡ word_of self.now.words (at - self.now.first) }
    {
        self.words.load(at - self.first)
    }

    fn store(&mut self, at: u64, value: u64)
        requires { InRange (file_piece_state self.old).frame at }
        ensures goes { Goes (file_piece_state self.old) (file_piece_state self.new)
            (store_at at value) }
        ensures stored { IsStored self.old.words self.new.words (at - self.old.first) value }
    {
        self.words.store(at - self.first, value);
        self.stamp = self.stamp.saturating_add(1);
    }

    fn flush(&mut self, line: u64)
        requires { LineInRange (file_piece_state self.old).frame line }
        ensures goes { Goes (file_piece_state self.old) (file_piece_state self.new)
            (flush_line line) }
        ensures flushed { IsFlushed self.old.words self.new.words
            (line - self.old.first / LINE_WORDS) }
    {
        self.words.flush(line - self.first / LINE_WORDS);
        self.stamp = self.stamp.saturating_add(1);
    }

    fn fence(&mut self) -> Result<(), RegionFault>
        ensures ok { OnOk result (Goes (file_piece_state self.old) (file_piece_state self.new)
            (fence_range (file_piece_state self.old).frame.first
            (file_piece_state self.old).frame.words)) }
        ensures err { OnErr result (Goes (file_piece_state self.old) (file_piece_state self.new)
            unchanged) }
        ensures cause { OnErr result (Faulted (file_piece_state self.old)
            (file_piece_state self.new)) }
        ensures fenced { OnOk result (IsFenced self.old.words self.new.words
            (WORD_BYTES * self.old.first) (measured self.old.size ∷ self.old.device.calls.made)
            self.new.device.calls.made) }
        ensures kept { OnErr result (IsKept self.old.words self.new.words) }
        ensures not_fenced { OnErr result (IsNotFenced self.new.words (WORD_BYTES * self.old.first)
            self.old.device.calls.made (measured self.old.size ∷ self.old.device.calls.made)
            self.new.device.calls.made) }
    {
        self.stamp = self.stamp.saturating_add(1);
        let start = WORD_BYTES * self.first;
        match fence_sized(&mut self.words, &mut self.device, start, self.size) {
            Ok(()) => Ok(()),
            Err(e) => {
                self.faults = self.faults.saturating_add(1);
                Err(e)
            }
        }
    }

    fn stamp(&self) -> u64 {
        self.stamp
    }

    fn faults(&self) -> u64 {
        self.faults
    }
}

impl ReadRegion for FilePiece {
    ghost use Rattle.std.proofs.Common.{rules};
    ghost use Rattle.region_file.specs.Filed.{word_of};

    ghost word = { λ p w. word_of p.words (w - p.first) };

    // It tells nothing.
    ghost tells = { λ p w telling. Prim.search rules };

    fn word(&self, at: u64) -> u64 {
        self.words.load(at - self.first)
    }
}
