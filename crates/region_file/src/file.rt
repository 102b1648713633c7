// A region in a file.
ghost use Rattle.std.specs.Prelude.{◌≡◌, ℕ, ◌+◌, ◌-◌, ◌*◌, ◌^◌, ◌≤◌, ◌<◌, true, false, [], Some, length, slice_index, slice_index_or, string_bytes, IfOk, OnOk, OnErr, IsErrOf, Err};
ghost use Rattle.pm_region.specs.Cell.{MayBe, store_at, flush_line, fence_range, unchanged};
ghost use Rattle.pm_region.specs.State.{State, Goes, InRange, LineInRange, IsTelling, cell_now, Faulted, Rose};
ghost use Rattle.pm_region.specs.Split.{words_in, AreCuts};

use crate::calls::Calls;
use crate::device::Device;
use crate::file_open::{create_words, fence_file, find_in_place, open_words, write_pending};
use crate::file_piece::FilePiece;
use crate::file_pieces::{absorb_all, file_pieces, latest_of, most_faults};
use crate::file_words::FileWords;
use pm_region::byte_words::word_count;
use pm_region::{
    AttachError, MOST_WORDS, ReadRegion, Region, RegionFault, SplitRegion, WORD_BYTES,
};
use std::alloc::Global;
use std::fs::File;
use std::rt::Files;

/// A region in a regular file, which is locked while it is attached. It keeps the words in memory; a fence asks whether
/// the name still leads to the file and the file has its length, writes the flushed lines and syncs the file. A file
/// that is missing, is locked or can't be read or written is a fault, which is counted. A file that can only be read is
/// attached too, and its first fence is a fault. A region that is created is a new file, which takes the name of the
/// old one when it is whole. It tells nothing of its contents.
#[derive(Drop)]
pub struct FileRegion<R: Files<File = File> + Drop> {
    rt: R,
    path: String,
    device: Option<Device>,
    words: FileWords,
    parted: bool,
    cuts: Vec<u64>,
    since: u64,
    stamp: u64,
    faults: u64,
    refusals: u64,
    opens: u64,
    validations: u64,
    /// What the last attach, create or split tried, where it was refused. Only clauses read it.
    tried: Calls,
    ghost cuts_fit: { AreCuts (words_in words.size) cuts.items },
}

impl<R: Files<File = File> + Drop> FileRegion<R> {
    ghost use Rattle.region_file.specs.Files.{file_state};

    /// The region in the file of this name. It touches no file until it is attached or created.
    pub fn at(rt: R, path: String) -> FileRegion<R>
        ensures closed { ((file_state result).frame.words ≡ 0)
            × ((file_state result).frame.parted ≡ false) }
        ensures counts { ((file_state result).faults ≡ 0) × ((file_state result).frame.refusals ≡ 0)
            × ((file_state result).frame.opens ≡ 0)
            × ((file_state result).frame.validations ≡ 0) }
    {
        let alloc = *path.allocator();
        FileRegion {
            rt,
            path,
            device: None,
            words: FileWords::none(alloc),
            parted: false,
            cuts: Vec::new(alloc),
            since: 0,
            stamp: 0,
            faults: 0,
            refusals: 0,
            opens: 0,
            validations: 0,
            tried: Calls::none(),
        }
    }
}

impl<R: Files<File = File> + Drop> Region for FileRegion<R> {
    ghost use Rattle.region_file.specs.Files.{file_state};
    ghost use Rattle.region_file.specs.Filed.{word_of, calls_on, looked, IsStored, IsFlushed, IsFenced, IsNotFenced, IsKept};

    ghost state = { λ r. file_state r };

    fn first(&self) -> u64 {
        0
    }

    fn words(&self) -> u64 {
        if self.parted {
            0
        } else {
            word_count(self.words.size)
        }
    }

    fn load(&self, at: u64) -> u64
        requires { InRange (file_state self.now).frame at }
        ensures told { IsTelling (file_state self.now)
            → result ≡ (cell_now (file_state self.now) at).last }
        ensures word { result ≡ word_of self.now.words at }
    {
        self.words.load(at)
    }

    fn store(&mut self, at: u64, value: u64)
        requires { InRange (file_state self.old).frame at }
        ensures goes { Goes (file_state self.old) (file_state self.new) (store_at at value) }
        ensures stored { IsStored self.old.words self.new.words at value }
    {
        self.words.store(at, value);
        self.stamp = self.stamp.saturating_add(1);
    }

    fn flush(&mut self, line: u64)
        requires { LineInRange (file_state self.old).frame line }
        ensures goes { Goes (file_state self.old) (file_state self.new) (flush_line line) }
        ensures flushed { IsFlushed self.old.words self.new.words line }
    {
        self.words.flush(line);
        self.stamp = self.stamp.saturating_add(1);
    }

    fn fence(&mut self) -> Result<(), RegionFault>
        ensures ok { OnOk result (Goes (file_state self.old) (file_state self.new)
            (fence_range (file_state self.old).frame.first (file_state self.old).frame.words)) }
        ensures err { OnErr result (Goes (file_state self.old) (file_state self.new) unchanged) }
        ensures cause { OnErr result (Faulted (file_state self.old) (file_state self.new)) }
        ensures fenced { OnOk result (IsFenced self.old.words self.new.words 0
            (looked (string_bytes self.old.path) self.old.words.size (calls_on self.old.device))
            (calls_on self.new.device)) }
        ensures kept { OnErr result (IsKept self.old.words self.new.words) }
        ensures not_fenced { OnErr result (IsNotFenced self.new.words 0 (calls_on self.old.device)
            (looked (string_bytes self.old.path) self.old.words.size (calls_on self.old.device))
            (calls_on self.new.device)) }
    {
        self.stamp = self.stamp.saturating_add(1);
        match fence_file(&self.rt, &self.path, &mut self.words, &mut self.device) {
            Ok(()) => Ok(()),
            Err(e) => {
                self.faults = self.faults.saturating_add(1);
                Err(e)
            }
        }
    }

    fn stamp(&self) -> u64 {
        self.stamp
    }

    fn faults(&self) -> u64 {
        self.faults
    }
}

impl<R: Files<File = File> + Drop> ReadRegion for FileRegion<R> {
    ghost use Rattle.std.proofs.Common.{rules};
    ghost use Rattle.region_file.specs.Filed.{word_of};

    ghost word = { λ r. word_of r.words };

    // It tells nothing.
    ghost tells = { λ r w telling. Prim.search rules };

    fn word(&self, at: u64) -> u64 {
        self.words.load(at)
    }
}

impl<R: Files<File = File> + Drop> SplitRegion for FileRegion<R> {
    ghost use Rattle.region_file.specs.Files.{file_state, file_piece_state, file_frame, AreFileParts, HaveTaken, HasOpened, HasMade};
    ghost use Rattle.region_file.specs.Calls.{AreReads, OnlyReads};
    ghost use Rattle.region_file.specs.Filed.{flushes, calls_on, looked, IsSettled, IsNotSplit, IsNotAttached, IsNotMade};
    ghost use Rattle.pm_region.specs.Split.{Attached, Stays, Refuses, IsPiece, Parted, CameFrom, TakesPiece, Joined, IsOpenedOnceMore, IsNotOpened, IsRevalidated, IsOutOfPlace, IsNotRevalidated, ComesNext};

    type Piece = FilePiece;

    ghost found = { λ r w. 0 };

    fn bytes(&self) -> u64 {
        self.words.size
    }

    fn attach(&mut self, alloc: Global) -> Result<(), AttachError>
        ensures ok { OnOk result (Attached (file_state self.old) (file_state self.new)
            (file_state self.new).frame.bytes (λ w. 0)) }
        ensures bytes { OnOk result (IsTelling (file_state self.new)
            → (file_state self.new).frame.bytes ≡ (file_state self.old).frame.bytes) }
        ensures err { OnErr result (Stays (file_state self.old) (file_state self.new)) }
        ensures cause { Refuses (file_state self.old) (file_state self.new) result }
        ensures finds { (w : ℕ) → IsTelling (file_state self.old)
            → InRange (file_state self.old).frame w → MayBe (cell_now (file_state self.old) w) 0 }
        ensures words { OnOk result ((w : ℕ) → InRange (file_state self.new).frame w → 0 < 2 ^ 64) }
        ensures opens { IsOpenedOnceMore (file_state self.old) (file_state self.new) }
        ensures validations { IsNotRevalidated (file_state self.old) (file_state self.new) }
        ensures opened { OnOk result (HasOpened (string_bytes self.old.path) self.new.device
            self.new.words) }
        ensures refused { OnErr result (IsNotAttached (string_bytes self.old.path)
            self.new.tried.made) }
    {
        self.opens = self.opens.saturating_add(1);
        // Its own lock goes first, with the file.
        self.device = None;
        match open_words(alloc, &self.rt, &self.path, &mut self.tried) {
            Ok((device, words)) => {
                self.device = Some(device);
                self.begin(words);
                Ok(())
            }
            Err(e) => {
                self.refuse(e);
                Err(e)
            }
        }
    }

    fn create(&mut self, alloc: Global, words: u64) -> Result<(), AttachError>
        requires { words ≤ MOST_WORDS }
        ensures ok { OnOk result (Attached (file_state self.old) (file_state self.new)
            (WORD_BYTES * words) (λ w. 0)) }
        ensures none { OnErr result ((file_state self.new).frame.words ≡ 0) }
        ensures cause { Refuses (file_state self.old) (file_state self.new) result }
        ensures opens { IsOpenedOnceMore (file_state self.old) (file_state self.new) }
        ensures validations { IsNotRevalidated (file_state self.old) (file_state self.new) }
        ensures made { OnOk result (HasMade (string_bytes self.old.path) words self.new.device
            self.new.words) }
        ensures refused { OnErr result (IsNotMade (string_bytes self.old.path) words
            self.new.tried.made) }
    {
        self.opens = self.opens.saturating_add(1);
        self.device = None;
        self.begin(FileWords::none(alloc));
        match create_words(alloc, &self.rt, &self.path, words, &mut self.tried) {
            Ok((device, words)) => {
                self.device = Some(device);
                self.begin(words);
                Ok(())
            }
            Err(e) => {
                self.refuse(e);
                Err(e)
            }
        }
    }

    fn revalidate(&mut self) -> Result<(), RegionFault>
        ensures ok { OnOk result (IsRevalidated (file_state self.old) (file_state self.new)) }
        ensures err { OnErr result (IsOutOfPlace (file_state self.old) (file_state self.new)) }
        ensures words { self.new.words ≡ self.old.words }
        ensures found { OnOk result (calls_on self.new.device ≡ looked (string_bytes self.old.path)
            self.old.words.size (calls_on self.old.device)) }
        ensures not_found { OnErr result (OnlyReads (calls_on self.old.device)
            (calls_on self.new.device)) }
    {
        match find_in_place(&self.rt, &self.path, self.words.size, &mut self.device) {
            Ok(()) => {
                self.validations = self.validations.saturating_add(1);
                Ok(())
            }
            Err(e) => {
                self.faults = self.faults.saturating_add(1);
                Err(e)
            }
        }
    }

    fn split(&mut self, alloc: Global, cuts: &[u64]) -> Result<Vec<FilePiece>, AttachError>
        requires whole { (file_state self.old).frame.parted ≡ false }
        requires cuts { AreCuts (file_state self.old).frame.words cuts.now }
        ensures count { IfOk result (λ pieces. length pieces.items ≡ length cuts.now - 1) }
        ensures pieces { IfOk result (λ pieces. (i : ℕ) (p : FilePiece) → i < length pieces.items
            → IsPiece (file_state self.old) cuts.now i
            (file_piece_state (slice_index_or pieces.items i p))) }
        ensures ok { OnOk result (Parted (file_state self.old) (file_state self.new) cuts.now) }
        ensures err { OnErr result (Stays (file_state self.old) (file_state self.new)) }
        ensures cause { Refuses (file_state self.old) (file_state self.new) result }
        ensures opens { IsNotOpened (file_state self.old) (file_state self.new) }
        ensures validations { IsNotRevalidated (file_state self.old) (file_state self.new) }
        ensures parts { IfOk result (λ pieces. AreFileParts (string_bytes self.old.path)
            self.old.words cuts.now self.old.stamp self.old.faults pieces.items
            (length cuts.now - 1)) }
        ensures clean { OnOk result ((line : ℕ) → flushes self.new.words line ≡ false) }
        ensures written { OnOk result (IsSettled (string_bytes self.old.path) self.old.words
            self.new.words (calls_on self.old.device) (calls_on self.new.device)) }
        ensures refused { OnErr result (IsNotSplit (string_bytes self.old.path) self.old.words
            self.new.words (calls_on self.old.device) (calls_on self.new.device)) }
        ensures tried { OnErr result (AreReads self.new.tried.made) }
    {
        self.tried = Calls::none();
        let kept = cuts.to_vec(alloc)?;
        let shared = self.words.share(alloc)?;
        if write_pending(&self.rt, &self.path, &mut self.words, &mut self.device).is_err() {
            self.refuse(AttachError::RegionFault);
            return Err(AttachError::RegionFault);
        }
        match file_pieces(
            alloc,
            &self.rt,
            &self.device,
            &self.words,
            &shared,
            cuts,
            &self.path,
            self.stamp,
            self.faults,
            &mut self.tried,
        ) {
            Ok(pieces) => {
                self.parted = true;
                self.cuts = kept;
                Ok(pieces)
            }
            Err(e) => {
                self.refuse(e);
                Err(e)
            }
        }
    }

    fn join(&mut self, pieces: Vec<FilePiece>)
        requires parted { (file_state self.old).frame.parted ≡ true }
        requires count { length pieces.items ≡ length (file_state self.old).frame.cuts - 1 }
        requires pieces { (i : ℕ) (p : FilePiece) → i < length pieces.items
            → CameFrom (file_state self.old) i (file_piece_state
            (slice_index_or pieces.items i p)) }
        ensures whole { Joined (file_state self.old) (file_state self.new) }
        ensures pieces { (i : ℕ) (p : FilePiece) → i < length pieces.items
            → TakesPiece (file_state self.new) (file_piece_state
            (slice_index_or pieces.items i p)) }
        ensures next { ComesNext file_piece_state (file_state self.old) (file_state self.new)
            pieces.items }
        ensures opens { IsNotOpened (file_state self.old) (file_state self.new) }
        ensures validations { IsNotRevalidated (file_state self.old) (file_state self.new) }
        ensures taken { HaveTaken self.old.words self.new.words pieces.items (length pieces.items) }
    {
        let latest = latest_of(&pieces, self.stamp);
        self.stamp = latest.saturating_add(1);
        self.since = self.stamp;
        self.faults = most_faults(&pieces, self.faults);
        absorb_all(&mut self.words, &pieces);
        self.parted = false;
        self.cuts.clear();
    }
}

impl<R: Files<File = File> + Drop> FileRegion<R> {
    ghost use Rattle.region_file.specs.Files.{file_state, file_frame};

    // Begins with these words.
    fn begin(&mut self, words: FileWords)
        ensures frame { ((file_state self.new).frame ≡ file_frame words.size false [] 0
            self.old.refusals self.old.opens self.old.validations)
            × ((file_state self.new).stamp ≡ 0) }
        ensures counts { (self.new.faults ≡ self.old.faults)
            × (self.new.refusals ≡ self.old.refusals) }
        ensures file { (self.new.device ≡ self.old.device) × (self.new.words ≡ words) }
        ensures path { self.new.path ≡ self.old.path }
    {
        self.cuts.clear();
        self.words = words;
        self.parted = false;
        self.since = 0;
        self.stamp = 0;
    }

    // Counts a fault.
    fn refuse(&mut self, why: AttachError)
        ensures frame { (file_state self.new).frame ≡ record (file_state self.old).frame
            { refusals = self.new.refusals } }
        ensures stamp { self.new.stamp ≡ self.old.stamp }
        ensures later { (self.old.faults ≤ self.new.faults)
            × (self.old.refusals ≤ self.new.refusals) }
        ensures fault { why ≡ AttachError.RegionFault → Rose self.old.faults self.new.faults
            × Rose self.old.refusals self.new.refusals }
        ensures memory { why ≡ AttachError.Memory → (self.new.faults ≡ self.old.faults)
            × (self.new.refusals ≡ self.old.refusals) }
        ensures file { (self.new.device ≡ self.old.device) × (self.new.words ≡ self.old.words)
            × (self.new.tried ≡ self.old.tried) }
    {
        if why == AttachError::RegionFault {
            self.faults = self.faults.saturating_add(1);
            self.refusals = self.refusals.saturating_add(1);
        }
    }
}
