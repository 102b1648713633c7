// A core's log: its chunks with their tails, and which of them is open.
ghost use Rattle.std.specs.Prelude.{◌≡◌, ◌≢◌, ◌⊎◌, ℕ, ◌+◌, ◌-◌, ◌*◌, ◌/◌, ◌%◌, ◌^◌, ◌≤◌, ◌<◌, List, length, Some, None, true, is_some, OnOk, OnErr, IfOk, IfSome, Option, option_map};
ghost use Rattle.std.specs.List.{flat_map, AllByRecursion};
ghost use Rattle.pm_region.specs.State.{State, During, IsTelling, cell_now, Faulted, WordsLie};
ghost use Rattle.pm_region.specs.Words.{KeepsOutside, EachIn, Surely, lasts, lines_for};
ghost use Rattle.chunk_map.specs.Layouts.{chunk_words, payload_words, payload_lines, chunk_first};
ghost use Rattle.log_entry.specs.declared.entry.Entry.{Entry};
ghost use Rattle.log_entry.specs.Spelling.{words_of};
ghost use Rattle.log_entry.specs.Batches.{IsBatch};
ghost use Rattle.core_log.specs.Chunk.{padded, words_now, HasOrLacks, FreeOrEmpty, FreeOrLog};
ghost use Rattle.core_log.specs.Log.{LogState, IsOwn, tail_of, with_tail, without, chunk_with, IsChunkOf, first_of, tail_in, open_number, open_first, open_tail, room_of, EachInOpen, HoldsEntries, StandsIn};
ghost use Rattle.core_log.specs.Fresh.{HasEachOnce, IsEmptiest};
ghost use Rattle.core_log.specs.Opening.{EachInChunk, HasNoEntries, OpenedChunk};
ghost use Rattle.core_log.specs.Retiring.{HasSameOrNone, RetiredChunk};
ghost use Rattle.core_log.specs.Walking.{LiesIn, IsReadable, entries_in, next_entry, step_at, peek_at, IsStep, IsWalk};
ghost use Rattle.core_log.specs.Entries.{open_entries, added_entries, HasEntries, HasEntriesOrLacks, AppendedBatch};

use crate::chunk::append_at;
use crate::tails::{emptiest, set_tail, sorted, tail_of, take_out};
use crate::types::{LogChunk, Peek, Placed, WalkStep};
use crate::walking::{peek_from, walk_from};
use chunk_map::heads::Head;
use chunk_map::layout_sizes::HEAD_WORDS;
use chunk_map::layouts::Layout;
use chunk_map::setting::set_head;
use fs_model::Memory;
use log_entry::{LONGEST_ENTRY, WordBuffer};
use pm_region::{LINE_WORDS, Region, RegionFault, WORD_BYTES};
use std::alloc::Global;
use std::marker::Model;

/// The log of one core: its chunks with their tails, by rising number, and the open chunk.
#[derive(Drop)]
pub struct CoreLog {
    layout: Layout,
    part: u32,
    chunks: Vec<LogChunk>,
    opened: Option<u32>,
}

impl Model for CoreLog {
    ghost use Rattle.std.specs.Prelude.{◌<◌, vec_capacity};
    ghost use Rattle.core_log.specs.Log.{LogState, IsOwn};

    ghost Value = { LogState };

    ghost view = { λ a. record {
      layout = a.layout;
      part = a.part;
      chunks = a.chunks.items;
      opened = a.opened;
    } };

    ghost invariant = { λ a. IsOwn (record {
      layout = a.layout;
      part = a.part;
      chunks = a.chunks.items;
      opened = a.opened;
    }) × (a.layout.chunks < vec_capacity a.chunks) };
}

impl CoreLog {
    /// The log of a part with these chunks. The open chunk is the one with most free lines, of the lowest
    /// number among equals, or none. No later call takes memory for the chunks.
    pub fn open(
        alloc: Global,
        layout: Layout,
        part: u32,
        chunks: Vec<LogChunk>,
    ) -> Result<CoreLog, Memory>
        requires part { part < layout.cores }
        requires each { AllByRecursion (IsChunkOf layout) chunks.items }
        requires once { HasEachOnce chunks.items }
        ensures own { IfOk result (λ log. IsOwn log) }
        ensures layout { IfOk result (λ log. log.layout ≡ layout) }
        ensures part { IfOk result (λ log. log.part ≡ part) }
        ensures chunks { IfOk result (λ log. (j : ℕ) → tail_of log.chunks j ≡ tail_of chunks.items
            j) }
        ensures opened { IfOk result (λ log. IsEmptiest log.chunks log.opened) }
    {
        let kept = sorted(alloc, layout, &chunks)?;
        let opened = emptiest(&kept);
        Ok(CoreLog {
            layout,
            part,
            chunks: kept,
            opened,
        })
    }

    /// The free lines of the open chunk, or 0 where none is open.
    pub fn room(&self) -> u64
        ensures { result ≡ room_of self.now }
    {
        match self.opened {
            None => 0,
            Some(chunk) => {
                self.layout.payload_lines() - tail_of(&self.chunks, chunk).unwrap_or(0) / LINE_WORDS
            }
        }
    }

    /// The log's chunks by rising number.
    pub fn chunks(&self) -> &[LogChunk]
        ensures { result.now ≡ self.now.chunks }
    {
        self.chunks.as_slice()
    }

    /// The number of the open chunk, where one is open.
    pub fn opened(&self) -> Option<u32>
        ensures { result ≡ self.now.opened }
    {
        self.opened
    }

    // The open chunk and its tail.
    fn open_place(&self) -> Placed
        requires { is_some self.now.opened ≡ true }
        ensures chunk { result.chunk ≡ open_number self.now }
        ensures place { result.place ≡ open_tail self.now }
    {
        let chunk = self.opened.unwrap();
        Placed {
            chunk,
            place: tail_of(&self.chunks, chunk).unwrap_or(0),
        }
    }

    // The first word of a chunk of the part.
    fn first_of(&self, chunk: u32) -> u64
        ensures { result ≡ first_of self.now chunk }
    {
        self.layout.chunk_first(self.part, chunk)
    }

    fn chunk_words(&self) -> u64
        ensures { result ≡ chunk_words self.now.layout }
    {
        self.layout.chunk_bytes() / WORD_BYTES
    }

    fn move_tail(&mut self, chunk: u32, tail: u64)
        requires { IsChunkOf self.old.layout (chunk_with chunk tail) }
        ensures { self.new ≡ record self.old { chunks = with_tail self.old.chunks chunk tail } }
    {
        set_tail(&mut self.chunks, chunk, tail);
    }

    fn begin_chunk(&mut self, chunk: u32)
        requires { chunk < self.old.layout.chunks }
        ensures { self.new ≡ record self.old {
          chunks = with_tail self.old.chunks chunk 0;
          opened =
              Some chunk;
        } }
    {
        set_tail(&mut self.chunks, chunk, 0);
        self.opened = Some(chunk);
    }

    /// Appends one batch to the open chunk: the words of the buffer, and zeros up to a line's end. At every
    /// moment of the call an image has the batch wholly or not at all. One flush for each line and one more,
    /// and two fences. After a fault the log's numbers are as before, but nobody may say that the log still
    /// stands in the region.
    pub fn append_batch<R: Region>(
        &mut self,
        region: &mut R,
        batch: &WordBuffer,
    ) -> Result<Placed, RegionFault>
        requires stands { StandsIn (R.state region.old) self.old }
        requires some { 0 < length batch.now.words }
        requires entries { IsTelling (R.state region.old) → HoldsEntries batch.now.words }
        requires room { lines_for (length batch.now.words) ≤ room_of self.old }
        // The words before the tail, with the whole batch or without it.
        ensures moments { During (R.state region.old) (R.state region.new)
            (EachInOpen self.old (HasOrLacks (open_first self.old) (open_tail self.old)
            (words_now (R.state region.old) (open_first self.old) (open_tail self.old))
            (padded batch.now.words))) }
        // The same of the entries that images show.
        ensures entries { (es : List Entry) → batch.now.words ≡ flat_map words_of es → IsBatch es
            → During (R.state region.old) (R.state region.new)
            (EachInOpen self.old (HasEntriesOrLacks self.old
            (open_entries self.old (lasts (R.state region.old))) es)) }
        // No word outside the open chunk is stored or flushed.
        ensures outside { During (R.state region.old) (R.state region.new)
            (KeepsOutside (cell_now (R.state region.old)) (open_first self.old)
            (open_first self.old + chunk_words self.old.layout)) }
        ensures ok { OnOk result (AppendedBatch (R.state region.old) (R.state region.new) self.old
            self.new (padded batch.now.words)) }
        ensures ok_entries { OnOk result ((es : List Entry) → batch.now.words ≡ flat_map words_of es
            → IsBatch es → IsTelling (R.state region.new)
            → EachInOpen self.old (HasEntries self.old
            (open_entries self.old (lasts (R.state region.old))) es)
            (cell_now (R.state region.new))) }
        ensures placed { IfOk result (λ p. (self.old.opened ≡ Some p.chunk)
            × (p.place ≡ open_tail self.old)) }
        ensures err { OnErr result (self.new ≡ self.old) }
        ensures cause { OnErr result (Faulted (R.state region.old) (R.state region.new)) }
    {
        let place = self.open_place();
        let at = self.first_of(place.chunk);
        let words = self.chunk_words();
        let list = batch.words();
        append_at(region, at, words, place.place, list)?;
        let lines = (list.len() as u64 + 7) / LINE_WORDS;
        self.move_tail(place.chunk, place.place + LINE_WORDS * lines);
        Ok(place)
    }

    /// Makes a Free chunk of the part the open one, with nothing in it, by two fences. It takes no memory.
    pub fn open_chunk<R: Region>(&mut self, region: &mut R, chunk: u32) -> Result<(), RegionFault>
        requires stands { StandsIn (R.state region.old) self.old }
        requires part { chunk < self.old.layout.chunks }
        requires free { IsTelling (R.state region.old)
            → Surely (cell_now (R.state region.old) (first_of self.old chunk)) 0 }
        ensures moments { During (R.state region.old) (R.state region.new)
            (EachInChunk self.old chunk (FreeOrEmpty (first_of self.old chunk))) }
        ensures entries { During (R.state region.old) (R.state region.new)
            (EachInChunk self.old chunk (HasNoEntries self.old chunk)) }
        // No word outside the head's first line is stored or flushed.
        ensures outside { During (R.state region.old) (R.state region.new)
            (KeepsOutside (cell_now (R.state region.old)) (first_of self.old chunk)
            (first_of self.old chunk + LINE_WORDS)) }
        ensures ok { OnOk result (OpenedChunk (R.state region.new) self.old self.new chunk) }
        ensures err { OnErr result (self.new ≡ self.old) }
        ensures cause { OnErr result (Faulted (R.state region.old) (R.state region.new)) }
    {
        let at = self.first_of(chunk);
        set_head(region, at, Head::Log { tail: 0 })?;
        self.begin_chunk(chunk);
        Ok(())
    }

    fn lose_chunk(&mut self, chunk: u32)
        requires has { is_some (tail_of self.old.chunks chunk) ≡ true }
        requires closed { self.old.opened ≢ Some chunk }
        ensures { self.new ≡ record self.old { chunks = without self.old.chunks chunk } }
    {
        take_out(&mut self.chunks, chunk);
    }

    /// Makes a chunk of the log that is not the open one certainly Free, by one fence. The log has it no more.
    pub fn retire<R: Region>(&mut self, region: &mut R, chunk: u32) -> Result<(), RegionFault>
        requires stands { StandsIn (R.state region.old) self.old }
        requires has { is_some (tail_of self.old.chunks chunk) ≡ true }
        requires closed { self.old.opened ≢ Some chunk }
        ensures moments { During (R.state region.old) (R.state region.new)
            (EachInChunk self.old chunk
            (FreeOrLog (first_of self.old chunk) (tail_in self.old chunk)
            (words_now (R.state region.old) (first_of self.old chunk)
            (tail_in self.old chunk)))) }
        // The chunk's entries are shown as before, or none of them.
        ensures entries { During (R.state region.old) (R.state region.new)
            (EachInChunk self.old chunk (HasSameOrNone (R.state region.old) self.old chunk)) }
        // No word outside the head's first line is stored or flushed.
        ensures outside { During (R.state region.old) (R.state region.new)
            (KeepsOutside (cell_now (R.state region.old)) (first_of self.old chunk)
            (first_of self.old chunk + LINE_WORDS)) }
        ensures ok { OnOk result (RetiredChunk (R.state region.new) self.old self.new chunk) }
        ensures err { OnErr result (self.new ≡ self.old) }
        ensures cause { OnErr result (Faulted (R.state region.old) (R.state region.new)) }
    {
        let at = self.first_of(chunk);
        set_head(region, at, Head::Free)?;
        self.lose_chunk(chunk);
        Ok(())
    }

    fn tail_in(&self, chunk: u32) -> u64
        ensures { result ≡ tail_in self.now chunk }
    {
        tail_of(&self.chunks, chunk).unwrap_or(0)
    }

    /// The next entry of a chunk of the log at or after a place, without its body; none exactly where no
    /// entry stands there before the tail. A place is a word of the payload.
    pub fn peek<R: Region>(&self, region: &R, chunk: u32, place: u64) -> Option<Peek>
        requires lies { LiesIn (R.state region.now).frame self.now }
        requires has { is_some (tail_of self.now.chunks chunk) ≡ true }
        requires readable { IsReadable (R.state region.now) self.now chunk place }
        ensures told { IsTelling (R.state region.now)
            → result ≡ option_map (peek_at (first_of self.now chunk + HEAD_WORDS))
            (next_entry place (entries_in (R.state region.now) self.now chunk)) }
        // It is the first that is left there, and the words at `at` are its spelling. Behind it the others are left.
        ensures step { IsTelling (R.state region.now) → IsStep (R.state region.now) self.now chunk
            place result }
        // Reading may go on behind the entry.
        ensures next { IfSome result (λ p. IsReadable (R.state region.now) self.now chunk p.next) }
        ensures within { IfSome result (λ p. (place ≤ p.place) × (p.place < p.next)) }
        ensures at { IfSome result (λ p. p.at ≡ first_of self.now chunk + HEAD_WORDS + p.place) }
        ensures size { IfSome result (λ p. p.next ≤ p.place + LONGEST_ENTRY) }
        ensures range { IfSome result (λ p. WordsLie (R.state region.now).frame p.at
            (p.next - p.place)) }
    {
        let first = self.first_of(chunk) + HEAD_WORDS;
        let tail = self.tail_in(chunk);
        peek_from(region, first, place, tail)
    }

    /// The same with the body.
    pub fn walk<R: Region>(
        &self,
        alloc: Global,
        region: &R,
        chunk: u32,
        place: u64,
    ) -> Result<Option<WalkStep>, Memory>
        requires lies { LiesIn (R.state region.now).frame self.now }
        requires has { is_some (tail_of self.now.chunks chunk) ≡ true }
        requires readable { IsReadable (R.state region.now) self.now chunk place }
        ensures told { IfOk result (λ step. IsTelling (R.state region.now)
            → step ≡ option_map step_at
            (next_entry place (entries_in (R.state region.now) self.now chunk))) }
        // It is the first that is left there. Behind it the others are left.
        ensures left { IfOk result (λ step. IsTelling (R.state region.now)
            → IsWalk (entries_in (R.state region.now) self.now chunk) place step) }
        // Reading may go on behind the entry.
        ensures next { IfOk result
            (λ step. IfSome step (λ s. IsReadable (R.state region.now) self.now chunk s.next)) }
        ensures within { IfOk result (λ step. IfSome step (λ s. (place ≤ s.place)
            × (s.place < s.next))) }
    {
        let first = self.first_of(chunk) + HEAD_WORDS;
        let tail = self.tail_in(chunk);
        walk_from(alloc, region, first, place, tail)
    }
}
