// The free chunks and blocks of one part.
ghost use Rattle.std.specs.Prelude.{◌≡◌, ◌⊎◌, ℕ, ◌+◌, ◌*◌, ◌^◌, ◌<◌, ◌≤◌, ◌==◌, ◌&&◌, not, length, true, false, Some, None, is_none, IfOk, OnOk, OnErr, slice_get, replicate, IfSome, Ok, if◌then◌else◌};
ghost use Rattle.std.specs.List.{AllByRecursion, list_any};
ghost use Rattle.pm_region.specs.State.{State, During, IsTelling, cell_now, Faulted};
ghost use Rattle.pm_region.specs.Words.{EachIn, Surely, lasts};
ghost use Rattle.chunk_map.specs.Layouts.{IsLayout, is_class, has_class};
ghost use Rattle.chunk_map.specs.Checked.{FitsHead};
ghost use Rattle.chunk_map.specs.Setting.{HasEitherHead, kind_of};
ghost use Rattle.chunk_map.specs.declared.heads.Head.TheVariants.{Data};
ghost use Rattle.store_image.specs.Parts.{block_bytes, unit_at, chunk_units};
ghost use Rattle.lazy_alloc.specs.Sets.{Sets, AreSets, class_at, chunk_is_free, chunk_class, chunk_is_due, chunk_of, block_is_used, free_chunk_count, free_block_count, Takes, TakesChunkOrNone, GivesChunk, PutsBack, SameBlocks, SameChunks, Uses, is_free_block, part_unit};
ghost use Rattle.lazy_alloc.specs.Steps.{CutsChunk, WritesHead, UsesBlock, LowestIn, LowestBlock};
ghost use Rattle.lazy_alloc.specs.Heads.{is_free, class_in, is_free_there, class_there};
ghost use Rattle.lazy_alloc.specs.Written.{PartLies, HasHead, KeepsOthers, WroteValue, head_of, HeadTurnsTo};

use crate::bits::{clear, count, first_unset, has, is_set, lowest, set, with, with_if, without};
use crate::block_places::{
    bit_of, block_at, blocks_in, chunk_in, first_block, is_full, is_in_part, is_start, room, units,
};
use crate::class_chains::{Chains, no_links};
use crate::counts::{add_to, count_of, take_from};
use crate::values::value_in;
use crate::written::write_block;
use chunk_map::layout_sizes::{FIRST_UNIT, GREATEST_CLASS, UNIT_LINES, UNIT_WORDS};
use chunk_map::{Head, Layout, set_head};
use fs_model::{Memory, Value};
use pm_region::{Region, RegionFault};
use std::alloc::Global;
use std::marker::Model;

/// The free chunks and free blocks of one part. A pointer is the number of a block's first byte in the region divided
/// by 256; chunks are numbered in their part from 0. The form, a class whose chunks are cut when they are needed and
/// whose bitmaps are rebuilt from the log's pointers, is that of FlatStore's allocator. There is a bit for each block,
/// chunk by chunk, and for each class a chain of its chunks that have a free block, so that no call looks through the
/// whole part. All room is taken by `rebuild`.
#[derive(Drop)]
pub struct Allocator {
    layout: Layout,
    part: u32,
    // The free chunks, and those that were cut and whose heads are not written yet: a bit for each.
    free: u64,
    due: u64,
    // Of the blocks into which each chunk is cut.
    classes: Vec<Option<u32>>,
    // Which blocks are allocated: of each chunk a bit for each block, as many as the least class has.
    bits: Vec<u64>,
    // How many blocks of each class are free.
    counts: Vec<u32>,
    chains: Chains,
}

impl Model for Allocator {
    ghost use Rattle.lazy_alloc.specs.Sets.{Sets};
    ghost use Rattle.lazy_alloc.specs.Form.{sets_of, IsKept};

    ghost Value = { Sets };

    ghost view = { λ a. sets_of a.layout a.part a.free a.due a.classes.items a.bits.items };

    ghost invariant = { λ a. IsKept a.layout a.part a.free a.due a.classes.items a.bits.items
        a.counts.items a.chains.firsts.items a.chains.nexts.items };
}

// One more than the greatest class.
const CLASSES: usize = GREATEST_CLASS as usize + 1;

fn no_bits(alloc: Global, words: usize) -> Result<Vec<u64>, Memory>
    ensures { IfOk result (λ v. v.items ≡ replicate words 0) }
{
    Ok(vec![in alloc; 0; words]?)
}

fn no_counts(alloc: Global) -> Result<Vec<u32>, Memory>
    ensures { IfOk result (λ v. v.items ≡ replicate CLASSES 0) }
{
    Ok(vec![in alloc; 0; CLASSES]?)
}

impl Allocator {
    /// The allocator of a part whose chunks have these heads, in their order. Of the pointers, those at which a block
    /// of the part begins are allocated, and no other block is.
    pub fn rebuild(
        alloc: Global,
        layout: Layout,
        part: u32,
        heads: &[Head],
        used: &[u64],
    ) -> Result<Allocator, Memory>
        requires part { part < layout.cores }
        requires heads { length heads.now ≡ layout.chunks }
        requires classes { AllByRecursion (FitsHead layout) heads.now }
        ensures sets { IfOk result (λ a. AreSets a) }
        ensures layout { IfOk result (λ a. a.layout ≡ layout) }
        ensures part { IfOk result (λ a. a.part ≡ part) }
        ensures free { IfOk result (λ a. (j : ℕ)
            → chunk_is_free a j ≡ is_free_there (slice_get heads.now j)) }
        ensures class { IfOk result (λ a. (j : ℕ)
            → chunk_class a j ≡ class_there (slice_get heads.now j)) }
        ensures due { IfOk result (λ a. (j : ℕ) → chunk_is_due a j ≡ false) }
        ensures used { IfOk result (λ a. (p : ℕ)
            → block_is_used a p ≡ (list_any (λ q. q == p) used.now
            && not (is_none (class_at a p)))) }
    {
        let mut allocator = Allocator::uncut(alloc, layout, part)?;
        for (chunk, head) in heads.iter().enumerate() {
            allocator.set_up(chunk as u32, *head);
        }
        for pointer in used {
            allocator.mark_known(*pointer);
        }
        Ok(allocator)
    }

    /// How many chunks are free.
    pub fn free_chunks(&self) -> u32
        ensures { result ≡ free_chunk_count self.now }
    {
        count(self.free)
    }

    /// How many blocks of a class are free.
    pub fn free_blocks(&self, class: u32) -> u32
        requires { is_class self.now.layout class ≡ true }
        ensures { result ≡ free_block_count self.now class }
    {
        count_of(&self.counts, class)
    }

    /// Whether the block with this pointer is allocated.
    pub fn is_allocated(&self, pointer: u64) -> bool
        ensures { result ≡ block_is_used self.now pointer }
    {
        match self.class_at(pointer) {
            None => false,
            Some(class) => is_set(&self.bits, bit_of(&self.layout, pointer, class)),
        }
    }

    /// The lowest free block of the class. Where there is none, the lowest free chunk is cut if it may be, and its head
    /// is written with the first value. None exactly where no block of the class is free and no chunk is, or none may
    /// be cut.
    pub fn take(&mut self, class: u32, may_cut: bool) -> Option<u64>
        requires class { is_class self.old.layout class ≡ true }
        ensures sets { AreSets self.new }
        ensures takes { Takes self.old self.new class may_cut result }
    {
        if let Some(pointer) = self.lowest_block(class) {
            self.mark(pointer);
            return Some(pointer);
        }
        if !may_cut {
            return None;
        }
        let Some(chunk) = self.take_chunk() else {
            return None;
        };
        self.cut(chunk, class, true);
        let pointer = first_block(&self.layout, self.part, chunk);
        self.mark(pointer);
        Some(pointer)
    }

    /// The lowest free chunk, for the log. None exactly where no chunk is free.
    pub fn take_chunk(&mut self) -> Option<u32>
        ensures sets { AreSets self.new }
        ensures takes { TakesChunkOrNone self.old self.new result }
    {
        let Some(chunk) = lowest(self.free) else {
            return None;
        };
        self.free = without(self.free, chunk);
        Some(chunk)
    }

    /// Brings back a chunk of the part that the log has emptied.
    pub fn give_chunk(&mut self, chunk: u32)
        requires within { chunk < self.old.layout.chunks }
        requires taken { chunk_is_free self.old chunk ≡ false }
        requires uncut { chunk_class self.old chunk ≡ None }
        ensures sets { AreSets self.new }
        ensures gives { GivesChunk self.old self.new chunk }
    {
        self.free = with(self.free, chunk);
    }

    /// Frees an allocated block.
    pub fn put_back(&mut self, pointer: u64)
        requires used { block_is_used self.old pointer ≡ true }
        ensures sets { AreSets self.new }
        ensures puts { PutsBack self.old self.new pointer }
    {
        let class = self.class_at(pointer).unwrap();
        let chunk = chunk_in(&self.layout, pointer);
        let was_full = is_full(&self.layout, &self.bits, chunk, class);
        clear(&mut self.bits, bit_of(&self.layout, pointer, class));
        add_to(&mut self.counts, class, 1);
        self.chains.link_if(class, chunk, was_full);
    }

    // The allocator of a part with no free chunk and no blocks.
    fn uncut(alloc: Global, layout: Layout, part: u32) -> Result<Allocator, Memory>
        requires { part < layout.cores }
        ensures sets { IfOk result (λ a. AreSets a) }
        ensures layout { IfOk result (λ a. a.layout ≡ layout) }
        ensures part { IfOk result (λ a. a.part ≡ part) }
        ensures free { IfOk result (λ a. (j : ℕ) → chunk_is_free a j ≡ false) }
        ensures class { IfOk result (λ a. (j : ℕ) → chunk_class a j ≡ None) }
        ensures due { IfOk result (λ a. (j : ℕ) → chunk_is_due a j ≡ false) }
        ensures used { IfOk result (λ a. (p : ℕ) → block_is_used a p ≡ false) }
    {
        let chunks = layout.geometry().chunks as usize;
        let words = chunks * room(&layout) as usize;
        Ok(Allocator {
            layout,
            part,
            free: 0,
            due: 0,
            classes: no_links(alloc, chunks)?,
            bits: no_bits(alloc, words)?,
            counts: no_counts(alloc)?,
            chains: Chains::empty(alloc, CLASSES, chunks)?,
        })
    }

    // Notes what a chunk is by its head.
    fn set_up(&mut self, chunk: u32, head: Head)
        requires sets { AreSets self.old }
        requires within { chunk < self.old.layout.chunks }
        requires fits { FitsHead self.old.layout head }
        requires taken { chunk_is_free self.old chunk ≡ false }
        requires uncut { chunk_class self.old chunk ≡ None }
        ensures sets { AreSets self.new }
        ensures layout { self.new.layout ≡ self.old.layout }
        ensures part { self.new.part ≡ self.old.part }
        ensures free { (i : ℕ) → chunk_is_free self.new i
            ≡ (if i == chunk then is_free (Ok head) else chunk_is_free self.old i) }
        ensures class { (i : ℕ) → chunk_class self.new i ≡ (if i == chunk then class_in (Ok head)
            else chunk_class self.old i) }
        ensures due { (i : ℕ) → chunk_is_due self.new i ≡ chunk_is_due self.old i }
        ensures used { SameBlocks self.old self.new }
    {
        match head {
            Head::Free => self.give_chunk(chunk),
            Head::Log { tail: _ } => {}
            Head::Data { class } => self.cut(chunk, class, false),
        }
    }

    // The class of the block that begins at a pointer.
    fn class_at(&self, pointer: u64) -> Option<u32>
        ensures class { result ≡ class_at self.now pointer }
        ensures small { IfSome result (λ c. (1 ≤ c) × (c ≤ GREATEST_CLASS)) }
        ensures low { IfSome result (λ c. (FIRST_UNIT ≤ pointer)
            × (1 ≤ unit_at self.now.layout pointer)) }
        ensures rules { IsLayout self.now.layout }
        ensures sets { AreSets self.now }
    {
        if !is_in_part(&self.layout, self.part, pointer) {
            return None;
        }
        let Some(class) = self.classes[chunk_in(&self.layout, pointer) as usize] else {
            return None;
        };
        if is_start(&self.layout, class, pointer) {
            Some(class)
        } else {
            None
        }
    }

    // Allocates a free block.
    fn mark(&mut self, pointer: u64)
        requires block { is_none (class_at self.old pointer) ≡ false }
        requires unused { block_is_used self.old pointer ≡ false }
        ensures sets { AreSets self.new }
        ensures chunks { SameChunks self.old self.new }
        ensures used { Uses self.old self.new pointer }
    {
        let class = self.class_at(pointer).unwrap();
        let chunk = chunk_in(&self.layout, pointer);
        set(&mut self.bits, bit_of(&self.layout, pointer, class));
        let is_full = is_full(&self.layout, &self.bits, chunk, class);
        take_from(&mut self.counts, class);
        self.chains.unlink_if(class, chunk, is_full);
    }

    // Allocates the block that begins at a pointer, where one does.
    fn mark_known(&mut self, pointer: u64)
        requires { AreSets self.old }
        ensures sets { AreSets self.new }
        ensures chunks { SameChunks self.old self.new }
        ensures used { UsesBlock self.old self.new pointer }
    {
        if self.class_at(pointer).is_some() && !self.is_allocated(pointer) {
            self.mark(pointer);
        }
    }

    // Cuts a chunk into blocks of a class.
    fn cut(&mut self, chunk: u32, class: u32, is_due: bool)
        requires within { chunk < self.old.layout.chunks }
        requires taken { chunk_is_free self.old chunk ≡ false }
        requires uncut { chunk_class self.old chunk ≡ None }
        requires class { is_class self.old.layout class ≡ true }
        ensures sets { AreSets self.new }
        ensures cuts { CutsChunk self.old self.new chunk class is_due }
    {
        self.classes[chunk as usize] = Some(class);
        self.due = with_if(self.due, chunk, is_due);
        let blocks = blocks_in(&self.layout, class) as u32;
        add_to(&mut self.counts, class, blocks);
        self.chains.link(class, chunk);
    }

    // The lowest free block of a class in a chunk that is cut into such blocks.
    fn lowest_in(&self, chunk: u32, class: u32) -> Option<u64>
        requires within { chunk < self.now.layout.chunks }
        requires cut { chunk_class self.now chunk ≡ Some class }
        ensures { LowestIn self.now class chunk result }
    {
        let from = chunk as u64 * room(&self.layout);
        let Some(block) = first_unset(&self.bits, from, blocks_in(&self.layout, class)) else {
            return None;
        };
        Some(block_at(&self.layout, self.part, chunk, class, block))
    }

    // The lowest free block of a class.
    fn lowest_block(&self, class: u32) -> Option<u64>
        requires class { is_class self.now.layout class ≡ true }
        ensures sets { AreSets self.now }
        ensures lowest { LowestBlock self.now class result }
    {
        match self.chains.first(class) {
            None => None,
            Some(chunk) => self.lowest_in(chunk, class),
        }
    }

    /// Makes the head of the block's chunk certain, where the chunk was cut and its head is not written yet, and then
    /// the value: its length in the block's first word, and its bytes behind. One fence for each. After a fault the
    /// allocator is as before.
    pub fn write_value<R: Region>(
        &mut self,
        region: &mut R,
        pointer: u64,
        value: &[u8],
    ) -> Result<(), RegionFault>
        requires used { block_is_used self.old pointer ≡ true }
        requires class { (class : ℕ) → class_at self.old pointer ≡ Some class
            → (has_class (length value.now) class ≡ true)
            × HasHead (R.state region.old) self.old pointer class }
        requires lies { PartLies (R.state region.old).frame self.old }
        // At every moment no other word is written, and the head is what it was or that of the class.
        ensures outside { (class : ℕ) → class_at self.old pointer ≡ Some class
            → During (R.state region.old) (R.state region.new)
            (KeepsOthers self.old pointer class (cell_now (R.state region.old))) }
        ensures head { (class : ℕ) → class_at self.old pointer ≡ Some class
            → During (R.state region.old) (R.state region.new)
            (EachIn (head_of self.old pointer) (head_of self.old pointer + 2)
            (HeadTurnsTo self.old pointer class)) }
        ensures sets { AreSets self.new }
        ensures ok { OnOk result ((class : ℕ) → class_at self.old pointer ≡ Some class
            → WroteValue (R.state region.new) self.old self.new pointer class value.now) }
        ensures err { OnErr result (self.new ≡ self.old) }
        ensures cause { OnErr result (Faulted (R.state region.old) (R.state region.new)) }
    {
        let class = self.class_at(pointer).unwrap();
        self.write_head(region, pointer, class)?;
        write_block(region, UNIT_LINES * pointer, value)?;
        self.mark_written(pointer);
        Ok(())
    }

    // Whether the head of the chunk is still to be written in which a pointer lies.
    fn is_due(&self, pointer: u64) -> bool
        requires { FIRST_UNIT ≤ pointer }
        ensures { result ≡ chunk_is_due self.now (chunk_of self.now pointer) }
    {
        has(self.due, chunk_in(&self.layout, pointer))
    }

    // The first word of that head.
    fn head_of(&self, pointer: u64) -> u64
        requires { FIRST_UNIT ≤ pointer }
        ensures { result ≡ head_of self.now pointer }
    {
        self.layout
            .chunk_first(self.part, chunk_in(&self.layout, pointer))
    }

    // The head is written now.
    fn mark_written(&mut self, pointer: u64)
        requires { FIRST_UNIT ≤ pointer }
        ensures sets { AreSets self.new }
        ensures written { WritesHead self.old self.new pointer }
    {
        self.due = without(self.due, chunk_in(&self.layout, pointer));
    }

    // Makes the head of the block's chunk certain, where it is not written yet.
    fn write_head<R: Region>(
        &self,
        region: &mut R,
        pointer: u64,
        class: u32,
    ) -> Result<(), RegionFault>
        requires rules { IsLayout self.now.layout }
        requires sets { AreSets self.now }
        requires at { class_at self.now pointer ≡ Some class }
        requires head { HasHead (R.state region.old) self.now pointer class }
        requires lies { PartLies (R.state region.old).frame self.now }
        ensures outside { During (R.state region.old) (R.state region.new)
            (KeepsOthers self.now pointer class (cell_now (R.state region.old))) }
        ensures head { During (R.state region.old) (R.state region.new)
            (EachIn (head_of self.now pointer) (head_of self.now pointer + 2)
            (HeadTurnsTo self.now pointer class)) }
        ensures ok { OnOk result (IsTelling (R.state region.new)
            → Surely (cell_now (R.state region.new) (head_of self.now pointer))
            (kind_of (Data class))) }
        ensures cause { OnErr result (Faulted (R.state region.old) (R.state region.new)) }
    {
        if self.is_due(pointer) {
            let at = self.head_of(pointer);
            set_head(region, at, Head::Data { class })
        } else {
            Ok(())
        }
    }

    /// A copy of the value in a block.
    pub fn read_value<R: Region>(
        &self,
        alloc: Global,
        region: &R,
        pointer: u64,
    ) -> Result<Value, Memory>
        requires lies { PartLies (R.state region.now).frame self.now }
        requires holds { IsTelling (R.state region.now) → (class : ℕ)
            × (class_at self.now pointer ≡ Some class)
            × (has_class (lasts (R.state region.now) (UNIT_WORDS * pointer)) class ≡ true) }
        ensures { IfOk result (λ v. IsTelling (R.state region.now)
            → v ≡ block_bytes (lasts (R.state region.now)) pointer) }
    {
        // Where the region tells its words there is a block with a value.
        match self.class_at(pointer) {
            None => Err(Memory),
            Some(class) => value_in(alloc, region, pointer, class)?.ok_or(Memory),
        }
    }
}
