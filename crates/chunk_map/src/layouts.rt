// The numbers of a layout.
ghost use Rattle.std.specs.Prelude.{◌≡◌, ℕ, ◌+◌, ◌-◌, ◌*◌, ◌/◌, ◌^◌, ◌<◌, ◌≤◌, ◌==◌};
ghost use Rattle.chunk_map.specs.Layouts.{IsLayout, is_chunk_size, layout_rule, part_first, chunk_first, payload_lines, total_bytes};

use crate::layout_sizes::{
    GREATEST_CHUNK, HEAD_LINES, LEAST_CHUNKS, MOST_CHUNKS, MOST_CORES, MOST_GROUP, MOST_PART_BYTES,
    SUPERBLOCK_BYTES, SUPERBLOCK_WORDS,
};
use pm_region::{LINE_BYTES, WORD_BYTES};
use std::marker::Model;

/// The four numbers of a layout, as they stand in a superblock. Nothing says that they keep the rules.
#[derive(Clone, Copy)]
pub struct Geometry {
    /// How many cores, and so parts.
    pub cores: u32,
    /// How many cores share a table.
    pub group: u32,
    /// How many chunks each core has.
    pub chunks: u32,
    /// How many bytes a chunk has, its head among them.
    pub chunk_bytes: u64,
}

fn is_chunk_size(n: u64) -> bool
    ensures { result ≡ is_chunk_size n }
{
    n == 4096
        || (n == 8192
            || (n == 16384
                || (n == 32768
                    || (n == 65536
                        || (n == 131072
                            || (n == 262144
                                || (n == 524288
                                    || (n == 1048576 || (n == 2097152 || n == 4194304)))))))))
}

fn region_bytes(cores: u64, chunks: u64, chunk_bytes: u64) -> u64
    requires cores { cores ≤ MOST_CORES }
    requires chunks { chunks ≤ MOST_CHUNKS }
    requires bytes { chunk_bytes ≤ GREATEST_CHUNK }
    ensures value { result ≡ cores * chunks * chunk_bytes }
    ensures small { result ≤ 4294967296 }
{
    cores * chunks * chunk_bytes
}

/// The first rule of a layout that the numbers break.
pub fn layout_rule(cores: u64, group: u64, chunks: u64, chunk_bytes: u64) -> Option<u32>
    ensures { result ≡ layout_rule
        (record { cores = cores; group = group; chunks = chunks; chunk_bytes = chunk_bytes }) }
{
    if !(cores >= 1 && cores <= MOST_CORES) {
        return Some(1);
    }
    if !(group >= 1 && group <= MOST_GROUP && cores % group == 0) {
        return Some(2);
    }
    if !(chunks >= LEAST_CHUNKS && chunks <= MOST_CHUNKS) {
        return Some(3);
    }
    if !is_chunk_size(chunk_bytes) {
        return Some(4);
    }
    if chunk_bytes > GREATEST_CHUNK || region_bytes(cores, chunks, chunk_bytes) > MOST_PART_BYTES {
        return Some(5);
    }
    None
}

/// The numbers break a rule of a layout: 1 to 5, the first that is broken.
#[derive(Clone, Copy, Debug, PartialEq, Eq)]
pub struct BadLayout {
    /// The number of the rule.
    pub rule: u32,
}

/// The layout of a region, whose numbers keep the five rules.
#[derive(Clone, Copy)]
pub struct Layout {
    cores: u32,
    group: u32,
    chunks: u32,
    chunk_bytes: u64,
}

impl Model for Layout {
    ghost use Rattle.chunk_map.specs.Layouts.{IsLayout};
    ghost use Rattle.chunk_map.specs.declared.layouts.Geometry.{Geometry};

    ghost Value = { Geometry };

    ghost view = { λ l. record {
      cores = l.cores;
      group = l.group;
      chunks = l.chunks;
      chunk_bytes = l.chunk_bytes;
    } };

    ghost inverse = { λ g. record {
      cores = g.cores;
      group = g.group;
      chunks = g.chunks;
      chunk_bytes = g.chunk_bytes;
    } };

    ghost invariant = { λ l. IsLayout (record {
      cores = l.cores;
      group = l.group;
      chunks = l.chunks;
      chunk_bytes = l.chunk_bytes;
    }) };
}

impl Layout {
    ghost use Rattle.chunk_map.specs.Checked.{checked_layout, layout_by_rule};

    /// The layout with these numbers, or the first rule that they break.
    pub fn new(cores: u32, group: u32, chunks: u32, chunk_bytes: u64) -> Result<Layout, BadLayout>
        ensures { result ≡ checked_layout
            (record { cores = cores; group = group; chunks = chunks; chunk_bytes = chunk_bytes }) }
    {
        if let Some(rule) = layout_rule(cores as u64, group as u64, chunks as u64, chunk_bytes) {
            return Err(BadLayout { rule });
        }
        Ok(Layout {
            cores,
            group,
            chunks,
            chunk_bytes,
        })
    }

    /// The layout with these numbers, where they keep the rules.
    pub fn of_numbers(cores: u64, group: u64, chunks: u64, chunk_bytes: u64) -> Option<Layout>
        ensures { result ≡ layout_by_rule
            (record { cores = cores; group = group; chunks = chunks; chunk_bytes = chunk_bytes }) }
    {
        if layout_rule(cores, group, chunks, chunk_bytes).is_some() {
            return None;
        }
        Layout::new(cores as u32, group as u32, chunks as u32, chunk_bytes).ok()
    }

    /// The numbers of the layout, as plain data. They keep the rules.
    pub fn geometry(&self) -> Geometry
        ensures value { result ≡ self.now }
        ensures rules { IsLayout self.now }
    {
        Geometry {
            cores: self.cores,
            group: self.group,
            chunks: self.chunks,
            chunk_bytes: self.chunk_bytes,
        }
    }

    /// How many cores, and so parts, the layout has.
    pub fn cores(&self) -> u32
        ensures { result ≡ self.now.cores }
    {
        self.cores
    }

    /// How many cores share a table, in a group.
    pub fn group(&self) -> u32
        ensures { result ≡ self.now.group }
    {
        self.group
    }

    /// How many chunks each core has.
    pub fn chunks(&self) -> u32
        ensures { result ≡ self.now.chunks }
    {
        self.chunks
    }

    /// How many bytes a chunk has, its head among them.
    pub fn chunk_bytes(&self) -> u64
        ensures { result ≡ self.now.chunk_bytes }
    {
        self.chunk_bytes
    }

    /// The first word of a core's part. Of the number of cores it is the word behind the last part.
    pub fn part_first(&self, part: u32) -> u64
        ensures { result ≡ part_first self.now part }
    {
        SUPERBLOCK_WORDS + part as u64 * (self.chunks as u64 * (self.chunk_bytes / WORD_BYTES))
    }

    /// The first word of a core's chunk, that is of its head.
    pub fn chunk_first(&self, part: u32, chunk: u32) -> u64
        ensures { result ≡ chunk_first self.now part chunk }
    {
        SUPERBLOCK_WORDS
            + (part as u64 * self.chunks as u64 + chunk as u64) * (self.chunk_bytes / WORD_BYTES)
    }

    /// How many lines of a chunk come after its head.
    pub fn payload_lines(&self) -> u64
        ensures { result ≡ payload_lines self.now }
    {
        self.chunk_bytes / LINE_BYTES - HEAD_LINES
    }

    /// The bytes of a region with this layout.
    pub fn total_bytes(&self) -> u64
        ensures { result ≡ total_bytes self.now }
    {
        SUPERBLOCK_BYTES + self.cores as u64 * self.chunks as u64 * self.chunk_bytes
    }
}
