// All entries of an image.
ghost use Rattle.std.specs.Prelude.{◌≡◌, ◌/◌, ◌<◌, ◌++◌, length, option_map, IfOk, None};
ghost use Rattle.chunk_map.specs.Layouts.{layout_rule, total_words};
ghost use Rattle.store_image.specs.Soundness.{damaged, chunk_rule, part_fault, chunk_fault};
ghost use Rattle.store_image.specs.Parts.{chunk_entries, part_entries, all_entries};
ghost use Rattle.image_yardstick.specs.Images.{image_of};

use crate::chunks::read_chunk;
use chunk_map::layouts::Geometry;
use fs_model::Memory;
use std::alloc::Global;
use store_image::{Fault, PlacedEntry};

/// Appends a chunk's entries, and says what it breaks of rules 4 to 7.
fn gather_chunk(
    alloc: Global,
    layout: &Geometry,
    words: &[u64],
    part: u32,
    chunk: u32,
    entries: &mut Vec<PlacedEntry>,
) -> Result<Option<Fault>, Memory>
    requires layout { layout_rule layout.now ≡ None }
    requires words { length words.now ≡ total_words layout.now }
    requires part { part < layout.now.cores }
    requires chunk { chunk < layout.now.chunks }
    ensures fault { IfOk result (λ f. f
        ≡ option_map (damaged part chunk) (chunk_rule layout.now (image_of words.now) part chunk)) }
    ensures entries { IfOk result (λ _. entries.new.items
        ≡ entries.old.items ++ chunk_entries layout.now (image_of words.now) part chunk) }
{
    match read_chunk(alloc, layout, words, part, chunk, entries)? {
        Some(rule) => Ok(Some(Fault::Damaged { part, chunk, rule })),
        None => Ok(None),
    }
}

/// Appends a part's entries, and says what its first damaged chunk breaks of rules 4 to 7.
fn gather_part(
    alloc: Global,
    layout: &Geometry,
    words: &[u64],
    part: u32,
    entries: &mut Vec<PlacedEntry>,
) -> Result<Option<Fault>, Memory>
    requires layout { layout_rule layout.now ≡ None }
    requires words { length words.now ≡ total_words layout.now }
    requires part { part < layout.now.cores }
    ensures fault { IfOk result (λ f. f ≡ part_fault layout.now (image_of words.now) part) }
    ensures entries { IfOk result (λ _. entries.new.items
        ≡ entries.old.items ++ part_entries layout.now (image_of words.now) part) }
{
    let mut fault: Option<Fault> = None;
    for chunk in 0..layout.chunks {
        let found = gather_chunk(alloc, layout, words, part, chunk, entries)?;
        fault = fault.or(found);
    }
    Ok(fault)
}

/// The entries of an image, and the fault of the first damaged chunk.
#[derive(Drop)]
pub struct Gathered {
    /// All entries by part, chunk and place. Of a damaged chunk those before its first bad place.
    pub entries: Vec<PlacedEntry>,
    /// What the first chunk that breaks one of rules 4 to 7 breaks.
    pub fault: Option<Fault>,
}

/// Reads all chunks of an image, by part and chunk.
pub fn gather(alloc: Global, layout: &Geometry, words: &[u64]) -> Result<Gathered, Memory>
    requires layout { layout_rule layout.now ≡ None }
    requires words { length words.now ≡ total_words layout.now }
    ensures fault { IfOk result (λ g. g.fault ≡ chunk_fault layout.now (image_of words.now)) }
    ensures entries { IfOk result (λ g. g.entries.items
        ≡ all_entries layout.now (image_of words.now)) }
{
    let mut entries = Vec::new(alloc);
    let mut fault: Option<Fault> = None;
    for part in 0..layout.cores {
        let found = gather_part(alloc, layout, words, part, &mut entries)?;
        fault = fault.or(found);
    }
    Ok(Gathered { entries, fault })
}
