// The cells that an image recovers.
ghost use Rattle.std.specs.Prelude.{◌≡◌, ◌/◌, length, IfOk, None};
ghost use Rattle.chunk_map.specs.Layouts.{layout_rule, layout_of, total_words};
ghost use Rattle.store_image.specs.Parts.{all_entries};
ghost use Rattle.store_image.specs.Winners.{recovered};
ghost use Rattle.store_image.specs.Listing.{ListsCells};
ghost use Rattle.image_yardstick.specs.Images.{image_of};

use crate::gather_image::gather;
use crate::image_blocks::value_in_block;
use crate::image_superblock::layout_at;
use crate::winners::{keys_of, winner_in};
use chunk_map::layouts::Geometry;
use fs_model::{Memory, Pair, Value};
use log_entry::entry::Body;
use std::alloc::Global;
use store_image::PlacedEntry;
use store_image::geometry::owner;
use store_image::live_pair::push_pair;

/// The cell of a key: what its winner leaves.
fn cell(
    alloc: Global,
    layout: &Geometry,
    words: &[u64],
    entries: &[PlacedEntry],
    key: u64,
) -> Result<Option<Value>, Memory>
    requires layout { layout_rule layout.now ≡ None }
    requires words { length words.now ≡ total_words layout.now }
    requires entries { entries.now ≡ all_entries layout.now (image_of words.now) }
    ensures { IfOk result (λ v. v ≡ recovered layout.now (image_of words.now) key) }
{
    match winner_in(key, entries) {
        None => Ok(None),
        Some(winner) => match &winner.entry.body {
            Body::Pointer(pointer) => {
                let value = value_in_block(alloc, layout, words, owner(layout, key), *pointer)?;
                Ok(value)
            }
            Body::Embedded(value) => Ok(Some(value.copy(alloc)?)),
            Body::Tombstone => Ok(None),
        },
    }
}

/// The live pairs of an image of this layout by rising key.
fn live_pairs(alloc: Global, layout: &Geometry, words: &[u64]) -> Result<Vec<Pair>, Memory>
    requires layout { layout_rule layout.now ≡ None }
    requires words { length words.now ≡ total_words layout.now }
    ensures { IfOk result
        (λ pairs. ListsCells (recovered layout.now (image_of words.now)) pairs.items) }
{
    let gathered = gather(alloc, layout, words)?;
    let keys = keys_of(alloc, &gathered.entries)?;
    let mut pairs = Vec::new(alloc);
    for key in &keys {
        let value = cell(alloc, layout, words, &gathered.entries, *key)?;
        push_pair(&mut pairs, *key, value)?;
    }
    Ok(pairs)
}

/// The live pairs of an image by rising key. The superblock must have a layout, of which the words are as
/// many as its region has; the image need not be sound.
pub fn recovered_cells(alloc: Global, words: &[u64]) -> Result<Vec<Pair>, Memory>
    requires layout { layout_rule (layout_of (image_of words.now)) ≡ None }
    requires words { length words.now ≡ total_words (layout_of (image_of words.now)) }
    ensures { IfOk result (λ pairs. ListsCells
        (recovered (layout_of (image_of words.now)) (image_of words.now)) pairs.items) }
{
    match layout_at(words) {
        None => Ok(Vec::new(alloc)),
        Some(layout) => {
            let pairs = live_pairs(alloc, &layout, words)?;
            Ok(pairs)
        }
    }
}
