// The rules on all entries of an image together.
ghost use Rattle.std.specs.Prelude.{◌≡◌, ◌/◌, ◌&&◌, nat_lt, length, IfOk, None, []};
ghost use Rattle.std.specs.List.{list_any};
ghost use Rattle.std.specs.Option.{option_copied};
ghost use Rattle.chunk_map.specs.Layouts.{layout_rule, total_words, owner};
ghost use Rattle.store_image.specs.Parts.{block_class};
ghost use Rattle.store_image.specs.Winners.{winner_in, keys_of};
ghost use Rattle.store_image.specs.Soundness.{contradicts, clash_after, clash_fault, points_to, pointer_rule, body_rule, winner_fault, block_fault};
ghost use Rattle.image_yardstick.specs.Images.{image_of};

use crate::image_blocks::block_class;
use crate::winners::{keys_of, winner_in};
use chunk_map::layout_sizes::UNIT_WORDS;
use chunk_map::layouts::Geometry;
use fs_model::Memory;
use log_entry::entry::Body;
use std::alloc::Global;
use store_image::contradictions::contradicts;
use store_image::geometry::{has_class, owner};
use store_image::{Fault, PlacedEntry};

fn contradicts_any(x: &PlacedEntry, before: &[PlacedEntry]) -> bool
    ensures { result ≡ list_any (contradicts x.now) before.now }
{
    before.iter().any(|y| contradicts(x, y))
}

/// The first entry that contradicts one before it.
fn clash(entries: &[PlacedEntry]) -> Option<&PlacedEntry>
    ensures { option_copied result ≡ clash_after [] entries.now }
{
    for i in 0..entries.len() {
        let x = &entries[i];
        if contradicts_any(x, &entries[..i]) {
            return Some(x);
        }
    }
    None
}

/// What the entries break of rule 8: two entries of one key and version have the same body and stand in one
/// part.
pub fn clash_fault(entries: &[PlacedEntry]) -> Option<Fault>
    ensures { result ≡ clash_fault entries.now }
{
    match clash(entries) {
        None => None,
        Some(x) => Some(Fault::Damaged {
            part: x.core,
            chunk: x.chunk,
            rule: 8,
        }),
    }
}

fn points_to(pointer: u64, winner: Option<&PlacedEntry>) -> bool
    ensures { result ≡ points_to pointer (option_copied winner.entry) }
{
    match winner {
        None => false,
        Some(x) => match &x.entry.body {
            Body::Pointer(p) => pointer == *p,
            _ => false,
        },
    }
}

/// Whether the winner of a smaller key has this pointer.
fn is_taken(pointer: u64, key: u64, keys: &[u64], entries: &[PlacedEntry]) -> bool
    ensures { result
        ≡ list_any (λ j. nat_lt j key && points_to pointer (winner_in j entries.now)) keys.now }
{
    keys.iter().any(|other| *other < key && points_to(pointer, winner_in(*other, entries)))
}

/// The first rule of 9 to 11 that a key's winner breaks by its pointer.
///
/// 9. A winner's pointer is the start of a block in a data chunk of the owner's part.
/// 10. That block's length word is a length whose class is the chunk's.
/// 11. No two winners have the same pointer. It is tested against smaller keys.
fn pointer_rule(
    layout: &Geometry,
    words: &[u64],
    entries: &[PlacedEntry],
    keys: &[u64],
    key: u64,
    pointer: u64,
) -> Option<u32>
    requires layout { layout_rule layout.now ≡ None }
    requires words { length words.now ≡ total_words layout.now }
    requires keys { keys.now ≡ keys_of entries.now }
    ensures { result ≡ pointer_rule (image_of words.now) entries.now key pointer
        (block_class layout.now (image_of words.now) (owner layout.now key) pointer) }
{
    match block_class(layout, words, owner(layout, key), pointer) {
        None => Some(9),
        Some(class) => {
            if !has_class(words[UNIT_WORDS as usize * pointer as usize], class) {
                Some(10)
            } else if is_taken(pointer, key, keys, entries) {
                Some(11)
            } else {
                None
            }
        }
    }
}

/// What a key's winner breaks of rules 9 to 11, at the place where it first stands.
fn winner_fault(
    layout: &Geometry,
    words: &[u64],
    entries: &[PlacedEntry],
    keys: &[u64],
    key: u64,
) -> Option<Fault>
    requires layout { layout_rule layout.now ≡ None }
    requires words { length words.now ≡ total_words layout.now }
    requires keys { keys.now ≡ keys_of entries.now }
    ensures { result ≡ winner_fault layout.now (image_of words.now) entries.now key
        (winner_in key entries.now) }
{
    let winner = winner_in(key, entries)?;
    match &winner.entry.body {
        Body::Pointer(pointer) => {
            let rule = pointer_rule(layout, words, entries, keys, key, *pointer)?;
            Some(Fault::Damaged {
                part: winner.core,
                chunk: winner.chunk,
                rule,
            })
        }
        Body::Embedded(_) => None,
        Body::Tombstone => None,
    }
}

/// What the first winner that breaks one of rules 9 to 11 breaks, by rising key.
pub fn block_fault(
    alloc: Global,
    layout: &Geometry,
    words: &[u64],
    entries: &[PlacedEntry],
) -> Result<Option<Fault>, Memory>
    requires layout { layout_rule layout.now ≡ None }
    requires words { length words.now ≡ total_words layout.now }
    ensures { IfOk result (λ f. f ≡ block_fault layout.now (image_of words.now) entries.now) }
{
    let keys = keys_of(alloc, entries)?;
    for key in &keys {
        if let Some(fault) = winner_fault(layout, words, entries, &keys, *key) {
            return Ok(Some(fault));
        }
    }
    Ok(None)
}
