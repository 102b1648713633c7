// Reading one chunk of an image.
ghost use Rattle.std.specs.Prelude.{◌≡◌, ◌+◌, ◌/◌, ◌<◌, ◌≤◌, ◌++◌, length, IfOk, None};
ghost use Rattle.chunk_map.specs.Layouts.{layout_rule, payload_words, chunk_first, chunk_words, total_words};
ghost use Rattle.log_entry.specs.Batches.{scan_of};
ghost use Rattle.store_image.specs.Soundness.{rule_of, chunk_rule};
ghost use Rattle.store_image.specs.Parts.{payload, placed_in_chunk, chunk_entries};
ghost use Rattle.image_yardstick.specs.Images.{image_of};

use crate::image_heads::head_at;
use crate::image_places::chunk_first;
use chunk_map::heads::Head;
use chunk_map::layout_sizes::{HEAD_WORDS, LEAST_CHUNK};
use chunk_map::layouts::Geometry;
use fs_model::Memory;
use std::alloc::Global;
use store_image::PlacedEntry;
use store_image::log_rules::log_rule;
use store_image::placing::place_entries;
use store_image::scanning::Scanned;

/// The words of a log up to its tail.
fn log_words<'a>(layout: &Geometry, words: &'a [u64], at: usize, tail: u64) -> &'a [u64]
    requires within { at + chunk_words layout.now ≤ length words.now }
    requires tail { tail ≤ payload_words layout.now }
    requires size { LEAST_CHUNK ≤ layout.now.chunk_bytes }
    ensures { result.now ≡ payload (image_of words.entry.now) at tail }
{
    let first = at + HEAD_WORDS as usize;
    &words[first..first + tail as usize]
}

/// The first of rules 6 and 7 that a log of the part breaks, by the words up to its tail. Its entries are appended.
fn read_log(
    alloc: Global,
    layout: &Geometry,
    payload: &[u64],
    part: u32,
    chunk: u32,
    entries: &mut Vec<PlacedEntry>,
) -> Result<Option<u32>, Memory>
    requires cores { 1 ≤ layout.now.cores }
    requires group { 1 ≤ layout.now.group }
    ensures rule { IfOk result (λ rule. rule ≡ rule_of layout.now part (scan_of payload.now)) }
    ensures entries { IfOk result (λ _. entries.new.items
        ≡ entries.old.items ++ placed_in_chunk part chunk (scan_of payload.now).entries) }
{
    let mut scanned = Scanned::nothing(alloc);
    scanned.scan(payload)?;
    place_entries(alloc, payload, part, chunk, &scanned.entries, entries)?;
    Ok(log_rule(layout, part, &scanned))
}

/// The first rule of 4 to 7 that a chunk breaks. Its entries are appended.
///
/// 4. The kind word is 0 (free), 1 (log) or that of a class of the layout.
/// 5. A log's tail is a multiple of 8 and at most the payload's words.
/// 6. The words up to the tail spell batches.
/// 7. A core of the part's group owns each entry's key.
///
/// Rules 6 and 7 go place by place: an entry that breaks 7 counts before a later place that breaks 6.
pub fn read_chunk(
    alloc: Global,
    layout: &Geometry,
    words: &[u64],
    part: u32,
    chunk: u32,
    entries: &mut Vec<PlacedEntry>,
) -> Result<Option<u32>, Memory>
    requires layout { layout_rule layout.now ≡ None }
    requires words { length words.now ≡ total_words layout.now }
    requires part { part < layout.now.cores }
    requires chunk { chunk < layout.now.chunks }
    ensures rule { IfOk result
        (λ rule. rule ≡ chunk_rule layout.now (image_of words.now) part chunk) }
    ensures entries { IfOk result (λ _. entries.new.items
        ≡ entries.old.items ++ chunk_entries layout.now (image_of words.now) part chunk) }
{
    let at = chunk_first(layout, part, chunk);
    match head_at(layout, words, at) {
        Err(rule) => Ok(Some(rule)),
        Ok(Head::Log { tail }) => {
            let payload = log_words(layout, words, at, tail);
            read_log(alloc, layout, payload, part, chunk, entries)
        }
        Ok(_) => Ok(None),
    }
}
