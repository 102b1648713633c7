// Entries that were found are read from the region.
ghost use Rattle.std.specs.Prelude.{◌≡◌, ℕ, ◌/◌, ◌<◌, map, length, true, Some, IfOk, IfSome};
ghost use Rattle.pm_region.specs.State.{IsTelling};
ghost use Rattle.pm_region.specs.Words.{lasts};
ghost use Rattle.log_entry.specs.Spelling.{HasSpelling};
ghost use Rattle.core_index.specs.Records.{pointer_of};
ghost use Rattle.chunk_map.specs.Layouts.{total_bytes, total_words};
ghost use Rattle.store_image.specs.Soundness.{damaged};
ghost use Rattle.recover.specs.Regions.{Covers};
ghost use Rattle.recover.specs.ByName.{name_of};
ghost use Rattle.recover.specs.Winning.{AreSpelled};
ghost use Rattle.recover.specs.FoundEntries.{body_at, core_at, chunk_there, placed_at, Stands, AreFound, name_found, HasWords, body_named, ReadsAll};

use crate::found_entries::{Found, chunk_of, core_of, place_of};
use crate::types::RecoverError;
use chunk_map::Layout;
use chunk_map::words::fill_words;
use fs_model::Memory;
use log_entry::entry_limits::SHORTEST_ENTRY;
use log_entry::{Body, Entry, Read, read_entry, read_entry_in, size_of};
use pm_region::{Region, WORD_BYTES};
use std::alloc::Global;
use store_image::{Fault, PlacedEntry};

/// Fills a list with the words of the entry that begins at a word, and says whether they lie in the region.
fn words_there<R: Region>(
    region: &R,
    layout: &Layout,
    at: u32,
    words: &mut Vec<u64>,
) -> Result<bool, Memory>
    requires covers { Covers (R.state region.now).frame layout.now }
    ensures told { IfOk result (λ there. IsTelling (R.state region.now)
        → HasWords (lasts (R.state region.now)) (total_words layout.now) at there words.new.items) }
    ensures some { IfOk result (λ there. there ≡ true → 0 < length words.new.items) }
{
    let at = at as u64;
    let end = layout.total_bytes() / WORD_BYTES;
    if at >= end {
        return Ok(false);
    }
    let size = size_of(region.load(at));
    if size > end - at {
        return Ok(false);
    }
    fill_words(region, at, size, words)?;
    Ok(true)
}

/// The body of an entry that was read, where it has this name.
fn body_named(read: Read, found: &Found) -> Option<Body>
    ensures { result ≡ body_named read found.now }
{
    match read {
        Read::Entry { entry, length: _ } => {
            if entry.key == found.key && entry.version == found.version {
                Some(entry.body)
            } else {
                None
            }
        }
        _ => None,
    }
}

/// The body of an entry that was found; none where no entry of its name stands there now. `words` is scratch, and in
/// `room` come the bytes of a value.
pub fn read_in<R: Region>(
    region: &R,
    layout: &Layout,
    found: &Found,
    words: &mut Vec<u64>,
    room: Vec<u8>,
) -> Result<Option<Body>, Memory>
    requires covers { Covers (R.state region.now).frame layout.now }
    ensures told { IfOk result (λ b. IsTelling (R.state region.now)
        → Stands layout.now (lasts (R.state region.now)) found.now
        → b ≡ Some (body_at (lasts (R.state region.now)) found.now.at)) }
    ensures spelled { IfOk result (λ b. IfSome b (λ body. HasSpelling
        (record { key = found.now.key; version = found.now.version; body = body }))) }
{
    if !words_there(region, layout, found.at, words)? {
        return Ok(None);
    }
    let read = read_entry_in(words.as_slice(), 0, room)?;
    Ok(body_named(read, found))
}

/// The same, with new room for a value.
pub fn read_at<R: Region>(
    alloc: Global,
    region: &R,
    layout: &Layout,
    found: &Found,
    words: &mut Vec<u64>,
) -> Result<Option<Body>, Memory>
    requires covers { Covers (R.state region.now).frame layout.now }
    ensures told { IfOk result (λ b. IsTelling (R.state region.now)
        → Stands layout.now (lasts (R.state region.now)) found.now
        → b ≡ Some (body_at (lasts (R.state region.now)) found.now.at)) }
    ensures spelled { IfOk result (λ b. IfSome b (λ body. HasSpelling
        (record { key = found.now.key; version = found.now.version; body = body }))) }
{
    read_in(region, layout, found, words, Vec::new(alloc))
}

/// The block that a body points to.
fn pointer_of(body: &Body) -> Option<u64>
    ensures { result ≡ pointer_of body.now }
{
    match body {
        Body::Pointer(pointer) => Some(*pointer),
        _ => None,
    }
}

/// The pointer of an entry that was found, where it has one. Where a value stands beside it, only its first word is read.
pub fn pointer_at<R: Region>(
    alloc: Global,
    region: &R,
    layout: &Layout,
    found: &Found,
) -> Result<Option<u64>, Memory>
    requires covers { Covers (R.state region.now).frame layout.now }
    ensures { IfOk result (λ p. IsTelling (R.state region.now)
        → Stands layout.now (lasts (R.state region.now)) found.now
        → p ≡ pointer_of (body_at (lasts (R.state region.now)) found.now.at)) }
{
    let at = found.at as u64;
    let words = layout.total_bytes() / WORD_BYTES;
    if at >= words || words - at < SHORTEST_ENTRY {
        return Ok(None);
    }
    let first = region.load(at);
    if size_of(first) > SHORTEST_ENTRY {
        return Ok(None);
    }
    let words = [first, region.load(at + 1)];
    match read_entry(alloc, &words, 0)? {
        Read::Entry { entry, length: _ } => Ok(pointer_of(&entry.body)),
        _ => Ok(None),
    }
}

/// The fault of a chunk in which an entry stands no more that was found there.
pub fn gone_fault(layout: &Layout, found: &Found) -> Fault
    ensures { result ≡ damaged (core_at layout.now found.now.at)
        (chunk_there layout.now found.now.at) 6 }
{
    Fault::Damaged {
        part: core_of(layout, found.at),
        chunk: chunk_of(layout, found.at),
        rule: 6,
    }
}

/// An entry that was found, with its body; none where no entry of its name stands there now. `words` is scratch.
pub fn read_placed<R: Region>(
    alloc: Global,
    region: &R,
    layout: &Layout,
    found: &Found,
    words: &mut Vec<u64>,
) -> Result<Option<PlacedEntry>, Memory>
    requires covers { Covers (R.state region.now).frame layout.now }
    ensures told { IfOk result (λ x. IsTelling (R.state region.now)
        → Stands layout.now (lasts (R.state region.now)) found.now
        → x ≡ Some (placed_at layout.now (lasts (R.state region.now)) found.now)) }
    ensures name { IfOk result (λ x. IfSome x (λ x. name_of x ≡ name_found found.now)) }
    ensures spelled { IfOk result (λ x. IfSome x (λ x. HasSpelling x.entry)) }
{
    match read_at(alloc, region, layout, found, words)? {
        None => Ok(None),
        Some(body) => Ok(Some(PlacedEntry {
            core: core_of(layout, found.at),
            chunk: chunk_of(layout, found.at),
            place: place_of(layout, found.at),
            entry: Entry {
                key: found.key,
                version: found.version,
                body,
            },
        })),
    }
}

/// The entries that were found, with their bodies, in their order. One that stands there no more is answered as
/// damage.
pub fn read_entries<R: Region>(
    alloc: Global,
    region: &R,
    layout: &Layout,
    found: &[Found],
) -> Result<Vec<PlacedEntry>, RecoverError>
    requires covers { Covers (R.state region.now).frame layout.now }
    ensures told { IsTelling (R.state region.now)
        → AreFound layout.now (lasts (R.state region.now)) found.now
        → ReadsAll layout.now (lasts (R.state region.now)) found.now result }
    ensures names { IfOk result (λ es. map name_of es.items ≡ map name_found found.now) }
    ensures spelled { IfOk result (λ es. AreSpelled es.items) }
{
    let mut entries = Vec::with_capacity(alloc, found.len())?;
    let mut words = Vec::new(alloc);
    for x in found {
        match read_placed(alloc, region, layout, x, &mut words)? {
            Some(entry) => entries.push(entry)?,
            None => return Err(gone_fault(layout, x).into()),
        }
    }
    Ok(entries)
}
