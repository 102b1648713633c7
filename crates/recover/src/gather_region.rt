// The entries of a region, chunk by chunk, by their names alone.
ghost use Rattle.std.specs.Prelude.{◌≡◌, ℕ, ◌+◌, ◌-◌, ◌/◌, ◌<◌, ◌≤◌, ◌%◌, ◌^◌, ◌++◌, length, map, true, None, option_map, IfOk, OnOk};
ghost use Rattle.pm_region.specs.State.{IsTelling};
ghost use Rattle.pm_region.specs.Words.{lasts};
ghost use Rattle.log_entry.specs.Batches.{scan_of};
ghost use Rattle.chunk_map.specs.Layouts.{chunk_first, payload_words};
ghost use Rattle.store_image.specs.Parts.{scan_at, chunk_entries};
ghost use Rattle.store_image.specs.Scanned.{IsScan};
ghost use Rattle.store_image.specs.Soundness.{damaged, chunk_rule};
ghost use Rattle.core_log.specs.Log.{Spelled};
ghost use Rattle.recover.specs.Regions.{Covers};
ghost use Rattle.recover.specs.Logs.{SpellsLog};
ghost use Rattle.recover.specs.FoundEntries.{found_in, found_of, LieBelow};
ghost use Rattle.recover.specs.Causes.{AnswersFault};
ghost use Rattle.recover.specs.Gathering.{GathersPart, Gathers};

use crate::found_entries::Found;
use crate::types::RecoverError;
use chunk_map::layout_sizes::HEAD_WORDS;
use chunk_map::words::fill_words;
use chunk_map::{Head, Layout, read_head};
use fs_model::Memory;
use pm_region::Region;
use std::alloc::Global;
use store_image::Fault;
use store_image::log_rules::log_rule;
use store_image::scanning::{AtPlace, Scanned};

/// What was read of a chunk. One serves all chunks, so neither their words nor their entries take memory anew.
#[derive(Drop)]
struct ChunkReading {
    /// The words of the log up to its tail.
    words: Vec<u64>,
    /// The entries that they spell.
    scanned: Scanned,
}

/// Scans the words of a log.
fn scan_log(words: &[u64], scanned: &mut Scanned) -> Result<(), Memory>
    ensures scan { OnOk result (IsScan scanned.new (scan_of words.now)) }
    ensures places { OnOk result (LieBelow (length words.now) scanned.new.entries.items) }
    ensures batches { OnOk result (scanned.new.whole ≡ true → length words.now % 8 ≡ 0
        → Spelled words.now) }
{
    scanned.scan(words)?;
    Ok(())
}

/// The first rule of 4 to 7 that a chunk breaks. Its entries are scanned. The payload is read up to the tail, of a log
/// alone.
fn read_chunk<R: Region>(
    region: &R,
    layout: &Layout,
    part: u32,
    chunk: u32,
    reading: &mut ChunkReading,
) -> Result<Option<u32>, Memory>
    requires covers { Covers (R.state region.now).frame layout.now }
    requires part { part < layout.now.cores }
    requires chunk { chunk < layout.now.chunks }
    ensures told { IfOk result (λ rule. IsTelling (R.state region.now)
        → (rule ≡ chunk_rule layout.now (lasts (R.state region.now)) part chunk)
        × IsScan reading.new.scanned (scan_at layout.now (lasts (R.state region.now))
        (chunk_first layout.now part chunk))) }
    ensures places { OnOk result (LieBelow (payload_words layout.now)
        reading.new.scanned.entries.items) }
    ensures batches { IfOk result (λ rule. IsTelling (R.state region.now) → rule ≡ None
        → SpellsLog layout.now (lasts (R.state region.now)) part chunk) }
{
    reading.scanned.clear();
    let at = layout.chunk_first(part, chunk);
    match read_head(region, layout, at) {
        Err(bad) => Ok(Some(bad.rule)),
        Ok(Head::Log { tail }) => {
            fill_words(region, at + HEAD_WORDS, tail, &mut reading.words)?;
            scan_log(&reading.words, &mut reading.scanned)?;
            Ok(log_rule(&layout.geometry(), part, &reading.scanned))
        }
        Ok(_) => Ok(None),
    }
}

/// Appends the names of a payload's entries with their first words. The payload begins at word `first`.
fn note_entries(first: u64, entries: &[AtPlace], found: &mut Vec<Found>) -> Result<(), Memory>
    requires { LieBelow (2 ^ 32 - first) entries.now }
    ensures { IfOk result (λ _. found.new.items ≡ found.old.items
        ++ map (found_in first) entries.now) }
{
    for x in entries {
        found.push(Found {
            key: x.name.key,
            version: x.name.version,
            at: (first + x.place) as u32,
        })?;
    }
    Ok(())
}

/// Appends what is found of a chunk's entries, or answers what it breaks of rules 4 to 7.
fn gather_chunk<R: Region>(
    region: &R,
    layout: &Layout,
    part: u32,
    chunk: u32,
    reading: &mut ChunkReading,
    found: &mut Vec<Found>,
) -> Result<(), RecoverError>
    requires covers { Covers (R.state region.now).frame layout.now }
    requires part { part < layout.now.cores }
    requires chunk { chunk < layout.now.chunks }
    ensures fault { IsTelling (R.state region.now)
        → AnswersFault (option_map (damaged part chunk) (chunk_rule layout.now
        (lasts (R.state region.now)) part chunk)) result }
    ensures entries { IfOk result (λ _. IsTelling (R.state region.now)
        → found.new.items ≡ found.old.items ++ map (found_of layout.now) (chunk_entries layout.now
        (lasts (R.state region.now)) part chunk)) }
    ensures batches { IfOk result (λ _. IsTelling (R.state region.now)
        → SpellsLog layout.now (lasts (R.state region.now)) part chunk) }
{
    if let Some(rule) = read_chunk(region, layout, part, chunk, reading)? {
        return Err(RecoverError::Fault(Fault::Damaged { part, chunk, rule }));
    }
    note_entries(
        layout.chunk_first(part, chunk) + HEAD_WORDS,
        &reading.scanned.entries,
        found,
    )?;
    Ok(())
}

/// Appends what is found of a part's entries, or answers the fault of its first chunk that breaks one of rules 4 to 7.
fn gather_part<R: Region>(
    region: &R,
    layout: &Layout,
    part: u32,
    reading: &mut ChunkReading,
    found: &mut Vec<Found>,
) -> Result<(), RecoverError>
    requires covers { Covers (R.state region.now).frame layout.now }
    requires part { part < layout.now.cores }
    ensures { IsTelling (R.state region.now)
        → GathersPart layout.now (lasts (R.state region.now)) part found.old.items
        found.new.items result }
{
    for chunk in 0..layout.chunks() {
        gather_chunk(region, layout, part, chunk, reading, found)?;
    }
    Ok(())
}

/// All entries of a region by part, chunk and place, as they are found, or the fault of its first chunk that breaks
/// one of rules 4 to 7.
pub fn gather<R: Region>(
    alloc: Global,
    region: &R,
    layout: &Layout,
) -> Result<Vec<Found>, RecoverError>
    requires covers { Covers (R.state region.now).frame layout.now }
    ensures { IsTelling (R.state region.now)
        → Gathers layout.now (lasts (R.state region.now)) result }
{
    let mut found = Vec::new(alloc);
    let mut reading = ChunkReading {
        words: Vec::new(alloc),
        scanned: Scanned::nothing(alloc),
    };
    for part in 0..layout.cores() {
        gather_part(region, layout, part, &mut reading, &mut found)?;
    }
    Ok(found)
}
