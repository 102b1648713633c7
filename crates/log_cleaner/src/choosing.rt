// Which chunk is cleaned next.
ghost use Rattle.std.specs.Prelude.{◌≡◌, ℕ, ◌+◌, ◌≤◌, ◌<◌, false, Some, None, IfSome, IfOk, OnErr};
ghost use Rattle.pm_region.specs.State.{IsTelling};
ghost use Rattle.core_log.specs.Log.{StandsIn};
ghost use Rattle.log_standing.specs.ChunkCounts.{IsStandingOf};
ghost use Rattle.log_cleaner.specs.Choosing.{IsChosen, IsCandidate, IsFirstIn, IsPast, IsVictim};
ghost use Rattle.log_cleaner.specs.Floors.{HasFloors, Searches};

use crate::copy_room::{copy_lines, has_room};
use crate::reading_start::tail_of;
use crate::searching::search_chunk;
use crate::types::Victim;
use chunk_map::layout_sizes::MOST_CHUNKS;
use core_log::{CoreLog, Room};
use fs_model::Memory;
use log_standing::Standing;
use pm_region::Region;
use std::alloc::Global;

// No part has more chunks.
const CHUNKS: u32 = MOST_CHUNKS as u32;

// Whether a chunk is to be read: it was not counted yet, or what was left of it at least may fit.
fn is_worth(standing: &Standing, room: &Room, chunk: u32) -> bool
    ensures { result ≡ false → IsPast standing.now room.now chunk }
{
    let Some(amount) = standing.floor(chunk) else {
        return true;
    };
    let least = Victim {
        chunk,
        entries: amount.entries,
        words: amount.words,
    };
    has_room(room, copy_lines(least))
}

// What is to be copied of a chunk, where it is one to be cleaned.
fn candidate<R: Region>(
    region: &R,
    log: &CoreLog,
    standing: &mut Standing,
    room: &Room,
    chunk: u32,
) -> Option<Victim>
    requires stands { StandsIn (R.state region.now) log.now }
    requires chunk { chunk < MOST_CHUNKS }
    requires standing { IsTelling (R.state region.now) → IsStandingOf (R.state region.now) log.now
        standing.old }
    requires floors { IsTelling (R.state region.now) → HasFloors (R.state region.now) log.now
        standing.old }
    ensures chosen { IfSome result (λ v. (v.chunk ≡ chunk) × IsChosen log.now room.now v) }
    ensures tells { IsTelling (R.state region.now)
        → IsCandidate (R.state region.now) log.now standing.old room.now chunk result }
    ensures same { Searches standing.old standing.new }
    ensures floors { IsTelling (R.state region.now) → HasFloors (R.state region.now) log.now
        standing.new }
{
    if !is_worth(standing, room, chunk) {
        return None;
    }
    if log.opened() == Some(chunk) || tail_of(log, chunk).is_none() {
        return None;
    }
    search_chunk(region, log, standing, room, chunk)
}

// The first of some chunk numbers that is one to be cleaned.
fn first_in<R: Region>(
    region: &R,
    log: &CoreLog,
    standing: &mut Standing,
    room: &Room,
    low: u32,
    high: u32,
) -> Option<Victim>
    requires stands { StandsIn (R.state region.now) log.now }
    requires high { high ≤ MOST_CHUNKS }
    requires standing { IsTelling (R.state region.now) → IsStandingOf (R.state region.now) log.now
        standing.old }
    requires floors { IsTelling (R.state region.now) → HasFloors (R.state region.now) log.now
        standing.old }
    ensures chosen { IfSome result (IsChosen log.now room.now) }
    ensures tells { IsTelling (R.state region.now)
        → IsFirstIn (R.state region.now) log.now standing.old room.now low high result }
    ensures same { Searches standing.old standing.new }
    ensures floors { IsTelling (R.state region.now) → HasFloors (R.state region.now) log.now
        standing.new }
{
    for chunk in low..high {
        if let Some(victim) = candidate(region, log, standing, room, chunk) {
            return Some(victim);
        }
    }
    None
}

// The chunk number at which the search begins.
fn begin_at(after: Option<u32>) -> u32
    ensures none { after ≡ None → result ≡ 0 }
    ensures some { (a : ℕ) → after ≡ Some a → a < MOST_CHUNKS → result ≡ a + 1 }
    ensures past { (a : ℕ) → after ≡ Some a → MOST_CHUNKS ≤ a → result ≡ MOST_CHUNKS }
    ensures within { result ≤ MOST_CHUNKS }
{
    match after {
        None => 0,
        Some(a) => { if a < CHUNKS { a + 1 } else { CHUNKS } }
    }
}

/// The chunk that is to be cleaned next, with what is still to be copied of it: of those chunks of the log that are
/// not open and for whose copies there is room, the one that comes first behind the last victim in cyclic order; none
/// exactly where there is no such chunk. A chunk is read where it was not counted yet, or where so little is left of it
/// that it may fit.
pub fn victim<R: Region>(
    alloc: Global,
    region: &R,
    log: &CoreLog,
    standing: &mut Standing,
    after: Option<u32>,
    room: &Room,
) -> Result<Option<Victim>, Memory>
    requires stands { StandsIn (R.state region.now) log.now }
    requires standing { IsTelling (R.state region.now) → IsStandingOf (R.state region.now) log.now
        standing.old }
    requires floors { IsTelling (R.state region.now) → HasFloors (R.state region.now) log.now
        standing.old }
    ensures chosen { IfOk result (λ found. IfSome found (IsChosen log.now room.now)) }
    ensures tells { IfOk result (λ found. IsTelling (R.state region.now)
        → IsVictim (R.state region.now) log.now standing.old after room.now found) }
    ensures same { Searches standing.old standing.new }
    ensures floors { IsTelling (R.state region.now) → HasFloors (R.state region.now) log.now
        standing.new }
    ensures memory { OnErr result (standing.new ≡ standing.old) }
{
    let _ = alloc;
    let begin = begin_at(after);
    if let Some(found) = first_in(region, log, standing, room, begin, CHUNKS) {
        return Ok(Some(found));
    }
    Ok(first_in(region, log, standing, room, 0, begin))
}
