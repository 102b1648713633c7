// A chunk is read for a search: what of it is still to be copied, and where each name's entry was found.
ghost use Rattle.std.specs.Prelude.{◌≡◌, ◌≢◌, ◌+◌, ◌-◌, ◌^◌, ◌<◌, ◌≤◌, true, is_some, Some, None, IfSome, if◌then◌else◌};
ghost use Rattle.pm_region.specs.State.{IsTelling};
ghost use Rattle.core_log.specs.Log.{StandsIn, tail_of, tail_in};
ghost use Rattle.log_standing.specs.ChunkCounts.{IsStandingOf};
ghost use Rattle.log_cleaner.specs.Choosing.{IsCandidate, IsChosen};
ghost use Rattle.log_cleaner.specs.Floors.{HasFloors, Searches};
ghost use Rattle.log_cleaner.specs.Searching.{Forgets, Looks, IsRead};

use crate::copy_room::{copy_lines, has_room};
use crate::counting::with_entry;
use crate::types::Victim;
use core_log::{CoreLog, Peek, Room};
use log_entry::{EntryName, LONGEST_ENTRY};
use log_standing::{Amount, CHUNK_NUMBERS, NOWHERE, Spot, Standing};
use pm_region::Region;

// Notes where an entry was found, and says whether it may be the only one of its name: its name stands in no other
// chunk and was not found in this one yet, or it was told dead.
fn look(standing: &mut Standing, chunk: u32, found: Peek) -> bool
    requires order { found.place < found.next }
    requires size { found.next ≤ found.place + LONGEST_ENTRY }
    requires chunk { chunk < CHUNK_NUMBERS }
    ensures { Looks standing.old standing.new chunk found result }
{
    let Some(copies) = standing.find(found.name) else {
        return false;
    };
    if copies.dead {
        return true;
    }
    if copies.count != 1 || (copies.spot.words != 0 && u32::from(copies.spot.chunk) == chunk) {
        return false;
    }
    let spot = Spot {
        chunk: chunk as u8,
        words: (found.next - found.place) as u8,
    };
    standing.note_spot(found.name, spot);
    true
}

// Forgets where an entry was found, and says whether to go on: not behind one that was not found in this chunk.
fn forget_spot(standing: &mut Standing, chunk: u32, name: EntryName) -> bool
    ensures { Forgets standing.old standing.new chunk }
{
    let Some(copies) = standing.find(name) else {
        return true;
    };
    if copies.dead {
        return true;
    }
    if copies.spot.words == 0 || u32::from(copies.spot.chunk) != chunk {
        return false;
    }
    standing.note_spot(name, NOWHERE);
    true
}

// Forgets where the entries of a chunk were found, up to where the search before this one has read.
fn forget_spots<R: Region>(region: &R, log: &CoreLog, standing: &mut Standing, chunk: u32)
    requires stands { StandsIn (R.state region.now) log.now }
    requires has { is_some (tail_of log.now.chunks chunk) ≡ true }
    ensures { Forgets standing.old standing.new chunk }
{
    let mut place = 0;
    while let Some(found) = log.peek(region, chunk, place) {
        if !forget_spot(standing, chunk, found.name) {
            return;
        }
        place = found.next;
    }
}

// Whether reading may stop early: nothing was noted of the chunk yet. Where something was, and may fit by now, the
// chunk is read to its end: what is noted then is all that is left, and doesn't soon seem to fit again. Where its
// entries were found is forgotten first, since an entry that was found before would pass for the second of its name.
fn begin_reading<R: Region>(region: &R, log: &CoreLog, standing: &mut Standing, chunk: u32) -> bool
    requires stands { StandsIn (R.state region.now) log.now }
    requires has { is_some (tail_of log.now.chunks chunk) ≡ true }
    ensures { Forgets standing.old standing.new chunk }
{
    if standing.floor(chunk).is_none() {
        return true;
    }
    forget_spots(region, log, standing, chunk);
    false
}

// Reads a chunk to its end, or, where it may stop, until what was found doesn't fit. It gives what of the entries that
// were read is still to be copied, and whether no two of them have one name. Where two have, nothing can be noted, and
// each search reads the chunk again: it stops there as well, or each would read the whole of it.
fn read_chunk<R: Region>(
    region: &R,
    log: &CoreLog,
    standing: &mut Standing,
    room: &Room,
    chunk: u32,
    stops: bool,
) -> (Victim, bool)
    requires stands { StandsIn (R.state region.now) log.now }
    requires has { is_some (tail_of log.now.chunks chunk) ≡ true }
    requires chunk { chunk < CHUNK_NUMBERS }
    ensures same { Searches standing.old standing.new }
    ensures read { IsTelling (R.state region.now) → IsRead (R.state region.now) log.now
        standing.old standing.new room.now chunk result.0 result.1 }
    ensures floors { standing.new.floors ≡ standing.old.floors }
    ensures chunk { result.0.chunk ≡ chunk }
    ensures entries { result.0.entries ≤ tail_in log.now chunk }
    ensures words { result.0.words ≤ tail_in log.now chunk }
{
    let mut so_far = Victim {
        chunk,
        entries: 0,
        words: 0,
    };
    let mut alone = true;
    let mut place = 0;
    while let Some(found) = log.peek(region, chunk, place) {
        so_far = with_entry(so_far, standing, found);
        alone = look(standing, chunk, found) & alone;
        if stops && !has_room(room, copy_lines(so_far)) {
            return (so_far, alone);
        }
        place = found.next;
    }
    (so_far, alone)
}

// What is noted of a chunk.
fn amount_of(victim: Victim, alone: bool) -> Option<Amount>
    ensures { result ≡ (if alone then Some (record {
      entries = victim.entries;
      words = victim.words;
    }) else None) }
{
    if !alone {
        return None;
    }
    Some(Amount {
        entries: victim.entries,
        words: victim.words,
    })
}

/// What of a closed chunk is still to be copied, where there is room for it; none exactly where there isn't. Where no
/// two of the entries that were read have one name, what was found of them is noted, and falls from then on as names
/// are wanted no more: so the chunk need not be read again before so little of them is left that the chunk may fit.
pub fn search_chunk<R: Region>(
    region: &R,
    log: &CoreLog,
    standing: &mut Standing,
    room: &Room,
    chunk: u32,
) -> Option<Victim>
    requires stands { StandsIn (R.state region.now) log.now }
    requires has { is_some (tail_of log.now.chunks chunk) ≡ true }
    requires closed { log.now.opened ≢ Some chunk }
    requires chunk { chunk < CHUNK_NUMBERS }
    requires standing { IsTelling (R.state region.now) → IsStandingOf (R.state region.now) log.now
        standing.old }
    ensures chosen { IfSome result (λ v. (v.chunk ≡ chunk) × IsChosen log.now room.now v) }
    ensures tells { IsTelling (R.state region.now)
        → IsCandidate (R.state region.now) log.now standing.old room.now chunk result }
    ensures same { Searches standing.old standing.new }
    ensures floors { IsTelling (R.state region.now)
        → HasFloors (R.state region.now) log.now standing.old
        → HasFloors (R.state region.now) log.now standing.new }
{
    let stops = begin_reading(region, log, standing, chunk);
    let (victim, alone) = read_chunk(region, log, standing, room, chunk, stops);
    standing.note_floor(chunk, amount_of(victim, alone));
    if has_room(room, copy_lines(victim)) {
        return Some(victim);
    }
    None
}
