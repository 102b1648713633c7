// What each name has of a chunk.
ghost use Rattle.std.specs.Prelude.{◌≡◌, ◌+◌, ◌^◌, ◌<◌, ◌≤◌, true, [], is_some, length, IfOk};
ghost use Rattle.pm_region.specs.State.{IsTelling};
ghost use Rattle.core_log.specs.Log.{StandsIn, tail_of};
ghost use Rattle.core_log.specs.Walking.{entries_in};
ghost use Rattle.log_standing.specs.Tallies.{amount_at, entries_held, words_held};
ghost use Rattle.log_cleaner.specs.Tallied.{HasAmounts, NotesIf};

use crate::clearing::entry_count;
use crate::types::Victim;
use core_log::{CoreLog, Peek};
use fs_model::Memory;
use log_standing::{Amount, Tally};
use pm_region::Region;
use std::alloc::Global;

// Notes an entry, where there is room for its name.
fn note(tally: &mut Tally, found: Peek)
    requires size { found.place ≤ found.next }
    requires entries { entries_held (amount_at tally.old found.name.key found.name.version)
        ≤ found.place }
    requires words { words_held (amount_at tally.old found.name.key found.name.version)
        ≤ found.place }
    requires more { found.place + 1 < 2 ^ 64 }
    ensures { NotesIf tally.old tally.new found }
{
    if tally.room() > 0 {
        tally.note(found.name, found.next - found.place);
    }
}

// Notes the entries of a chunk.
fn note_all<R: Region>(region: &R, log: &CoreLog, chunk: u32, tally: &mut Tally)
    requires stands { StandsIn (R.state region.now) log.now }
    requires has { is_some (tail_of log.now.chunks chunk) ≡ true }
    requires room { IsTelling (R.state region.now)
        → length (entries_in (R.state region.now) log.now chunk) ≤ tally.old.room }
    requires none { tally.old.names ≡ [] }
    ensures each { IsTelling (R.state region.now) → HasAmounts tally.new
        (entries_in (R.state region.now) log.now chunk) }
    ensures left { tally.new.left ≡ tally.old.left }
{
    let mut place = 0;
    while let Some(found) = log.peek(region, chunk, place) {
        note(tally, found);
        place = found.next;
    }
}

/// What is left of a victim's chunk, by its numbers, and what each name has there. It takes memory for as many names as
/// the chunk has entries.
pub fn tally_of<R: Region>(
    alloc: Global,
    region: &R,
    log: &CoreLog,
    victim: &Victim,
) -> Result<Tally, Memory>
    requires stands { StandsIn (R.state region.now) log.now }
    requires has { is_some (tail_of log.now.chunks victim.now.chunk) ≡ true }
    ensures entries { IfOk result (λ t. t.left.entries ≡ victim.now.entries) }
    ensures words { IfOk result (λ t. t.left.words ≡ victim.now.words) }
    ensures each { IfOk result (λ t. IsTelling (R.state region.now)
        → HasAmounts t (entries_in (R.state region.now) log.now victim.now.chunk)) }
{
    let count = entry_count(region, log, victim.chunk);
    let left = Amount {
        entries: victim.entries,
        words: victim.words,
    };
    let mut tally = Tally::open(alloc, left, count)?;
    note_all(region, log, victim.chunk, &mut tally);
    Ok(tally)
}
