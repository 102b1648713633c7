// The next batch of copies out of a chunk.
ghost use Rattle.std.specs.Prelude.{◌≡◌, ◌≢◌, ℕ, ◌+◌, ◌-◌, ◌*◌, ◌^◌, ◌≤◌, ◌<◌, true, false, is_some, Some, IfSome, List, [], ◌++◌, length};
ghost use Rattle.pm_region.specs.State.{IsTelling, WordsLie};
ghost use Rattle.pm_region.specs.Words.{lasts};
ghost use Rattle.log_entry.specs.Words.{words_from};
ghost use Rattle.core_log.specs.Log.{StandsIn, tail_of, HoldsEntries};
ghost use Rattle.core_log.specs.Walking.{IsReadable, entries_in, behind};
ghost use Rattle.log_standing.specs.NameCounts.{copies_at, one_more, Changes, SameCopies, wants};
ghost use Rattle.log_cleaner.specs.Copying.{IsSettled, IsSettledIn, IsUpToDate, begins, left_to_copy};
ghost use Rattle.log_cleaner.specs.CopyBatch.{Collected, KeepsNames, batch_in};
ghost use Rattle.log_cleaner.specs.Tallied.{KeepsTally};

use crate::reading_start::begin_at;
use core_log::{CoreLog, Peek};
use log_entry::{LONGEST_ENTRY, MOST_BATCH_WORDS, MOST_ENTRIES, WordBuffer};
use log_standing::{Settled, Standing};
use pm_region::Region;

// Appends so many words of the region.
fn copy_words<R: Region>(region: &R, first: u64, count: u64, buffer: &mut WordBuffer)
    requires lies { WordsLie (R.state region.now).frame first count }
    requires room { length buffer.old.words + count ≤ buffer.old.room }
    ensures words { IsTelling (R.state region.now) → buffer.new.words ≡ buffer.old.words
        ++ words_from (lasts (R.state region.now)) first count }
    ensures long { length buffer.new.words ≡ length buffer.old.words + count }
    ensures room { buffer.new.room ≡ buffer.old.room }
{
    for i in 0..count {
        buffer.push(region.load(first + i));
    }
}

// Takes an entry into the batch where it is still to be copied. Its name has a second copy from then on.
fn take_in<R: Region>(
    region: &R,
    standing: &mut Standing,
    found: Peek,
    buffer: &mut WordBuffer,
) -> u64
    requires lies { WordsLie (R.state region.now).frame found.at (found.next - found.place) }
    requires order { found.place < found.next }
    requires size { found.next ≤ found.place + LONGEST_ENTRY }
    requires room { length buffer.old.words + LONGEST_ENTRY ≤ buffer.old.room }
    ensures passed { wants standing.old found.name.key found.name.version ≡ false → (result ≡ 0)
        × SameCopies standing.old standing.new × (buffer.new ≡ buffer.old) }
    ensures added { wants standing.old found.name.key found.name.version ≡ true → (result ≡ 1)
        × Changes standing.old standing.new found.name.key found.name.version
        (Some (one_more (copies_at standing.old found.name.key found.name.version))) }
    ensures words { wants standing.old found.name.key found.name.version ≡ true
        → IsTelling (R.state region.now) → buffer.new.words ≡ buffer.old.words
        ++ words_from (lasts (R.state region.now)) found.at (found.next - found.place) }
    ensures long { (length buffer.old.words + result ≤ length buffer.new.words)
        × (length buffer.new.words ≤ length buffer.old.words + LONGEST_ENTRY * result) }
    ensures one { result ≤ 1 }
    ensures room { buffer.new.room ≡ buffer.old.room }
    ensures settled { standing.new.settled ≡ standing.old.settled }
    ensures names { KeepsNames standing.old standing.new }
    ensures tally { KeepsTally standing.old standing.new }
{
    if !standing.wants(found.name) {
        return 0;
    }
    copy_words(region, found.at, found.next - found.place, buffer);
    standing.add_second(found.name);
    1
}

// The next batch of a chunk's entries that are still to be copied, from a place on, goes into an empty buffer. It
// gives the number of entries, and the place behind them.
fn collect_from<R: Region>(
    region: &R,
    log: &CoreLog,
    standing: &mut Standing,
    chunk: u32,
    from: u64,
    buffer: &mut WordBuffer,
) -> (u64, u64)
    requires stands { StandsIn (R.state region.now) log.now }
    requires has { is_some (tail_of log.now.chunks chunk) ≡ true }
    requires readable { IsReadable (R.state region.now) log.now chunk from }
    requires left { IsTelling (R.state region.now)
        → left_to_copy standing.old (entries_in (R.state region.now) log.now chunk)
        ≡ left_to_copy standing.old (behind from (entries_in (R.state region.now) log.now chunk)) }
    requires empty { buffer.old.words ≡ [] }
    requires room { MOST_BATCH_WORDS ≤ buffer.old.room }
    ensures told { IsTelling (R.state region.now)
        → Collected standing.old standing.new (batch_in (R.state region.now) log.now standing.old
        chunk) result.0 buffer.new.words }
    ensures holds { IsTelling (R.state region.now) → 0 < result.0 → HoldsEntries buffer.new.words }
    ensures some { 0 < result.0 → 0 < length buffer.new.words }
    ensures most { length buffer.new.words ≤ MOST_BATCH_WORDS }
    ensures few { result.0 ≤ MOST_ENTRIES }
    ensures kept { buffer.new.room ≡ buffer.old.room }
    ensures settled { IsTelling (R.state region.now) → IsSettled (R.state region.now) log.now
        standing.new (begins chunk result.1) }
    ensures names { KeepsNames standing.old standing.new }
    ensures tally { KeepsTally standing.old standing.new }
{
    let mut taken = 0;
    let mut place = from;
    while let Some(found) = log.peek(region, chunk, place) {
        if taken == u64::from(MOST_ENTRIES) {
            return (taken, place);
        }
        taken += take_in(region, standing, found, buffer);
        place = found.next;
    }
    (taken, place)
}

/// Collects the next batch of a chunk's entries that are still to be copied into an empty buffer, and gives their
/// number. Each of their names has a second copy from then on. The reading begins where the last one ended.
pub fn collect<R: Region>(
    region: &R,
    log: &CoreLog,
    standing: &mut Standing,
    chunk: u32,
    buffer: &mut WordBuffer,
) -> u64
    requires stands { StandsIn (R.state region.now) log.now }
    requires has { is_some (tail_of log.now.chunks chunk) ≡ true }
    requires standing { IsTelling (R.state region.now) → IsUpToDate (R.state region.now) log.now
        standing.old }
    requires empty { buffer.old.words ≡ [] }
    requires room { MOST_BATCH_WORDS ≤ buffer.old.room }
    ensures told { IsTelling (R.state region.now)
        → Collected standing.old standing.new (batch_in (R.state region.now) log.now standing.old
        chunk) result buffer.new.words }
    ensures holds { IsTelling (R.state region.now) → 0 < result → HoldsEntries buffer.new.words }
    ensures some { 0 < result → 0 < length buffer.new.words }
    ensures most { length buffer.new.words ≤ MOST_BATCH_WORDS }
    ensures few { result ≤ MOST_ENTRIES }
    ensures kept { buffer.new.room ≡ buffer.old.room }
    ensures settled { IsTelling (R.state region.now) → IsSettledIn (R.state region.now) log.now
        standing.new }
    ensures chunk { IfSome standing.new.settled (λ h. h.chunk ≡ chunk) }
    ensures names { KeepsNames standing.old standing.new }
    ensures tally { KeepsTally standing.old standing.new }
{
    let from = begin_at(log, standing, chunk);
    let (taken, place) = collect_from(region, log, standing, chunk, from, buffer);
    standing.settle(Some(Settled { chunk, place }));
    taken
}
