// What still lives in a chunk is copied into the open one.
ghost use Rattle.std.specs.Prelude.{◌≡◌, ◌≢◌, ◌⊎◌, ℕ, ◌+◌, ◌-◌, ◌*◌, ◌^◌, ◌≤◌, ◌<◌, true, false, is_some, Some, length, OnOk, OnErr, IfOk, IfSome, IsSome};
ghost use Rattle.pm_region.specs.Words.{lines_for};
ghost use Rattle.pm_region.specs.State.{IsTelling, Faulted};
ghost use Rattle.core_log.specs.Log.{StandsIn, tail_of, room_of, with_tail, open_number, open_tail};
ghost use Rattle.core_log.specs.Chunk.{padded};
ghost use Rattle.core_log.specs.Walking.{entries_in};
ghost use Rattle.log_cleaner.specs.Copying.{IsUpToDate};
ghost use Rattle.log_cleaner.specs.CopyBatch.{copies_in, copied_in, CopiesFit, IsCopyBatch, HasCopied, KeepsNames, Bounds};
ghost use Rattle.log_cleaner.specs.Tallied.{KeepsTally};
ghost use Rattle.log_cleaner.specs.ImagesBeside.{MakesCopies};

use crate::collect_copies::collect;
use crate::types::Victim;
use core_log::CoreLog;
use log_entry::{MOST_BATCH_WORDS, MOST_ENTRIES, WordBuffer};
use log_standing::Standing;
use pm_region::{LINE_WORDS, Region, RegionFault};

// Whether there is a batch of no more than is still to be copied, and room for it. Where the region does not tell what
// it has, another reading may find more.
fn is_ready(log: &CoreLog, victim: &Victim, buffer: &WordBuffer, taken: u64) -> bool
    requires { length buffer.now.words ≤ MOST_BATCH_WORDS }
    ensures ready { result ≡ true → (0 < taken)
        × (lines_for (length buffer.now.words) ≤ room_of log.now)
        × (taken ≤ victim.now.entries) × (length buffer.now.words ≤ victim.now.words) }
    ensures unready { result ≡ false → (taken ≡ 0)
        ⊎ ((room_of log.now < lines_for (length buffer.now.words))
        ⊎ ((victim.now.entries < taken) ⊎ (victim.now.words < length buffer.now.words))) }
{
    let words = buffer.words().len() as u64;
    taken > 0
        && words.div_ceil(LINE_WORDS) <= log.room()
        && taken <= victim.entries
        && words <= victim.words
}

// The answer where nothing is written: none was left, or else more than there may be was found.
fn none_copied(taken: u64) -> Option<u64>
    ensures none { copied_in result ≡ 0 }
    ensures some { taken ≡ 0 → IsSome result }
{
    if taken == 0 { Some(0) } else { None }
}

/// Copies the next entries of a victim's chunk that are still to be copied, by place, as one batch into the open
/// chunk, and gives their number: 64 of them, equal ones counted once, or all where they are fewer. Where none is
/// left it answers 0 and writes nothing. Where it finds more than the victim's numbers say, or than there is room for,
/// it writes nothing and gives no number: only a region that reads otherwise than before has that. At every moment
/// each image of the part has just the entries that one of the beginning has. The buffer has the batch's words then:
/// what a caller keeps of what is left is lowered by these.
pub fn copy_live<R: Region>(
    region: &mut R,
    log: &mut CoreLog,
    standing: &mut Standing,
    victim: &Victim,
    buffer: &mut WordBuffer,
) -> Result<Option<u64>, RegionFault>
    requires stands { StandsIn (R.state region.old) log.old }
    requires has { is_some (tail_of log.old.chunks victim.now.chunk) ≡ true }
    requires closed { log.old.opened ≢ Some victim.now.chunk }
    requires standing { IsTelling (R.state region.old) → IsUpToDate (R.state region.old) log.old
        standing.old }
    requires buffer { MOST_BATCH_WORDS ≤ buffer.old.room }
    requires room { CopiesFit (R.state region.old) log.old standing.old victim.now.chunk }
    requires bounds { IsTelling (R.state region.old) → Bounds victim.now standing.old
        (entries_in (R.state region.old) log.old victim.now.chunk) }
    ensures moments { MakesCopies (R.state region.old) (R.state region.new) log.old
        (copies_in (R.state region.old) log.old standing.old victim.now.chunk) }
    ensures batch { IfOk result (λ n. IsTelling (R.state region.old)
        → IsCopyBatch (R.state region.old) log.old standing.old victim.now.chunk (copied_in n)
        buffer.new.words) }
    ensures told { IfOk result (λ n. IsTelling (R.state region.old) → IsSome n) }
    ensures ok { OnOk result (HasCopied (R.state region.old) (R.state region.new) log.old log.new
        standing.old standing.new victim.now.chunk) }
    ensures nothing { IfOk result (λ n. copied_in n ≡ 0
        → (R.state region.new ≡ R.state region.old) × (log.new ≡ log.old)) }
    // Whatever the region tells: no more than the numbers of the victim say, in so many lines of the open chunk.
    ensures within { IfOk result (λ n. (copied_in n ≤ victim.now.entries)
        × (copied_in n ≤ MOST_ENTRIES) × (0 < copied_in n → length buffer.new.words
        ≤ victim.now.words)) }
    ensures some { IfOk result (λ n. 0 < copied_in n → 0 < length buffer.new.words) }
    ensures read { IfSome standing.new.settled (λ h. h.chunk ≡ victim.now.chunk) }
    ensures log { IfOk result (λ n. 0 < copied_in n → log.new ≡ record log.old {
      chunks = with_tail log.old.chunks (open_number log.old)
          (open_tail log.old + length (padded buffer.new.words));
    }) }
    ensures names { KeepsNames standing.old standing.new }
    ensures tally { KeepsTally standing.old standing.new }
    ensures buffer { buffer.new.room ≡ buffer.old.room }
    ensures err { OnErr result (log.new ≡ log.old) }
    ensures cause { OnErr result (Faulted (R.state region.old) (R.state region.new)) }
{
    buffer.clear();
    let taken = collect(region, log, standing, victim.chunk, buffer);
    if !is_ready(log, victim, buffer, taken) {
        return Ok(none_copied(taken));
    }
    log.append_batch(region, buffer)?;
    Ok(Some(taken))
}
