// A batch of copies of a cleaning, with the chunk that is opened for the first one.
ghost use Rattle.std.specs.Prelude.{◌≡◌, ◌≢◌, ℕ, ◌≤◌, ◌<◌, ◌∷◌, true, false, [], is_some, Some, None, IfOk, OnErr, IsSome, MatchResult};
ghost use Rattle.pm_region.specs.State.{IsTelling, cell_now, Faulted};
ghost use Rattle.pm_region.specs.Words.{lines_for};
ghost use Rattle.core_log.specs.Log.{tail_of, room_of};
ghost use Rattle.core_log.specs.Walking.{entries_in};
ghost use Rattle.group_laws.specs.Places.{members};
ghost use Rattle.group_laws.specs.Runs as runs;
ghost use Rattle.group_board.specs.Views.{after_commit};
ghost use Rattle.group_board.specs.Told.{Makes};
ghost use Rattle.group_board.specs.Trails.{step_with};
ghost use Rattle.batch_leader.specs.Persisting.{HasRoom, opened_for, StaysLicensed, WritesOpenChunk, WritesPart};
ghost use Rattle.licence.specs.Licence.{IsLogOf, Licensed};
ghost use Rattle.licence.specs.Writes.{Begins};
ghost use Rattle.log_standing.specs.declared.types.Settled.{Settled};
ghost use Rattle.log_cleaner.specs.Copying.{IsUpToDate};
ghost use Rattle.log_cleaner.specs.CopyBatch.{Bounds, KeepsNames, copied_in};
ghost use Rattle.core_worker.specs.CopyTurns.{CopiesBatch, CopiesInRegion};

use crate::copy_buffer::CopyBuffer;
use core_log::CoreLog;
use group_board::Board;
use log_cleaner::{Victim, copy_live};
use log_standing::Standing;
use pm_region::{Region, RegionFault};

// Copies the next batch out of the victim's chunk and commits it. It gives the number of entries, 0 where none is left,
// and no number where the region reads otherwise than before: then nothing is copied.
// It is licensed throughout by the view, which stays but for what was loaded.
fn copy_on<R: Region, B: Board>(
    region: &mut R,
    board: &mut B,
    log: &mut CoreLog,
    standing: &mut Standing,
    victim: &Victim,
    buffer: &mut CopyBuffer,
) -> Result<Option<u64>, RegionFault>
    requires begins { Begins (R.state region.old) (B.seat board.old).place
        (B.seat board.old).number (B.view board.old) log.old }
    requires member { (B.seat board.old).number < members (B.seat board.old).place }
    requires whole { (B.view board.old).broken ≡ false }
    requires idle { (B.view board.old).flying ≡ [] }
    requires has { is_some (tail_of log.old.chunks victim.now.chunk) ≡ true }
    requires closed { log.old.opened ≢ Some victim.now.chunk }
    requires standing { IsTelling (R.state region.old)
        → IsUpToDate (R.state region.old) log.old standing.old }
    requires bounds { IsTelling (R.state region.old) → Bounds victim.now standing.old
        (entries_in (R.state region.old) log.old victim.now.chunk) }
    requires fits { lines_for victim.now.words ≤ room_of log.old }
    ensures seat { B.seat board.new ≡ B.seat board.old }
    ensures moments { StaysLicensed (R.state region.old) (R.state region.new)
        (B.seat board.old) (B.view board.old) }
    ensures outside { WritesPart (R.state region.old) (R.state region.new) (B.seat board.old) }
    ensures chunk { WritesOpenChunk (R.state region.old) (R.state region.new)
        log.old }
    ensures exit { IsTelling (R.state region.new) → Licensed (B.seat board.old).place
        (B.seat board.old).number (B.view board.new) (cell_now (R.state region.new)) }
    // Whatever the region tells, and by what it tells.
    ensures copies { IfOk result (λ n. CopiesBatch victim.now log.old log.new
        standing.old standing.new (copied_in n) buffer.new.words.words) }
    ensures tells { IfOk result (λ n. CopiesInRegion (R.state region.old) (R.state region.new)
        victim.now log.old log.new standing.old standing.new (copied_in n)
        buffer.new.words.words) }
    ensures told { IfOk result (λ n. IsTelling (R.state region.new) → IsSome n) }
    ensures log { IsLogOf (B.seat board.old).place (B.seat board.old).number log.new }
    ensures names { KeepsNames standing.old standing.new }
    ensures view { MatchResult result
        (λ _. B.view board.new ≡ after_commit (B.view board.old))
        (λ _. B.view board.new ≡ B.view board.old) }
    ensures made { MatchResult result
        (λ _. Makes (B.whole board.old) (B.seat board.old).number runs.Kind.Commit
        (B.whole board.new) (B.view board.new))
        (λ _. B.whole board.new ≡ B.whole board.old) }
    ensures steps { MatchResult result
        (λ _. (B.trail board.new
        ≡ step_with runs.Kind.Commit (B.view board.new) ∷ B.trail board.old)
        × (B.at board.new ≡ (R.state region.new).stamp))
        (λ _. B.trail board.new ≡ B.trail board.old) }
    ensures cause { OnErr result (Faulted (R.state region.old) (R.state region.new)) }
{
    match copy_live(region, log, standing, victim, &mut buffer.words) {
        Ok(count) => {
            board.commit(&*region);
            return Ok(count);
        }
        Err(fault) => {
            return Err(fault);
        }
    }
}

// The same, into a fresh chunk where there is one: a Free one of the part, by its number there.
pub(crate) fn copy_into<R: Region, B: Board>(
    region: &mut R,
    board: &mut B,
    log: &mut CoreLog,
    standing: &mut Standing,
    victim: &Victim,
    buffer: &mut CopyBuffer,
    fresh: Option<u32>,
) -> Result<Option<u64>, RegionFault>
    requires begins { Begins (R.state region.old) (B.seat board.old).place
        (B.seat board.old).number (B.view board.old) log.old }
    requires member { (B.seat board.old).number < members (B.seat board.old).place }
    requires whole { (B.view board.old).broken ≡ false }
    requires idle { (B.view board.old).flying ≡ [] }
    requires has { is_some (tail_of log.old.chunks victim.now.chunk) ≡ true }
    requires closed { log.old.opened ≢ Some victim.now.chunk }
    requires standing { IsTelling (R.state region.old)
        → IsUpToDate (R.state region.old) log.old standing.old }
    requires bounds { IsTelling (R.state region.old) → Bounds victim.now standing.old
        (entries_in (R.state region.old) log.old victim.now.chunk) }
    requires read { IsTelling (R.state region.old) → (h : Settled)
        → standing.old.settled ≡ Some h → is_some (tail_of log.old.chunks h.chunk) ≡ true }
    requires new { (j : ℕ) → fresh ≡ Some j → tail_of log.old.chunks j ≡ None }
    requires room { HasRoom (R.state region.old) log.old victim.now.words fresh }
    ensures seat { B.seat board.new ≡ B.seat board.old }
    ensures moments { StaysLicensed (R.state region.old) (R.state region.new)
        (B.seat board.old) (B.view board.old) }
    ensures outside { WritesPart (R.state region.old) (R.state region.new) (B.seat board.old) }
    ensures chunk { WritesOpenChunk (R.state region.old) (R.state region.new)
        (opened_for log.old fresh) }
    ensures exit { IsTelling (R.state region.new) → Licensed (B.seat board.old).place
        (B.seat board.old).number (B.view board.new) (cell_now (R.state region.new)) }
    // Whatever the region tells, and by what it tells.
    ensures copies { IfOk result (λ n. CopiesBatch victim.now (opened_for log.old fresh) log.new
        standing.old standing.new (copied_in n) buffer.new.words.words) }
    ensures tells { IfOk result (λ n. CopiesInRegion (R.state region.old) (R.state region.new)
        victim.now log.old log.new standing.old standing.new (copied_in n)
        buffer.new.words.words) }
    ensures told { IfOk result (λ n. IsTelling (R.state region.new) → IsSome n) }
    ensures log { IsLogOf (B.seat board.old).place (B.seat board.old).number log.new }
    ensures names { KeepsNames standing.old standing.new }
    ensures view { MatchResult result
        (λ _. B.view board.new ≡ after_commit (B.view board.old))
        (λ _. B.view board.new ≡ B.view board.old) }
    ensures made { MatchResult result
        (λ _. Makes (B.whole board.old) (B.seat board.old).number runs.Kind.Commit
        (B.whole board.new) (B.view board.new))
        (λ _. B.whole board.new ≡ B.whole board.old) }
    ensures steps { MatchResult result
        (λ _. (B.trail board.new
        ≡ step_with runs.Kind.Commit (B.view board.new) ∷ B.trail board.old)
        × (B.at board.new ≡ (R.state region.new).stamp))
        (λ _. B.trail board.new ≡ B.trail board.old) }
    ensures cause { OnErr result (Faulted (R.state region.old) (R.state region.new)) }
{
    match fresh {
        None => copy_on(region, board, log, standing, victim, buffer),
        Some(chunk) => match log.open_chunk(region, chunk) {
            Ok(()) => copy_on(region, board, log, standing, victim, buffer),
            Err(fault) => Err(fault),
        },
    }
}
