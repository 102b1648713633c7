// The end of a cleaning.
ghost use Rattle.std.specs.Prelude.{◌≡◌, ℕ, ◌+◌, ◌≤◌, ◌<◌, false, ◌∷◌, length, None, IfOk, OnOk, OnErr, MatchResult};
ghost use Rattle.pm_region.specs.declared.region_sizes.TheConstants.{LINE_WORDS};
ghost use Rattle.pm_region.specs.State.{IsTelling, cell_now, During, Faulted};
ghost use Rattle.pm_region.specs.Words.{KeepsOutside};
ghost use Rattle.core_log.specs.Log.{first_of};
ghost use Rattle.group_laws.specs.Runs as runs;
ghost use Rattle.group_board.specs.Told.{Makes};
ghost use Rattle.group_board.specs.Trails.{step_with};
ghost use Rattle.batch_leader.specs.Persisting.{StaysLicensed, WritesPart};
ghost use Rattle.lazy_alloc.specs.Sets.{AreSets};
ghost use Rattle.licence.specs.Licence.{Licensed};
ghost use Rattle.log_cleaner.specs.Floors.{HasFloors};
ghost use Rattle.log_cleaner.specs.Dropping.{lone_in};
ghost use Rattle.log_cleaner.specs.ImagesBeside.{AgreesIn};
ghost use Rattle.log_cleaner.specs.Vanishing.{NoneElse};
ghost use Rattle.core_worker.specs.GivingUp.{GaveUp, MayGiveUp};
ghost use Rattle.pm_region.specs.State.{State};
ghost use Rattle.log_entry.specs.declared.entry.Entry.{Entry};
ghost use Rattle.store_image.specs.Facts.{In};
ghost use Rattle.group_laws.specs.Places.{Place as PlaceOf};
ghost use Rattle.group_laws.specs.MemberViews.{View};
ghost use Rattle.core_worker.specs.declared.worker.Worker.{Worker};
ghost use Rattle.core_worker.specs.Ties.{Holds, Stands};

use core_log::CoreLog;
use group_board::Board;
use lazy_alloc::Allocator;
use log_cleaner::{Cleared, Clearing};
use log_standing::Standing;
use pm_region::{Region, RegionFault};

// Gives a chunk up whose live entries are copied and whose dead ones are doomed: it is made Free, then the names that
// vanished are retired, and the allocator has the chunk again. It is licensed throughout, and at the end by the view as
// it is then, also after a fault.
pub(crate) fn give_up<R: Region, B: Board>(
    region: &mut R,
    board: &mut B,
    log: &mut CoreLog,
    allocator: &mut Allocator,
    standing: &mut Standing,
    clearing: Clearing,
) -> Result<Cleared, RegionFault>
    requires { MayGiveUp (R.state region.old) (B.seat board.old) (B.view board.old) log.old
        standing.old allocator.old clearing }
    ensures seat { B.seat board.new ≡ B.seat board.old }
    ensures moments { StaysLicensed (R.state region.old) (R.state region.new)
        (B.seat board.old) (B.view board.old) }
    ensures outside { WritesPart (R.state region.old) (R.state region.new) (B.seat board.old) }
    ensures exit { IsTelling (R.state region.new) → Licensed (B.seat board.old).place
        (B.seat board.old).number (B.view board.new) (cell_now (R.state region.new)) }
    ensures ok { OnOk result (GaveUp (R.state region.old) (R.state region.new)
        (B.seat board.old).place (B.seat board.old).number (B.view board.old) (B.view board.new)
        log.old log.new allocator.old allocator.new standing.old standing.new clearing) }
    ensures sets { OnOk result (AreSets allocator.new) }
    ensures gone { IfOk result (λ cleared. cleared.gone.items ≡ clearing.doomed) }
    ensures made { MatchResult result
        (λ _. Makes (B.whole board.old) (B.seat board.old).number
        (runs.Kind.Retire clearing.doomed) (B.whole board.new) (B.view board.new))
        (λ _. B.whole board.new ≡ B.whole board.old) }
    ensures read { OnOk result (standing.new.settled ≡ None) }
    ensures floors { OnOk result (IsTelling (R.state region.new)
        → HasFloors (R.state region.old) log.old standing.old
        → HasFloors (R.state region.new) log.new standing.new) }
    ensures count { OnOk result (length standing.new.entries
        + lone_in standing.old clearing.names ≤ length standing.old.entries) }
    ensures room { OnOk result (standing.new.room ≡ standing.old.room) }
    ensures err { OnErr result ((B.view board.new ≡ B.view board.old)
        × (allocator.new ≡ allocator.old) × (log.new ≡ log.old)
        × (standing.new ≡ standing.old)) }
    ensures head { During (R.state region.old) (R.state region.new)
        (KeepsOutside (cell_now (R.state region.old)) (first_of log.old clearing.chunk)
        (first_of log.old clearing.chunk + LINE_WORDS)) }
    ensures steps { MatchResult result
        (λ _. (B.trail board.new
        ≡ step_with (runs.Kind.Retire clearing.doomed) (B.view board.new) ∷ B.trail board.old)
        × (B.at board.new ≡ (R.state region.new).stamp))
        (λ _. B.trail board.new ≡ B.trail board.old) }
    ensures cause { OnErr result (Faulted (R.state region.old) (R.state region.new)) }
{
    match clearing.clear(region, log, standing) {
        Ok(cleared) => {
            board.retire(&*region, cleared.gone.as_slice());
            allocator.give_chunk(cleared.chunk);
            return Ok(cleared);
        }
        Err(fault) => {
            return Err(fault);
        }
    }
}

/// What the end of a cleaning asks of the log, by a worker's ties: no other chunk of the part has an entry, and equal
/// names are one entry, where they are among the certain ones.
pub fn every_log()
    ensures others { (s : State) (p : PlaceOf) (m : ℕ) (v : View) (w : Worker) → Holds p m v w
        → Stands s p m v w → w.stopped ≡ false → NoneElse s w.log }
    ensures agrees { (s : State) (p : PlaceOf) (m : ℕ) (v : View) (w : Worker) → Holds p m v w
        → Stands s p m v w → w.stopped ≡ false
        → ((e f : Entry) → In e v.kept → In f v.kept → e.key ≡ f.key → e.version ≡ f.version
        → e ≡ f) → IsTelling s → AgreesIn s w.log }
{}
