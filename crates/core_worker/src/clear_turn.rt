// The turn that ends a cleaning.
ghost use Rattle.std.specs.Prelude.{◌≡◌, ◌+◌, ◌≤◌, ◌<◌, ◌∷◌, length, None, IfOk, OnOk, OnErr, MatchResult};
ghost use Rattle.pm_region.specs.declared.region_sizes.TheConstants.{LINE_WORDS};
ghost use Rattle.pm_region.specs.State.{IsTelling, cell_now, During, Faulted};
ghost use Rattle.pm_region.specs.Words.{KeepsOutside};
ghost use Rattle.core_log.specs.Log.{first_of};
ghost use Rattle.core_log.specs.Retiring.{RetiredChunk};
ghost use Rattle.core_index.specs.Index.{all_untold};
ghost use Rattle.group_laws.specs.declared.group_sizes.TheConstants.{SLOTS};
ghost use Rattle.group_laws.specs.Runs as runs;
ghost use Rattle.group_board.specs.Told.{Makes};
ghost use Rattle.group_board.specs.Trails.{step_with};
ghost use Rattle.group_board.specs.Views.{after_retire, TidiedIn};
ghost use Rattle.batch_leader.specs.Persisting.{StaysLicensed, WritesPart};
ghost use Rattle.lazy_alloc.specs.Sets.{AreSets, GivesChunk};
ghost use Rattle.licence.specs.Licence.{Licensed};
ghost use Rattle.log_cleaner.specs.Floors.{HasFloors};
ghost use Rattle.log_cleaner.specs.Copying.{IsUpToDate};
ghost use Rattle.log_cleaner.specs.Vanishing.{NoneElse};
ghost use Rattle.core_worker.specs.EndsCleaning.{EndsCleaning};
ghost use Rattle.core_worker.specs.GivingUp.{MayGiveUp};
ghost use Rattle.core_worker.specs.LogNames.{AreOwnOf};

use crate::giving_up::give_up;
use crate::gone_names::lose_names;
use crate::hearing::hear_own;
use crate::types::Place;
use core_index::CoreIndex;
use core_log::CoreLog;
use group_board::Board;
use lazy_alloc::Allocator;
use log_cleaner::{Cleared, Clearing};
use log_entry::EntryName;
use log_standing::Standing;
use pm_region::{Region, RegionFault};

// Ends a cleaning: the chunk is given up, and of the names that vanish with it the own ones are gone from the index.
pub(crate) fn end_cleaning<R: Region, B: Board>(
    region: &mut R,
    board: &mut B,
    log: &mut CoreLog,
    allocator: &mut Allocator,
    standing: &mut Standing,
    index: &mut CoreIndex,
    places: &mut Vec<Place>,
    core: u32,
    clearing: Clearing,
    own: &[EntryName],
) -> Result<Cleared, RegionFault>
    requires ready { MayGiveUp (R.state region.old) (B.seat board.old) (B.view board.old) log.old
        standing.old allocator.old clearing }
    requires eight { length places.old.items ≡ SLOTS }
    requires owned { AreOwnOf (B.seat board.old).place (B.seat board.old).number clearing.doomed
        own.now }
    ensures seat { B.seat board.new ≡ B.seat board.old }
    ensures moments { StaysLicensed (R.state region.old) (R.state region.new)
        (B.seat board.old) (B.view board.old) }
    ensures outside { WritesPart (R.state region.old) (R.state region.new) (B.seat board.old) }
    ensures exit { IsTelling (R.state region.new) → Licensed (B.seat board.old).place
        (B.seat board.old).number (B.view board.new) (cell_now (R.state region.new)) }
    ensures chunk { OnOk result (GivesChunk allocator.old allocator.new clearing.chunk
        × AreSets allocator.new × NoneElse (R.state region.new) log.new) }
    ensures tidied { OnOk result (TidiedIn (B.seat board.old).place (B.seat board.old).number
        (after_retire (B.seat board.old).place (B.seat board.old).number clearing.doomed
        (B.view board.old)) (B.view board.new)) }
    ensures ended { OnOk result (EndsCleaning core clearing own.now log.old log.new allocator.old
        allocator.new places.old.items places.new.items index.old index.new standing.old
        standing.new) }
    ensures gone { IfOk result (λ cleared. cleared.gone.items ≡ clearing.doomed) }
    ensures retired { OnOk result (RetiredChunk (R.state region.new) log.old log.new
        clearing.chunk) }
    ensures counted { OnOk result (IsTelling (R.state region.new)
        → IsUpToDate (R.state region.new) log.new standing.new) }
    ensures read { OnOk result (standing.new.settled ≡ None) }
    ensures floors { OnOk result (IsTelling (R.state region.new)
        → HasFloors (R.state region.old) log.old standing.old
        → HasFloors (R.state region.new) log.new standing.new) }
    ensures untold { all_untold index.new ≤ all_untold index.old }
    ensures kept { OnErr result ((B.view board.new ≡ B.view board.old) × (log.new ≡ log.old)
        × (allocator.new ≡ allocator.old) × (standing.new ≡ standing.old)
        × (places.new ≡ places.old) × (index.new ≡ index.old)) }
    ensures head { During (R.state region.old) (R.state region.new)
        (KeepsOutside (cell_now (R.state region.old)) (first_of log.old clearing.chunk)
        (first_of log.old clearing.chunk + LINE_WORDS)) }
    ensures steps { MatchResult result
        (λ _. (B.trail board.new
        ≡ step_with (runs.Kind.Retire clearing.doomed) (B.view board.new) ∷ B.trail board.old)
        × (B.at board.new ≡ (R.state region.new).stamp))
        (λ _. B.trail board.new ≡ B.trail board.old) }
    ensures made { MatchResult result
        (λ _. Makes (B.whole board.old) (B.seat board.old).number
        (runs.Kind.Retire clearing.doomed) (B.whole board.new) (B.view board.new))
        (λ _. B.whole board.new ≡ B.whole board.old) }
    ensures cause { OnErr result (Faulted (R.state region.old) (R.state region.new)) }
{
    match give_up(region, board, log, allocator, standing, clearing) {
        Ok(cleared) => {
            lose_names(index, places, own);
            hear_own(index, standing, core);
            return Ok(cleared);
        }
        Err(fault) => {
            return Err(fault);
        }
    }
}
