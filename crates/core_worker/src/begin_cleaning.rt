// The turn that begins a cleaning.
ghost use Rattle.std.specs.Prelude.{◌≡◌, ℕ, ◌≤◌, true, Option, Some, None, IfOk, IfSome, length, option_map};
ghost use Rattle.pm_region.specs.State.{IsTelling};
ghost use Rattle.chunk_map.specs.Layouts.{payload_lines};
ghost use Rattle.core_log.specs.Log.{StandsIn};
ghost use Rattle.core_log.specs.Walking.{entries_in};
ghost use Rattle.core_room.specs.CleaningRoom.{MayBegin};
ghost use Rattle.core_room.specs.Lengths.{lines_to_copy};
ghost use Rattle.lazy_alloc.specs.Sets.{free_chunk_count};
ghost use Rattle.log_cleaner.specs.Choosing.{IsChosen, IsVictim, fits};
ghost use Rattle.log_cleaner.specs.Clearing.{IsFresh};
ghost use Rattle.log_cleaner.specs.Floors.{HasFloors, Searches};
ghost use Rattle.log_cleaner.specs.Tallied.{IsTallyOf};
ghost use Rattle.log_standing.specs.ChunkCounts.{IsStandingOf};
ghost use Rattle.log_cleaner.specs.declared.types.Victim.{Victim as Chosen};
ghost use Rattle.core_worker.specs.declared.worker.Worker.{Worker};
ghost use Rattle.core_worker.specs.Supplies.{rest, room_for, supply_of, under_way};

use core_log::{CoreLog, Room};
use fs_model::Memory;
use log_cleaner::{Clearing, Victim, tally_of, victim};
use log_standing::{Standing, Tally};
use pm_region::Region;
use std::alloc::Global;

// A chunk that is to be cleaned, with the memory for its names, and what is left of it.
#[derive(Drop)]
pub(crate) struct Begun {
    pub(crate) victim: Victim,
    pub(crate) clearing: Clearing,
    pub(crate) tally: Tally,
}

// Chooses the next victim, and takes the memory for its names. None exactly where there is no chunk to be cleaned.
pub(crate) fn begin_cleaning<R: Region>(
    alloc: Global,
    region: &R,
    log: &CoreLog,
    standing: &mut Standing,
    after: Option<u32>,
    room: &Room,
) -> Result<Option<Begun>, Memory>
    requires stands { StandsIn (R.state region.now) log.now }
    requires standing { IsTelling (R.state region.now) → IsStandingOf (R.state region.now) log.now
        standing.old }
    requires floors { IsTelling (R.state region.now) → HasFloors (R.state region.now) log.now
        standing.old }
    ensures chosen { IfOk result (λ found. IfSome found (λ x. IsChosen log.now room.now x.victim
        × (x.clearing.chunk ≡ x.victim.chunk) × IsFresh x.clearing)) }
    ensures tells { IfOk result (λ found. IsTelling (R.state region.now)
        → IsVictim (R.state region.now) log.now standing.old after room.now
        (option_map (λ x. x.victim) found)) }
    ensures room { IfOk result (λ found. IfSome found (λ x. IsTelling (R.state region.now)
        → length (entries_in (R.state region.now) log.now x.victim.chunk) ≤ x.clearing.room)) }
    ensures counts { IfOk result (λ found. IfSome found (λ x. IsTelling (R.state region.now)
        → IsTallyOf x.tally standing.old
        (entries_in (R.state region.now) log.now x.victim.chunk))) }
    ensures names { Searches standing.old standing.new }
    ensures floors { IsTelling (R.state region.now) → HasFloors (R.state region.now) log.now
        standing.new }
{
    match victim(alloc, region, log, standing, after, room)? {
        None => {
            return Ok(None);
        }
        Some(victim) => {
            let clearing = Clearing::begin(alloc, region, log, &victim)?;
            let tally = tally_of(alloc, region, log, &victim)?;
            return Ok(Some(Begun {
                victim,
                clearing,
                tally,
            }));
        }
    }
}

/// Where a victim's copies fit and no more than one chunk is free, a cleaning may begin.
pub fn every_begin()
    ensures { (w : Worker) (v : Chosen) → rest (under_way w) ≡ 0 → free_chunk_count w.allocator ≤ 1
        → fits (room_for w) v ≡ true
        → MayBegin (supply_of w) (payload_lines w.log.layout) (lines_to_copy v.entries v.words) }
{}
