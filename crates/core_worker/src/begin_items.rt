// The turn that begins a cleaning.
ghost use Rattle.std.specs.Prelude.{◌≡◌, ◌≤◌, true, false, OnErr, OnOk, IfOk};
ghost use Rattle.pm_region.specs.State.{State, IsTelling};
ghost use Rattle.core_log.specs.Log.{StandsIn};
ghost use Rattle.lazy_alloc.specs.Sets.{free_chunk_count};
ghost use Rattle.log_cleaner.specs.Floors.{HasFloors};
ghost use Rattle.log_standing.specs.ChunkCounts.{IsStandingOf};
ghost use Rattle.core_worker.specs.BeginsCleaning.{BeginsAtMostOne, BeginsWith, MakesPlaces, MayNotBegin};
ghost use Rattle.core_worker.specs.Refusals.{IsMeasured};

use crate::begin_cleaning::{Begun, begin_cleaning};
use crate::sending::roomier;
use crate::types::Cleaning;
use crate::worker::Worker;
use fs_model::Memory;
use group_board::Notices;
use pm_region::Region;
use std::alloc::Global;

// Notices of which the same names wait, with places for so many more gone ones of each member.
fn wider_boxes(alloc: Global, boxes: &Vec<Notices>, more: u64) -> Result<Vec<Notices>, Memory>
    ensures { IfOk result (λ wider. MakesPlaces more boxes.now.items wider.items) }
{
    let mut wider = Vec::with_capacity(alloc, boxes.len())?;
    for waiting in boxes {
        let dead = roomier(alloc, &waiting.dead, 1)?;
        let gone = roomier(alloc, &waiting.gone, more)?;
        wider.push(Notices { dead, gone })?;
    }
    Ok(wider)
}

impl Worker {
    // Whether a chunk is looked for that may be cleaned.
    fn may_search(&self) -> bool
        ensures yes { result ≡ true → (self.now.stopped ≡ false) × (self.now.winds_down ≡ false)
            × (self.now.accepted ≡ true) × (free_chunk_count self.now.allocator ≤ 1) }
        ensures no { result ≡ false → (s : State) → MayNotBegin s self.now }
    {
        if self.stopped || self.winds_down {
            return false;
        }
        self.accepted && self.allocator.free_chunks() <= 1
    }

    // Begins the cleaning of a chunk. Where there is no memory for it, nothing is another one.
    fn begin_with(&mut self, alloc: Global, begun: Begun) -> Result<(), Memory>
        ensures begins { OnOk result (BeginsWith begun self.old self.new) }
        ensures memory { OnErr result (self.new ≡ self.old) }
    {
        let places = begun.clearing.room();
        let own_gone = Vec::with_capacity(alloc, places as usize)?;
        let notices = wider_boxes(alloc, &self.notices, places)?;
        self.own_gone = own_gone;
        self.notices = notices;
        self.standing.count(Some(begun.tally));
        self.cleaning = Cleaning::Copying {
            victim: begun.victim,
            first: true,
        };
        self.last_victim = Some(begun.victim.chunk);
        self.clearing = Some(begun.clearing);
        self.accepted = false;
        Ok(())
    }

    // Begins a cleaning of the next victim, where one may begin. Where there is no memory for it the core winds down.
    pub(crate) fn begin_next<R: Region>(
        &mut self,
        alloc: Global,
        region: &R,
    ) -> Result<bool, Memory>
        requires measured { IsMeasured self.old }
        requires layout { self.old.log.layout ≡ self.old.layout }
        requires stands { self.old.stopped ≡ false
            → StandsIn (R.state region.now) self.old.log }
        requires counted { self.old.stopped ≡ false → self.old.winds_down ≡ false
            → IsTelling (R.state region.now)
            → IsStandingOf (R.state region.now) self.old.log self.old.standing }
        requires floors { self.old.stopped ≡ false → self.old.winds_down ≡ false
            → IsTelling (R.state region.now)
            → HasFloors (R.state region.now) self.old.log self.old.standing }
        ensures { BeginsAtMostOne result (R.state region.now) self.old self.new }
    {
        if !self.may_search() {
            return Ok(false);
        }
        let room = self.room();
        match begin_cleaning(
            alloc,
            region,
            &self.log,
            &mut self.standing,
            self.last_victim,
            &room,
        ) {
            Ok(None) => Ok(false),
            Ok(Some(begun)) => match self.begin_with(alloc, begun) {
                Ok(()) => Ok(true),
                Err(memory) => {
                    self.winds_down = true;
                    Err(memory)
                }
            },
            Err(memory) => {
                self.winds_down = true;
                Err(memory)
            }
        }
    }
}
