// What a worker begins with.
ghost use Rattle.std.specs.Prelude.{◌≡◌, ℕ, length, IfOk};
ghost use Rattle.std.specs.List.{AllByRecursion};
ghost use Rattle.pm_region.specs.State.{State};
ghost use Rattle.core_worker.specs.declared.types.Place.TheVariants as kinds;
ghost use Rattle.core_worker.specs.OwnPlaces.{place_at};
ghost use Rattle.core_index.specs.Index.{room_at};
ghost use Rattle.core_worker.specs.Supplies.{HasKeptRoom};
ghost use Rattle.core_worker.specs.IndexRoom.{HasJustRoom};
ghost use Rattle.core_worker.specs.Ties.{Holds, Stands};
ghost use Rattle.core_worker.specs.Order.{InOrder};
ghost use Rattle.core_worker.specs.Outbox.{HasSpare, TellsNothing};
ghost use Rattle.core_worker.specs.Openings.{IsNew, IsCertainAt, ByEachImage, opened_view};

use crate::batch_names::MOST_NAMES;
use crate::copy_buffer::CopyBuffer;
use crate::hearing::hear_own;
use crate::types::{Cleaning, Leading, Place};
use crate::worker::Worker;
use batch_leader::BatchBuffer;
use chunk_map::Layout;
use conflict_queue::ConflictQueue;
use fs_model::Memory;
use group_board::{Names, Notices};
use group_laws::group_sizes::SLOTS;
use recover::CoreStart;
use std::alloc::Global;
use std::collections::VecDeque;

// A place for each slot of the core.
fn free_places(alloc: Global) -> Result<Vec<Place>, Memory>
    ensures eight { IfOk result (λ places. length places.items ≡ SLOTS) }
    ensures free { IfOk result (λ places. (s : ℕ) → place_at places.items s ≡ kinds.Free) }
{
    let mut places = Vec::new(alloc);
    for _ in 0..SLOTS {
        places.push(Place::Free)?;
    }
    Ok(places)
}

// Nothing to tell any member, with a place for one dead name of each.
fn no_notices(alloc: Global, members: u32) -> Result<Vec<Notices>, Memory>
    ensures count { IfOk result (λ notices. length notices.items ≡ members) }
    ensures none { IfOk result (λ notices. AllByRecursion TellsNothing notices.items) }
    ensures spare { IfOk result (λ notices. AllByRecursion HasSpare notices.items) }
{
    let mut notices = Vec::new(alloc);
    for _ in 0..members {
        let dead = Names::with_room(alloc, 1)?;
        let gone = Names::with_room(alloc, 0)?;
        notices.push(Notices { dead, gone })?;
    }
    Ok(notices)
}

impl Worker {
    // A worker that has accepted nothing.
    fn new(alloc: Global, start: CoreStart, layout: Layout) -> Result<Worker, Memory>
        ensures { IfOk result (IsNew start layout) }
    {
        let CoreStart {
            core,
            log,
            allocator,
            mut index,
            mut standing,
        } = start;
        standing.reserve(MOST_NAMES)?;
        hear_own(&mut index, &mut standing, core);
        let queue = ConflictQueue::open(alloc)?;
        let places = free_places(alloc)?;
        let buffer = BatchBuffer::open(alloc)?;
        let copies = CopyBuffer::open(alloc)?;
        let notices = no_notices(alloc, layout.group())?;
        Ok(Worker {
            layout,
            core,
            log,
            allocator,
            index,
            standing,
            queue,
            in_hand: None,
            places,
            leading: Leading::Nothing(buffer),
            cleaning: Cleaning::Nothing,
            clearing: None,
            last_victim: None,
            copies,
            notices,
            own_gone: Vec::new(alloc),
            answers: VecDeque::new(alloc),
            stopped: false,
            lost_batch: false,
            winds_down: false,
            accepted: false,
        })
    }

    /// The worker of a core that recovery found so, in the region's layout. It has the core's log, free room and keys,
    /// no request is accepted, and nothing is led. The dead entries of its own keys in its own log are told, as the
    /// board of its group has them when it is opened; those that stand in other logs are not.
    pub fn open(alloc: Global, start: CoreStart, layout: Layout) -> Result<Worker, Memory>
        // Whatever the region tells.
        ensures new { IfOk result (IsNew start layout) }
        ensures rule { IfOk result HasKeptRoom }
        ensures just { IfOk result (λ w. ((k : ℕ) → room_at start.index k ≡ 0) → HasJustRoom w) }
        // By the view of the member on whose image the group is opened.
        ensures holds { IfOk result (λ w. ByEachImage start layout (λ p m image.
            Holds p m (opened_view p m image) w)) }
        ensures order { IfOk result (λ w. ByEachImage start layout (λ p m image.
            InOrder p m (opened_view p m image) w)) }
        // And by each region whose part has the image's words.
        ensures stands { IfOk result (λ w. ByEachImage start layout (λ p m image.
            (s : State) → IsCertainAt s p m image start
            → Stands s p m (opened_view p m image) w)) }
    {
        let worker = Worker::new(alloc, start, layout)?;
        Ok(worker)
    }
}
