// Beginning the requests of a key that waited.
ghost use Rattle.std.specs.Prelude.{◌≡◌, ◌≢◌, ◌⊎◌, ℕ, ◌+◌, ◌<◌, ◌≤◌, List, length, Option, Some, None, true, false, OnOk, OnErr};
ghost use Rattle.pm_region.specs.State.{State, IsTelling};
ghost use Rattle.conflict_queue.specs.Waiting.{waiting};
ghost use Rattle.core_index.specs.Index.{room_at};
ghost use Rattle.batch_leader.specs.declared.batch_buffer.BatchBuffer.{BatchBuffer};
ghost use Rattle.core_worker.specs.declared.types.Leading.TheVariants as leads;
ghost use Rattle.core_worker.specs.OwnPlaces.{is_busy};
ghost use Rattle.core_worker.specs.Supplies.{HasKeptRoom};
ghost use Rattle.core_worker.specs.Refusals.{HasAnswerRoom};
ghost use Rattle.core_worker.specs.Beginning.{HasFree, StandsAside, KeepsTies, ByEachView, BeginsAll, BeginsShort};
ghost use Rattle.core_worker.specs.Finishing.{MayBeginWaiting, IsServed, IsToServe, ServesByEachView, ServesShort};
ghost use Rattle.core_worker.specs.Ties.{Tie};
ghost use Rattle.core_worker.specs.Serving.{AllWait, KeepsOrders, LeadsNothingYet, OnlyServes, OthersWait};
ghost use Rattle.core_worker.specs.Left.{left};

use crate::accepting::is_busy;
use crate::worker::Worker;
use conflict_queue::Held;
use fs_model::{Key, Memory};
use pm_region::Region;
use std::alloc::Global;

impl Worker {
    // Begins the waiting requests of a key in order, until one is staged or none waits. Where there is no memory for
    // the answer to a get, that request is in hand, and the core winds down.
    pub(crate) fn begin_waiting<R: Region>(
        &mut self,
        alloc: Global,
        region: &R,
        key: Key,
    ) -> Result<(), Memory>
        requires tied { StandsAside (R.state region.now) self.old key }
        requires nothing { LeadsNothingYet self.old }
        requires idle { is_busy self.old.places.items key ≡ false }
        requires room { length (waiting self.old.queue key) ≤ room_at self.old.index key }
        requires place { HasFree self.old.places.items }
        requires answers { HasAnswerRoom (length (waiting self.old.queue key)) self.old }
        requires others { OthersWait self.old key }
        requires hand { self.old.in_hand ≡ None }
        ensures keeps { KeepsTies self.old self.new key }
        ensures begins { OnOk result (ByEachView (R.state region.now) self.old key
            (λ v. BeginsAll (IsTelling (R.state region.now)) (waiting self.old.queue key)
            self.old self.new (v.cell key) key)) }
        ensures short { OnErr result (ByEachView (R.state region.now) self.old key
            (λ v. BeginsShort (IsTelling (R.state region.now)) (waiting self.old.queue key)
            self.old self.new (v.cell key) key)) }
        ensures rule { HasKeptRoom self.old → HasKeptRoom self.new }
        ensures memory { OnErr result (self.new.winds_down ≡ true) }
        ensures waits { AllWait self.new }
        ensures order { KeepsOrders self.old self.new key }
        ensures rest { OnlyServes self.old self.new }
        ensures less { left self.new ≤ left self.old }
        ensures works { OnOk result (self.new.winds_down ≡ self.old.winds_down) }
    {
        match self.queue.release(key) {
            None => {
                return Ok(());
            }
            Some(held) => {
                let Held { number, request } = held;
                match self.begin(alloc, region, number, request) {
                    Err(back) => {
                        self.in_hand = Some(Held {
                            number,
                            request: back.request,
                        });
                        self.winds_down = true;
                        return Err(Memory);
                    }
                    Ok(()) => {
                        if is_busy(&self.places, key) {
                            return Ok(());
                        }
                        return self.begin_waiting(alloc, region, key);
                    }
                }
            }
        }
    }

    // Begins what waits of a key, until it is busy again or the core winds down.
    pub(crate) fn serve<R: Region>(
        &mut self,
        alloc: Global,
        region: &R,
        key: Key,
    ) -> Result<(), Memory>
        requires tied { (t : Tie) × IsToServe (R.state region.now) self.old key t }
        requires ready { MayBeginWaiting self.old key }
        ensures ties { (s : State) (t : Tie) → IsToServe s self.old key t
            → IsServed s self.new t }
        ensures begins { OnOk result
            (ServesByEachView (R.state region.now) self.old self.new key) }
        ensures short { OnErr result (ServesShort (R.state region.now) self.old self.new key) }
        ensures rule { HasKeptRoom self.old → HasKeptRoom self.new }
        ensures memory { OnErr result (self.new.winds_down ≡ true) }
        ensures awake { OnErr result (self.old.winds_down ≡ false) }
        ensures rest { OnlyServes self.old self.new }
        ensures less { left self.new ≤ left self.old }
        ensures works { OnOk result (self.new.winds_down ≡ self.old.winds_down) }
    {
        if self.winds_down {
            return Ok(());
        }
        self.begin_waiting(alloc, region, key)
    }
}
