// Accepting a request, and beginning those that waited.
ghost use Rattle.std.specs.Prelude.{◌≡◌, ◌≢◌, ◌⊎◌, ℕ, ◌+◌, ◌<◌, ◌≤◌, List, [], ◌∷◌, length, Option, Some, None, true, false, IfOk, IfErr, OnOk, OnErr, if◌then◌else◌};
ghost use Rattle.pm_region.specs.State.{State, IsTelling};
ghost use Rattle.fs_model.specs.Cells.{key_of};
ghost use Rattle.core_index.specs.Index.{known_at, room_at};
ghost use Rattle.batch_leader.specs.declared.batch_buffer.BatchBuffer.{BatchBuffer};
ghost use Rattle.core_worker.specs.declared.types.Leading.TheVariants as leads;
ghost use Rattle.core_worker.specs.OwnPlaces.{is_busy};
ghost use Rattle.core_worker.specs.IndexRoom.{HasJustRoom};
ghost use Rattle.core_worker.specs.Plans.{may_stage};
ghost use Rattle.core_worker.specs.Supplies.{HasKeptRoom};
ghost use Rattle.core_worker.specs.Refusals.{HasAnswerRoom};
ghost use Rattle.core_worker.specs.Accepting.{Admits, Prepared, HasTie, StaysTied, AcceptsByEachView, AcceptMoves, IsAsBefore, wants_room};
ghost use Rattle.core_worker.specs.Status.{has_room, is_leading};
ghost use Rattle.core_worker.specs.Left.{left, most, StartsFirst};

use crate::batch_names::MOST_NAMES;
use crate::status::WAITING;
use crate::types::{NotAccepted, Place};
use crate::worker::Worker;
use fs_model::{Key, Request};
use group_laws::group_sizes::SLOTS;
use pm_region::Region;
use std::alloc::Global;

// As many answers as there can be unanswered requests: those in the places and those that wait, and one more.
const UNANSWERED: usize = SLOTS as usize + WAITING as usize + 1;
// As many names of entries as these may lead to: a lead for each, with a full batch.
const NAMES: u64 = UNANSWERED as u64 * MOST_NAMES;

// Whether a change of the key stands in a place.
pub(crate) fn is_busy(places: &Vec<Place>, key: Key) -> bool
    ensures { result ≡ is_busy places.now.items key }
{
    for place in places {
        match place {
            Place::Free => {}
            Place::Staged { entry, .. } => {
                if key == entry.key {
                    return true;
                }
            }
            Place::Posted { key: other, .. } => {
                if key == *other {
                    return true;
                }
            }
        }
    }
    false
}

impl Worker {
    // Whether the request may become a change.
    fn may_stage(&self, request: &Request) -> bool
        ensures { result ≡ may_stage self.now request.now }
    {
        match request {
            Request::Put { .. } => true,
            Request::Get { .. } => false,
            Request::Delete { key } => self.is_live(*key),
        }
    }

    // Whether room is made for a record of the request's key: it waits for its key, or it may become a change at once.
    fn wants_room(&self, request: &Request) -> bool
        ensures { result ≡ wants_room self.now request.now }
    {
        if is_busy(&self.places, request.key()) {
            return true;
        }
        self.may_stage(request)
    }

    // Makes room for a record of the key, where it is wanted.
    fn admit(&mut self, alloc: Global, key: Key, wanted: bool) -> bool
        ensures before { Admits self.old self.new key }
        ensures ready { result ≡ true → room_at self.new.index key
            ≡ room_at self.old.index key + (if wanted then 1 else 0) }
        ensures none { result ≡ false → self.new.index ≡ self.old.index }
    {
        if wanted {
            return self.index.admit(alloc, key).is_ok();
        }
        true
    }

    // Takes the memory that a request of the key will need up to its answer, with room for a record where it is wanted.
    fn prepare(&mut self, alloc: Global, key: Key, wanted: bool) -> bool
        ensures before { IsAsBefore self.old self.new }
        ensures ready { result ≡ true → Prepared self.old self.new key wanted }
        ensures none { result ≡ false → self.new.index ≡ self.old.index }
    {
        if self.answers.reserve(UNANSWERED).is_err() {
            return false;
        }
        if self.standing.reserve(NAMES).is_err() {
            return false;
        }
        self.admit(alloc, key, wanted)
    }

    /// Accepts a request. One for a key with a change under way is held; any other is begun. Where there is no memory
    /// for it the request comes back, and nothing is answered, held or staged. Of one that is answered at once nothing is
    /// kept: the index has room for changes that stand in a place and requests that wait, and for no others.
    pub fn accept<R: Region>(
        &mut self,
        alloc: Global,
        region: &R,
        number: u64,
        request: Request,
    ) -> Result<(), NotAccepted>
        requires tied { HasTie (R.state region.now) self.old (key_of request) }
        requires room { has_room self.old ≡ true }
        requires free { is_leading self.old.leading ≡ false }
        requires works { self.old.winds_down ≡ false }
        ensures ties { StaysTied (R.state region.now) self.old self.new (key_of request) }
        ensures accepts { OnOk result
            (AcceptsByEachView (R.state region.now) self.old self.new number request) }
        ensures rule { HasKeptRoom self.old → HasKeptRoom self.new }
        ensures given_back { IfErr result (λ back. back.request ≡ request) }
        ensures unchanged { OnErr result (IsAsBefore self.old self.new) }
        ensures moves { OnOk result (AcceptMoves (R.state region.now) self.old self.new
            (key_of request) ((number, request) ∷ [])) }
        ensures stays { OnErr result (AcceptMoves (R.state region.now) self.old self.new
            (key_of request) []) }
        ensures most { OnOk result (left self.new ≤ left self.old + most) }
        ensures starts { StartsFirst self.old → StartsFirst self.new }
        ensures just { HasJustRoom self.old → HasJustRoom self.new }
        ensures roomy { OnOk result (is_busy self.new.places.items (key_of request) ≡ false
            → (k : ℕ) → room_at self.new.index k ≤ room_at self.old.index k) }
        ensures works { self.new.winds_down ≡ self.old.winds_down }
        ensures runs { self.new.stopped ≡ self.old.stopped }
    {
        let key = request.key();
        let wanted = self.wants_room(&request);
        if !self.prepare(alloc, key, wanted) {
            return Err(NotAccepted { request });
        }
        if is_busy(&self.places, key) {
            self.queue.hold(number, request)?;
        } else {
            self.begin(alloc, region, number, request)?;
        }
        self.accepted = true;
        Ok(())
    }
}
