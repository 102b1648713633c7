// What a turn does with the staged changes.
ghost use Rattle.std.specs.Prelude.{◌≡◌, ℕ, ◌<◌, Bool, true, false, length, Option, MatchOption};
ghost use Rattle.core_worker.specs.OwnPlaces.{place_at, is_staged, IsLowest, HasNone};
ghost use Rattle.core_worker.specs.Posting.{HasNoBlock, IsStagedWith};
ghost use Rattle.core_worker.specs.Turning.{Chooses};

use crate::gate::{Gate, Point};
use crate::post_item::place_in;
use crate::types::Place;
use crate::worker::Worker;
use group_laws::group_sizes::SLOTS;
use log_entry::Body;

// What there is to do.
pub(crate) enum Choice {
    Pass,
    // The change in this place is answered Stopped.
    Drop(u32),
    Post(u32),
}

pub(crate) fn is_staged(place: &Place) -> bool
    ensures { result ≡ is_staged place.now }
{
    match place {
        Place::Staged { .. } => true,
        _ => false,
    }
}

// The lowest staged place.
fn lowest_staged(places: &Vec<Place>) -> Option<u32>
    requires eight { length places.now.items ≡ SLOTS }
    ensures { MatchOption result (HasNone is_staged places.now.items)
        (λ slot. IsLowest is_staged places.now.items slot × (slot < SLOTS)) }
{
    for slot in 0..SLOTS {
        if is_staged(place_in(places, slot)) {
            return Some(slot);
        }
    }
    None
}

// The block of a staged change.
pub(crate) fn staged_block(place: &Place) -> Option<u64>
    requires { is_staged place.now ≡ true }
    ensures { MatchOption result (HasNoBlock place.now)
        (λ pointer. IsStagedWith place.now pointer) }
{
    match place {
        Place::Staged { entry, .. } => match &entry.body {
            Body::Pointer(pointer) => Some(*pointer),
            _ => None,
        },
        _ => None,
    }
}

impl Worker {
    // What there is to do with the staged change in a place. The gate is asked before a post, and of nothing else.
    fn choose_at<G: Gate>(&self, gate: &G, slot: u32) -> Choice
        requires lowest { IsLowest is_staged self.now.places.items slot × (slot < SLOTS) }
        ensures { Chooses result (G.may_refuse gate.now) (G.may_pass gate.now) self.now }
    {
        if self.winds_down {
            return Choice::Pass;
        }
        if self.stopped {
            return Choice::Drop(slot);
        }
        if gate.ready(self.core, Point::Post) {
            return Choice::Post(slot);
        }
        Choice::Pass
    }

    // What there is to do with the lowest staged change.
    pub(crate) fn choose<G: Gate>(&self, gate: &G) -> Choice
        requires eight { length self.now.places.items ≡ SLOTS }
        ensures { Chooses result (G.may_refuse gate.now) (G.may_pass gate.now) self.now }
    {
        match lowest_staged(&self.places) {
            Some(slot) => self.choose_at(gate, slot),
            None => Choice::Pass,
        }
    }
}
