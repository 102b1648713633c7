// Looking for a change of the worker's own that is given back.
ghost use Rattle.std.specs.Prelude.{◌≡◌, ℕ, ◌<◌, Bool, true, false, ◌||◌, List, length, Option};
ghost use Rattle.group_laws.specs.Places.{members};
ghost use Rattle.core_worker.specs.OwnPlaces.{place_at};
ghost use Rattle.core_worker.specs.Ties.{HoldsAt, LeadsNothing};
ghost use Rattle.core_worker.specs.Loads.{LooksMade};
ghost use Rattle.batch_leader.specs.TurnSteps.{OnlyLoads};
ghost use Rattle.core_worker.specs.Searching.{Sees, shows_back, shows_out, Finds};

use crate::post_item::place_in;
use crate::types::Place;
use crate::worker::Worker;
use group_board::{Board, SlotState};
use group_laws::group_sizes::SLOTS;

// What the loads of the own slots found.
pub(crate) enum Search {
    // The change in this place is given back.
    Back(u32),
    // None is. `posted` where one was found that nobody had taken.
    Out { posted: bool },
}

// Loads the slot of a posted place.
fn look_place<B: Board>(places: &Vec<Place>, board: &mut B, slot: u32) -> Option<SlotState>
    requires eight { length places.now.items ≡ SLOTS }
    requires slot { slot < SLOTS }
    requires member { (B.seat board.old).number < members (B.seat board.old).place }
    ensures seat { B.seat board.new ≡ B.seat board.old }
    ensures sees { Sees (B.seat board.old).number slot (B.whole board.old) (B.whole board.new)
        (B.view board.old) (B.view board.new) (place_at places.now.items slot) result }
    ensures steps { OnlyLoads (B.view board.old) (B.view board.new)
        (B.trail board.old) (B.trail board.new) }
{
    match place_in(places, slot) {
        Place::Posted { .. } => {
            let own = board.member();
            Some(board.look(own, slot))
        }
        _ => None,
    }
}

// Whether a load found a change that is given back.
fn shows_back(seen: &Option<SlotState>) -> bool
    ensures { result ≡ shows_back seen.now }
{
    match seen {
        Some(SlotState::Done) => true,
        Some(SlotState::Failed) => true,
        _ => false,
    }
}

// Whether a load found a change that nobody had taken.
fn shows_out(seen: &Option<SlotState>) -> bool
    ensures { result ≡ shows_out seen.now }
{
    match seen {
        Some(SlotState::Posted { .. }) => true,
        _ => false,
    }
}

fn either(one: bool, other: bool) -> bool
    ensures { result ≡ (one || other) }
{
    one || other
}

impl Worker {
    // Loads the slots of its posted places, lowest first, until one is found given back.
    pub(crate) fn find_back<B: Board>(&self, board: &mut B) -> Search
        requires holds { HoldsAt (B.seat board.old) (B.view board.old) self.now }
        requires nothing { LeadsNothing self.now }
        ensures seat { B.seat board.new ≡ B.seat board.old }
        ensures finds { Finds result (B.seat board.old).number
            (record { worker = self.now; view = B.view board.old }) (B.view board.new) }
        ensures looks { LooksMade (B.whole board.old) (B.whole board.new)
            (B.seat board.old).number (B.view board.new) }
        ensures steps { OnlyLoads (B.view board.old) (B.view board.new)
            (B.trail board.old) (B.trail board.new) }
    {
        let mut posted = false;
        for slot in 0..SLOTS {
            let seen = look_place(&self.places, board, slot);
            if shows_back(&seen) {
                return Search::Back(slot);
            }
            posted = either(posted, shows_out(&seen));
        }
        Search::Out { posted }
    }
}
