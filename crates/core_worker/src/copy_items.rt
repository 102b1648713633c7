// The turn that goes on with the copies of a cleaning.
ghost use Rattle.std.specs.Prelude.{◌≡◌, ℕ, ◌^◌, ◌<◌, ◌≤◌, ◌&&◌, Bool, true, false, Option, None};
ghost use Rattle.pm_region.specs.State.{State, IsTelling};
ghost use Rattle.log_entry.specs.declared.entry_limits.TheConstants.{MOST_ENTRIES};
ghost use Rattle.core_room.specs.CleaningRoom.{needs_fresh};
ghost use Rattle.core_room.specs.RoomRule.{pledged};
ghost use Rattle.log_cleaner.specs.Copying.{to_copy};
ghost use Rattle.log_cleaner.specs.declared.types.Victim.{Victim as Chosen};
ghost use Rattle.group_laws.specs.Places.{Place as PlaceOf};
ghost use Rattle.group_laws.specs.MemberViews.{View};
ghost use Rattle.batch_leader.specs.TurnSteps.{trail_with};
ghost use Rattle.core_worker.specs.declared.types.Cleaning.TheVariants.{Nothing, Copying};
ghost use Rattle.core_worker.specs.CopyItems.{LeavesCopies};
ghost use Rattle.core_worker.specs.CopyTurns.{left_of};
ghost use Rattle.core_worker.specs.declared.worker.Worker.{Worker};
ghost use Rattle.core_worker.specs.Supplies.{under_way, HasKeptRoom};
ghost use Rattle.core_worker.specs.Ties.{Holds, Stands};
ghost use Rattle.core_worker.specs.Turning.{CleansOn, TiedAt};

use crate::copy_turn::copy_into;
use crate::lead_items::chunk_for;
use crate::types::{Cleaning, Victim};
use crate::worker::Worker;
use core_room::Supply;
use group_board::Board;
use log_entry::MOST_ENTRIES;
use pm_region::Region;

/// Where the room rule is kept, what is left to be copied never lacks room.
pub fn every_copy()
    ensures { (p : PlaceOf) (m : ℕ) (v : View) (w x : Worker) (victim : Chosen) (first : Bool)
        → Holds p m v w → under_way w ≡ Copying victim first → HasKeptRoom w
        → LeavesCopies victim first w x → ⊥ }
{}

/// Of the chunk that is copied a worker counts exactly what a reading of that chunk finds left, as names die and are
/// copied.
pub fn every_rest()
    ensures { (s : State) (p : PlaceOf) (m : ℕ) (v : View) (w : Worker) (victim : Chosen) (first : Bool)
        → Holds p m v w → Stands s p m v w → IsTelling s → under_way w ≡ Copying victim first
        → victim ≡ to_copy s w.log w.standing victim.chunk }
{}

// What of a victim is left to be copied after a batch: a full one leaves the others, a smaller one leaves none.
fn left_of(victim: Victim, count: u64, words: u64) -> Victim
    requires entries { count ≤ victim.entries }
    requires words { 0 < count → words ≤ victim.words }
    ensures { result ≡ left_of victim count words }
{
    if count < u64::from(MOST_ENTRIES) {
        return Victim {
            chunk: victim.chunk,
            entries: 0,
            words: 0,
        };
    }
    Victim {
        chunk: victim.chunk,
        entries: victim.entries - count,
        words: victim.words - words,
    }
}

// Whether the first copy goes into a fresh chunk.
fn needs_chunk(first: bool, supply: &Supply) -> bool
    requires { pledged supply.now < 2 ^ 33 }
    ensures { result ≡ (first && needs_fresh supply.now) }
{
    first && supply.open_lines < supply.pledged()
}

// Whether what is left has no room: there is no fresh chunk for it, and the open one has too few lines.
fn lacks_lines(fresh: Option<u32>, supply: &Supply) -> bool
    ensures lacks { result ≡ true → (fresh ≡ None)
        × (supply.now.open_lines < supply.now.rest_lines) }
    ensures fits { result ≡ false → fresh ≡ None → supply.now.rest_lines ≤ supply.now.open_lines }
{
    fresh.is_none() && supply.open_lines < supply.rest_lines
}

impl Worker {
    // Leaves the chunk that is cleaned as it is.
    fn leave_chunk(&mut self)
        ensures { self.new ≡ record self.old { cleaning = Nothing; clearing = None } }
    {
        self.cleaning = Cleaning::Nothing;
        self.clearing = None;
    }

    // Copies the next batch of the chunk that is cleaned. After a fault the core stops. Where there is no room for what
    // is left, which the room rule excludes, or the region reads otherwise than before, the chunk is cleaned no more.
    pub(crate) fn copy<R: Region, B: Board>(
        &mut self,
        region: &mut R,
        board: &mut B,
        victim: Victim,
        first: bool,
    )
        requires tied { TiedAt (R.state region.old) (B.seat board.old)
            (B.view board.old) self.old }
        requires way { under_way self.old ≡ Copying victim first }
        requires some { 0 < victim.entries }
        ensures { CleansOn (B.seat board.old) (B.seat board.new)
            (R.state region.old) (R.state region.new) (B.whole board.old) (B.whole board.new)
            (B.view board.old) (B.view board.new) self.old self.new
            (trail_with (B.trail board.old) (B.at board.old))
            (trail_with (B.trail board.new) (B.at board.new)) }
    {
        let supply = self.supply();
        let needed = needs_chunk(first, &supply);
        let fresh = chunk_for(&mut self.allocator, needed);
        if lacks_lines(fresh, &supply) {
            self.leave_chunk();
            return;
        }
        match copy_into(
            region,
            board,
            &mut self.log,
            &mut self.standing,
            &victim,
            &mut self.copies,
            fresh,
        ) {
            Ok(copied) => match copied {
                Some(count) => {
                    let words = self.copies.words.words().len() as u64;
                    let left = left_of(victim, count, words);
                    self.cleaning = Cleaning::Copying {
                        victim: left,
                        first: false,
                    };
                }
                None => {
                    self.leave_chunk();
                }
            },
            Err(_fault) => {
                self.stopped = true;
            }
        }
    }
}
